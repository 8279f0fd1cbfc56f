ghost use Rattle.std.specs.Prelude.{◌≡◌, ◌++◌, ℕ, List, Ok};
ghost use Rattle.sup_core.specs.declared.event.Event.{Event};
ghost use Rattle.sup_core.specs.History.{state_of};
ghost use Rattle.sup_core.specs.Runs.{after};
ghost use Rattle.sup_trace.specs.Content.{Content, IsContent, replay_of};
ghost use Rattle.sup_trace.specs.Text.{trace_text};
ghost use Rattle.sup_trace.specs.Reading.{content_from};
ghost use Rattle.sup_trace.specs.Trace.{Kept, history_of, noted, noted_along, replay, content_by};
ghost use Rattle.sup_trace.specs.Laws.{EachComesAsAll, NewTraceKeepsTheTaken, TracesReplayTheTaken};

/// States a law of traces. After any events, one at a time, the entries are the last of the taken events, as many as
/// fit. The base is the machine after the events before them, which are counted up to `2 ^ 63`. It therefore makes no
/// difference how the events came. However many events are folded, base and entries replay to the machine after all
/// events.
pub fn traces_after_events()
    ensures new { NewTraceKeepsTheTaken }
    ensures any { EachComesAsAll }
    ensures in_two_goes { (kept : Kept) (xs ys : List Event) → noted (noted kept xs) ys ≡ noted kept (xs ++ ys) }
    ensures replays { (kept : Kept) (events : List Event) →
        replay (noted_along kept events) ≡ state_of (after (history_of kept) events) }
    ensures replays_taken { TracesReplayTheTaken }
{}

/// States a law of texts. What a text says is read from it, and a text that is read is the only text of what it says. A
/// trace's text says its base, its entries and its count of folded events, which replay to the machine after all
/// events.
pub fn texts_of_traces()
    ensures read { (content : Content) → IsContent content → content_from (trace_text content) ≡ Ok content }
    ensures content { (text : List ℕ) (content : Content) → content_from text ≡ Ok content → IsContent content
        × (text ≡ trace_text content) }
    ensures replayed { (kept : Kept) → replay_of (content_by kept) ≡ replay kept }
{}
