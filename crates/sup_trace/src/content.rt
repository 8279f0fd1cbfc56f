ghost use Rattle.std.specs.Prelude.{◌≡◌, ◌≤◌, ◌^◌, IfOk, OnOk};
ghost use Rattle.sup_trace.specs.Text.{trace_text};
ghost use Rattle.sup_trace.specs.Content.{replay_of};

use crate::text::trace_text;
use std::alloc::{AllocError, Allocator, Global};
use std::marker::Model;
use sup_core::{Event, Machine};

/// What the text of a trace says: the machine before the entries, how many events had led to it, and the events taken
/// since then. Contracts see it as `Content`.
#[derive(Drop)]
pub struct TraceText<A: Allocator = Global> {
    base: Machine,
    folded: u64,
    entries: Vec<Event, A>,
}

impl<A: Allocator> Model for TraceText<A> {
    ghost use Rattle.sup_trace.specs.Content.{Content, IsTraceText, content_of};

    ghost Value = { Content };

    ghost view = { λ text. content_of text.base text.folded text.entries.items };

    ghost invariant = { λ text. IsTraceText (content_of text.base text.folded text.entries.items) };
}

impl<A: Allocator> TraceText<A> {
    ghost use Rattle.sup_trace.specs.Content.{IsContent, IsTraceText, content_of};

    /// Returns the content with this base, this count of events before it, and these entries.
    pub(crate) fn from_parts(base: Machine, folded: u64, entries: Vec<Event, A>) -> TraceText<A>
        requires { IsTraceText (content_of base folded entries.items) }
        ensures { result ≡ content_of base folded entries.items }
    {
        TraceText {
            base,
            folded,
            entries,
        }
    }

    /// Returns the machine before the entries.
    pub fn base(&self) -> Machine
        ensures { result ≡ self.now.base }
    {
        self.base
    }

    /// Returns how many events were taken before the entries. The count stops at `2 ^ 63`.
    pub fn folded(&self) -> u64
        ensures folded { result ≡ self.now.folded }
        ensures limit { result ≤ 2 ^ 63 }
    {
        self.folded
    }

    /// Returns the events taken since the base, oldest first: at most 65,536.
    pub fn entries(&self) -> &[Event]
        ensures entries { result.now ≡ self.now.entries }
        ensures bounds { IsTraceText self.now }
    {
        self.entries.as_slice()
    }
    /// Writes the text: a header, the base's line, a line for each entry, and the number of entries. `AllocError` is
    /// returned only if the allocator refuses memory for the text, which is taken at once.
    pub fn write_text<B: Allocator>(&self, alloc: B) -> Result<Vec<u8, B>, AllocError>
        ensures text { IfOk result (λ bytes. bytes.items ≡ trace_text self.now) }
        // Such a text can be read, and gives this content.
        ensures range { OnOk result (IsContent self.now) }
    {
        trace_text(alloc, &self.base, self.folded, &[], &self.entries)
    }
}

/// Returns the machine after the entries.
pub fn replay<A: Allocator>(content: &TraceText<A>) -> Machine
    ensures { result ≡ replay_of content.now }
{
    let mut machine = content.base();
    machine.run(content.entries());
    machine
}
