ghost use Rattle.std.specs.Prelude.{◌≡◌, ◌<◌, ◌≤◌, ◌++◌, ◌∷◌, [], true, if◌then◌else◌, map, length, count_by};
ghost use Rattle.std.specs.Prelude.{vec_capacity, unwrap_or, IsErr, IfOk};
ghost use Rattle.mlog_script.specs.Script.{is_alert, is_log, is_file};
ghost use Rattle.mlog_script.specs.Placed.{last_given};
ghost use Rattle.mlog_script.specs.Selection.{decision, chosen, choices, Fits};
ghost use Rattle.mlog_script.specs.Action.{act, AreQuiet};

use crate::action::Action;
use crate::script::Script;
use star_match::NotedText;
use std::alloc::{AllocError, Allocator, Global};
use std::marker::Model;

/// How many bytes of a front are noted in about the time that a pattern takes.
const BYTES_A_TRY: usize = 13;

/// The alerts, logs and status files of a script at which a line is selected. Contracts see a list of flags for each
/// kind.
#[derive(Debug, Drop)]
pub struct Choices<A: Allocator + Clone = Global> {
    marks: Marks<A>,
    // Whether all flags are set. They stay set as long as no pattern decides.
    all_set: bool,
}

impl<A: Allocator + Clone> Model for Choices<A> {
    ghost use Rattle.std.specs.Prelude.{◌≡◌, true};
    ghost use Rattle.mlog_script.specs.Selection.{Chosen};
    ghost use Rattle.mlog_script.specs.Choices.{AreAllSet};

    ghost Value = { Chosen };

    ghost view = { λ choices. record {
      alerts = choices.marks.alerts.items;
      logs = choices.marks.logs.items;
      files = choices.marks.files.items;
    } };

    ghost invariant = { λ choices. choices.all_set ≡ true
        → AreAllSet choices.marks.alerts.items choices.marks.logs.items choices.marks.files.items };
}

impl<A: Allocator + Clone> Choices<A> {
    /// Returns choices with room for those of a script. They take all the memory that [`Choices::choose`] needs: a byte
    /// for each alert, log and status file.
    ///
    /// `AllocError` is returned only if the allocator refuses that memory.
    pub fn new<B: Allocator + Clone>(alloc: A, script: &Script<B>) -> Result<Choices<A>, AllocError>
        ensures fits { IfOk result (λ choices. Fits choices script.now) }
    {
        let alerts = vec![in alloc.clone()?; false; script.alerts()]?;
        let logs = vec![in alloc.clone()?; false; script.logs()]?;
        let files = vec![in alloc; false; script.files()]?;
        Ok(Choices {
            marks: Marks {
                alerts,
                logs,
                files,
            },
            all_set: false,
        })
    }

    /// Decides at which outputs a line with this front is selected. At each action, the last `-` or `+` before it with
    /// a pattern that matches the front decides. If there is none, the line is selected.
    ///
    /// Patterns see at most the first 1000 bytes of a line. The front is these bytes, without the newline, and with the
    /// stamp if the script has one. This needs no memory. If the script has no patterns, nothing is matched: each line
    /// is selected everywhere.
    pub fn choose<B: Allocator + Clone>(&mut self, script: &Script<B>, front: &[u8])
        requires { Fits self.old script.now }
        ensures chosen { self.new ≡ chosen script.now front.now }
        ensures fits { Fits self.new script.now }
    {
        let decides = script.has_patterns();
        if self.all_set && !decides {
            return;
        }
        self.marks.clear();
        mark(script.actions(), script.quiet(), front, &mut self.marks);
        self.all_set = !decides;
    }

    /// Returns whether the line is selected at each alert, in the order of the script.
    pub fn alerts(&self) -> &[bool]
        ensures { result.now ≡ self.now.alerts }
    {
        self.marks.alerts.as_slice()
    }

    /// Returns whether the line is selected at each log, in the order of the script.
    pub fn logs(&self) -> &[bool]
        ensures { result.now ≡ self.now.logs }
    {
        self.marks.logs.as_slice()
    }

    /// Returns whether the line is selected at each status file, in the order of the script.
    pub fn files(&self) -> &[bool]
        ensures { result.now ≡ self.now.files }
    {
        self.marks.files.as_slice()
    }
}

/// Flags that are noted one after another.
#[derive(Debug, Drop)]
struct Marks<A: Allocator + Clone = Global> {
    alerts: Vec<bool, A>,
    logs: Vec<bool, A>,
    files: Vec<bool, A>,
}

impl<A: Allocator + Clone> Marks<A> {
    /// Drops the flags, and keeps their room.
    fn clear(&mut self)
        ensures empty { (self.new.alerts.items ≡ []) × (self.new.logs.items ≡ []) × (self.new.files.items ≡ []) }
        ensures alert_room { vec_capacity self.new.alerts ≡ vec_capacity self.old.alerts }
        ensures log_room { vec_capacity self.new.logs ≡ vec_capacity self.old.logs }
        ensures file_room { vec_capacity self.new.files ≡ vec_capacity self.old.files }
    {
        self.alerts.clear();
        self.logs.clear();
        self.files.clear();
    }

    /// Notes whether a line is selected at an action.
    fn note<B: Allocator + Clone>(&mut self, action: &Action<B>, chosen: bool)
        // If the action sends lines, there is room for one more flag of its kind.
        requires alerts { is_alert (act action.now) ≡ true
            → length self.old.alerts.items < vec_capacity self.old.alerts }
        requires logs { is_log (act action.now) ≡ true
            → length self.old.logs.items < vec_capacity self.old.logs }
        requires files { is_file (act action.now) ≡ true
            → length self.old.files.items < vec_capacity self.old.files }

        // The flags of the action's kind get one more at their end. The other flags stay, and all do if the action
        // sends no lines.
        ensures alerts { self.new.alerts.items
            ≡ self.old.alerts.items ++ (if is_alert (act action.now) then chosen ∷ [] else []) }
        ensures logs { self.new.logs.items
            ≡ self.old.logs.items ++ (if is_log (act action.now) then chosen ∷ [] else []) }
        ensures files { self.new.files.items
            ≡ self.old.files.items ++ (if is_file (act action.now) then chosen ∷ [] else []) }

        // The room for flags stays.
        ensures alert_room { vec_capacity self.new.alerts ≡ vec_capacity self.old.alerts }
        ensures log_room { vec_capacity self.new.logs ≡ vec_capacity self.old.logs }
        ensures file_room { vec_capacity self.new.files ≡ vec_capacity self.old.files }
    {
        match action {
            Action::Alert => self.alerts.push_reserved(chosen),
            Action::Log(_) => self.logs.push_reserved(chosen),
            Action::Status(_) => self.files.push_reserved(chosen),
            _ => {}
        }
    }
}

/// Returns whether a line with this front is selected after the actions. The last action with a pattern that matches
/// decides; if there is none, it is as before the actions. The actions are tried from the last one on, up to the first
/// that decides. The front's pairs are noted first if that pays.
fn is_chosen_behind<B: Allocator + Clone>(actions: &[Action<B>], front: &[u8], before: bool) -> bool
    ensures { result ≡ unwrap_or (last_given (decision front.now) (map act actions.now)) before }
{
    if pays(actions.len(), front.len()) {
        let mut noted = NotedText::new();
        noted.note(front);
        return is_chosen_noted(actions, &noted, before);
    }
    let mut rest = actions;
    while let [earlier @ .., last] = rest {
        if let Some(chosen) = last.decision(front) {
            return chosen;
        }
        rest = earlier;
    }
    before
}

/// Returns whether it is faster to note the pairs of a front of this length before this many actions are tried.
fn pays(actions: usize, len: usize) -> bool {
    actions > len / BYTES_A_TRY
}

/// Returns the same as [`is_chosen_behind`] for a front whose pairs are noted.
fn is_chosen_noted<B: Allocator + Clone>(
    actions: &[Action<B>],
    front: &NotedText<'_>,
    before: bool,
) -> bool
    ensures { result ≡ unwrap_or (last_given (decision front.now) (map act actions.now)) before }
{
    let mut rest = actions;
    while let [others @ .., last] = rest {
        if let Some(chosen) = last.decision_noted(front) {
            return chosen;
        }
        rest = others;
    }
    before
}

/// Notes, for each action that sends lines, whether it selects a line with this front. The first actions, so many, send
/// no lines. Each pattern is tried at most once.
fn mark<A: Allocator + Clone, B: Allocator + Clone>(
    actions: &[Action<B>],
    quiet: usize,
    front: &[u8],
    marks: &mut Marks<A>,
)
    // The first actions, so many, send no lines. No flag is noted yet, and there is room for the flags of all actions.
    requires quiet { AreQuiet quiet (map act actions.now) }
    requires empty { (marks.old.alerts.items ≡ []) × (marks.old.logs.items ≡ []) × (marks.old.files.items ≡ []) }
    requires alerts { count_by is_alert (map act actions.now) ≤ vec_capacity marks.old.alerts }
    requires logs { count_by is_log (map act actions.now) ≤ vec_capacity marks.old.logs }
    requires files { count_by is_file (map act actions.now) ≤ vec_capacity marks.old.files }

    // There is one flag for each action that sends lines, in order, as the actions before it decide.
    ensures alerts { marks.new.alerts.items ≡ choices is_alert (map act actions.now) front.now }
    ensures logs { marks.new.logs.items ≡ choices is_log (map act actions.now) front.now }
    ensures files { marks.new.files.items ≡ choices is_file (map act actions.now) front.now }
{
    let mut chosen = true;
    let mut asked = 0;
    for place in quiet..actions.len() {
        let action = &actions[place];
        if !action.is_output() {
            continue;
        }
        chosen = is_chosen_behind(&actions[asked..place], front, chosen);
        asked = place;
        marks.note(action, chosen);
    }
}
