//! What a text gives, as facts about all scripts and texts. The function does nothing: its contract is the law.
ghost use Rattle.std.specs.Prelude.{List, ℕ};
ghost use Rattle.mlog_script.specs.Script.{Act};
ghost use Rattle.mlog_script.specs.Selection.{log_text, alert_text, file_contents, ComesInTurn, ContentGoesOn};

/// States that whole lines and further bytes give what the lines give, followed by what the bytes give. This is true of
/// each log, of the alerts and of each status file. A reader can therefore go line by line.
pub fn lines_come_in_turn()
    ensures logs { (script : List Act) (log : ℕ) → ComesInTurn (log_text script log) }
    ensures alerts { (script : List Act) → ComesInTurn (alert_text script) }
    ensures files { (script : List Act) (file : ℕ) → ComesInTurn (file_contents script file) }
    ensures content { ContentGoesOn }
{}
