//! What was found about a service as a JSON object.
ghost use Rattle.std.specs.Prelude.{◌≡◌, ◌++◌, codes, IfOk, OnOk};
ghost use Rattle.json.specs.Lex.{tokens};
ghost use Rattle.cmd_svc.specs.Svstat.{fault_name};
ghost use Rattle.cmd_report.specs.Json.{Adds, asked_members, course_members, boolean_member, ended_members};
ghost use Rattle.cmd_report.specs.Json.{exiting_member, found_tokens};
ghost use Rattle.cmd_report.specs.Json.{json_line, known_member, last_member, look_members, null_member, number_member};
ghost use Rattle.cmd_report.specs.Json.{past_members, phase_member, pid_member, process_members, side_name};
ghost use Rattle.cmd_report.specs.Json.{standing_members, string_member, unreached_text, unreached_members, want_name};

use crate::found::FoundService;
use crate::samples::{
    backoff_in, deaths_in, is_finishing, ready_in, signal_of, starts_in, status_of, unix_second,
};
use cmd_svc::{Course, ServiceLook, is_running};
use json::Writer;
use std::alloc::{AllocError, Allocator};
use svc_client::Unreached;
use svc_record::{Counts, Exit};
use tai_status::{Label, Loaded, RecordFault, View, Want, phase_name};

/// Returns what was found about a service as one JSON object (RFC 8259), without a newline. If its status was read, the
/// object has these members, in this order:
///
/// - `path`: the folder, as it was given;
/// - `up`: whether it runs;
/// - `pid`: its process number, or `null` if it does not run;
/// - `seconds`: the whole seconds since its last change of process, or 0 if that is still to come;
/// - `phase`: `starting`, `settling`, `up`, `down`, `resting` or `gone`, or `null` for a record of 18 bytes, which has
///   none;
/// - `want`: `up`, `down` or `once`;
/// - `paused`: whether it is paused;
/// - `normally`: `down` if its folder has a file `down`, and otherwise `up`;
/// - `exiting`: whether supervise is to end, or `null` for a record of 18 bytes, which does not say it;
/// - `ready`: the Unix time at which its process said that it is ready, or `null` if it did not;
/// - `finishing`: whether its process has ended, and its `finish` runs;
/// - `backoff`: the Unix time until which its next start waits, or `null` if none waits;
/// - `since`: the Unix time of its last change of process, in whole seconds;
/// - `starts`, `deaths`: how often a process of it was started, and died, since svscan began, or `null` if its file
///   `counts` does not say it;
/// - `last`: how its last process ended, or `null` if its file `exit` does not say it. This is an object. Its members
///   are
///   the process number `pid`, the exit `status`, the number of the `signal` that ended it, and the Unix time `at` which
///   it was found to have ended. The status and the signal are `null` if they do not apply.
///
/// Otherwise there are `path` and `error`: what svstat's line has after the folder and `: `.
///
/// In a string, `"`, `\` and bytes below 32 are escaped, and everything else is unchanged. Returns `AllocError` only if
/// the allocator refuses the memory for the line.
pub fn json_line<A: Allocator>(alloc: A, found: &FoundService) -> Result<Vec<u8, A>, AllocError>
    ensures text { IfOk result (λ line. line.items ≡ json_line found.now) }
    ensures reads_back { IfOk result (λ line. tokens line.items ≡ found_tokens found.now) }
{
    let mut writer = Writer::new(Vec::new(alloc));
    writer.begin_object()?;
    add_string(&mut writer, "path", found.folder)?;
    add_members(&mut writer, found)?;
    writer.end_object()?;
    Ok(writer.into_inner())
}

/// Writes a member that is a text.
#[tactic(auto, unfolding(crate::specs::Json::string_member))]
fn add_string<A: Allocator>(
    writer: &mut Writer<A>,
    name: &str,
    text: &str,
) -> Result<(), AllocError>
    ensures { OnOk result (Adds writer.old writer.new (string_member name.now text.now)) }
{
    writer.key(name)?;
    writer.string(text)
}

/// Writes a member that is true or false.
#[tactic(auto, unfolding(crate::specs::Json::boolean_member))]
fn add_boolean<A: Allocator>(
    writer: &mut Writer<A>,
    name: &str,
    value: bool,
) -> Result<(), AllocError>
    ensures { OnOk result (Adds writer.old writer.new (boolean_member name.now value)) }
{
    writer.key(name)?;
    writer.boolean(value)
}

/// Writes a member that is a number.
#[tactic(auto, unfolding(crate::specs::Json::number_member))]
fn add_number<A: Allocator>(
    writer: &mut Writer<A>,
    name: &str,
    value: u64,
) -> Result<(), AllocError>
    ensures { OnOk result (Adds writer.old writer.new (number_member name.now value)) }
{
    writer.key(name)?;
    writer.u64(value)
}

/// Writes a member with the value `null`.
#[tactic(auto, unfolding(crate::specs::Json::null_member))]
fn add_null<A: Allocator>(writer: &mut Writer<A>, name: &str) -> Result<(), AllocError>
    ensures { OnOk result (Adds writer.old writer.new (null_member name.now)) }
{
    writer.key(name)?;
    writer.null()
}

/// Writes a member that is a number, or `null` if that is not known.
#[tactic(auto, unfolding(crate::specs::Json::known_member))]
fn add_known<A: Allocator>(
    writer: &mut Writer<A>,
    name: &str,
    value: Option<u64>,
) -> Result<(), AllocError>
    ensures { OnOk result (Adds writer.old writer.new (known_member name.now value)) }
{
    match value {
        Some(value) => add_number(writer, name, value),
        None => add_null(writer, name),
    }
}

/// Writes the members after the path.
fn add_members<A: Allocator>(writer: &mut Writer<A>, found: &FoundService) -> Result<(), AllocError>
    ensures { OnOk result (Adds writer.old writer.new (look_members found.now.look found.now.counts found.now.last)) }
{
    match &found.look {
        ServiceLook::Unreached(why) => add_unreached(writer, *why),
        ServiceLook::Unread => add_string(writer, "error", "unable to read status"),
        ServiceLook::Bad(fault) => add_string(writer, "error", bad_text(*fault)),
        ServiceLook::Standing {
            loaded,
            normally_up,
            now,
            course,
        } => {
            add_standing(writer, loaded, *normally_up, now)?;
            add_course(writer, course)?;
            add_past(writer, &loaded.view(), found.counts, found.last)
        }
    }
}

/// Writes what a service does that its status does not say.
#[tactic(auto, unfolding(crate::specs::Json::course_members))]
fn add_course<A: Allocator>(writer: &mut Writer<A>, course: &Course) -> Result<(), AllocError>
    ensures { OnOk result (Adds writer.old writer.new (course_members course.now)) }
{
    add_known(writer, "ready", ready_in(course))?;
    add_boolean(writer, "finishing", is_finishing(course))?;
    add_known(writer, "backoff", backoff_in(course))
}

/// Writes since when a service is in its state, its counts, and its last end.
#[tactic(auto, unfolding(crate::specs::Json::past_members))]
fn add_past<A: Allocator>(
    writer: &mut Writer<A>,
    view: &View,
    counts: Option<Counts>,
    last: Option<Exit>,
) -> Result<(), AllocError>
    ensures { OnOk result (Adds writer.old writer.new (past_members view.now counts last)) }
{
    add_number(writer, "since", unix_second(view.label))?;
    add_known(writer, "starts", starts_in(counts))?;
    add_known(writer, "deaths", deaths_in(counts))?;
    add_last(writer, last)
}

/// Writes the last end of a service, if it is known.
#[tactic(auto, unfolding(crate::specs::Json::last_member))]
fn add_last<A: Allocator>(writer: &mut Writer<A>, last: Option<Exit>) -> Result<(), AllocError>
    ensures { OnOk result (Adds writer.old writer.new (last_member last)) }
{
    match last {
        Some(exit) => {
            writer.key("last")?;
            writer.begin_object()?;
            add_ended(writer, &exit)?;
            writer.end_object()
        }
        None => add_null(writer, "last"),
    }
}

/// Writes which process ended, how, and when.
#[tactic(auto, unfolding(crate::specs::Json::ended_members))]
fn add_ended<A: Allocator>(writer: &mut Writer<A>, exit: &Exit) -> Result<(), AllocError>
    ensures { OnOk result (Adds writer.old writer.new (ended_members exit.now)) }
{
    add_number(writer, "pid", u64::from(exit.pid))?;
    add_known(writer, "status", status_of(exit.ending))?;
    add_known(writer, "signal", signal_of(exit.ending))?;
    add_number(writer, "at", unix_second(exit.label))
}

/// Writes why nothing is known about a service. One that is not supervised counts as not up.
#[tactic(auto, unfolding(crate::specs::Json::unreached_members))]
fn add_unreached<A: Allocator>(writer: &mut Writer<A>, why: Unreached) -> Result<(), AllocError>
    ensures { OnOk result (Adds writer.old writer.new (unreached_members why)) }
{
    match why {
        Unreached::NotRunning => {
            add_boolean(writer, "up", false)?;
            add_string(writer, "error", unreached_text(Unreached::NotRunning))
        }
        other => add_string(writer, "error", unreached_text(other)),
    }
}

/// Returns why nothing is known about a service.
fn unreached_text(why: Unreached) -> &'static str
    ensures { result.now ≡ unreached_text why }
{
    match why {
        Unreached::NotRunning => "supervise not running",
        Unreached::Denied => "unable to open supervise/ok: Permission denied",
        Unreached::Unanswered => "unable to open supervise/ok: no answer",
    }
}

/// Returns why a status is not a record.
fn bad_text(fault: RecordFault) -> &'static str
    ensures { result.now ≡ codes "bad status record: " ++ fault_name fault }
{
    match fault {
        RecordFault::Length => "bad status record: Length",
        RecordFault::BadLabel => "bad status record: BadLabel",
        RecordFault::PausedFlag => "bad status record: PausedFlag",
        RecordFault::PausedNoProcess => "bad status record: PausedNoProcess",
        RecordFault::WantByte => "bad status record: WantByte",
        RecordFault::ExitingFlag => "bad status record: ExitingFlag",
        RecordFault::PhaseNumber => "bad status record: PhaseNumber",
        RecordFault::NoSuchState => "bad status record: NoSuchState",
    }
}

/// Writes the state of a service.
#[tactic(auto, unfolding(crate::specs::Json::standing_members))]
fn add_standing<A: Allocator>(
    writer: &mut Writer<A>,
    loaded: &Loaded,
    normally_up: bool,
    now: &Label,
) -> Result<(), AllocError>
    ensures { OnOk result (Adds writer.old writer.new (standing_members loaded.now normally_up now.now)) }
{
    let view = loaded.view();
    add_process(writer, &view, now)?;
    add_phase(writer, loaded)?;
    add_asked(writer, &view, normally_up)?;
    add_exiting(writer, loaded)
}

/// Writes whether a service runs, with which process, and how long it has been in that state.
#[tactic(auto, unfolding(crate::specs::Json::process_members))]
fn add_process<A: Allocator>(
    writer: &mut Writer<A>,
    view: &View,
    now: &Label,
) -> Result<(), AllocError>
    ensures { OnOk result (Adds writer.old writer.new (process_members view.now now.now)) }
{
    add_boolean(writer, "up", is_running(view))?;
    add_pid(writer, view)?;
    add_number(writer, "seconds", now.sec.saturating_sub(view.label.sec))
}

/// Writes the number of a process, if there is one.
#[tactic(auto, unfolding(crate::specs::Json::pid_member))]
fn add_pid<A: Allocator>(writer: &mut Writer<A>, view: &View) -> Result<(), AllocError>
    ensures { OnOk result (Adds writer.old writer.new (pid_member view.now)) }
{
    if is_running(view) {
        add_number(writer, "pid", u64::from(view.pid))
    } else {
        add_null(writer, "pid")
    }
}

/// Writes the phase of supervise, if a record has it.
#[tactic(auto, unfolding(crate::specs::Json::phase_member))]
fn add_phase<A: Allocator>(writer: &mut Writer<A>, loaded: &Loaded) -> Result<(), AllocError>
    ensures { OnOk result (Adds writer.old writer.new (phase_member loaded.now)) }
{
    match loaded {
        Loaded::Old(_) => add_null(writer, "phase"),
        Loaded::New(full) => add_string(writer, "phase", phase_name(full.phase)),
    }
}

/// Writes what is wanted, whether a service is paused, and what its normal state is.
#[tactic(auto, unfolding(crate::specs::Json::asked_members))]
fn add_asked<A: Allocator>(
    writer: &mut Writer<A>,
    view: &View,
    normally_up: bool,
) -> Result<(), AllocError>
    ensures { OnOk result (Adds writer.old writer.new (asked_members view.now normally_up)) }
{
    add_string(writer, "want", want_name(view.want))?;
    add_boolean(writer, "paused", view.paused)?;
    add_string(writer, "normally", side_name(normally_up))
}

/// Returns what is wanted, in a word.
pub fn want_name(want: Want) -> &'static str
    ensures { result.now ≡ want_name want }
{
    match want {
        Want::Up => "up",
        Want::Down => "down",
        Want::Once => "once",
    }
}

/// Returns up or down, in a word.
fn side_name(up: bool) -> &'static str
    ensures { result.now ≡ side_name up }
{
    if up { "up" } else { "down" }
}

/// Writes whether supervise is to end, if a record says it.
#[tactic(auto, unfolding(crate::specs::Json::exiting_member))]
fn add_exiting<A: Allocator>(writer: &mut Writer<A>, loaded: &Loaded) -> Result<(), AllocError>
    ensures { OnOk result (Adds writer.old writer.new (exiting_member loaded.now)) }
{
    match loaded {
        Loaded::Old(_) => add_null(writer, "exiting"),
        Loaded::New(full) => add_boolean(writer, "exiting", full.exiting),
    }
}
