//! Kept pasts: the readings of a clock and the content of a store, compared with the promises of the code that used
//! them.
ghost use Rattle.std.specs.Prelude.{◌≡◌, ◌∷◌, [], codes, length, IfOk};
ghost use Rattle.tai_status.specs.Lines.{lines_of, stamped};
ghost use Rattle.mlog_script.specs.Script.{Log};
ghost use Rattle.limit_tests.specs.Parts.{IsTwoParts};

use crate::kept_clock::KeptClock;
use crate::logs::one_log;
use crate::two_parts::TwoParts;
use mlog_core::{RunFault, run_parts};
use mlog_files::LogFiles;
use mlog_script::{Script, ScriptFault};
use std::alloc::Global;
use std::process::Abort;
use std::test::Fail;
use tai_status::{Input, Label, Output, StampFault, stamp_lines};

/// Returns the stamped lines of a text, and the readings of the clock for them: one reading for each line, and its
/// stamp is before the line.
fn stamped_by_a_kept_clock<R: Abort>(
    rt: &R,
    alloc: Global,
    start: Label,
    text: &[u8],
) -> Result<(Vec<u8>, Vec<Label>), StampFault>
    ensures each { IfOk result (λ made. length made.1.items ≡ length (lines_of text.now)) }
    ensures stamps { IfOk result (λ made. made.0.items ≡ stamped made.1.items (lines_of text.now)) }
{
    let mut input = Input::new(text);
    let mut output = Output::new(Vec::new(alloc));
    let mut clock = KeptClock::new(rt, alloc, start);
    stamp_lines(&mut input, &mut output, &mut clock)?;
    Ok((output.into_device(), clock.into_readings()))
}

/// The clock is read once for each line.
#[test]
fn a_clock_is_read_once_a_line(rt: HostRuntime) -> Result<(), Fail> {
    let start = Label::from_unix(0, 0).ok_or("a label")?;
    let (text, readings) = stamped_by_a_kept_clock(&rt, rt.alloc(), start, b"a\n\nb")?;
    let wanted =
        b"@400000000000000a00000000 a\n@400000000000000b00000000 \n@400000000000000c00000000 b";
    assert_eq!(rt; text.as_slice(), wanted.as_slice());
    assert_eq!(rt; readings.len(), 3);
    Ok(())
}

/// Returns the script with one log.
fn one_log_script(alloc: Global) -> Result<Script, ScriptFault>
    ensures { IfOk result (λ script. script ≡ Log (codes "./main") ∷ []) }
{
    Script::read(alloc, &["./main"])
}

/// Returns what a run over two parts leaves in the one log of a store, and the readings of the clock for it.
fn run_two_parts<R: Abort>(
    rt: &R,
    alloc: Global,
    start: Label,
    script: &Script,
) -> Result<(LogFiles, Vec<Label>), RunFault>
    requires { script.now ≡ Log (codes "./main") ∷ [] }
    ensures { IfOk result (λ left. IsTwoParts left.0 left.1.items) }
{
    let mut store = one_log(alloc).expect(rt, "memory");
    let mut input = TwoParts::new(b"a\n", b"b\nc\n");
    let mut clock = KeptClock::new(rt, alloc, start);
    run_parts(alloc, script, &mut input, &mut store, &mut clock)?;
    let (mut logs, _statuses, _alerts) = store.take_apart();
    let files = logs.pop().unwrap();
    Ok((files, clock.into_readings()))
}

/// The first part is followed by a rotation: its line is in an old file, and the lines of the second part are in the
/// current file.
#[test]
fn a_log_keeps_what_it_was_given(rt: HostRuntime) -> Result<(), Fail> {
    let start = Label::from_unix(0, 0).ok_or("a label")?;
    let script = one_log_script(rt.alloc())?;
    let (files, readings) = run_two_parts(&rt, rt.alloc(), start, &script)?;
    assert_eq!(rt; files.current.as_slice(), b"b\nc\n".as_slice());
    assert_eq!(rt; files.olds.len(), 1);
    let old = &files.olds[0];
    assert_eq!(rt;
        old.name.as_slice(),
        b"@400000000000000b00000000.s".as_slice()
    );
    assert_eq!(rt; old.bytes.as_slice(), b"a\n".as_slice());
    assert_eq!(rt; readings.len(), 4);
    Ok(())
}
