//! The table of the commands.
ghost use Rattle.std.specs.Prelude.{◌≡◌, []};
ghost use Rattle.cmd_base.specs.Known.{known_files};
ghost use Rattle.tai_status.specs.Words.{texts};
ghost use Rattle.cmd_why.specs.Texts.{knowledge};
ghost use Rattle.tai_status.specs.Counted.{Reports};
ghost use Rattle.dtools.specs.Commands.{ChildEnds, Leaves, LoggerEnds, PacedEnds, PlainEnds, ReasonEnds, ScanEnds};
ghost use Rattle.dtools.specs.Commands.{ServiceEnds, ZonedEnds};
ghost use Rattle.dtools.specs.Programs.{ChildProgram, LeftAlone, LoggerProgram, PacedProgram, PlainProgram};
ghost use Rattle.dtools.specs.Programs.{ReasonProgram, ScanProgram, ServiceProgram, ZonedProgram, no_command_report};

use crate::devices::Devices;
use crate::tools::{Platform, Tools};
use cmd_base::{Command, REFUSED, report};
use cmd_envdir::run_envdir;
use cmd_filters::{run_readproctitle, run_tai64n};
use cmd_help::{run_help, run_version};
use cmd_local::run_tai64nlocal;
use cmd_multilog::run_multilog;
use cmd_page::run_view;
use cmd_sim::run_sim;
use cmd_svc::{run_svc, run_svok};
use cmd_svscan::{run_supervise, run_svscan};
use cmd_trace::run_trace;
use cmd_wait::{run_restart, run_wait};
use cmd_why::{ServiceEvidence, run_why};
use std::io::Write;
use tai_status::Output;

/// Runs a command over the words after its name, and returns its exit status.
fn run_command<P: Platform>(tools: &mut Tools<P>, command: Command, words: &[&str]) -> u8
    requires ready { P.ServiceSet.ready tools.old.service_set }
    requires no_logs { tools.old.store.logs ≡ [] }
    requires no_files { tools.old.store.statuses ≡ [] }

    // What the command does with the devices. What it does not get is unchanged.
    ensures leaves { Leaves command tools.old.devices tools.new.devices }
    ensures plain { PlainEnds command (texts words.now) result tools.old.devices tools.new.devices }
    ensures zoned { ZonedEnds command (texts words.now) result (P.Zone.ahead_at tools.old.zone)
        (known_files (P.System.file_at tools.old.system) (P.System.fault_at tools.old.system))
        (P.System.place_at tools.old.system) tools.old.devices tools.new.devices }

    // What it starts, and the logs that it keeps.
    ensures child { ChildEnds command (texts words.now) result (P.System.state tools.old.system)
        (P.Launcher.calls tools.old.launcher) (P.Launcher.calls tools.new.launcher)
        tools.old.devices tools.new.devices }
    ensures logs { LoggerEnds command (texts words.now) result tools.old.store tools.new.store
        (P.Lines.feed tools.old.lines) (P.Lines.feed tools.new.lines) tools.old.devices tools.new.devices }

    // What it asks of services, and the services that it keeps running.
    ensures services { ServiceEnds command (texts words.now) result
        (knowledge (P.System.trace_at tools.old.system) (P.Zone.text_at tools.old.zone))
        tools.old.devices tools.new.devices }
    ensures why { ReasonEnds command (texts words.now) result
        (knowledge (P.System.trace_at tools.old.system) (P.Zone.text_at tools.old.zone))
        tools.old.devices tools.new.devices }
    ensures wait { PacedEnds command (texts words.now) result
        (P.Pace.steps tools.old.pace) (P.Pace.steps tools.new.pace) tools.old.devices tools.new.devices }
    ensures scan { ScanEnds command (texts words.now) result (P.ServiceSet.calls tools.old.service_set)
        (P.ServiceSet.calls tools.new.service_set) tools.old.devices tools.new.devices }
{
    let Tools {
        system,
        launcher,
        store,
        lines,
        service_set,
        waiting,
        pace,
        zone,
        devices,
    } = tools;
    let Devices {
        reader,
        writer,
        faults,
        observer,
    } = devices;
    let system = &*system;
    let zone = &*zone;
    let alloc = system.alloc();
    match command {
        Command::Sim => run_sim(alloc, words, reader, writer, faults),
        Command::Tai64n => run_tai64n(words, reader, writer, faults, &mut observer.clock),
        Command::Tai64nlocal => run_tai64nlocal(zone, words, reader, writer, faults),
        Command::Readproctitle => run_readproctitle(alloc, words, reader, writer, faults),
        Command::Multilog => run_multilog(alloc, store, words, lines, faults, &mut observer.clock),
        Command::Svc => run_svc(alloc, &mut observer.services, words, faults),
        Command::Svstat => {
            let evidence = ServiceEvidence {
                traces: system,
                times: zone,
            };
            run_view(alloc, observer, &evidence, words, writer, faults)
        }
        Command::Svok => run_svok(&mut observer.services, words),
        Command::Why => {
            let evidence = ServiceEvidence {
                traces: system,
                times: zone,
            };
            run_why(alloc, observer, &evidence, words, writer, faults)
        }
        Command::Wait => run_wait(waiting, alloc, &mut observer.services, pace, words, faults),
        Command::Restart => run_restart(
            waiting,
            alloc,
            &mut observer.services,
            pace,
            words,
            faults,
        ),
        Command::Svscan => run_svscan(waiting, service_set, words, faults),
        Command::Supervise => run_supervise(waiting, service_set, words, faults),
        Command::Envdir => run_envdir(system, launcher, alloc, words, writer, faults),
        Command::Trace => run_trace(system, alloc, zone, words, writer, faults),
        Command::Help => run_help(words, writer, faults),
        Command::Version => run_version(words, writer, faults),
    }
}

/// Reports that no command is named, and which command lists them, and returns the exit status for that.
fn refuse_no_command<E: Write>(faults: &mut Output<E>) -> u8
    ensures status { result ≡ 100 }
    ensures reported { Reports faults.old faults.new no_command_report }
{
    report(
        faults,
        b"dtools: usage\ndtools help lists the commands\n",
        REFUSED,
    )
}

/// Runs the command that the first word names, over the words after it, and returns its exit status. If there is no
/// word, or the first one names no command, reports `dtools: usage`, with a line that names `dtools help`, and returns
/// 100.
pub fn run<P: Platform>(tools: &mut Tools<P>, words: &[&str]) -> u8
    requires ready { P.ServiceSet.ready tools.old.service_set }
    requires no_logs { tools.old.store.logs ≡ [] }
    requires no_files { tools.old.store.statuses ≡ [] }

    // What the command does with the devices. What it does not get is unchanged.
    ensures leaves { LeftAlone (texts words.now) tools.old.devices tools.new.devices }
    ensures plain { PlainProgram (texts words.now) result tools.old.devices tools.new.devices }
    ensures zoned { ZonedProgram (texts words.now) result (P.Zone.ahead_at tools.old.zone)
        (known_files (P.System.file_at tools.old.system) (P.System.fault_at tools.old.system))
        (P.System.place_at tools.old.system) tools.old.devices tools.new.devices }

    // What it starts, and the logs that it keeps.
    ensures child { ChildProgram (texts words.now) result (P.System.state tools.old.system)
        (P.Launcher.calls tools.old.launcher) (P.Launcher.calls tools.new.launcher)
        tools.old.devices tools.new.devices }
    ensures logs { LoggerProgram (texts words.now) result tools.old.store tools.new.store
        (P.Lines.feed tools.old.lines) (P.Lines.feed tools.new.lines) tools.old.devices tools.new.devices }

    // What it asks of services, and the services that it keeps running.
    ensures services { ServiceProgram (texts words.now) result
        (knowledge (P.System.trace_at tools.old.system) (P.Zone.text_at tools.old.zone))
        tools.old.devices tools.new.devices }
    ensures why { ReasonProgram (texts words.now) result
        (knowledge (P.System.trace_at tools.old.system) (P.Zone.text_at tools.old.zone))
        tools.old.devices tools.new.devices }
    ensures wait { PacedProgram (texts words.now) result
        (P.Pace.steps tools.old.pace) (P.Pace.steps tools.new.pace) tools.old.devices tools.new.devices }
    ensures scan { ScanProgram (texts words.now) result (P.ServiceSet.calls tools.old.service_set)
        (P.ServiceSet.calls tools.new.service_set) tools.old.devices tools.new.devices }
{
    match words {
        [word, words @ ..] => match Command::named(word) {
            Some(command) => run_command(tools, command, words),
            None => refuse_no_command(&mut tools.devices.faults),
        },
        [] => refuse_no_command(&mut tools.devices.faults),
    }
}
