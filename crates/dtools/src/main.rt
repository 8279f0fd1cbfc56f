//! dtools: supervision and logging of services, after D. J. Bernstein's daemontools, as one program. Its first word is
//! the command.
#![tactic(auto)]

ghost use Rattle.cmd_svscan.specs.Requests.{IsResponseTo};

mod command;
mod devices;
mod tools;
mod words;

use cmd_base::{REFUSED, SystemClock, TROUBLE, report, report_device};
use cmd_envdir::SystemLauncher;
use cmd_help::page_asked;
use cmd_local::{LocalZone, system_zone};
use cmd_multilog::{
    FolderStore, LineClock, LineLabels, Stoppable, SystemInput, SystemLogs, stop_channel,
};
use cmd_svc::{ListedLine, is_colored, run_svstat_as, widest};
use cmd_svscan::{FolderServices, Request, Response, ServiceSet, SystemHost, handle};
use cmd_wait::SystemPace;
use command::run;
use devices::Devices;
use std::alloc::AllocError;
use std::env;
use std::env::{Env, FillError};
use std::io::{IsTerminal, Stderr, Stdin, Stdout, Write};
use std::marker::PhantomData;
use std::process::ExitCode;
use std::sync::Wait;
use svc_client::{Observer, SystemServices};
use tai_status::{Counted, Output};
use tools::{Platform, Tools};
use words::{ProgramWordsFault, listed_words};

/// The input of a logger on this system.
type SystemLines<'l> = Stoppable<SystemInput<'l, Stdin, SystemClock<HostRuntime>>>;

/// What commands read and write on this system.
type SystemDevices<'l> = Devices<
    Stdin,
    Stdout,
    Stderr,
    SystemServices<HostRuntime>,
    LineClock<'l, SystemClock<HostRuntime>>,
>;

/// This system, with what waits for its threads, and with the services of a folder.
struct ThisSystem<'l, V, P>(PhantomData<&'l LineLabels>, PhantomData<V>, PhantomData<P>);

impl<'l, V: Wait + Drop, P: ServiceSet + Drop> Platform for ThisSystem<'l, V, P> {
    type System = HostRuntime;

    type Launcher = SystemLauncher<HostRuntime>;

    type Logs = SystemLogs<HostRuntime, Stderr>;

    type Lines = SystemLines<'l>;

    type ServiceSet = P;

    type Waiting = V;

    type Pace = SystemPace<HostRuntime>;

    type Zone = LocalZone;

    type Reader = Stdin;

    type Writer = Stdout;

    type Faults = Stderr;

    type Services = SystemServices<HostRuntime>;

    type Clock = LineClock<'l, SystemClock<HostRuntime>>;
}

fn main(rt: HostRuntime) -> ExitCode {
    let labels = LineLabels::new();
    let input = SystemInput::new(
        rt.stdin(),
        logger_channel(&rt),
        SystemClock::new(rt),
        &labels,
    );
    let devices = Devices {
        reader: Counted::new(rt.stdin()),
        writer: Counted::new(rt.stdout()),
        faults: Counted::new(rt.stderr()),
        observer: Observer {
            services: SystemServices::new(rt),
            clock: LineClock::new(SystemClock::new(rt), &labels),
        },
    };
    let alloc = rt.alloc();
    let mut host: Option<SystemHost<HostRuntime>> = None;
    let handling = |request: Request| -> Response
        ensures { IsResponseTo request result }
    { handle(rt, rt, alloc, &mut host, request) };
    let service_set = FolderServices::new(alloc, handling);
    ExitCode::from(run_arguments(rt, rt, Stoppable::new(input), service_set, devices))
}

/// Returns the channel through which a logger is asked to stop or to rotate, if the command is a logger and there is a
/// channel.
fn logger_channel(rt: &HostRuntime) -> Option<i32> {
    match env::args(rt).ok()?.skip(1).next() {
        Some(name) if name.as_str() == "multilog" => stop_channel(rt),
        _ => None,
    }
}

/// Runs the program's words, without its own name.
fn run_arguments<'l, V: Wait + Drop, P: ServiceSet + Drop>(
    rt: HostRuntime,
    waiting: V,
    lines: SystemLines<'l>,
    service_set: P,
    mut devices: SystemDevices<'l>,
) -> u8
    requires { P.ready service_set }
{
    let program = match listed_words(&rt) {
        Ok(program) => program,
        Err(fault) => return refuse_words(&fault, &mut devices.faults),
    };
    let mut words = Vec::new(rt.alloc());
    for text in &program.words {
        if words.push(text.as_str()).is_err() {
            return refuse_words(&ProgramWordsFault::OutOfMemory, &mut devices.faults);
        }
    }
    if program.is_list {
        if let [_, services @ ..] = &words[..] {
            return show_list(&rt, services, &mut devices);
        }
    }
    match page_asked(&words) {
        Some(name) => run_words(rt, waiting, lines, service_set, &["help", name], devices),
        None => run_words(rt, waiting, lines, service_set, &words, devices),
    }
}

/// Shows all services of a folder, for people: with the states in one column, and in color on a terminal.
fn show_list(rt: &HostRuntime, services: &[&str], devices: &mut SystemDevices<'_>) -> u8 {
    let unset = matches!(
        rt.var("NO_COLOR", &mut [0; 8]),
        Ok(0) | Err(FillError::NotPresent)
    );
    let form = ListedLine {
        width: widest(services),
        colored: is_colored(rt.stdout().is_terminal(), unset),
    };
    let Devices {
        writer,
        faults,
        observer,
        ..
    } = devices;
    run_svstat_as(&form, rt.alloc(), observer, services, writer, faults)
}

/// Runs these words.
fn run_words<'l, V: Wait + Drop, P: ServiceSet + Drop>(
    rt: HostRuntime,
    waiting: V,
    lines: SystemLines<'l>,
    service_set: P,
    words: &[&str],
    mut devices: SystemDevices<'l>,
) -> u8
    requires { P.ready service_set }
{
    let Ok(zone) = zone_for(&rt, words) else {
        return refuse_words(&ProgramWordsFault::OutOfMemory, &mut devices.faults);
    };
    let system = SystemLogs::new(rt, rt.stderr(), rt.alloc());
    match FolderStore::new(system, rt.alloc()) {
        Ok(store) => {
            let mut tools = Tools::<ThisSystem<'l, V, P>> {
                system: rt,
                launcher: SystemLauncher::new(rt),
                store,
                lines,
                service_set,
                waiting,
                pace: SystemPace::new(rt),
                zone,
                devices,
            };
            run(&mut tools, words)
        }
        Err(_) => refuse_words(&ProgramWordsFault::OutOfMemory, &mut devices.faults),
    }
}

/// Returns the zone of this computer if the command prints local times; `trace` does so only with its flag. Other
/// commands need none. Returns `AllocError` if memory for it is refused.
fn zone_for(rt: &HostRuntime, words: &[&str]) -> Result<LocalZone, AllocError> {
    match words {
        ["tai64nlocal" | "why", ..] => system_zone(rt),
        ["svstat", "--html", ..] => system_zone(rt),
        ["trace", words @ ..] if words.iter().any(|word| *word == "--local") => system_zone(rt),
        _ => Ok(LocalZone::Utc),
    }
}

/// Reports why the words are not run, and returns the exit status for that.
fn refuse_words<E: Write>(fault: &ProgramWordsFault, faults: &mut Output<E>) -> u8 {
    match fault {
        ProgramWordsFault::OutOfMemory => report(faults, b"dtools: OutOfMemory\n", TROUBLE),
        ProgramWordsFault::NoText(line) => report(faults, line.as_bytes(), REFUSED),
        ProgramWordsFault::NoList(cause) => {
            report_device(faults, b"svstat: ", b"unable to read SVDIR", Some(*cause))
        }
    }
}
