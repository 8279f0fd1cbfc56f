//! The system's own input, and the pipe through which a logger is asked to stop or to rotate its logs.
ghost use Rattle.std.specs.Prelude.{◌≡◌};
ghost use Rattle.std.specs.Io.{ReadsAtMost};
ghost use Rattle.tai_status.specs.Counted.{Rose};

use crate::line_clock::LineLabels;
use crate::stop::{InputWithChannel, LoggerEvent};
use libc::net::{POLLIN, POLLNVAL, poll};
use libc::types::pollfd;
use std::io::{Error, ErrorKind, Read};
use std::os::unix::fs::FileTypeExt;
use std::{env, fs, io};
use tai_status::TimeSource;

/// The environment variable with the number of the channel's descriptor.
const CHANNEL: &str = "DTOOLS_STOP_FD";

/// The byte of the channel that asks for a rotation.
const ROTATE: u8 = b'a';

/// The most times that a wait or a read is repeated after an interruption.
const TRIES: u64 = 1 << 48;

/// What the system's wait for both descriptors found. If both are ready, the channel goes first.
enum Ready {
    Input,
    Channel,
    /// The channel's descriptor is not open.
    NoChannel,
    /// A signal came.
    Neither,
}

/// What the channel says.
enum ChannelWord {
    Stop,
    Rotate,
    /// A signal came before any byte.
    Nothing,
}

/// The standard input, and the channel if there is one. After each read, and after a rotation is heard, the clock is
/// read for the labels of the lines. Contracts see how many of its calls failed, and nothing of what comes.
#[derive(Drop)]
pub struct SystemInput<'l, R: Read + Drop, C: TimeSource + Drop> {
    input: R,
    channel: Option<i32>,
    clock: C,
    labels: &'l LineLabels,
    failures: u64,
}

/// Returns the descriptor of the pipe that the environment names as the channel, if there is one. This must be called
/// before the program opens any file, which may get that number.
pub fn stop_channel(rt: &HostRuntime) -> Option<i32> {
    let number = env::var(rt, CHANNEL).ok()?.as_str().parse::<i32>().ok()?;
    if number < 3 {
        return None;
    }
    let path = format!(in rt.alloc(); "/dev/fd/{number}").ok()?;
    let found = fs::metadata(rt, path.as_str()).ok()?;
    if found.file_type().is_fifo() {
        Some(number)
    } else {
        None
    }
}

/// Waits until one of the two is ready.
fn wait_for_either(channel: i32) -> io::Result<Ready> {
    let mut asked = [0, channel].map(|fd| pollfd {
        fd,
        events: POLLIN,
        revents: 0,
    });
    if poll(&mut asked, -1) < 0 {
        let fault = Error::from_raw_os_error(os::errno());
        if fault.kind() == ErrorKind::Interrupted {
            return Ok(Ready::Neither);
        }
        return Err(fault);
    }
    if asked[1].revents & POLLNVAL != 0 {
        return Ok(Ready::NoChannel);
    }
    if asked[1].revents != 0 {
        return Ok(Ready::Channel);
    }
    if asked[0].revents != 0 {
        return Ok(Ready::Input);
    }
    Ok(Ready::Neither)
}

/// Reads a byte from the channel, which is ready. Its end asks for a stop, and so does every byte except one.
fn read_word(channel: i32) -> ChannelWord {
    let mut byte = [0u8; 1];
    let count = libc::read(channel, &mut byte);
    if count > 0 && byte[0] == ROTATE {
        return ChannelWord::Rotate;
    }
    if count < 0 && os::errno() == libc::EINTR {
        return ChannelWord::Nothing;
    }
    ChannelWord::Stop
}

impl<'l, R: Read + Drop, C: TimeSource + Drop> SystemInput<'l, R, C> {
    /// Makes this input, which is descriptor 0, with the channel that has this descriptor. The labels continue from
    /// readings of this clock.
    pub fn new(
        input: R,
        channel: Option<i32>,
        clock: C,
        labels: &'l LineLabels,
    ) -> SystemInput<'l, R, C> {
        SystemInput {
            input,
            channel,
            clock,
            labels,
            failures: 0,
        }
    }

    /// Reads the clock for the lines that came.
    fn renew(&mut self)
        ensures { self.new.failures ≡ self.old.failures }
    {
        let reading = self.clock.now();
        self.labels.renew(reading);
    }

    /// Counts a call that failed this way.
    fn count(&mut self, fault: Error) -> Error
        ensures { Rose self.old.failures self.new.failures }
    {
        self.failures = self.failures.saturating_add(1);
        fault
    }

    /// Waits until there is input, or its end, or a word is heard.
    fn hear(&mut self) -> io::Result<LoggerEvent>
        ensures { self.new.failures ≡ self.old.failures }
    {
        for _ in 0..TRIES {
            let Some(channel) = self.channel else {
                return Ok(LoggerEvent::Input);
            };
            match wait_for_either(channel)? {
                Ready::Input => return Ok(LoggerEvent::Input),
                Ready::Channel => {
                    match read_word(channel) {
                        ChannelWord::Stop => return Ok(LoggerEvent::Stop),
                        ChannelWord::Rotate => {
                            self.renew();
                            return Ok(LoggerEvent::Rotate);
                        }
                        ChannelWord::Nothing => {}
                    }
                }
                Ready::NoChannel => self.channel = None,
                Ready::Neither => {}
            }
        }
        Err(Error::from(ErrorKind::Interrupted))
    }

    /// Reads once, and again if that is interrupted.
    fn take(&mut self, into: &mut [u8]) -> io::Result<usize>
        ensures bound { ReadsAtMost result into.new }
        ensures same { self.new.failures ≡ self.old.failures }
    {
        for _ in 0..TRIES {
            match self.input.read(into) {
                Ok(count) => {
                    self.renew();
                    return Ok(count);
                }
                Err(fault) => {
                    if fault.kind() != ErrorKind::Interrupted {
                        return Err(fault);
                    }
                }
            }
        }
        Err(Error::from(ErrorKind::Interrupted))
    }
}

impl<'l, R: Read + Drop, C: TimeSource + Drop> InputWithChannel for SystemInput<'l, R, C> {
    ghost failures = { λ input. input.failures };

    fn wait(&mut self) -> io::Result<LoggerEvent> {
        match self.hear() {
            Ok(heard) => Ok(heard),
            Err(fault) => Err(self.count(fault)),
        }
    }

    fn read_once(&mut self, into: &mut [u8]) -> io::Result<usize> {
        match self.take(into) {
            Ok(count) => Ok(count),
            Err(fault) => Err(self.count(fault)),
        }
    }
}
