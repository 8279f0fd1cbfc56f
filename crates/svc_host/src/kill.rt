//! When a service that was asked to go gets the control byte `k`.
ghost use Rattle.std.specs.Prelude.{◌≡◌};
ghost use Rattle.svc_host.specs.Kills.{NeverWithoutSeconds, OnceForEachAsking, asks_to_go, due_at, ends_asking};
ghost use Rattle.svc_host.specs.Kills.{is_asked, over, rest_until};

use std::marker::Model;
use std::sync::Wait;
use sup_core::{Event, Machine};
use svc_house::ControlSender;
use tai_status::Want;

/// The milliseconds of a second.
const MILLIS: u128 = 1000;

/// The nanoseconds of a millisecond.
const NANOS_IN_MILLI: u128 = 1_000_000;

/// What a service was asked: to go.
#[derive(Clone, Copy, Debug, PartialEq, Eq)]
pub(crate) struct Asking {
    /// When it was asked, in milliseconds of the running clock.
    pub(crate) since: u64,
    /// How many seconds after that it gets `k`. None: it never does.
    pub(crate) seconds: Option<u64>,
    /// Whether it got `k`, or had no process when `k` was due.
    pub(crate) is_over: bool,
}

/// Returns whether an event asks a service to go.
fn asks_to_go(event: &Event) -> bool
    ensures { result ≡ asks_to_go event.now }
{
    matches!(event, Event::Byte(b'd' | b'x'))
}

/// Returns whether a service is no longer asked to go after an event.
fn ends_asking(event: &Event) -> bool
    ensures { result ≡ ends_asking event.now }
{
    match event {
        Event::Byte(byte) => matches!(byte, b'u' | b'o'),
        Event::Started { .. } | Event::Death { .. } => true,
        Event::StartFailed { .. } | Event::Clock { .. } => false,
    }
}

/// Returns whether a service with this machine has a process that is asked to go.
pub(crate) fn is_asked(machine: &Machine) -> bool
    ensures { result ≡ is_asked machine.now }
{
    let view = machine.view();
    view.pid > 0 && (view.want == Want::Down || machine.exiting())
}

/// Returns when `k` is due, in milliseconds of the running clock.
fn due_at(asking: Option<Asking>) -> Option<u128>
    ensures { result ≡ due_at asking }
{
    let asking = asking?;
    if asking.is_over {
        return None;
    }
    let seconds = asking.seconds?;
    Some(u128::from(asking.since) + u128::from(seconds) * MILLIS)
}

/// Returns the same asking, which is over.
fn over(asking: Option<Asking>) -> Option<Asking>
    ensures { result ≡ over asking }
{
    let asking = asking?;
    Some(Asking {
        is_over: true,
        ..asking
    })
}

/// Returns the nanoseconds until a millisecond after a time, or the greatest number if there are more. Both times are
/// in milliseconds.
fn rest_until(time: Option<u128>, now: u64) -> Option<u64>
    ensures { result ≡ rest_until time now }
{
    let left = time?.saturating_sub(u128::from(now));
    let nanos = left.saturating_add(1).saturating_mul(NANOS_IN_MILLI);
    Some(u64::try_from(nanos).unwrap_or(u64::MAX))
}

/// Posts `k` to a service that was asked to go, once its time is over. Contracts see it as `Timer`.
#[derive(Drop)]
pub(crate) struct KillTimer {
    sender: ControlSender,
    asking: Option<Asking>,
}

impl Model for KillTimer {
    ghost use Rattle.svc_house.specs.Mail.{sender_in};
    ghost use Rattle.svc_host.specs.Kills.{Timer};
    ghost use Rattle.svc_host.specs.Mails.{mail_of};

    ghost Value = { Timer };

    ghost view = { λ timer. record { asking = timer.asking; mail = mail_of (sender_in timer.sender) } };
}

impl KillTimer {
    ghost use Rattle.std.specs.Prelude.{◌≡◌, Some};
    ghost use Rattle.svc_house.specs.Mail.{sender_in};
    ghost use Rattle.svc_host.specs.Kills.{Concludes, asked, begins_asking, due_at, is_due, new_timer, rest_until};
    ghost use Rattle.svc_host.specs.Kills.{still_asked, with_asking};

    /// Makes a timer of a service that is not asked to go. `k` goes through `sender`.
    pub(crate) fn new(sender: ControlSender) -> KillTimer
        ensures { result ≡ new_timer (sender_in sender) }
    {
        KillTimer {
            sender,
            asking: None,
        }
    }

    /// Returns whether an event asks the service to go, which was not asked yet.
    pub(crate) fn begins_with(&self, event: &Event) -> bool
        ensures { result ≡ begins_asking self.now.asking event.now }
    {
        asks_to_go(event) && self.asking.is_none()
    }

    /// Notes that the service is asked to go now, and gets `k` after these seconds, or never.
    pub(crate) fn begin(&mut self, now: u64, seconds: Option<u64>)
        ensures { self.new ≡ with_asking (Some (asked now seconds)) self.old }
    {
        self.asking = Some(Asking {
            since: now,
            seconds,
            is_over: false,
        });
    }

    /// Notes an event with which no asking begins.
    pub(crate) fn note(&mut self, event: &Event)
        ensures { self.new ≡ with_asking (still_asked event.now self.old.asking) self.old }
    {
        if ends_asking(event) {
            self.asking = None;
        }
    }

    /// Returns whether `k` is due.
    pub(crate) fn is_due(&self, now: u64) -> bool
        ensures { result ≡ is_due self.now.asking now }
    {
        match due_at(self.asking) {
            Some(time) => time <= u128::from(now),
            None => false,
        }
    }

    /// Concludes an asking: posts `k` if the process runs. Returns whether it is concluded. It is not if the mailbox is
    /// full.
    pub(crate) fn conclude<R: Wait>(&mut self, rt: &R, runs: bool) -> bool
        ensures { Concludes runs self.old self.new }
    {
        if runs && self.sender.post(rt, b'k').is_err() {
            return false;
        }
        self.asking = over(self.asking);
        true
    }

    /// Returns how many nanoseconds the service may rest until `k` is due, and at least a millisecond. None: without
    /// limit.
    pub(crate) fn rest(&self, now: u64) -> Option<u64>
        ensures { result ≡ rest_until (due_at self.now.asking) now }
    {
        rest_until(due_at(self.asking), now)
    }
}

/// A law: a service gets `k` at most once for each time that it is asked to go.
pub fn once_for_each_asking()
    ensures { OnceForEachAsking }
{}

/// A law: without a number of seconds a service never gets `k`.
pub fn never_without_seconds()
    ensures { NeverWithoutSeconds }
{}
