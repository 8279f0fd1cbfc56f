//! A rest between two rounds.
ghost use Rattle.cmd_svscan.specs.Resting.{AreCollectedInTurn, Hears};
ghost use Rattle.cmd_svscan.specs.Serving.{IsNextByte, given_by};

use crate::looking::join_unless;
use crate::running::RunningHost;
use std::sync::Wait;
use std::time::{Clock, Duration};
use svc_host::{Host, Maker, Runtime};
use svc_house::{Inbox, MailInbox};
use svscan_rounds::{rest_left, whole_rest};

/// Returns the time of the running clock, if it can be read.
pub(crate) fn running_clock<R: Clock>(rt: &R) -> Option<Duration> {
    rt.monotonic().ok()
}

/// Returns the next of svscan's own control bytes, if there is one.
fn next_byte<R: Wait>(rt: &R, inbox: &mut Option<MailInbox>) -> Option<u8>
    ensures { IsNextByte (given_by inbox.old) result (given_by inbox.new) }
{
    match inbox {
        Some(inbox) => inbox.take(rt),
        None => None,
    }
}

/// Rests until a byte comes, or the rest that began at `begin` is over. Meanwhile takes care of each part that ends.
/// Parts that end together with the rest are left to the next round.
fn hear_until_over<M, R>(
    rt: &R,
    host: &mut Host<M, R>,
    inbox: &mut Option<MailInbox>,
    begin: Option<Duration>,
) -> Option<u8>
where
    M: Maker + Drop,
    R: Runtime,
    ensures host { AreCollectedInTurn host.old host.new }
    ensures byte { IsNextByte (given_by inbox.old) result (given_by inbox.new) }
{
    for _ in rt.forever() {
        let Some(longest) = rest_left(begin, running_clock(rt)) else {
            return None;
        };
        if let Some(byte) = next_byte(rt, inbox) {
            return Some(byte);
        }
        host.rest(longest);
        let is_over = rest_left(begin, running_clock(rt)).is_none();
        join_unless(host, is_over);
    }
    unreachable!()
}

/// Rests until a byte comes, or the rest is over that began after the last round.
pub(crate) fn hear<M, R>(rt: R, running: &mut RunningHost<M, R>) -> Option<u8>
where
    M: Maker + Drop,
    R: Runtime,
    ensures { Hears running.old result running.new }
{
    let begin = running.rests_since;
    if begin.is_none() {
        running.host.rest(whole_rest());
        return next_byte(&rt, &mut running.inbox);
    }
    hear_until_over(&rt, &mut running.host, &mut running.inbox, begin)
}
