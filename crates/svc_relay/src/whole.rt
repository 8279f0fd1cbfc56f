//! What an intake and a relay do together when a mailbox joins them.
ghost use Rattle.svc_relay.specs.Whole.{IsPutOrBetween, LivesBeginAll, LivesBeginRead, OfEachJoined};

/// States a law of every intake and relay that are joined by a mailbox with no other sender, after that mailbox is
/// closed. What the intake read is what was put into all lives of the logger, one after the other, followed by what is
/// still between the two. The lives together therefore got a beginning of what was read, and of all that the reader had
/// to give.
pub fn every_byte_passes()
    ensures between { OfEachJoined IsPutOrBetween }
    ensures lives { OfEachJoined LivesBeginRead }
    ensures service { OfEachJoined LivesBeginAll }
{}
