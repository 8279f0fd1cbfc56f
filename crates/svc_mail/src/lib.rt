//! A mailbox between threads: several senders post letters into one bounded box, and one receiver takes them.
//!
//! There is one history, which is a list of letters. An accepted post adds its letter to the history, once, and its
//! item to the sender's row. The places of a sender's letters are 0, 1, 2 and so on. What the receiver took is a
//! beginning of the history. When the mailbox is closed, the letters taken, followed by the letters left, are the whole
//! history. Each sender's letters in it are its row, in order and each once: `whole::every_letter_arrives` states this
//! for every mailbox.
//!
//! `MailboxFull` and `None` say that the box was full, or empty, at one moment of the call, as far as this end can know.
//! Some history ends there that fits what the end posted or took, what it has seen, and what notes gave it.
//!
//! An end without notes can know little of the others, so there are notes. `Sender::tell` makes a note of what a sender
//! has seen, including its own letters. If the receiver has learnt that note, `None` means that all those letters were
//! taken. `Receiver::tell` makes a note of what was taken. If a sender has learnt that note, `MailboxFull` means that
//! the box was full after those letters. No note says that another sender has posted nothing since. In a mailbox with
//! several senders, each may therefore believe that the others filled it.
//!
//! Some facts are in no contract, and only tested. `take` returns a letter that is in the box even if no note mentioned
//! it. `post` succeeds if there is room. A waiting call returns: a post or a take that never returns meets every
//! clause, the second one of an end as well as the first. Nothing is said of the order of two senders' letters, except
//! that it is the one order of the history.
//!
//! An item is plain data (`Copy`). Each end owns a share of the box, so the ends can be moved into other threads. What
//! is known of an end that comes back from a thread is what the thread promised: `promise` has the promises.
#![tactic(auto)]

pub mod letter;
pub mod letters;
pub mod mailbox;
pub mod note;
pub mod promise;
pub mod receiver;
pub mod rule;
pub mod sender;
pub mod whole;
