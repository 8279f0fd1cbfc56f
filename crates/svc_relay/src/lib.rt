//! A service's output on its way to its logger's input. An intake reads it in pieces, and posts them into a mailbox. A
//! relay takes them from there and puts them into the logger, and into the next logger if that one dies.
//!
//! On this way no byte is lost, duplicated or moved. What an intake read are the pieces that it posted, and the one
//! that it keeps. What a relay took are the bytes that it put into all lives of the logger, and those that it keeps. If
//! a mailbox with one sender joins the two, all lives of the logger together got a beginning of what was read.
//! `whole::every_byte_passes` states this, and what is between them.
//!
//! The two may run in two threads. Neither takes memory. An intake reads once in each turn, at most 512 bytes. For
//! speed, its reader should be a buffered one. A relay gathers the pieces that are there, up to 32,768 bytes, and puts
//! them.
//!
//! Some facts are in no contract, and only tested: a read gives what is there, and does not wait for a full piece. No
//! contract says that a call that may wait returns.
#![tactic(auto)]

pub mod intake;
pub mod outlet;
pub mod piece;
pub mod relay;
pub mod turn;
pub mod whole;
