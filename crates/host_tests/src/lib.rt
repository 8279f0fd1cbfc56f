//! Tests of the host of all services, for what no contract can say. Each service runs in a thread of its own. A part's
//! mailbox, station, world and output are joined to it and to no other part. Other tests show what was asked of a maker
//! that records its calls.
#![tactic(auto)]

#[cfg(test)]
mod actor;
#[cfg(test)]
mod cast;
pub mod kept_calls;
#[cfg(test)]
mod kept_maker;
#[cfg(test)]
mod leftovers;
#[cfg(test)]
mod meeting;
#[cfg(test)]
mod pasts;
#[cfg(test)]
mod threads;
