//! Tests of the threads' crates, for what no contract can say. Letters, publications and pieces cross threads. Calls
//! succeed when there is enough memory. The tests also show the state after memory, or a device, fails at each place in
//! turn.
#![tactic(auto)]

#[cfg(test)]
mod house;
#[cfg(test)]
mod mail;
#[cfg(test)]
mod order;
#[cfg(test)]
mod pasts;
#[cfg(test)]
mod relay;
#[cfg(test)]
mod script;
#[cfg(test)]
mod station;
