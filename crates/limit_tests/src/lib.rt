//! Tests of what only a large input, the last number or a refused growth can show. These are rings that fold, numbers
//! that run out, the counts of a run, and calls that are repeated after they ran out of memory.
#![tactic(auto)]

#[cfg(test)]
mod environments;
#[cfg(test)]
mod kept_clock;
#[cfg(test)]
mod logs;
#[cfg(test)]
mod pasts;
#[cfg(test)]
mod scripts;
#[cfg(test)]
mod slots;
#[cfg(test)]
mod suites;
#[cfg(test)]
mod traces;
#[cfg(test)]
mod two_parts;
