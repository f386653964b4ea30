//! Tests of the lowest crates, each by its public calls.
//!
//! `numbers` has texts of numbers and bounds on spans (`atto`), `cuts` how lines and words are cut (`line_format`),
//! `words` lines that are composed word by word, `devices` sources, sinks and files in memory and of the host, `lines`
//! the lines of a script, `pieces` output that is gathered and comes out whole, and `faults` what stands written where
//! a call below fails (`ports`), `values` values and their places (`interner`).
//!
//! `problems` has problems that are pushed or read, and their faults; `follows` one of two clocks of which one follows
//! the other, by pushes, and `followed_problems` texts of such problems; `bounded_events` problems whose events have
//! bounds of their own (`problem`); `texts` the bytes of a trial's logs, script and declaration, and `declarations` what
//! that is read as (`trial`).
#![tactic(auto)]

#[cfg(test)]
mod bounded_events;
#[cfg(test)]
mod cuts;
#[cfg(test)]
mod declarations;
#[cfg(test)]
mod devices;
#[cfg(test)]
mod faults;
#[cfg(test)]
mod fixtures;
#[cfg(test)]
mod followed_problems;
#[cfg(test)]
mod follows;
#[cfg(test)]
mod lines;
#[cfg(test)]
mod numbers;
#[cfg(test)]
mod pieces;
#[cfg(test)]
mod problems;
#[cfg(test)]
mod texts;
#[cfg(test)]
mod values;
#[cfg(test)]
mod words;
