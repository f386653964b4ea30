//! Tests of the commands of the program, each a run over files, input and output in memory.
//!
//! `commands_over_problems` has the commands over a problem, `following_clocks` those over clocks that follow each
//! other, `sessions` those over a declaration, `long_sessions` one over a log of thousands of rows,
//! `verified_certificates` those over a certificate, with its table `verify_cases`, `trials` the trials, `widenings`
//! those over a widening, `thinned_problems` problems that are thinned, `merged_captures` merges, `dated_captures`
//! those with dates, `passed_packets` a capture with packets that are passed over, `failing_in_turn` has each call of a
//! device fail; `runs` is how they are run, and `fixtures` has what several of them use.
#![tactic(auto)]

#[cfg(test)]
mod commands_over_problems;
#[cfg(test)]
mod dated_captures;
#[cfg(test)]
mod failing_in_turn;
#[cfg(test)]
mod fixtures;
#[cfg(test)]
mod following_clocks;
#[cfg(test)]
mod long_sessions;
#[cfg(test)]
mod merged_captures;
#[cfg(test)]
mod passed_packets;
#[cfg(test)]
mod runs;
#[cfg(test)]
mod sessions;
#[cfg(test)]
mod thinned_problems;
#[cfg(test)]
mod trials;
#[cfg(test)]
mod verified_certificates;
#[cfg(test)]
mod verify_cases;
#[cfg(test)]
mod widenings;
