//! Tests of the texts of executions and certificates, and of what is answered of them, each by public calls.
//!
//! `executions`, `certificates_read` and `follow_steps` have the texts of executions and certificates (`cert`);
//! `verdicts` what is answered of certificates, and `clocks_that_follow` what is answered where clocks follow each other
//! (`cert_check`); `parts` makes parts of certificates, and `fixtures` has problems, for several of them.
//!
//! Tests of widenings: worked texts, what judging them answers, and their faults; the least widenings of small
//! problems; and in how many rounds that of a long one is found. `bounded_events` has executions, certificates and
//! widenings of problems whose events have bounds of their own.
#![tactic(auto)]

#[cfg(test)]
mod bounded_events;
#[cfg(test)]
mod certificates_read;
#[cfg(test)]
mod clocks_that_follow;
#[cfg(test)]
mod executions;
#[cfg(test)]
mod fixtures;
#[cfg(test)]
mod follow_steps;
#[cfg(test)]
mod found;
#[cfg(test)]
mod kinds;
#[cfg(test)]
mod parts;
#[cfg(test)]
mod rounds;
#[cfg(test)]
mod verdicts;
#[cfg(test)]
mod widenings;
