//! Tests of problems that are solved and of what is asked of them, each by public calls.
//!
//! `engines` has arcs that come and go, and `greatest_differences` those of two nodes, asked for and by rows that are
//! lent (`solver`); `event_orders` when the events of problems come (`problem_solver`); `solutions` problems that are
//! solved, and `insertion_orders` the order in which their arcs come (`problem_solver`); `interval_ends` the ends and
//! the order of two events (`intervals`); `empty_certificates` and `interval_certificates` certificates that are made
//! (`attain`); `fixtures` has problems that several of them use.
#![tactic(auto)]

#[cfg(test)]
mod empty_certificates;
#[cfg(test)]
mod engines;
#[cfg(test)]
mod event_orders;
#[cfg(test)]
mod fixtures;
#[cfg(test)]
mod greatest_differences;
#[cfg(test)]
mod insertion_orders;
#[cfg(test)]
mod interval_certificates;
#[cfg(test)]
mod interval_ends;
#[cfg(test)]
mod solutions;
