//! Tests of reports, merged orders and answers to questions, each by public calls.
//!
//! `report_lines` has the lines of a report and of an order (`report`); `trace_reports` what is reported of traces
//! (`report`); `merged_orders` the orders of their events (`replies`); `answers` what is answered of two events
//! (`queries`); `fixtures` has what several of them use.
#![tactic(auto)]

#[cfg(test)]
mod answers;
#[cfg(test)]
mod fixtures;
#[cfg(test)]
mod merged_orders;
#[cfg(test)]
mod report_lines;
#[cfg(test)]
mod trace_reports;
