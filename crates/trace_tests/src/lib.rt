//! Tests of traces, from their bytes to the problem that they make, each by public calls.
//!
//! `logs` has rows of logs (`event_log`); `declarations` what is declared, and its faults, and `declared_clocks` the
//! same of hosts with several clocks (`decl`); `frames` the headers of packets (`headers`); `capture_pieces` the
//! packets of a capture that comes in pieces (`captures`); `events` what is seen of rows and packets (`traces`);
//! `labels` the events and messages under labels (`traces`); `matches` sends and receives of a key (`msg_match`);
//! `labelled_matches` those under labels (`msg_match`); `problems` the problem that is made (`reference_traces`);
//! `rosters` what is listed of events that come (`roster`); `tcp_options` the options of segments (`headers`);
//! `vantages` what is declared of the place where a trace was taken, and `stamp_bounds` how far its stamps may be off
//! (`decl`); `sides` the events of packets by that place, and `segments` the messages of several segments (`traces`);
//! `fixtures` has what several of them use.
#![tactic(auto)]

#[cfg(test)]
mod capture_pieces;
#[cfg(test)]
mod declarations;
#[cfg(test)]
mod declared_clocks;
#[cfg(test)]
mod events;
#[cfg(test)]
mod fixtures;
#[cfg(test)]
mod frames;
#[cfg(test)]
mod labelled_matches;
#[cfg(test)]
mod labels;
#[cfg(test)]
mod logs;
#[cfg(test)]
mod matches;
#[cfg(test)]
mod problems;
#[cfg(test)]
mod rosters;
#[cfg(test)]
mod segments;
#[cfg(test)]
mod sides;
#[cfg(test)]
mod stamp_bounds;
#[cfg(test)]
mod tcp_options;
#[cfg(test)]
mod vantages;
