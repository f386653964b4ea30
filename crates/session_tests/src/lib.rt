//! Tests of sessions and scripts, each by public calls.
//!
//! `additions` has what is replied to each addition and each command, `cut_additions` a capture that comes in pieces,
//! `limits` files that have more than a session takes, `questions` what is asked of two events, `several_clocks` what is
//! replied of hosts with several clocks, `keeps` events that are kept, `wide_captures` packets of IPv6, `passed_packets`
//! packets that are passed over, `windows` messages that go by when their ends happened, `segments` messages of several
//! segments, `stamp_bounds` traces whose labels give bounds of their own stamps, `thinned` smaller problems (`session`);
//! `scripts` has whole scripts (`session`); `fixtures` what several of them use.
#![tactic(auto)]

#[cfg(test)]
mod additions;
#[cfg(test)]
mod cut_additions;
#[cfg(test)]
mod fixtures;
#[cfg(test)]
mod keeps;
#[cfg(test)]
mod limits;
#[cfg(test)]
mod passed_packets;
#[cfg(test)]
mod questions;
#[cfg(test)]
mod scripts;
#[cfg(test)]
mod segments;
#[cfg(test)]
mod several_clocks;
#[cfg(test)]
mod stamp_bounds;
#[cfg(test)]
mod thinned;
#[cfg(test)]
mod wide_captures;
#[cfg(test)]
mod windows;
