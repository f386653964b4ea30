//! Tests of captures and of what packets are known by, by public calls.
//!
//! `cuts` has captures that are cut anywhere; `blocks` sections, stamps, and blocks that are skipped; `interfaces`
//! offsets of stamps and options that are malformed; `long_blocks` blocks of more than 2^24 bytes; `passed_packets`
//! packets that are passed over, and `dropped_packets` those that were dropped before they were captured; `faults`
//! captures that are refused, and `second_headers` captures that were put one behind the other; `limits` captures with
//! more packets than are wanted (`captures`); `wide_keys` frames of IPv6 or behind a Linux cooked header, and
//! `fragments` fragments and packets behind extension headers (`headers`); `merged_captures` packets that are arranged,
//! written and read again, those that are refused, and one whose writing fails (`mergecap`); `written_blocks` files of
//! pcapng that are written and read again (`pcapng_blocks`). `fixtures` and `merge_fixtures` have what several of them
//! use.
#![tactic(auto)]

#[cfg(test)]
mod blocks;
#[cfg(test)]
mod cuts;
#[cfg(test)]
mod dropped_packets;
#[cfg(test)]
mod faults;
#[cfg(test)]
mod fixtures;
#[cfg(test)]
mod fragments;
#[cfg(test)]
mod interfaces;
#[cfg(test)]
mod limits;
#[cfg(test)]
mod long_blocks;
#[cfg(test)]
mod merge_fixtures;
#[cfg(test)]
mod merged_captures;
#[cfg(test)]
mod passed_packets;
#[cfg(test)]
mod second_headers;
#[cfg(test)]
mod wide_keys;
#[cfg(test)]
mod written_blocks;
