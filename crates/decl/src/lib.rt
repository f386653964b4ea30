//! Declarations: what is said in TOML 1.1 of hosts, their clocks and addresses, of the traces taken at them, and of the
//! delay from one host to another.
//!
//! | Key of the document | What it is |
//! |---|---|
//! | `fragments` | true or false; false where it is not there |
//! | `hosts` | a table with a table for each host, by its name |
//! | `labels` | a table with a table for each trace, by its name |
//! | `links` | an array with a table for each link |
//! | `payload_bytes` | a whole number from 0 to 64; 0 where it is not there |
//! | `source` | the name of a clock that shows true time |
//! | `tcp_options` | true or false; false where it is not there |
//! | `window` | in ns below 2^62: how far apart neighbouring events of one key lie at most so that they are taken to belong together; without it, any are |
//!
//! All may be left out, and there is no other key.
//!
//! | Entry | Its keys |
//! |---|---|
//! | host | `short` (at most 999,999,999) and `long` (at most 1,000,000,000), in parts per billion, and `early` and `late`, in ns below 2^62: 0 where they are not there. `offset`, in ns between -2^62 and 2^62: what its clocks are roughly ahead of true time, 0 where it is not there. `addresses`: an array of IPv4 addresses, each four decimals with points between and no zeros in front. `addresses6`: an array of IPv6 addresses, each eight groups of one to four hexadecimal digits, of either case, with colons between. `clocks`: an array with a table for each clock of the host, in the order in which they followed each other |
//! | clock | `name`: a text, which it has. `short`, `long`, `early`, `late` and `offset`, as of a host: the host's where they are not there. `gap`, in ns below 2^62: the least real time from each reading of the clocks before it to one of this clock, 0 where it is not there; it has no effect at a host's first clock |
//! | trace | `host`: a host's name; `kind`: `capture` or `log`. It has both. `clock`: the name of the host's clock that it was stamped by, its first one where it is not there. `segment`: a clock name, of the segment that it was taken on; those that name none are of one segment. `early` and `late`, as of a clock: of this trace's stamps, each in place of its clock's. Of a capture, `interface`: the number of the interface whose packets have keys, below 2^32; `addresses` and `addresses6`: arrays of addresses that count in place of its host's; `beyond` and `beyond6`: of addresses on the other side of the place where it was taken, from which a packet is received and to which one is sent. Each such address is written as a host's, and may have a slash behind it and how many of its bits count, where the others are 0: so it stands for all that begin alike. Of those that have an address the one of most bits counts, among them those of its host where the label gives none of that version in their place. There are at most 256 at a label |
//! | link | `from` and `to`: hosts' names, which may be the same. It has both. `least` and `most`, in ns below 2^62: 0 and no limit where they are not there |
//!
//! A host without tables of clocks has one clock, of its own name and numbers. Names of hosts, clocks and traces are
//! clock names, no two clocks have the same one, no address stands there twice under the same key, no pair of hosts
//! stands there twice, and of hosts, clocks, traces and links there are at most 65,536 each. Hosts and traces go by the
//! byte order of their names, clocks by their hosts and then as they were written.
//!
//! A declaration that is refused is looked through in this order: its size; whether it is a document; its own keys,
//! their values' shapes, their numbers; then host by host, trace by trace and link by link; at last the source. A host
//! is looked through by table, keys, shapes of values, name, numbers and its index, addresses, and then clock by clock,
//! each by table, keys, shapes, name, numbers and how many clocks there are; a trace by table, keys, shapes, names,
//! keys that a log has not, numbers and its index, and addresses, one by one; a link by table, keys, shapes, names,
//! numbers and its index.
#![tactic(auto)]

mod addresses;
mod cause;
mod clock_numbers;
mod clock_tables;
mod clocks;
mod errors;
mod host_places;
mod hosts;
mod items;
mod keys;
mod labels;
mod laws;
mod limits;
mod links;
mod lookups;
mod read;
mod subnets;
mod values;

pub use addresses::{Addresses, addresses_are_dotted, addresses6_are_groups};
pub use errors::{DeclError, Section};
pub use items::{Address, Decl, IpVersion, Label, Link, Owner, Subnet, TraceKind, Whereabouts};
pub use laws::clocks_of_a_host_follow;
pub use links::Links;
pub use read::read_decl;
