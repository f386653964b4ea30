// What a declaration says.
use crate::{Addresses, Links};
use atto::Nano;
use problem_model::{Clock, Name};

/// A declaration: the hosts with their clocks and addresses, the traces that were taken at them, and what is known of
/// the delay from one host to another.
///
/// Hosts and labels stand in the byte order of their names, and clocks in the order of their hosts, those of one host in the
/// order in which they followed each other. Each host has one clock or more.
#[derive(Debug, Drop)]
pub struct Decl {
    /// The names of the hosts.
    pub hosts: Vec<Name>,
    /// Their clocks, at most 65,536.
    pub clocks: Vec<Clock>,
    /// The owner of each clock, in the order of `clocks`.
    pub owners: Vec<Owner>,
    /// The addresses of IPv4 of the hosts, by host, and those of one host as they were written.
    pub addresses: Addresses,
    /// Those of IPv6, likewise.
    pub addresses6: Addresses,
    /// The traces.
    pub labels: Vec<Label>,
    /// The subnets that labels give, each label's behind those of labels before.
    pub subnets: Vec<Subnet>,
    /// What is known of delays, as it was written.
    pub links: Links,
    /// How much of a payload belongs to the key of a packet, in bytes: at most 64.
    pub payload_bytes: u8,
    /// Whether options of TCP belong to that key too: timestamps and selective acknowledgments.
    pub tcp_options: bool,
    /// Whether fragments have keys, and packets of IPv6 behind extension headers.
    pub fragments: bool,
    /// How far apart in ns, below 2^62, neighbouring events of one key lie at most so that they are taken to belong
    /// together; None where it is not said.
    pub window: Option<Nano>,
    /// The place of the clock that shows true time, if one is said to: it is never short or long.
    pub source: Option<u32>,
}

/// Whose a clock is.
#[derive(Clone, Copy, Debug, PartialEq, Eq)]
pub struct Owner {
    /// The place of its host, from 0 on.
    pub host: u32,
    /// The least real time in ns from a reading of the clock before it of the same host, or of one before that, to one of
    /// this clock; it has no effect at a host's first clock.
    pub gap: Nano,
    /// What the clock is roughly ahead of true time, in ns, between -2^62 and 2^62; below 0 where it is behind.
    pub offset: i64,
}

/// A version of the internet protocol. Addresses of different versions are never the same.
#[derive(Clone, Copy, Debug, PartialEq, Eq)]
pub enum IpVersion {
    /// IPv4, with addresses of 4 octets.
    V4,
    /// IPv6, with addresses of 16.
    V6,
}

/// An address of a host.
#[derive(Clone, Copy, Debug, PartialEq, Eq)]
pub struct Address {
    /// The address, as the number of its octets in network byte order.
    pub address: u128,
    /// The place of its host, from 0 on.
    pub host: u32,
}

/// A trace that was taken at a host.
#[derive(Clone, Copy, Debug, PartialEq, Eq)]
pub struct Label {
    /// A clock name: at most 32 bytes, without `#`.
    pub name: Name,
    /// The place of its host, from 0 on.
    pub host: u32,
    /// The place of the clock that its stamps were taken from, which is one of its host's.
    pub clock: u32,
    /// What the trace is.
    pub kind: TraceKind,
    /// The interface whose packets have keys, by the index in a second Linux cooked header or by its number in a section
    /// of pcapng; None where those of each have.
    pub interface: Option<u32>,
    /// The name of the segment that the trace was taken on: a message joins two events of one segment. Labels that name none
    /// are of one segment too.
    pub segment: Option<Name>,
    /// How far before the readings of its stamps its events may lie, in ns below 2^62; None where it is the clock's.
    pub early: Option<Nano>,
    /// How far behind them; None where it is the clock's.
    pub late: Option<Nano>,
    /// The place of its first subnet among those of the declaration, from 0 on.
    pub first_subnet: u32,
    /// How many subnets it has: at most 256.
    pub subnet_count: u32,
}

/// Addresses of one version that have their first bits in common (a prefix of RFC 4632), and on which side of the place
/// where a trace was taken they are.
#[derive(Clone, Copy, Debug, PartialEq, Eq)]
pub struct Subnet {
    /// The version.
    pub version: IpVersion,
    /// Whether they are beyond that place: what comes from them is received there. Else they are its own, or nearer to
    /// it: what comes from them is sent there.
    pub beyond: bool,
    /// The first address, as the number of its octets in network byte order.
    pub first: u128,
    /// By how much the last one is greater.
    pub spread: u128,
}

/// Where an address is, as seen from where a trace was taken.
#[derive(Clone, Copy, Debug, PartialEq, Eq)]
pub enum Whereabouts {
    /// At the host itself, or nearer to it than to the other side.
    Near,
    /// It is not said where.
    Unsaid,
    /// On the other side.
    Beyond,
}

/// What a trace is.
#[derive(Clone, Copy, Debug, PartialEq, Eq)]
pub enum TraceKind {
    /// A capture of packets.
    Capture,
    /// An event log.
    Log,
}

/// What is known of the delay from one host to another, or to itself, in ns of real time. The least may be above the
/// greatest.
#[derive(Clone, Copy, Debug, PartialEq, Eq)]
pub struct Link {
    /// The place of the host that sends, from 0 on.
    pub from: u32,
    /// The place of the host that receives, from 0 on.
    pub to: u32,
    /// The least delay.
    pub least: Nano,
    /// The greatest delay; None where there is no such bound.
    pub most: Option<Nano>,
}
