// What is reported.
use captures::Dropped;
use problem_model::Name;

/// How many events have no key, by reason.
#[derive(Clone, Copy, Debug, Default, PartialEq, Eq)]
pub struct NoKeys {
    /// Packets of a link type that is neither Ethernet nor raw IP nor a Linux cooked one.
    pub link: u32,
    /// Packets without TCP or UDP right behind a header of IPv4 or IPv6, or, where fragments have keys, behind at most eight
    /// extension headers.
    pub other: u32,
    /// Packets of which too little was captured.
    pub short: u32,
    /// Packets with a header that can't be one.
    pub header: u32,
    /// Fragments of IPv4 datagrams (RFC 791), where fragments have no keys.
    pub fragment: u32,
    /// Packets with a length that does not fit the others.
    pub length: u32,
    /// Packets that neither go outward at their label nor come inward.
    pub side: u32,
    /// Log rows of the kind `local`.
    pub local: u32,
    /// Packets that were captured on another interface than that of their label, or of which the capture does not say on
    /// which.
    pub interface: u32,
}

/// How many packets were passed over under all labels, by cause: the sums of `Passed` of `captures`.
#[derive(Clone, Copy, Debug, Default, PartialEq, Eq)]
pub struct PassedSums {
    /// Packets that have no time.
    pub simple: u64,
    /// Packets in obsolete blocks.
    pub obsolete: u64,
    /// Other records that count as packets.
    pub other: u64,
}

/// A label under which packets were dropped before they were captured, and how many.
#[derive(Clone, Copy, Debug)]
pub struct LabelDrops {
    /// The label's name.
    pub label: Name,
    /// How many packets its capture says were dropped.
    pub dropped: Dropped,
}

/// An ambiguous key, with the events that have it.
#[derive(Debug, Drop)]
pub struct NamedGroup {
    /// The text of the key, in ASCII.
    pub key: Vec<u8>,
    /// The events that send it.
    pub sends: Vec<Name>,
    /// The events that receive it.
    pub receives: Vec<Name>,
}

/// What is to be reported. No field is tied to another one.
#[derive(Debug, Drop)]
pub struct View {
    /// How many keys stand alone: they are sent and received, and never in one group of events that may belong together;
    /// None where no window is declared.
    pub alone: Option<u32>,
    /// How many events there are.
    pub events: u32,
    /// How many messages there are.
    pub messages: u32,
    /// How many events have a key and neither a partner nor an ambiguous key.
    pub unmatched: u32,
    /// Whether what is declared has an execution.
    pub consistent: bool,
    /// The labels under which packets were dropped, in their order.
    pub dropped: Vec<LabelDrops>,
    /// How many events have no key.
    pub nokeys: NoKeys,
    /// How many packets were passed over.
    pub passed: PassedSums,
    /// The ambiguous keys, in the order in which they are to be reported.
    pub groups: Vec<NamedGroup>,
}
