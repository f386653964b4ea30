// What one packet is known by at both of its ends.
use arrayvec::ArrayVec;

/// What tells one packet from all others, wherever it is seen: the fields of its headers that no router changes on the
/// way, and the first bytes of its payload. Packets of different versions or protocols are never the same.
#[derive(Clone, Debug, PartialEq, Eq, PartialOrd, Ord, Drop)]
pub struct PacketKey {
    /// What the header of the internet protocol gives.
    pub network: Network,
    /// What the header behind that one gives.
    pub transport: Transport,
}

/// The part of a key that the internet protocol gives. Addresses are the numbers of their octets in network byte order.
#[derive(Clone, Copy, Debug, PartialEq, Eq, PartialOrd, Ord)]
pub enum Network {
    /// IPv4 (RFC 791).
    V4 {
        /// The source address.
        source: u32,
        /// The destination address.
        target: u32,
        /// The identification of the datagram.
        id: u16,
    },
    /// IPv6 (RFC 8200), which has no identification.
    V6 {
        /// The source address.
        source: u128,
        /// The destination address.
        target: u128,
    },
}

/// The part of a key that TCP or UDP gives, or a fragment.
#[derive(Clone, Debug, PartialEq, Eq, PartialOrd, Ord, Drop)]
pub enum Transport {
    /// TCP (RFC 9293).
    Tcp(Segment),
    /// UDP (RFC 768).
    Udp(UserDatagram),
    /// A fragment of a packet, of any protocol.
    Fragment(Piece),
}

/// What a segment of TCP gives to a key.
#[derive(Clone, Debug, PartialEq, Eq, PartialOrd, Ord, Drop)]
pub struct Segment {
    /// The source port.
    pub source_port: u16,
    /// The destination port.
    pub target_port: u16,
    /// The sequence number.
    pub sequence: u32,
    /// The acknowledgement number.
    pub acknowledged: u32,
    /// The eight control bits.
    pub flags: u8,
    /// The bytes of the payload.
    pub length: u16,
    /// The first bytes of the payload, as many of them as were asked for.
    pub payload: ArrayVec<u8, 64>,
    /// The options of timestamps and of selective acknowledgments, each as it stands; none where they were not asked for.
    pub options: ArrayVec<u8, 40>,
}

/// What a datagram of UDP gives to a key.
#[derive(Clone, Debug, PartialEq, Eq, PartialOrd, Ord, Drop)]
pub struct UserDatagram {
    /// The source port.
    pub source_port: u16,
    /// The destination port.
    pub target_port: u16,
    /// The bytes of the header and the payload.
    pub length: u16,
    /// The first bytes of the payload, as many of them as were asked for.
    pub payload: ArrayVec<u8, 64>,
}

/// What a fragment gives to a key (RFC 791, RFC 8200). Each fragment of a packet is known by its own.
#[derive(Clone, Debug, PartialEq, Eq, PartialOrd, Ord, Drop)]
pub struct Piece {
    /// The number of the protocol in IANA's list: of IPv4 as the header says, of IPv6 the next header of the fragment
    /// header.
    pub protocol: u8,
    /// The identification of the packet: of IPv4 the same that `Network::V4` has, of IPv6 that of the fragment header.
    pub id: u32,
    /// The place in the packet that it is a fragment of, in units of eight bytes: 0 to 8191.
    pub offset: u16,
    /// The bytes that it carries, as the header says.
    pub length: u16,
    /// The ports, of a first fragment of TCP or UDP alone.
    pub ports: Option<Ports>,
    /// The first bytes of what stands behind the header of TCP or UDP in such a first fragment, of any other fragment of
    /// what it carries: as many of them as were asked for.
    pub payload: ArrayVec<u8, 64>,
}

/// The ports of the header that a first fragment begins with.
#[derive(Clone, Copy, Debug, PartialEq, Eq, PartialOrd, Ord)]
pub struct Ports {
    /// The source port.
    pub source: u16,
    /// The destination port.
    pub target: u16,
}

/// What belongs to a key beside the fields that always do.
#[derive(Clone, Copy, Debug, PartialEq, Eq)]
pub struct Wanted {
    /// How many bytes of the payload, or all of them where there are fewer: 0 to 64.
    pub payload_bytes: u8,
    /// Whether the options of TCP do that tell a segment from one that is sent again: timestamps (RFC 7323) and selective
    /// acknowledgments (RFC 2018), in their order.
    pub tcp_options: bool,
    /// Whether fragments have keys, and packets of IPv6 behind at most eight extension headers: hop-by-hop options, routing,
    /// fragment and destination options (RFC 8200).
    pub fragments: bool,
}

/// Why a frame has no key.
#[derive(Clone, Copy, Debug, PartialEq, Eq)]
pub enum Reason {
    /// The link type is neither Ethernet, 1, nor raw IP, 101, nor a Linux cooked one, 113 or 276.
    Link,
    /// It carries neither IPv4 nor IPv6, or one of them with neither TCP nor UDP right behind its header. Where fragments
    /// are wanted, it is whole, with neither of them behind the extension headers, or with a ninth of these.
    Other,
    /// It was captured only in part, and ends before all that the key takes, or within an extension header.
    Short,
    /// A header has another version than it should, or says that it is shorter than it can be.
    Header,
    /// The datagram is a fragment of IPv4, and fragments are not wanted.
    Fragment,
    /// A length in a header does not fit the others, or a header of TCP or UDP goes past the end of a first fragment.
    Length,
}
