use headers::{Network, Reason, Segment, Transport, UserDatagram, decode};
use std::test::*;

// Frames on their links that have no key, where no payload is asked for.
const REFUSED: [(&str, u16, &[u8], Reason); 18] = [
    (
        "thirteen bytes",
        1,
        b"\x00\x00\x00\x00\x00\x00\x00\x00\x00\x00\x00\x00\x00",
        Reason::Short,
    ),
    (
        "a tag without a whole type",
        1,
        b"\x02\x00\x00\x00\x00\x02\x02\x00\x00\x00\x00\x01\x81\x00\x00\x64\x08",
        Reason::Short,
    ),
    (
        "no datagram",
        1,
        b"\x02\x00\x00\x00\x00\x02\x02\x00\x00\x00\x00\x01\x08\x00",
        Reason::Short,
    ),
    (
        "version 6 on Ethernet",
        1,
        b"\x02\x00\x00\x00\x00\x02\x02\x00\x00\x00\x00\x01\x08\x00\x65\x00\x00\x1c\x00\x07\x00\x00\x40\x11\x00\x00\x0a\x00\
        \x00\x01\x0a\x00\x00\x02\x13\x88\x17\x70\x00\x08\x00\x00",
        Reason::Header,
    ),
    ("no byte", 101, b"", Reason::Short),
    (
        "version 5",
        101,
        b"\x55\x00\x00\x1c\x00\x07\x00\x00\x40\x11\x00\x00\x0a\x00\x00\x01\x0a\x00\x00\x02\x13\x88\x17\x70\x00\x08\x00\x00",
        Reason::Other,
    ),
    (
        "four words of header",
        101,
        b"\x44\x00\x00\x1c\x00\x07\x00\x00\x40\x11\x00\x00\x0a\x00\x00\x01\x0a\x00\x00\x02\x13\x88\x17\x70\x00\x08\x00\x00",
        Reason::Header,
    ),
    (
        "total length 19",
        101,
        b"\x45\x00\x00\x13\x00\x07\x00\x00\x40\x11\x00\x00\x0a\x00\x00\x01\x0a\x00\x00\x02\x13\x88\x17\x70\x00\x08\x00\x00",
        Reason::Length,
    ),
    (
        "total length 27",
        101,
        b"\x45\x00\x00\x1b\x00\x07\x00\x00\x40\x11\x00\x00\x0a\x00\x00\x01\x0a\x00\x00\x02\x13\x88\x17\x70\x00\x08\x00\x00",
        Reason::Length,
    ),
    (
        "UDP length 7",
        101,
        b"\x45\x00\x00\x1c\x00\x07\x00\x00\x40\x11\x00\x00\x0a\x00\x00\x01\x0a\x00\x00\x02\x13\x88\x17\x70\x00\x07\x00\x00",
        Reason::Length,
    ),
    (
        "UDP length 9",
        101,
        b"\x45\x00\x00\x1c\x00\x07\x00\x00\x40\x11\x00\x00\x0a\x00\x00\x01\x0a\x00\x00\x02\x13\x88\x17\x70\x00\x09\x00\x00",
        Reason::Length,
    ),
    (
        "one byte less than the datagram",
        101,
        b"\x45\x00\x00\x1c\x00\x07\x00\x00\x40\x11\x00\x00\x0a\x00\x00\x01\x0a\x00\x00\x02\x13\x88\x17\x70\x00\x08\x00",
        Reason::Short,
    ),
    (
        "more fragments",
        101,
        b"\x45\x00\x00\x1c\x00\x07\x20\x00\x40\x11\x00\x00\x0a\x00\x00\x01\x0a\x00\x00\x02\x13\x88\x17\x70\x00\x08\x00\x00",
        Reason::Fragment,
    ),
    (
        "fragment offset 8",
        101,
        b"\x45\x00\x00\x1c\x00\x07\x00\x01\x40\x11\x00\x00\x0a\x00\x00\x01\x0a\x00\x00\x02\x13\x88\x17\x70\x00\x08\x00\x00",
        Reason::Fragment,
    ),
    (
        "ICMP",
        101,
        b"\x45\x00\x00\x1c\x00\x07\x00\x00\x40\x01\x00\x00\x0a\x00\x00\x01\x0a\x00\x00\x02\x13\x88\x17\x70\x00\x08\x00\x00",
        Reason::Other,
    ),
    (
        "another link",
        0,
        b"\x45\x00\x00\x1c\x00\x07\x00\x00\x40\x11\x00\x00\x0a\x00\x00\x01\x0a\x00\x00\x02\x13\x88\x17\x70\x00\x08\x00\x00",
        Reason::Link,
    ),
    (
        "ARP",
        1,
        b"\x02\x00\x00\x00\x00\x02\x02\x00\x00\x00\x00\x01\x08\x06\x00\x00\x00\x00\x00\x00\x00\x00\x00\x00\x00\x00\x00\x00\
        \x00\x00\x00\x00\x00\x00\x00\x00\x00\x00\x00\x00\x00\x00",
        Reason::Other,
    ),
    (
        "the first fragment of many",
        1,
        b"\x02\x00\x00\x00\x00\x02\x02\x00\x00\x00\x00\x01\x08\x00\x45\x00\x00\x1c\x00\x09\x20\x00\x40\x11\x00\x00\x0a\x00\
        \x00\x01\x0a\x00\x00\x02\x13\x88\x17\x70\x00\x08\x00\x00",
        Reason::Fragment,
    ),
];

// Raw datagrams with payloads that have no key, where so many bytes of the payload are asked for.
const REFUSED_WITH_PAYLOAD: [(&str, &[u8], u8, Reason); 7] = [
    (
        "a segment of 19 bytes",
        b"\x45\x00\x00\x27\x00\x64\x00\x00\x40\x06\x00\x00\x0a\x00\x00\x01\x0a\x00\x00\x02\x13\x88\x00\x50\x00\x00\x00\x01\
        \x00\x00\x00\x01\x50\x18\x20\x00\x00\x00\x00\x00\x30\x31\x32\x33\x34\x35\x36\x37\x38\x39",
        0,
        Reason::Length,
    ),
    (
        "19 bytes of a segment",
        b"\x45\x00\x00\x32\x00\x64\x00\x00\x40\x06\x00\x00\x0a\x00\x00\x01\x0a\x00\x00\x02\x13\x88\x00\x50\x00\x00\x00\x01\
        \x00\x00\x00\x01\x50\x18\x20\x00\x00\x00\x00",
        0,
        Reason::Short,
    ),
    (
        "four words of TCP header",
        b"\x45\x00\x00\x32\x00\x64\x00\x00\x40\x06\x00\x00\x0a\x00\x00\x01\x0a\x00\x00\x02\x13\x88\x00\x50\x00\x00\x00\x01\
        \x00\x00\x00\x01\x40\x18\x20\x00\x00\x00\x00\x00\x30\x31\x32\x33\x34\x35\x36\x37\x38\x39",
        0,
        Reason::Header,
    ),
    (
        "eight words of TCP header in 30 bytes",
        b"\x45\x00\x00\x32\x00\x64\x00\x00\x40\x06\x00\x00\x0a\x00\x00\x01\x0a\x00\x00\x02\x13\x88\x00\x50\x00\x00\x00\x01\
        \x00\x00\x00\x01\x80\x18\x20\x00\x00\x00\x00\x00\x30\x31\x32\x33\x34\x35\x36\x37\x38\x39",
        0,
        Reason::Length,
    ),
    (
        "two bytes of a payload of ten",
        b"\x45\x00\x00\x32\x00\x64\x00\x00\x40\x06\x00\x00\x0a\x00\x00\x01\x0a\x00\x00\x02\x13\x88\x00\x50\x00\x00\x00\x01\
        \x00\x00\x00\x01\x50\x18\x20\x00\x00\x00\x00\x00\x30\x31",
        3,
        Reason::Short,
    ),
    (
        "two bytes of a payload of five",
        b"\x45\x00\x00\x21\x00\x07\x00\x00\x40\x11\x00\x00\x0a\x00\x00\x01\x0a\x00\x00\x02\x13\x88\x17\x70\x00\x0d\x00\x00\x68\x65",
        3,
        Reason::Short,
    ),
    (
        "four bytes of a payload of five",
        b"\x45\x00\x00\x22\x00\x07\x00\x00\x40\x11\x00\x00\x0a\x00\x00\x01\x0a\x00\x00\x02\x13\x88\x17\x70\x00\x0d\x00\x00\x68\x65\x6c\x6c",
        64,
        Reason::Short,
    ),
];

fn is_refused(link: u16, frame: &[u8], payload_bytes: u8, wanted: Reason) -> bool {
    if payload_bytes > 64 {
        return false;
    }
    let fields = headers::Wanted {
        payload_bytes,
        tcp_options: false,
        fragments: false,
    };
    match decode(link, frame, fields) {
        Ok(_) => false,
        Err(reason) => reason == wanted,
    }
}

#[test]
fn refusals(rt: HostRuntime) {
    for (what, link, frame, reason) in &REFUSED {
        assert!(rt; is_refused(*link, frame, 0, *reason), "{what}");
    }
    for (what, datagram, payload_bytes, reason) in &REFUSED_WITH_PAYLOAD {
        assert!(rt;
            is_refused(101, datagram, *payload_bytes, *reason),
            "{what}"
        );
    }
}

// What a key is to have.
struct Wanted {
    source: u32,
    target: u32,
    protocol: u8,
    id: u16,
    source_port: u16,
    target_port: u16,
    sequence: u32,
    acknowledged: u32,
    flags: u8,
    length: u16,
    payload: &'static [u8],
}

const FIRST: Wanted = Wanted {
    source: 0x0a00_0001,
    target: 0x0a00_0002,
    protocol: 17,
    id: 7,
    source_port: 5000,
    target_port: 6000,
    sequence: 0,
    acknowledged: 0,
    flags: 0,
    length: 8,
    payload: b"",
};

const SECOND: Wanted = Wanted {
    source: 0x0a00_0002,
    target: 0x0a00_0001,
    protocol: 17,
    id: 8,
    source_port: 6000,
    target_port: 5000,
    sequence: 0,
    acknowledged: 0,
    flags: 0,
    length: 8,
    payload: b"",
};

const REPEATED: Wanted = Wanted {
    source: 0x0a00_0001,
    target: 0x0a00_0002,
    protocol: 17,
    id: 0,
    source_port: 5000,
    target_port: 6000,
    sequence: 0,
    acknowledged: 0,
    flags: 0,
    length: 8,
    payload: b"",
};

const SEGMENT: Wanted = Wanted {
    source: 0x0a00_0001,
    target: 0x0a00_0002,
    protocol: 6,
    id: 100,
    source_port: 5000,
    target_port: 80,
    sequence: 1,
    acknowledged: 1,
    flags: 0x18,
    length: 10,
    payload: b"",
};

const SENT_AGAIN: Wanted = Wanted {
    source: 0x0a00_0001,
    target: 0x0a00_0002,
    protocol: 6,
    id: 101,
    source_port: 5000,
    target_port: 80,
    sequence: 1,
    acknowledged: 1,
    flags: 0x18,
    length: 10,
    payload: b"",
};

const SEGMENT_FRONT: Wanted = Wanted {
    source: 0x0a00_0001,
    target: 0x0a00_0002,
    protocol: 6,
    id: 100,
    source_port: 5000,
    target_port: 80,
    sequence: 1,
    acknowledged: 1,
    flags: 0x18,
    length: 10,
    payload: b"012",
};

const SEGMENT_WHOLE: Wanted = Wanted {
    source: 0x0a00_0001,
    target: 0x0a00_0002,
    protocol: 6,
    id: 100,
    source_port: 5000,
    target_port: 80,
    sequence: 1,
    acknowledged: 1,
    flags: 0x18,
    length: 10,
    payload: b"0123456789",
};

const SEGMENT_OF_NINE: Wanted = Wanted {
    source: 0x0a00_0001,
    target: 0x0a00_0002,
    protocol: 6,
    id: 100,
    source_port: 5000,
    target_port: 80,
    sequence: 1,
    acknowledged: 1,
    flags: 0x18,
    length: 9,
    payload: b"012345678",
};

const HELLO: Wanted = Wanted {
    source: 0x0a00_0001,
    target: 0x0a00_0002,
    protocol: 17,
    id: 7,
    source_port: 5000,
    target_port: 6000,
    sequence: 0,
    acknowledged: 0,
    flags: 0,
    length: 13,
    payload: b"",
};

const HELLO_FRONT: Wanted = Wanted {
    source: 0x0a00_0001,
    target: 0x0a00_0002,
    protocol: 17,
    id: 7,
    source_port: 5000,
    target_port: 6000,
    sequence: 0,
    acknowledged: 0,
    flags: 0,
    length: 13,
    payload: b"hel",
};

const HELLO_WHOLE: Wanted = Wanted {
    source: 0x0a00_0001,
    target: 0x0a00_0002,
    protocol: 17,
    id: 7,
    source_port: 5000,
    target_port: 6000,
    sequence: 0,
    acknowledged: 0,
    flags: 0,
    length: 13,
    payload: b"hello",
};

const LONG_FRONT: Wanted = Wanted {
    source: 0x0a00_0001,
    target: 0x0a00_0002,
    protocol: 17,
    id: 7,
    source_port: 5000,
    target_port: 6000,
    sequence: 0,
    acknowledged: 0,
    flags: 0,
    length: 74,
    payload: b"!\"#$%&'()*+,-./0123456789:;<=>?@ABCDEFGHIJKLMNOPQRSTUVWXYZ[\\]^_`",
};

// Frames on their links, with how many bytes of the payload are asked for, and their keys.
const KEYED: [(&str, u16, &[u8], u8, Wanted); 16] = [
    (
        "a tag",
        1,
        b"\x02\x00\x00\x00\x00\x02\x02\x00\x00\x00\x00\x01\x81\x00\x00\x64\x08\x00\x45\x00\x00\x1c\x00\x07\x00\x00\x40\x11\
        \x00\x00\x0a\x00\x00\x01\x0a\x00\x00\x02\x13\x88\x17\x70\x00\x08\x00\x00",
        0,
        FIRST,
    ),
    (
        "a provider's tag and a customer's",
        1,
        b"\x02\x00\x00\x00\x00\x02\x02\x00\x00\x00\x00\x01\x88\xa8\x00\x01\x81\x00\x00\x64\x08\x00\x45\x00\x00\x1c\x00\x07\
        \x00\x00\x40\x11\x00\x00\x0a\x00\x00\x01\x0a\x00\x00\x02\x13\x88\x17\x70\x00\x08\x00\x00",
        0,
        FIRST,
    ),
    (
        "no tag",
        1,
        b"\x02\x00\x00\x00\x00\x02\x02\x00\x00\x00\x00\x01\x08\x00\x45\x00\x00\x1c\x00\x07\x00\x00\x40\x11\x00\x00\x0a\x00\
        \x00\x01\x0a\x00\x00\x02\x13\x88\x17\x70\x00\x08\x00\x00",
        0,
        FIRST,
    ),
    (
        "raw IP",
        101,
        b"\x45\x00\x00\x1c\x00\x07\x00\x00\x40\x11\x00\x00\x0a\x00\x00\x01\x0a\x00\x00\x02\x13\x88\x17\x70\x00\x08\x00\x00",
        0,
        FIRST,
    ),
    (
        "the way back",
        101,
        b"\x45\x00\x00\x1c\x00\x08\x00\x00\x40\x11\x00\x00\x0a\x00\x00\x02\x0a\x00\x00\x01\x17\x70\x13\x88\x00\x08\x00\x00",
        64,
        SECOND,
    ),
    (
        "padding of the frame",
        1,
        b"\x02\x00\x00\x00\x00\x02\x02\x00\x00\x00\x00\x01\x08\x00\x45\x00\x00\x1c\x00\x07\x00\x00\x40\x11\x00\x00\x0a\x00\
        \x00\x01\x0a\x00\x00\x02\x13\x88\x17\x70\x00\x08\x00\x00\xff\xff\xff\xff\xff\xff\xff\xff\xff\xff\xff\xff\xff\xff\
        \xff\xff\xff\xff",
        64,
        FIRST,
    ),
    (
        "identification 0",
        1,
        b"\x02\x00\x00\x00\x00\x02\x02\x00\x00\x00\x00\x01\x08\x00\x45\x00\x00\x1c\x00\x00\x00\x00\x40\x11\x00\x00\x0a\x00\
        \x00\x01\x0a\x00\x00\x02\x13\x88\x17\x70\x00\x08\x00\x00",
        0,
        REPEATED,
    ),
    (
        "a segment",
        1,
        b"\x02\x00\x00\x00\x00\x02\x02\x00\x00\x00\x00\x01\x08\x00\x45\x00\x00\x32\x00\x64\x00\x00\x40\x06\x00\x00\x0a\x00\
        \x00\x01\x0a\x00\x00\x02\x13\x88\x00\x50\x00\x00\x00\x01\x00\x00\x00\x01\x50\x18\x20\x00\x00\x00\x00\x00\x30\x31\
        \x32\x33\x34\x35\x36\x37\x38\x39",
        0,
        SEGMENT,
    ),
    (
        "the segment again",
        1,
        b"\x02\x00\x00\x00\x00\x02\x02\x00\x00\x00\x00\x01\x08\x00\x45\x00\x00\x32\x00\x65\x00\x00\x40\x06\x00\x00\x0a\x00\
        \x00\x01\x0a\x00\x00\x02\x13\x88\x00\x50\x00\x00\x00\x01\x00\x00\x00\x01\x50\x18\x20\x00\x00\x00\x00\x00\x30\x31\
        \x32\x33\x34\x35\x36\x37\x38\x39",
        0,
        SENT_AGAIN,
    ),
    (
        "the front of a payload",
        1,
        b"\x02\x00\x00\x00\x00\x02\x02\x00\x00\x00\x00\x01\x08\x00\x45\x00\x00\x32\x00\x64\x00\x00\x40\x06\x00\x00\x0a\x00\
        \x00\x01\x0a\x00\x00\x02\x13\x88\x00\x50\x00\x00\x00\x01\x00\x00\x00\x01\x50\x18\x20\x00\x00\x00\x00\x00\x30\x31\
        \x32\x33\x34\x35\x36\x37\x38\x39",
        3,
        SEGMENT_FRONT,
    ),
    (
        "a whole payload",
        101,
        b"\x45\x00\x00\x32\x00\x64\x00\x00\x40\x06\x00\x00\x0a\x00\x00\x01\x0a\x00\x00\x02\x13\x88\x00\x50\x00\x00\x00\x01\
        \x00\x00\x00\x01\x50\x18\x20\x00\x00\x00\x00\x00\x30\x31\x32\x33\x34\x35\x36\x37\x38\x39",
        64,
        SEGMENT_WHOLE,
    ),
    (
        "a byte behind the segment",
        101,
        b"\x45\x00\x00\x31\x00\x64\x00\x00\x40\x06\x00\x00\x0a\x00\x00\x01\x0a\x00\x00\x02\x13\x88\x00\x50\x00\x00\x00\x01\
        \x00\x00\x00\x01\x50\x18\x20\x00\x00\x00\x00\x00\x30\x31\x32\x33\x34\x35\x36\x37\x38\x39",
        64,
        SEGMENT_OF_NINE,
    ),
    (
        "no byte of a payload",
        101,
        b"\x45\x00\x00\x21\x00\x07\x00\x00\x40\x11\x00\x00\x0a\x00\x00\x01\x0a\x00\x00\x02\x13\x88\x17\x70\x00\x0d\x00\x00\
        \x68\x65\x6c\x6c\x6f",
        0,
        HELLO,
    ),
    (
        "the front of a UDP payload",
        101,
        b"\x45\x00\x00\x21\x00\x07\x00\x00\x40\x11\x00\x00\x0a\x00\x00\x01\x0a\x00\x00\x02\x13\x88\x17\x70\x00\x0d\x00\x00\
        \x68\x65\x6c\x6c\x6f",
        3,
        HELLO_FRONT,
    ),
    (
        "a whole UDP payload",
        101,
        b"\x45\x00\x00\x21\x00\x07\x00\x00\x40\x11\x00\x00\x0a\x00\x00\x01\x0a\x00\x00\x02\x13\x88\x17\x70\x00\x0d\x00\x00\
        \x68\x65\x6c\x6c\x6f",
        64,
        HELLO_WHOLE,
    ),
    (
        "64 bytes of 66",
        101,
        b"\x45\x00\x00\x5e\x00\x07\x00\x00\x40\x11\x00\x00\x0a\x00\x00\x01\x0a\x00\x00\x02\x13\x88\x17\x70\x00\x4a\x00\x00\
        \x21\x22\x23\x24\x25\x26\x27\x28\x29\x2a\x2b\x2c\x2d\x2e\x2f\x30\x31\x32\x33\x34\x35\x36\x37\x38\x39\x3a\x3b\x3c\
        \x3d\x3e\x3f\x40\x41\x42\x43\x44\x45\x46\x47\x48\x49\x4a\x4b\x4c\x4d\x4e\x4f\x50\x51\x52\x53\x54\x55\x56\x57\x58\
        \x59\x5a\x5b\x5c\x5d\x5e\x5f\x60\x61\x62",
        64,
        LONG_FRONT,
    ),
];

fn has_network(network: Network, wanted: &Wanted) -> bool {
    match network {
        Network::V4 { source, target, id } => source == wanted.source
            && target == wanted.target
            && id == wanted.id,
        Network::V6 { .. } => false,
    }
}

fn is_segment(segment: &Segment, wanted: &Wanted) -> bool {
    wanted.protocol == 6
        && segment.source_port == wanted.source_port
        && segment.target_port == wanted.target_port
        && segment.sequence == wanted.sequence
        && segment.acknowledged == wanted.acknowledged
        && segment.flags == wanted.flags
        && segment.length == wanted.length
        && segment.payload.as_slice() == wanted.payload
        && segment.options.is_empty()
}

fn is_datagram(datagram: &UserDatagram, wanted: &Wanted) -> bool {
    wanted.protocol == 17
        && datagram.source_port == wanted.source_port
        && datagram.target_port == wanted.target_port
        && datagram.length == wanted.length
        && datagram.payload.as_slice() == wanted.payload
}

fn has_transport(transport: &Transport, wanted: &Wanted) -> bool {
    match transport {
        Transport::Tcp(segment) => is_segment(segment, wanted),
        Transport::Udp(datagram) => is_datagram(datagram, wanted),
        Transport::Fragment(_) => false,
    }
}

fn is_keyed(link: u16, frame: &[u8], payload_bytes: u8, wanted: &Wanted) -> bool {
    if payload_bytes > 64 {
        return false;
    }
    let fields = headers::Wanted {
        payload_bytes,
        tcp_options: false,
        fragments: false,
    };
    match decode(link, frame, fields) {
        Ok(key) => has_network(key.network, wanted) && has_transport(&key.transport, wanted),
        Err(_) => false,
    }
}

#[test]
fn keys(rt: HostRuntime) {
    for (what, link, frame, payload_bytes, wanted) in &KEYED {
        assert!(rt; is_keyed(*link, frame, *payload_bytes, wanted), "{what}");
    }
}
