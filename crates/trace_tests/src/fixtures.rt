// Declarations, keys, logs and messages that several modules use.
ghost use Rattle.std.specs.Prelude.{IfSome};
ghost use Rattle.decl.specs.Declaration.{IsDeclaration, declaration_of};

use arrayvec::ArrayVec;
use atto::Nano;
use captures::Packet;
use decl::{Decl, Label, TraceKind, read_decl};
use event_log::{LogError, WordKey, read_rows};
use headers::{Network, PacketKey, Transport, UserDatagram};
use problem_model::{MOST_EVENTS, Name};
use reference_traces::{messages_in, missing};
use std::alloc::{AllocError, Global};
use traces::{
    Accepted, Content, Couple, Event, EventId, Key, MessageKey, Moment, Side, Stream, event_count,
    row_events,
};

pub(crate) const SEND: Side = Side::Send;

pub(crate) const RECEIVE: Side = Side::Receive;

// Labels p and r at the host b, q at the host a. Clock 0 is that of a, clock 1 that of b.
const THREE_LOGS: &str = "[hosts.a]\n[hosts.b]\n[labels.p]\nhost = \"b\"\nkind = \"log\"\n\
    [labels.q]\nhost = \"a\"\nkind = \"log\"\n[labels.r]\nhost = \"b\"\nkind = \"log\"\n";

// The declaration of a text.
pub(crate) fn declared(alloc: Global, text: &str) -> Option<Decl>
    ensures { IfSome result (λ d. IsDeclaration (declaration_of d)) }
{
    declared_by(alloc, text.as_bytes())
}

// Two hosts with an address of each version, and the beginning of a label at the first one.
const HEAD: &[u8] = b"[hosts.a]\naddresses = ['10.0.0.1']\naddresses6 = ['fd00:0:0:0:0:0:0:1']\n\
    [hosts.b]\naddresses = ['10.0.0.2']\naddresses6 = ['fd00:0:0:0:0:0:0:2']\n[labels.l]\nhost = 'a'\n";

// The text of a declaration whose only label, or first one of several, goes on so.
pub(crate) fn label_text(alloc: Global, rest: &str) -> Result<Vec<u8>, AllocError> {
    let mut text = Vec::from_slice(alloc, HEAD)?;
    text.extend_from_slice(rest.as_bytes())?;
    Ok(text)
}

// The declaration of a text in bytes.
pub(crate) fn declared_by(alloc: Global, text: &[u8]) -> Option<Decl>
    ensures { IfSome result (λ d. IsDeclaration (declaration_of d)) }
{
    read_decl(alloc, text).ok()
}

// A packet that was captured at 100 ns.
pub(crate) fn packet_of(
    alloc: Global,
    link: u16,
    interface: Option<u32>,
    frame: &[u8],
) -> Option<Packet> {
    let bytes = Vec::from_slice(alloc, frame).ok()?;
    Some(Packet {
        stamp: Nano::new(100)?,
        link,
        interface,
        original_length: 60,
        bytes,
    })
}

// A declaration of logs under three labels.
pub(crate) fn three_logs(alloc: Global) -> Option<Decl>
    ensures { IfSome result (λ d. IsDeclaration (declaration_of d)) }
{
    declared(alloc, THREE_LOGS)
}

// The key of a UDP datagram from 10.0.0.1:5000 to 10.0.0.2:6000, whose payload begins so.
pub(crate) fn packet_key(id: u16, payload: &[u8]) -> Option<PacketKey> {
    let mut front = ArrayVec::new();
    front.try_extend_from_slice(payload).ok()?;
    Some(PacketKey {
        network: Network::V4 {
            source: 0x0a00_0001,
            target: 0x0a00_0002,
            id,
        },
        transport: Transport::Udp(UserDatagram {
            source_port: 5000,
            target_port: 6000,
            length: 100,
            payload: front,
        }),
    })
}

// How far apart neighbouring events of one key lie at most where their keys have a time, in ns.
const WINDOW: u64 = 10;

// The moment that a text gives in ns.
fn moment_at(text: &str) -> Option<Moment> {
    let time = text.parse::<i64>().ok()?;
    Some(Moment {
        time,
        window: WINDOW,
    })
}

// What stands in a message: behind a `/` stands the payload of a packet, and any other text is a word.
fn content_with(text: &str) -> Option<Content> {
    match text.strip_prefix('/') {
        Some(payload) => Some(Content::Packet(packet_key(0, payload.as_bytes())?)),
        None => Some(Content::Word(WordKey::new(text.as_bytes())?)),
    }
}

// A key without a time, on a segment.
fn message_with(segment: u32, text: &str) -> Option<MessageKey> {
    let content = content_with(text)?;
    Some(MessageKey { segment, content })
}

// The key of a text on a segment; behind an `@` stands its time.
fn key_on(segment: u32, text: &str) -> Option<Key> {
    match text.split_once('@') {
        Some((message, time)) => Some(Key {
            message: message_with(segment, message)?,
            moment: Some(moment_at(time)?),
        }),
        None => Some(Key {
            message: message_with(segment, text)?,
            moment: None,
        }),
    }
}

// The key of a text; in front of a `|` stands the number of its segment, which is 0 where there is none.
pub(crate) fn key_with(text: &str) -> Option<Key> {
    match text.split_once('|') {
        Some((segment, rest)) => key_on(segment.parse::<u32>().ok()?, rest),
        None => key_on(0, text),
    }
}

// These events, accepted from a piece of so many bytes.
pub(crate) fn accepted(events: Vec<Event>, size: u64) -> Accepted {
    Accepted {
        events,
        size,
        stream: Stream::Log,
    }
}

// The label of a trace of this kind at a host, stamped by this clock of it, of which nothing else is said.
pub(crate) fn plain_label(kind: TraceKind, host: u32, clock: u32) -> Option<Label> {
    Some(Label {
        name: Name::new(b"l")?,
        host,
        clock,
        kind,
        interface: None,
        segment: None,
        early: None,
        late: None,
        first_subnet: 0,
        subnet_count: 0,
    })
}

// What is accepted of a log with this text, under this label.
pub(crate) fn log_of(
    alloc: Global,
    decl: &Decl,
    label: &Label,
    text: &str,
) -> Result<Accepted, LogError>
    requires { IsDeclaration (declaration_of decl.now) }
{
    if text.len() > 1 << 28 {
        return Err(LogError::Memory);
    }
    let rows = read_rows(alloc, text.as_bytes())?;
    let events = row_events(alloc, decl, label, rows)?;
    Ok(accepted(events, text.len() as u64))
}

// What is accepted of logs with these texts under the labels of a declaration.
pub(crate) fn logs_of(
    alloc: Global,
    decl: &Decl,
    texts: &[&str; 3],
) -> Result<Vec<Accepted>, LogError>
    requires { IsDeclaration (declaration_of decl.now) }
{
    let mut logs = Vec::new(alloc);
    for (label, text) in decl.labels.iter().zip(texts) {
        logs.push(log_of(alloc, decl, label, text)?)?;
    }
    Ok(logs)
}

// The messages of all labels, by the filters.
pub(crate) fn by_filters(alloc: Global, labels: &[Accepted]) -> Result<Vec<Couple>, AllocError> {
    if labels.len() > 65536 || event_count(labels) > MOST_EVENTS as u64 {
        return Err(AllocError);
    }
    messages_in(alloc, labels)
}

// How many of the first messages are not among the second.
pub(crate) fn lost(xs: &[Couple], ys: &[Couple]) -> Option<u32> {
    if xs.len() > 1 << 20 {
        return None;
    }
    Some(missing(xs, ys))
}

// Whether a message has this label and number of its send, and of its receive.
fn is_message(m: &Couple, wanted: &[u32; 4]) -> bool {
    let send = EventId {
        label: wanted[0],
        number: wanted[1],
    };
    let receive = EventId {
        label: wanted[2],
        number: wanted[3],
    };
    *m == Couple { send, receive }
}

// Whether the messages are these.
pub(crate) fn are_messages(messages: &[Couple], wanted: &[[u32; 4]]) -> bool {
    messages.len() == wanted.len() && messages.iter().zip(wanted).all(|(m, w)| is_message(m, w))
}
