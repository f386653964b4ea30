// The text of a key, word by word.
ghost use Rattle.std.specs.Prelude.{◌≡◌, ◌∷◌, [], ◌++◌, ℕ, List, OnOk, IfOk, codes};
ghost use Rattle.std.specs.List.{AllByRecursion};
ghost use Rattle.std.specs.Str.{IsAscii};
ghost use Rattle.atto.specs.Decimal.{decimal_of};
ghost use Rattle.line_format.specs.Words.{words};
ghost use Rattle.headers.specs.declared.key.Transport.TheVariants.{Tcp, Udp};
ghost use Rattle.traces.specs.Seen.{message_of, Packet, Word};
ghost use Rattle.report.specs.KeyTexts.{datagram_words, endpoint, key_text, key_words, network_words, option_words, packet_words, payload_word, segment_words, wide_endpoint};

use crate::fragments::fragment_text;
use crate::key_parts::{push_decimal, push_endpoint, push_payload, push_wide_endpoint};
use event_log::WordKey;
use headers::{Network, PacketKey, Segment, Transport, UserDatagram};
use ports::push_word;
use std::alloc::{AllocError, Global};
use traces::{Content, MessageKey};

// Appends an address of IPv4 with its port behind a space.
fn push_end(text: &mut Vec<u8>, address: u32, port: u16) -> Result<(), AllocError>
    ensures { (first : List ℕ) (ws : List (List ℕ)) → text.old.items ≡ words (first ∷ ws) → OnOk result (text.new.items ≡ words (first ∷ ws ++ endpoint address port ∷ [])) }
{
    text.push(b' ')?;
    push_endpoint(text, address, port)?;
    Ok(())
}

// Appends an address of IPv6 with its port behind a space.
fn push_wide_end(text: &mut Vec<u8>, address: u128, port: u16) -> Result<(), AllocError>
    ensures { (first : List ℕ) (ws : List (List ℕ)) → text.old.items ≡ words (first ∷ ws) → OnOk result (text.new.items ≡ words (first ∷ ws ++ wide_endpoint address port ∷ [])) }
{
    text.push(b' ')?;
    push_wide_endpoint(text, address, port)?;
    Ok(())
}

/// Appends the name of a field and its number.
pub(crate) fn push_field(text: &mut Vec<u8>, name: &[u8], number: u32) -> Result<(), AllocError>
    ensures { (first : List ℕ) (ws : List (List ℕ)) → text.old.items ≡ words (first ∷ ws) → OnOk result (text.new.items ≡ words (first ∷ ws ++ name.now ∷ decimal_of number ∷ [])) }
{
    push_word(text, name)?;
    text.push(b' ')?;
    push_decimal(text, number)?;
    Ok(())
}

/// Appends bytes and their name.
pub(crate) fn push_bytes(text: &mut Vec<u8>, name: &[u8], bytes: &[u8]) -> Result<(), AllocError>
    ensures text { (first : List ℕ) (ws : List (List ℕ)) → text.old.items ≡ words (first ∷ ws) → OnOk result (text.new.items ≡ words (first ∷ ws ++ name.now ∷ payload_word bytes.now ∷ [])) }
    ensures ascii { OnOk result (IsAscii (payload_word bytes.now)) }
{
    push_word(text, name)?;
    text.push(b' ')?;
    push_payload(text, bytes)?;
    Ok(())
}

// Appends the options of a segment that are in its key, if any are, and their name.
fn push_options(text: &mut Vec<u8>, options: &[u8]) -> Result<(), AllocError>
    ensures text { (first : List ℕ) (ws : List (List ℕ)) → text.old.items ≡ words (first ∷ ws) → OnOk result (text.new.items ≡ words (first ∷ ws ++ option_words options.now)) }
    ensures ascii { OnOk result (AllByRecursion IsAscii (option_words options.now)) }
{
    if options.is_empty() {
        Ok(())
    } else {
        push_bytes(text, b"options", options)
    }
}

// Appends both addresses with these ports, and of IPv4 the identification.
fn push_network(
    text: &mut Vec<u8>,
    network: Network,
    source_port: u16,
    target_port: u16,
) -> Result<(), AllocError>
    ensures { (first : List ℕ) (ws : List (List ℕ)) → text.old.items ≡ words (first ∷ ws) → OnOk result (text.new.items ≡ words (first ∷ ws ++ network_words network source_port target_port)) }
{
    match network {
        Network::V4 { source, target, id } => {
            push_end(text, source, source_port)?;
            push_end(text, target, target_port)?;
            push_field(text, b"id", u32::from(id))?;
            Ok(())
        }
        Network::V6 { source, target } => {
            push_wide_end(text, source, source_port)?;
            push_wide_end(text, target, target_port)?;
            Ok(())
        }
    }
}

// Appends what stands in a segment behind its ports.
fn push_segment(text: &mut Vec<u8>, segment: &Segment) -> Result<(), AllocError>
    ensures text { (first : List ℕ) (ws : List (List ℕ)) → text.old.items ≡ words (first ∷ ws) → OnOk result (text.new.items ≡ words (first ∷ ws ++ segment_words segment.now)) }
    ensures ascii { OnOk result (IsAscii (payload_word segment.now.payload.items)) }
    ensures ascii_options { OnOk result (AllByRecursion IsAscii (option_words segment.now.options.items)) }
{
    push_field(text, b"seq", segment.sequence)?;
    push_field(text, b"ack", segment.acknowledged)?;
    push_field(text, b"flags", u32::from(segment.flags))?;
    push_field(text, b"length", u32::from(segment.length))?;
    push_bytes(text, b"payload", segment.payload.as_slice())?;
    push_options(text, segment.options.as_slice())?;
    Ok(())
}

// Appends what stands in a datagram of UDP behind its ports.
fn push_datagram(text: &mut Vec<u8>, datagram: &UserDatagram) -> Result<(), AllocError>
    ensures text { (first : List ℕ) (ws : List (List ℕ)) → text.old.items ≡ words (first ∷ ws) → OnOk result (text.new.items ≡ words (first ∷ ws ++ datagram_words datagram.now)) }
    ensures ascii { OnOk result (IsAscii (payload_word datagram.now.payload.items)) }
{
    push_field(text, b"length", u32::from(datagram.length))?;
    push_bytes(text, b"payload", datagram.payload.as_slice())?;
    Ok(())
}

// The text of a segment of TCP.
fn tcp_text(alloc: Global, network: Network, segment: &Segment) -> Result<Vec<u8>, AllocError>
    ensures text { IfOk result (λ text. text.items ≡ words (packet_words network (Tcp segment.now))) }
    ensures ascii { IfOk result (λ text. IsAscii text.items) }
{
    let mut text = Vec::from_slice(alloc, b"tcp")?;
    push_network(&mut text, network, segment.source_port, segment.target_port)?;
    push_segment(&mut text, segment)?;
    Ok(text)
}

// The text of a datagram of UDP.
fn udp_text(alloc: Global, network: Network, datagram: &UserDatagram) -> Result<Vec<u8>, AllocError>
    ensures text { IfOk result (λ text. text.items ≡ words (packet_words network (Udp datagram.now))) }
    ensures ascii { IfOk result (λ text. IsAscii text.items) }
{
    let mut text = Vec::from_slice(alloc, b"udp")?;
    push_network(
        &mut text,
        network,
        datagram.source_port,
        datagram.target_port,
    )?;
    push_datagram(&mut text, datagram)?;
    Ok(text)
}

// The text of the key of a packet.
fn packet_text(alloc: Global, key: &PacketKey) -> Result<Vec<u8>, AllocError>
    ensures text { IfOk result (λ text. text.items ≡ words (key_words (Packet key.now))) }
    ensures ascii { IfOk result (λ text. IsAscii text.items) }
{
    match &key.transport {
        Transport::Tcp(segment) => tcp_text(alloc, key.network, segment),
        Transport::Udp(datagram) => udp_text(alloc, key.network, datagram),
        Transport::Fragment(piece) => fragment_text(alloc, key.network, piece),
    }
}

// The text of the word of a message in event logs.
fn word_text(alloc: Global, word: &WordKey) -> Result<Vec<u8>, AllocError>
    ensures text { IfOk result (λ text. text.items ≡ words (key_words (Word word.now))) }
    ensures ascii { IfOk result (λ text. IsAscii text.items) }
{
    let mut text = Vec::from_slice(alloc, b"log")?;
    push_word(&mut text, word.bytes())?;
    Ok(text)
}

/// The text of what a message is known by, in ASCII; an error where memory runs out. It is `log` and the word of a
/// message in event logs, or for a packet the protocol, both addresses with their ports, and the other fields of the
/// key by their names; for a fragment `fragment`, both addresses, and these fields.
pub fn key_text(alloc: Global, key: &MessageKey) -> Result<Vec<u8>, AllocError>
    ensures text { IfOk result (λ text. text.items ≡ key_text (message_of key.now)) }
    ensures ascii { IfOk result (λ text. IsAscii text.items) }
{
    match &key.content {
        Content::Packet(packet) => packet_text(alloc, packet),
        Content::Word(word) => word_text(alloc, word),
    }
}
