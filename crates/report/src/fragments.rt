// The text of the key of a fragment, word by word.
ghost use Rattle.std.specs.Prelude.{◌≡◌, ◌∷◌, [], ◌++◌, ℕ, List, OnOk, IfOk};
ghost use Rattle.std.specs.Str.{IsAscii};
ghost use Rattle.line_format.specs.Words.{words};
ghost use Rattle.headers.specs.declared.key.Transport.TheVariants.{Fragment};
ghost use Rattle.report.specs.KeyTexts.{address_words, dotted, groups, packet_words, payload_word, piece_words, port_words};

use crate::key_parts::{push_dotted, push_groups};
use crate::texts::{push_bytes, push_field};
use headers::{Network, Piece, Ports};
use std::alloc::{AllocError, Global};

// Appends an address of IPv4 behind a space.
fn push_address(text: &mut Vec<u8>, address: u32) -> Result<(), AllocError>
    ensures { (first : List ℕ) (ws : List (List ℕ)) → text.old.items ≡ words (first ∷ ws) → OnOk result (text.new.items ≡ words (first ∷ ws ++ dotted address ∷ [])) }
{
    text.push(b' ')?;
    push_dotted(text, address)?;
    Ok(())
}

// Appends an address of IPv6 behind a space.
fn push_wide_address(text: &mut Vec<u8>, address: u128) -> Result<(), AllocError>
    ensures { (first : List ℕ) (ws : List (List ℕ)) → text.old.items ≡ words (first ∷ ws) → OnOk result (text.new.items ≡ words (first ∷ ws ++ groups address ∷ [])) }
{
    text.push(b' ')?;
    push_groups(text, address)?;
    Ok(())
}

// Appends both addresses.
fn push_addresses(text: &mut Vec<u8>, network: Network) -> Result<(), AllocError>
    ensures { (first : List ℕ) (ws : List (List ℕ)) → text.old.items ≡ words (first ∷ ws) → OnOk result (text.new.items ≡ words (first ∷ ws ++ address_words network)) }
{
    match network {
        Network::V4 { source, target, .. } => {
            push_address(text, source)?;
            push_address(text, target)?;
            Ok(())
        }
        Network::V6 { source, target } => {
            push_wide_address(text, source)?;
            push_wide_address(text, target)?;
            Ok(())
        }
    }
}

// Appends the ports of a first fragment, and their names.
fn push_ports(text: &mut Vec<u8>, ports: Option<Ports>) -> Result<(), AllocError>
    ensures { (first : List ℕ) (ws : List (List ℕ)) → text.old.items ≡ words (first ∷ ws) → OnOk result (text.new.items ≡ words (first ∷ ws ++ port_words ports)) }
{
    match ports {
        None => Ok(()),
        Some(ports) => {
            push_field(text, b"from", u32::from(ports.source))?;
            push_field(text, b"to", u32::from(ports.target))?;
            Ok(())
        }
    }
}

// Appends what stands in a fragment behind its addresses.
fn push_piece(text: &mut Vec<u8>, piece: &Piece) -> Result<(), AllocError>
    ensures text { (first : List ℕ) (ws : List (List ℕ)) → text.old.items ≡ words (first ∷ ws) → OnOk result (text.new.items ≡ words (first ∷ ws ++ piece_words piece.now)) }
    ensures ascii { OnOk result (IsAscii (payload_word piece.now.payload.items)) }
{
    push_field(text, b"id", piece.id)?;
    push_field(text, b"protocol", u32::from(piece.protocol))?;
    push_field(text, b"offset", u32::from(piece.offset))?;
    push_field(text, b"length", u32::from(piece.length))?;
    push_ports(text, piece.ports)?;
    push_bytes(text, b"payload", piece.payload.as_slice())?;
    Ok(())
}

/// The text of a fragment.
pub(crate) fn fragment_text(
    alloc: Global,
    network: Network,
    piece: &Piece,
) -> Result<Vec<u8>, AllocError>
    ensures text { IfOk result (λ text. text.items ≡ words (packet_words network (Fragment piece.now))) }
    ensures ascii { IfOk result (λ text. IsAscii text.items) }
{
    let mut text = Vec::from_slice(alloc, b"fragment")?;
    push_addresses(&mut text, network)?;
    push_piece(&mut text, piece)?;
    Ok(text)
}
