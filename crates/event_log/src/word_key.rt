// The key of a message.
ghost use Rattle.std.specs.Prelude.{◌≡◌, ◌↔◌, Some, SomeIff, IsTrue, All, refl};
ghost use Rattle.std.specs.Int.{IsInRange};
ghost use Rattle.std.specs.Cmp.{partial_equiv_from_equiv};
ghost use Rattle.std.specs.Cmp.Lexicographic.{slice_cmp, nat_list_eq_equiv, nat_list_cmp_total, texts_po, texts_ties};
ghost use Rattle.std.specs.Ordering.{nat_cmp};
ghost use Rattle.std.specs.Str.{bytes_eq};
ghost use Rattle.event_log.specs.Texts.{IsMessageText, IsWordKey};

use std::cmp::Ordering;
use std::marker::Model;

/// The key of a message: 1 to 64 bytes from 33 to 126. It is seen as these bytes.
///
/// It takes no memory beside its own 65 bytes, and is copied like a number.
#[derive(Clone, Copy, Debug)]
pub struct WordKey {
    bytes: [u8; 64],
    len: u8,
}

impl Model for WordKey {
    ghost use Rattle.std.specs.Prelude.{◌≡◌, ◌≤◌, ℕ, List, take, length};
    ghost use Rattle.event_log.specs.Texts.{IsWordKey, padded_text};

    ghost Value = { List ℕ };

    ghost view = { λ k. take k.len k.bytes };

    ghost invariant = { λ k. (k.len ≤ 64) × IsWordKey (take k.len k.bytes) × (k.bytes ≡ padded_text (take k.len k.bytes)) };

    ghost inverse = { λ text. record { bytes = padded_text text; len = length text } };

    ghost use Rattle.event_log.specs.TextsInside.{key_back};

    ghost inverse_ok = { λ a h. key_back a h.0 h.1 h.2 };
}

impl PartialEq for WordKey {
    ghost eq = { bytes_eq };

    ghost laws = { partial_equiv_from_equiv nat_list_eq_equiv };

    fn eq(&self, other: &WordKey) -> bool {
        self.bytes() == other.bytes()
    }
}

impl Eq for WordKey {
    ghost laws = { nat_list_eq_equiv };
}

impl PartialOrd for WordKey {
    ghost partial_cmp = { λ a b. Some (slice_cmp nat_cmp a b) };

    ghost laws = { texts_po };

    fn partial_cmp(&self, other: &WordKey) -> Option<Ordering> {
        Some(self.cmp(other))
    }
}

impl Ord for WordKey {
    ghost cmp = { slice_cmp nat_cmp };

    ghost total = { nat_list_cmp_total };

    ghost matches_partial_cmp = { λ a b. refl };

    ghost matches_eq = { texts_ties };

    fn cmp(&self, other: &WordKey) -> Ordering {
        self.bytes().cmp(other.bytes())
    }
}

fn are_message_bytes(text: &[u8]) -> bool
    ensures { IsTrue result ↔ All (λ c. IsInRange 33 126 c) text.now }
{
    text.iter().all(|c| c.is_ascii_graphic())
}

/// Whether a text may be a message: at most 64 bytes from 33 to 126.
pub(crate) fn is_message(text: &[u8]) -> bool
    ensures { IsTrue result ↔ IsMessageText text.now }
{
    if text.len() > 64 {
        return false;
    }
    are_message_bytes(text)
}

impl WordKey {
    /// The key of this text; None exactly where it is empty, longer than 64 bytes, or has a byte outside 33 to 126.
    pub fn new(text: &[u8]) -> Option<WordKey>
        ensures { SomeIff result (IsWordKey text.now) text.now }
    {
        if text.is_empty() || !is_message(text) {
            return None;
        }
        let mut bytes = [0; 64];
        bytes[..text.len()].copy_from_slice(text);
        Some(WordKey {
            bytes,
            len: text.len() as u8,
        })
    }

    /// The text of the key.
    pub fn bytes(&self) -> &[u8]
        ensures value { result.now ≡ self.now }
        ensures key { IsWordKey self.now }
    {
        &self.bytes[..usize::from(self.len)]
    }
}
