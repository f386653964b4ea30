// The name of an event or a clock.
ghost use Rattle.std.specs.Prelude.{◌≡◌, ◌≤◌, ◌↔◌, length, refl, IsTrue, take, drop, All};
ghost use Rattle.std.specs.Option.{SomeIff};
ghost use Rattle.problem_model.specs.Name.{IsEventName, IsClockName, is_event_byte, is_clock_byte};
ghost use Rattle.std.specs.Cmp.{partial_equiv_from_equiv, partial_order_from_agreeing_total, unsigned_ties};
ghost use Rattle.std.specs.Cmp.Lexicographic.{slice_cmp, nat_list_eq_equiv, nat_list_cmp_total, lists_ties};
ghost use Rattle.std.specs.Ordering.{nat_cmp, as_partial_cmp};
ghost use Rattle.std.specs.Str.{bytes_eq};

use std::cmp::Ordering;
use std::marker::Model;

/// A name of an event or a clock: 1 to 48 ASCII letters, digits, `.`, `_`, `-` and `#`.
#[derive(Clone, Copy, Debug)]
pub struct Name {
    bytes: [u8; 48],
    len: usize,
}

impl Model for Name {
    ghost use Rattle.std.specs.Prelude.{◌≡◌, ◌-◌, ◌≤◌, ℕ, List, take, drop, length};
    ghost use Rattle.problem_model.specs.Name.{IsEventName, padded_name};

    ghost Value = { List ℕ };

    ghost view = { λ n. take n.len n.bytes };

    ghost invariant = { λ n. (n.len ≤ 48) × IsEventName (take n.len n.bytes) × (n.bytes ≡ padded_name (take n.len n.bytes)) };

    ghost inverse = { λ text. record { bytes = padded_name text; len = length text } };

    ghost use Rattle.problem_model.specs.NameInside.{name_back};

    ghost inverse_ok = { λ a h. name_back a h.0 h.1 h.2 };
}

impl PartialEq for Name {
    ghost eq = { bytes_eq };

    ghost laws = { partial_equiv_from_equiv nat_list_eq_equiv };

    fn eq(&self, other: &Name) -> bool {
        self.bytes() == other.bytes()
    }
}

impl Eq for Name {
    ghost laws = { nat_list_eq_equiv };
}

impl PartialOrd for Name {
    ghost partial_cmp = { as_partial_cmp (slice_cmp nat_cmp) };

    ghost laws = { partial_order_from_agreeing_total (slice_cmp nat_cmp) nat_list_cmp_total (λ _ _. refl) (lists_ties nat_cmp unsigned_ties) };

    fn partial_cmp(&self, other: &Name) -> Option<Ordering> {
        Some(self.cmp(other))
    }
}

/// As their texts are ordered, byte by byte.
impl Ord for Name {
    ghost cmp = { slice_cmp nat_cmp };

    ghost total = { nat_list_cmp_total };

    ghost matches_partial_cmp = { λ _ _. refl };

    ghost matches_eq = { lists_ties nat_cmp unsigned_ties };

    fn cmp(&self, other: &Name) -> Ordering {
        self.bytes().cmp(other.bytes())
    }
}

fn is_clock_byte(c: u8) -> bool
    ensures { result ≡ is_clock_byte c }
{
    matches!(c, b'0'..=b'9' | b'A'..=b'Z' | b'a'..=b'z' | b'.' | b'_' | b'-')
}

fn is_event_byte(c: u8) -> bool
    ensures { result ≡ is_event_byte c }
{
    is_clock_byte(c) || c == b'#'
}

fn is_event_name(text: &[u8]) -> bool
    ensures { IsTrue result ↔ IsEventName text.now }
{
    if text.is_empty() || text.len() > 48 {
        return false;
    }
    are_event_bytes(text)
}

fn are_event_bytes(text: &[u8]) -> bool
    ensures { IsTrue result ↔ All (λ c. IsTrue (is_event_byte c)) text.now }
{
    text.iter().all(|c| is_event_byte(*c))
}

impl Name {
    /// The name of this text; None where it is empty, longer than 48 bytes, or has another byte than ASCII letters,
    /// digits, `.`, `_`, `-` and `#`.
    pub fn new(text: &[u8]) -> Option<Name>
        ensures { SomeIff result (IsEventName text.now) text.now }
    {
        if !is_event_name(text) {
            return None;
        }
        let mut bytes = [0; 48];
        bytes[..text.len()].copy_from_slice(text);
        Some(Name {
            bytes,
            len: text.len(),
        })
    }

    /// The text of the name.
    pub fn bytes(&self) -> &[u8]
        ensures value { result.now ≡ self.now }
        ensures named { IsEventName self.now }
    {
        &self.bytes[..self.len]
    }

    /// Whether this is also a clock name: at most 32 bytes, and no `#`.
    pub fn is_short(&self) -> bool
        ensures { IsTrue result ↔ IsClockName self.now }
    {
        self.len <= 32 && self.bytes().iter().all(|c| is_clock_byte(*c))
    }

    /// Whether both are one name.
    pub fn is_same(&self, other: &Name) -> bool
        ensures { IsTrue result ↔ (self.now ≡ other.now) }
    {
        self.bytes() == other.bytes()
    }
}
