// Events by their names.
ghost use Rattle.std.specs.Prelude.{◌≡◌, ◌≢◌, ◌<◌, ◌≤◌, ◌+◌, ◌++◌, ◌∷◌, ◌^◌, ℕ, suc, List, length, take, drop, slice_get, Some, All, IfSome, IfNone};
ghost use Rattle.atto.specs.Decimal.{decimal_of};
ghost use Rattle.decl.specs.Declaration.{IsDeclaration, declaration_of};
ghost use Rattle.traces.specs.Traces.{name_of};
ghost use Rattle.traces.specs.declared.event_id.EventId.{EventId};
ghost use Rattle.roster.specs.Groups.{total, sizes_of};
ghost use Rattle.roster.specs.Roster.{IsNumberUnder};
ghost use Rattle.roster.specs.Names.{IsCutAt};

use crate::groups::Groups;
use atto::read_decimal;
use decl::Decl;

// The place of the first `#`.
fn sharp_of(name: &[u8]) -> Option<usize>
    ensures some { IfSome result (λ k. (name.now ≡ take k name.now ++ 35 ∷ drop (k + 1) name.now) × All (λ b. b ≢ 35) (take k name.now)) }
    ensures none { IfNone result (All (λ b. b ≢ 35) name.now) }
    ensures bound { IfSome result (λ k. k < length name.now) }
{
    for (k, byte) in name.iter().enumerate() {
        if *byte == b'#' {
            return Some(k);
        }
    }
    None
}

// The event that a label numbers so, from 1 on, among the numbers of its events.
fn numbered(numbers: &[u32], number: u64) -> Option<u32>
    ensures some { IfSome result (λ v. (k : ℕ) × (number ≡ suc k) × (slice_get numbers.now k ≡ Some v)) }
    ensures none { IfNone result ((k : ℕ) → number ≡ suc k → length numbers.now ≤ k) }
{
    if number == 0 || number > numbers.len() as u64 {
        return None;
    }
    Some(numbers[(number - 1) as usize])
}

/// The event that a label numbers so, from 1 on, among the numbers of its events.
pub(crate) fn event_numbered(numbers: &[u32], number: u32) -> u32
    requires { (k : ℕ) × (v : ℕ) × (number ≡ suc k) × (slice_get numbers.now k ≡ Some v) }
    ensures { (k : ℕ) × (number ≡ suc k) × (slice_get numbers.now k ≡ Some result) }
{
    numbers[number as usize - 1]
}

// Where the first `#` of a name stands, and the number that is spelled behind it.
fn parts_of(name: &[u8]) -> Option<(usize, u64)>
    ensures some { IfSome result (λ p. IsCutAt name.now p.0 p.1) }
    ensures none { IfNone result ((label : List ℕ) (n : ℕ) → All (λ b. b ≢ 35) label → n < 2 ^ 64 → name.now ≢ label ++ 35 ∷ decimal_of n) }
    ensures bound { IfSome result (λ p. p.0 < length name.now) }
{
    let sharp = sharp_of(name)?;
    match read_decimal(&name[sharp + 1..]) {
        Ok(number) => Some((sharp, number)),
        Err(_) => None,
    }
}

/// The number of the event of this name; None exactly where no label numbers an event so.
pub(crate) fn find_event(decl: &Decl, under: &Groups<u32>, name: &[u8]) -> Option<u32>
    requires lawful { IsDeclaration (declaration_of decl.now) }
    requires labels { length under.now ≡ length decl.now.labels.items }
    requires few { total (sizes_of under.now) < 2 ^ 32 }
    ensures some { IfSome result (λ v. (id : EventId) × IsNumberUnder under.now id v × (name_of (declaration_of decl.now) id ≡ name.now)) }
    ensures none { IfNone result ((id : EventId) (v : ℕ) → IsNumberUnder under.now id v → name_of (declaration_of decl.now) id ≢ name.now) }
{
    let (sharp, number) = parts_of(name)?;
    let label = decl.label_at(&name[..sharp])?;
    numbered(under.group(label as u32), number)
}
