// The options of a TCP header (RFC 9293).
ghost use Rattle.std.specs.Prelude.{◌≡◌, ◌≤◌, ◌+◌, ◌++◌, true, false, length, Some, None, IfSome, IfNone, IfOk, IfErr, OnOk, option_map};
ghost use Rattle.headers.specs.Checks.{first_reason};
ghost use Rattle.headers.specs.Options.{chosen_options, is_cut_option, is_over, option_checks, option_size, telling, told_by};

use crate::Reason;
use crate::bytes::{behind, front};
use arrayvec::ArrayVec;

// A header has room for so many bytes of options, and so for as many options.
const MOST: u8 = 40;

// The kinds of options: the end of the list, a byte that fills, selective acknowledgments (RFC 2018), timestamps (RFC 7323).
const END: u8 = 0;

const NO_OPERATION: u8 = 1;

const SACK: u8 = 5;

const TIMESTAMPS: u8 = 8;

// Whether no option follows.
fn is_over(list: &[u8]) -> bool
    ensures over { result ≡ is_over list.now }
    ensures more { (result ≡ false) → 1 ≤ length list.now }
{
    list.is_empty() || list[0] == END
}

// The bytes of the first option; None where it is cut.
fn option_size(list: &[u8]) -> Option<usize>
    requires { 1 ≤ length list.now }
    ensures size { IfSome result (λ size. size ≡ option_size list.now) }
    ensures within { IfSome result (λ size. size ≤ length list.now) }
    ensures whole { IfSome result (λ size. is_cut_option list.now ≡ false) }
    ensures cut { IfNone result (is_cut_option list.now ≡ true) }
{
    if list[0] == NO_OPERATION {
        return Some(1);
    }
    if list.len() < 2 {
        return None;
    }
    let size = usize::from(list[1]);
    if size < 2 || list.len() < size {
        return None;
    }
    Some(size)
}

// What the first option gives to a key, which has so many bytes.
fn told_by(list: &[u8], size: usize) -> &[u8]
    requires within { size ≤ length list.now }
    requires more { 1 ≤ length list.now }
    requires own { size ≡ option_size list.now }
    ensures told { result.now ≡ told_by list.now }
    ensures few { length result.now ≤ size }
{
    if list[0] == TIMESTAMPS || list[0] == SACK {
        front(list, size)
    } else {
        &[]
    }
}

// Appends bytes to those that were told before.
fn append(told: &mut ArrayVec<u8, 40>, bytes: &[u8])
    requires { length told.old.items + length bytes.now ≤ 40 }
    ensures { told.new.items ≡ told.old.items ++ bytes.now }
{
    told.try_extend_from_slice(bytes).unwrap();
}

// What the options of a list give to a key; None where one of them is cut.
fn telling(list: &[u8]) -> Option<ArrayVec<u8, 40>>
    requires { length list.now ≤ 40 }
    ensures { option_map (λ told. told.items) result ≡ telling 40 list.now }
{
    let mut told: ArrayVec<u8, 40> = ArrayVec::new();
    let mut rest = list;
    let mut left = MOST;
    while !is_over(rest) {
        let Some(size) = option_size(rest) else {
            return None;
        };
        if left == 0 {
            return None;
        }
        append(&mut told, told_by(rest, size));
        rest = behind(rest, size);
        left -= 1;
    }
    Some(told)
}

// What the options of a list give to a key, where they are wanted.
pub(crate) fn chosen_options(list: &[u8], wanted: bool) -> Result<ArrayVec<u8, 40>, Reason>
    requires { length list.now ≤ 40 }
    ensures lawful { OnOk result (first_reason (option_checks wanted list.now) ≡ None) }
    ensures read { IfOk result (λ told. told.items ≡ chosen_options wanted list.now) }
    ensures refused { IfErr result (λ reason. first_reason (option_checks wanted list.now) ≡ Some reason) }
{
    if !wanted {
        return Ok(ArrayVec::new());
    }
    match telling(list) {
        Some(told) => Ok(told),
        None => Err(Reason::Header),
    }
}
