// Options, and those of an interface.
ghost use Rattle.std.specs.Prelude.{◌≡◌, ◌+◌, ◌≤◌, false, length};
ghost use Rattle.pcapng_stream.specs.Options.{option_code, option_length, has_ended, is_cut, first_option, more_options, is_wrong_offset, resolution_of, offset_of};
ghost use Rattle.pcapng_stream.specs.Inside.{option_with, said_with, stamping_in};

use crate::bytes::{behind, front, padded};
use crate::order::Order;

// The bytes in front of an option's value, and where its length stands in them.
const OPTION_HEAD: usize = 4;

const LENGTH_PLACE: usize = 2;

// The codes of the end of the options, of the resolution of stamps (if_tsresol), and of their offset (if_tsoffset).
const END_CODE: u16 = 0;

const RESOLUTION_CODE: u16 = 9;

const OFFSET_CODE: u16 = 14;

// How many bytes the value of an offset has.
const OFFSET_BYTES: usize = 8;

/// What the options of an interface say of the stamps of its packets.
#[derive(Clone, Copy, Debug, PartialEq, Eq)]
pub struct Stamping {
    /// What the times count, as `Interface` has it.
    pub resolution: Option<u8>,
    /// The seconds that are added, as a number of 64 bits that is read as a signed one.
    pub offset: Option<u64>,
}

// How many bytes the value of the first option has.
fn option_length(order: Order, options: &[u8]) -> usize
    requires { 4 ≤ length options.now }
    ensures value { result ≡ option_length order options.now }
    ensures small { result ≤ 65535 }
{
    usize::from(order.half_at(options, LENGTH_PLACE))
}

/// Whether the options end here.
pub(crate) fn has_ended(order: Order, options: &[u8]) -> bool
    ensures { result ≡ has_ended order options.now }
{
    options.is_empty() || options.len() >= OPTION_HEAD && order.half_at(options, 0) == END_CODE
}

/// Whether the first option is cut.
pub(crate) fn is_cut(order: Order, options: &[u8]) -> bool
    ensures { result ≡ is_cut order options.now }
{
    options.len() < OPTION_HEAD || options.len() < OPTION_HEAD + option_length(order, options)
}

fn is_wrong_offset(code: u16, value: &[u8]) -> bool
    ensures { result ≡ is_wrong_offset (option_with code value.now) }
{
    code == OFFSET_CODE && value.len() != OFFSET_BYTES
}

// The byte of an option that is a resolution.
fn resolution_of(code: u16, value: &[u8]) -> Option<u8>
    ensures { result ≡ resolution_of (option_with code value.now) }
{
    if code == RESOLUTION_CODE && !value.is_empty() {
        Some(value[0])
    } else {
        None
    }
}

// The seconds of an option that is an offset.
fn offset_of(order: Order, code: u16, value: &[u8]) -> Option<u64>
    requires { is_wrong_offset (option_with code value.now) ≡ false }
    ensures { result ≡ offset_of order (option_with code value.now) }
{
    if code == OFFSET_CODE {
        Some(order.double_at(value, 0))
    } else {
        None
    }
}

/// The value of the first option.
pub(crate) fn first_value(order: Order, options: &[u8]) -> &[u8]
    requires { 4 ≤ length options.now }
    ensures { option_with (option_code order options.now) result.now ≡ first_option order options.now }
{
    front(behind(options, OPTION_HEAD), option_length(order, options))
}

/// The options behind the first one.
pub(crate) fn more_options(order: Order, options: &[u8]) -> &[u8]
    requires { 4 ≤ length options.now }
    ensures { result.now ≡ more_options order options.now }
{
    behind(options, OPTION_HEAD + padded(option_length(order, options)))
}

// What is said with the first option, and `None` where that is an offset of another length.
fn said_with(order: Order, said: Stamping, options: &[u8]) -> Option<Stamping>
    requires { 4 ≤ length options.now }
    ensures { result ≡ said_with order said (first_option order options.now) }
{
    let code = order.half_at(options, 0);
    let value = first_value(order, options);
    if is_wrong_offset(code, value) {
        return None;
    }
    Some(Stamping {
        resolution: said.resolution.or(resolution_of(code, value)),
        offset: said.offset.or(offset_of(order, code, value)),
    })
}

/// What these options say, each by the first one of its code. `None` comes where they are malformed: fewer than four bytes
/// are left for one, a value passes their end, or an offset has not eight bytes.
pub(crate) fn read_options(order: Order, options: &[u8]) -> Option<Stamping>
    ensures { result ≡ stamping_in order options.now }
{
    let mut said = Stamping {
        resolution: None,
        offset: None,
    };
    let mut left = options;
    'walk: while !has_ended(order, left) {
        if is_cut(order, left) {
            return None;
        }
        let Some(more) = said_with(order, said, left) else {
            return None;
        };
        said = more;
        left = more_options(order, left);
    }
    Some(said)
}
