// The statistics of interfaces.
ghost use Rattle.std.specs.Prelude.{◌≡◌, ◌≤◌, length};
ghost use Rattle.pcapng_stream.specs.declared.block_kind.BlockKind.TheVariants.{InterfaceStatistics};
ghost use Rattle.pcapng_stream.specs.Blocks.{dropped_by, interface_told, section_by, told_of};
ghost use Rattle.pcapng_stream.specs.Options.{count_by_code, count_of, first_option};
ghost use Rattle.pcapng_stream.specs.Inside.{block_of, option_with, section_of, told_first, told_in, told_one};

use crate::block::WholeBlock;
use crate::bytes::{behind, front};
use crate::options::{first_value, has_ended, is_cut, more_options};
use crate::order::Order;
use crate::section::{Interface, OpenSection};
use packets::Dropped;

// The places of the interface's number and of the options, and the bytes beside these.
const INTERFACE_PLACE: usize = 8;

const OPTIONS_PLACE: usize = 20;

const OTHER_BYTES: usize = 24;

// The codes of the packets that were dropped by the interface (isb_ifdrop), and by the system (isb_osdrop).
const BY_INTERFACE: u16 = 5;

const BY_SYSTEM: u16 = 7;

// How many bytes the value of a count has.
const COUNT_BYTES: usize = 8;

// A count that is not known.
const UNKNOWN: u64 = u64::MAX;

/// How many packets statistics say were dropped at an interface, where they tell it.
#[derive(Clone, Copy, Debug, PartialEq, Eq)]
pub struct Told {
    /// By the interface.
    pub interface: Option<u64>,
    /// By the system.
    pub system: Option<u64>,
}

// The count in the value of an option.
fn count_of(order: Order, value: &[u8]) -> Option<u64>
    ensures { result ≡ count_of order value.now }
{
    if value.len() != COUNT_BYTES {
        return None;
    }
    let count = order.double_at(value, 0);
    if count == UNKNOWN { None } else { Some(count) }
}

// The count of an option of the wanted code.
fn count_by_code(order: Order, wanted: u16, code: u16, value: &[u8]) -> Option<u64>
    ensures { result ≡ count_by_code order wanted (option_with code value.now) }
{
    if code == wanted {
        count_of(order, value)
    } else {
        None
    }
}

// What the first option tells.
fn told_one(order: Order, options: &[u8]) -> Told
    requires { 4 ≤ length options.now }
    ensures { result ≡ told_one order (first_option order options.now) }
{
    let code = order.half_at(options, 0);
    let value = first_value(order, options);
    Told {
        interface: count_by_code(order, BY_INTERFACE, code, value),
        system: count_by_code(order, BY_SYSTEM, code, value),
    }
}

// What was told first, and else what is told then.
fn told_first(first: Told, later: Told) -> Told
    ensures { result ≡ told_first first later }
{
    Told {
        interface: first.interface.or(later.interface),
        system: first.system.or(later.system),
    }
}

// What these options tell, each count by the first one of its code that has one. `None` comes where one of them is cut.
fn read_counts(order: Order, options: &[u8]) -> Option<Told>
    ensures { result ≡ told_in order options.now }
{
    let mut told = Told {
        interface: None,
        system: None,
    };
    let mut left = options;
    'walk: while !has_ended(order, left) {
        if is_cut(order, left) {
            return None;
        }
        told = told_first(told, told_one(order, left));
        left = more_options(order, left);
    }
    Some(told)
}

// What statistics tell: nothing where an option is cut.
fn told_of(block: &WholeBlock<'_>) -> Told
    ensures { result ≡ told_of (block_of block.now) }
{
    let options = front(
        behind(block.bytes, OPTIONS_PLACE),
        block.bytes.len().saturating_sub(OTHER_BYTES),
    );
    match read_counts(block.order, options) {
        Some(told) => told,
        None => Told {
            interface: None,
            system: None,
        },
    }
}

// How many packets were dropped at an interface, with what is told of it.
fn dropped_by(dropped: Dropped, told: Told) -> Dropped
    ensures { result ≡ dropped_by dropped told }
{
    Dropped {
        interface: told.interface.unwrap_or(dropped.interface),
        system: told.system.unwrap_or(dropped.system),
    }
}

// The interface with what is told of it.
fn interface_told(told: Told, interface: Interface) -> Interface
    ensures { result ≡ interface_told told interface }
{
    Interface {
        dropped: dropped_by(interface.dropped, told),
        ..interface
    }
}

/// Takes the statistics of an interface: what they tell stands for what was told of it before. Nothing is taken where the
/// section has no such interface, or where an option is cut.
pub(crate) fn take_statistics(block: &WholeBlock<'_>, section: &mut OpenSection)
    requires { 12 ≤ length block.now.bytes.now }
    ensures { section_of section.new ≡ section_by InterfaceStatistics (section_of section.old) (block_of block.now) }
{
    let number = block.order.word_at(block.bytes, INTERFACE_PLACE) as usize;
    if number < section.interfaces.len() {
        let interface = section.interfaces[number];
        section.interfaces[number] = interface_told(told_of(block), interface);
    }
}
