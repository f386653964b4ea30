// What a section says of the blocks that follow.
ghost use Rattle.std.specs.Prelude.{◌≡◌, IfOk, IfErr};
ghost use Rattle.pcapng_stream.specs.declared.errors.PcapngError.TheVariants.{Memory};
ghost use Rattle.packets.specs.Dropped.{dropped_with};
ghost use Rattle.pcapng_stream.specs.Blocks.{dropped_in};
ghost use Rattle.pcapng_stream.specs.Inside.{section_of};

use crate::PcapngError;
use crate::order::Order;
use packets::Dropped;
use std::alloc::Global;

/// An interface on which packets were captured.
#[derive(Clone, Copy, Debug, PartialEq, Eq)]
pub struct Interface {
    /// The link type of its packets.
    pub link: u16,
    /// What their times count: 10^-n s, or 2^-n s where the upper bit is set, n being the other bits.
    pub resolution: u8,
    /// What is added to each of their stamps, in seconds.
    pub offset: i64,
    /// How many packets were dropped at it, as it was told last.
    pub dropped: Dropped,
}

// These and those that were dropped at an interface.
fn with_interface(dropped: Dropped, interface: &Interface) -> Dropped
    ensures { result ≡ dropped_with dropped interface.now.dropped }
{
    dropped.with(interface.dropped)
}

/// The section that is being read.
#[derive(Drop)]
pub struct OpenSection {
    /// The order of its bytes, or `None` before the first section header.
    pub order: Option<Order>,
    /// Its interfaces, by their numbers.
    pub interfaces: Vec<Interface>,
    /// How many packets the sections before it say were dropped.
    pub earlier: Dropped,
}

impl OpenSection {
    /// The same section, in a list of its own.
    pub(crate) fn copied(&self, alloc: Global) -> Result<OpenSection, PcapngError>
        ensures ok { IfOk result (λ copy. section_of copy ≡ section_of self.now) }
        ensures fault { IfErr result (λ e. e ≡ Memory) }
    {
        Ok(OpenSection {
            order: self.order,
            interfaces: Vec::from_slice(alloc, &self.interfaces)?,
            earlier: self.earlier,
        })
    }

    /// How many packets it and the sections before it say were dropped.
    pub(crate) fn dropped(&self) -> Dropped
        ensures { result ≡ dropped_in (section_of self.now) }
    {
        let mut dropped = Dropped::none();
        for interface in &self.interfaces {
            dropped = with_interface(dropped, interface);
        }
        dropped.with(self.earlier)
    }
}
