// Packets of which only the first ones are kept.
ghost use Rattle.std.specs.Prelude.{◌≡◌, ◌∷◌, [], List, OnOk, OnErr};
ghost use Rattle.packets.specs.Packets.{Seen, KeepsFirst, Adds, IsSame, IsBehind, seen_packet};

use crate::Packet;
use std::alloc::{AllocError, Global};

/// The first of some packets, and whether there were more.
#[derive(Debug, Drop)]
pub struct FirstPackets {
    /// How many are kept at most.
    pub most: u64,
    /// The first packets, in their order.
    pub kept: Vec<Packet>,
    /// Whether there were more.
    pub more: bool,
}

impl FirstPackets {
    /// No packet yet, and at most so many that will be kept. It takes no memory.
    pub fn new(alloc: Global, most: u64) -> FirstPackets
        ensures none { KeepsFirst result [] }
        ensures most { result.most ≡ most }
    {
        FirstPackets {
            most,
            kept: Vec::new(alloc),
            more: false,
        }
    }

    /// Takes the next packet, which is kept where fewer are than may be. An error comes only where memory runs out; then
    /// these are as before.
    pub fn push(&mut self, packet: Packet) -> Result<(), AllocError>
        ensures added { OnOk result (Adds (λ added. added ≡ seen_packet packet ∷ []) self.old self.new) }
        ensures unchanged { OnErr result (IsSame self.old self.new) }
    {
        if (self.kept.len() as u64) < self.most {
            self.kept.push(packet)?;
        } else {
            self.more = true;
        }
        Ok(())
    }

    /// No packet yet of those that come behind these, of which as many will be kept as there is room for.
    pub fn behind(&self, alloc: Global) -> FirstPackets
        ensures none { KeepsFirst result [] }
        ensures room { IsBehind self.now result }
    {
        FirstPackets::new(alloc, self.most.saturating_sub(self.kept.len() as u64))
    }

    /// Takes the packets that came behind these. An error comes only where memory runs out; then these are as before.
    pub fn append(&mut self, mut behind: FirstPackets) -> Result<(), AllocError>
        requires { IsBehind self.old behind }
        ensures appended { (packets : List Seen) → KeepsFirst behind packets → OnOk result (Adds (λ added. added ≡ packets) self.old self.new) }
        ensures unchanged { OnErr result (IsSame self.old self.new) }
    {
        self.kept.append(&mut behind.kept)?;
        if behind.more {
            self.more = true;
        }
        Ok(())
    }
}
