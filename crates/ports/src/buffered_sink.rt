// A sink that holds what is written, and passes it on in large pieces.
ghost use Rattle.std.specs.Prelude.{◌≡◌, ◌⊎◌, ◌++◌, ◌+◌, ◌-◌, ◌≤◌, ◌<◌, [], Ok, IfOk, OnErr, min, length, take, drop, vec_len, vec_capacity};
ghost use Rattle.ports.specs.Content.{WritesSome};
ghost use Rattle.ports.specs.Gathered.{Finishes, HoldsPiece, with_held};

use crate::{Failed, Sink, write_whole};
use std::alloc::{AllocError, Global};
use std::marker::Model;

// How many bytes are held at most: 64 KiB.
const ROOM: usize = 65536;

/// A sink over the sink `O`. A piece that fits behind what is held, 64 KiB at most, is held too, and no call is made
/// below. Where it does not, what is held is passed on first. It is seen as the sink below, the bytes held, and how
/// many it has room for.
#[derive(Drop)]
pub struct Gathering<O: Sink + Drop> {
    below: O,
    bytes: Vec<u8>,
    room: usize,
}

impl<O: Sink + Drop> Model for Gathering<O> {
    ghost use Rattle.std.specs.Prelude.{◌≤◌, vec_len, vec_capacity};
    ghost use Rattle.ports.specs.Gathered.{Gathered};

    ghost Value = { Gathered O };

    ghost view = { λ s. record { below = s.below; held = s.bytes.items; room = s.room } };

    ghost invariant = { λ s. (vec_len s.bytes ≤ s.room) × (s.room ≤ vec_capacity s.bytes) };
}

// Holds what fits of the front of a piece, and says how many bytes that is. No memory is asked for.
fn hold(bytes: &mut Vec<u8>, room: usize, piece: &[u8]) -> usize
    requires { (vec_len bytes.old ≤ room) × (room ≤ vec_capacity bytes.old) }
    ensures count { result ≡ min (length piece.now) (room - vec_len bytes.old) }
    ensures items { bytes.new.items ≡ bytes.old.items ++ take result piece.now }
    ensures room { (vec_len bytes.new ≤ room) × (room ≤ vec_capacity bytes.new) }
{
    let count = piece.len().min(room - bytes.len());
    bytes.extend_from_slice(&piece[..count]).unwrap();
    count
}

// Passes on the bytes in one call, and takes off those that it took. Where it failed they are all there.
fn pass_on<O: Sink>(below: &mut O, bytes: &mut Vec<u8>) -> Result<usize, Failed>
    ensures written { WritesSome bytes.old.items (O.told below.old) (O.told below.new) result }
    ensures left { IfOk result (λ n. bytes.new.items ≡ drop n bytes.old.items) }
    ensures less { IfOk result (λ n. vec_len bytes.new + n ≡ vec_len bytes.old) }
    ensures kept { OnErr result (bytes.new ≡ bytes.old) }
    ensures capacity { vec_capacity bytes.new ≡ vec_capacity bytes.old }
{
    let passed = below.write(bytes)?;
    bytes.copy_within(passed.., 0);
    bytes.truncate(bytes.len() - passed);
    Ok(passed)
}

impl<O: Sink + Drop> Gathering<O> {
    /// A sink over `out` that holds nothing. Room for 64 KiB is taken here, and no memory later. Where there is no
    /// memory it has no room, and passes every piece on as it comes.
    pub fn new(alloc: Global, out: O) -> Self
        ensures made { (result.below ≡ out) × (result.held ≡ []) }
        ensures room { (result.room ≡ 65536) ⊎ (result.room ≡ 0) }
        ensures told { ⟦<Gathering<O> as Sink>⟧.told result ≡ O.told out }
    {
        let (bytes, room) = match Vec::with_capacity(alloc, ROOM) {
            Ok(bytes) => (bytes, ROOM),
            Err(AllocError) => (Vec::new(alloc), 0),
        };
        Gathering {
            below: out,
            bytes,
            room,
        }
    }

    /// Passes on what is held, in as many calls as it takes, and gives back the sink below. With `Ok` that has all
    /// that was written here. After `Failed`, which comes only where a write below failed, it has a front of that,
    /// and the rest is lost. It takes no memory.
    pub fn finish(self) -> (O, Result<(), Failed>)
        ensures { Finishes (O.told self.below) (⟦<Gathering<O> as Sink>⟧.told self) (O.told result.0) result.1 }
    {
        let Gathering {
            mut below,
            bytes,
            ..
        } = self;
        let passed = write_whole(&mut below, &bytes);
        (below, passed)
    }
}

impl<O: Sink + Drop> Sink for Gathering<O> {
    ghost told = { λ s. with_held (O.told s.below) s.held };

    /// Holds a piece that fits behind what is held. Where it does not, what is held is passed on in one call below,
    /// and then as much of the front of the piece is held as fits; where nothing is held, a piece longer than the room
    /// is written below as it is. `Failed` comes where that one call failed, and all stays as it was.
    fn write(&mut self, piece: &[u8]) -> Result<usize, Failed>
        // As every sink.
        ensures every { WritesSome piece.now (with_held (O.told self.old.below) self.old.held) (with_held (O.told self.new.below) self.new.held) result }

        // A piece that fits makes no call below, and a call that failed leaves what is held.
        ensures held { length self.old.held + length piece.now ≤ self.old.room → HoldsPiece piece.now self.old self.new × (result ≡ Ok (length piece.now)) }
        ensures kept { OnErr result (self.new.held ≡ self.old.held) }
        ensures room { self.new.room ≡ self.old.room }

        // A piece longer than the room, where nothing is held, goes below as it is.
        ensures passed { self.old.held ≡ [] → self.old.room < length piece.now → WritesSome piece.now (O.told self.old.below) (O.told self.new.below) result }
        ensures none_held { self.old.held ≡ [] → self.old.room < length piece.now → self.new.held ≡ [] }
    {
        if piece.len() <= self.room - self.bytes.len() {
            return Ok(hold(&mut self.bytes, self.room, piece));
        }
        if self.bytes.is_empty() {
            return self.below.write(piece);
        }
        pass_on(&mut self.below, &mut self.bytes)?;
        Ok(hold(&mut self.bytes, self.room, piece))
    }
}
