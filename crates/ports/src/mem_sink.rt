// A sink in memory.
ghost use Rattle.std.specs.Prelude.{◌≡◌, ◌↔◌, ◌⊎◌, ◌≤◌, ◌<◌, ◌+◌, ◌-◌, ◌++◌, [], Some, IsErr, IfOk, OnErr, length, min, take, vec_len, vec_capacity};
ghost use Rattle.ports.specs.Content.{WritesSome};
ghost use Rattle.ports.specs.Memory.{CallFails, no_calls, next_call, failed_call};

use crate::calls::Calls;
use crate::{Failed, Sink};
use std::alloc::{AllocError, Global};
use std::marker::Model;

/// A sink that keeps what is written, for tests: it has room for so many bytes, takes at most so
/// many in a call, and fails at chosen calls. It is seen as the bytes written, that room, that
/// most, and its calls.
#[derive(Drop)]
pub struct MemSink {
    bytes: Vec<u8>,
    room: u32,
    most: u32,
    calls: Calls,
}

impl Model for MemSink {
    ghost use Rattle.std.specs.Prelude.{◌≤◌, ◌<◌, vec_len, vec_capacity};
    ghost use Rattle.ports.specs.Memory.{SinkState};

    ghost Value = { SinkState };

    ghost view = { λ s. record { held = s.bytes.items; room = s.room; most = s.most; calls = s.calls } };

    ghost invariant = { λ s. (vec_len s.bytes ≤ s.room) × (s.room ≤ vec_capacity s.bytes) × (0 < s.most) };
}

impl MemSink {
    /// An empty sink with room for `room` bytes that takes at most `most` bytes of a piece in a call,
    /// none only of an empty piece. It fails at the calls that `fails` lists by number, the first
    /// being 1, and where a piece has bytes and no room is left. All its memory is taken here.
    pub fn new(alloc: Global, room: u32, most: u32, fails: &[u32]) -> Result<MemSink, AllocError>
        requires { 0 < most }
        ensures { IfOk result (λ s. s ≡ record { held = []; room = room; most = most; calls = no_calls fails.now }) }
    {
        Ok(MemSink {
            bytes: Vec::with_capacity(alloc, room as usize)?,
            room,
            most,
            calls: Calls::new(alloc, fails)?,
        })
    }

    /// The bytes written so far.
    pub fn bytes(&self) -> &[u8]
        ensures { result.now ≡ self.now.held }
    {
        &self.bytes
    }
}

// Appends a piece within the capacity, so that no memory is asked for.
fn append(bytes: &mut Vec<u8>, piece: &[u8])
    requires { vec_len bytes.old + length piece.now ≤ vec_capacity bytes.old }
    ensures items { bytes.new.items ≡ bytes.old.items ++ piece.now }
    ensures len { vec_len bytes.new ≡ vec_len bytes.old + length piece.now }
    ensures capacity { vec_capacity bytes.new ≡ vec_capacity bytes.old }
{
    for byte in piece {
        bytes.push_reserved(*byte);
    }
}

impl Sink for MemSink {
    ghost told = { λ s. record { written = Some s.held; faults = s.calls.failed } };

    fn write(&mut self, piece: &[u8]) -> Result<usize, Failed>
        // As every sink.
        ensures every { WritesSome piece.now (record { written = Some self.old.held; faults = self.old.calls.failed }) (record { written = Some self.new.held; faults = self.new.calls.failed }) result }

        // It fails at the chosen calls and without room alone, and takes what it can, up to its most.
        ensures fails { IsErr result ↔ (CallFails self.old.calls ⊎ ((0 < length piece.now) × (self.old.room ≤ length self.old.held))) }
        ensures number { IfOk result (λ n. n ≡ min (min (length piece.now) self.old.most) (self.old.room - length self.old.held)) }
        ensures ok { IfOk result (λ n. self.new ≡ record { held = self.old.held ++ take n piece.now; room = self.old.room; most = self.old.most; calls = next_call self.old.calls }) }
        ensures err { OnErr result (self.new ≡ record { held = self.old.held; room = self.old.room; most = self.old.most; calls = failed_call self.old.calls }) }
    {
        self.calls.next()?;
        let room = self.room as usize - self.bytes.len();
        if room == 0 && !piece.is_empty() {
            self.calls.fail();
            return Err(Failed);
        }
        let n = piece.len().min(self.most as usize).min(room);
        append(&mut self.bytes, &piece[..n]);
        Ok(n)
    }
}
