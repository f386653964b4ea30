// A source in memory.
ghost use Rattle.std.specs.Prelude.{◌≡◌, ◌↔◌, ◌≤◌, ◌<◌, Some, IsErr, IfOk, OnErr, length, min, drop};
ghost use Rattle.ports.specs.Content.{TakesSome};
ghost use Rattle.ports.specs.Memory.{CallFails, no_calls, next_call, failed_call};

use crate::calls::Calls;
use crate::{Failed, Source};
use std::alloc::{AllocError, Global};
use std::marker::Model;

/// A source of given bytes, for tests: it gives at most so many in a call, and fails at chosen
/// calls. It is seen as the bytes left, that most, and its calls.
#[derive(Drop)]
pub struct MemSource {
    bytes: Vec<u8>,
    at: usize,
    most: u32,
    calls: Calls,
}

impl Model for MemSource {
    ghost use Rattle.std.specs.Prelude.{◌≤◌, ◌<◌, drop, length};
    ghost use Rattle.ports.specs.Memory.{SourceState};

    ghost Value = { SourceState };

    ghost view = { λ s. record { left = drop s.at s.bytes.items; most = s.most; calls = s.calls } };

    ghost invariant = { λ s. (s.at ≤ length s.bytes.items) × (0 < s.most) };
}

impl MemSource {
    /// A source of `bytes` that gives at most `most` of them in a call, none only at the end or for
    /// an empty buffer. It fails exactly at the calls that `fails` lists by number, the first being 1.
    pub fn new(
        alloc: Global,
        bytes: &[u8],
        most: u32,
        fails: &[u32],
    ) -> Result<MemSource, AllocError>
        requires { 0 < most }
        ensures { IfOk result (λ s. s ≡ record { left = bytes.now; most = most; calls = no_calls fails.now }) }
    {
        Ok(MemSource {
            bytes: Vec::from_slice(alloc, bytes)?,
            at: 0,
            most,
            calls: Calls::new(alloc, fails)?,
        })
    }
}

impl Source for MemSource {
    ghost told = { λ s. record { left = Some s.left; faults = s.calls.failed } };

    fn read(&mut self, buf: &mut [u8]) -> Result<usize, Failed>
        // As every source.
        ensures every { TakesSome (record { left = Some self.old.left; faults = self.old.calls.failed }) (record { left = Some self.new.left; faults = self.new.calls.failed }) buf.old buf.new result }

        // It fails at the chosen calls alone, and gives what there is, up to its most.
        ensures fails { IsErr result ↔ CallFails self.old.calls }
        ensures given { IfOk result (λ n. n ≡ min (min (length self.old.left) (length buf.old)) self.old.most) }
        ensures behind { IfOk result (λ n. drop n buf.new ≡ drop n buf.old) }
        ensures ok { IfOk result (λ n. self.new ≡ record { left = drop n self.old.left; most = self.old.most; calls = next_call self.old.calls }) }
        ensures err { OnErr result (self.new ≡ record { left = self.old.left; most = self.old.most; calls = failed_call self.old.calls }) }
        ensures untouched { OnErr result (buf.new ≡ buf.old) }
    {
        self.calls.next()?;
        let left = &self.bytes[self.at..];
        let n = left.len().min(buf.len()).min(self.most as usize);
        buf[..n].copy_from_slice(&left[..n]);
        self.at += n;
        Ok(n)
    }
}
