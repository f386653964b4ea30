// The messages of a trial, one in each round.
ghost use Rattle.std.specs.Prelude.{◌≡◌, ◌+◌, ◌<◌};
ghost use Rattle.trial.specs.Rounds.{message};

use crate::draws::Draws;
use std::marker::Model;

/// How many hosts there are.
pub const HOSTS: u32 = 8;

/// A message from one host to another, with its number, which counts from 1, and the times in ns that their clocks show.
#[derive(Clone, Copy)]
pub struct Message {
    /// Its number, from 1 on.
    pub number: u32,
    /// The number of the host that sends, from 0 on.
    pub sender: u32,
    /// When it is sent, in ns of the sender's clock.
    pub sent: u64,
    /// The number of the host that receives, from 0 on.
    pub receiver: u32,
    /// When it is received, in ns of the receiver's clock.
    pub received: u64,
}

/// A trial after some of its rounds. It is seen as the number that it began with and how many rounds there were.
#[derive(Drop)]
pub struct Course {
    seed: u32,
    draws: Draws,
    offsets: [u64; 8],
    time: u64,
    rounds: u32,
}

impl Model for Course {
    ghost use Rattle.std.specs.Prelude.{◌≡◌, ◌+◌, ◌*◌, ◌<◌, ℕ, slice_index_or};
    ghost use Rattle.trial.specs.Draws.{state_after};
    ghost use Rattle.trial.specs.Rounds.{Course, offset, time_of};

    ghost Value = { Course };

    ghost view = { λ c. record { seed = c.seed; rounds = c.rounds } };

    ghost invariant = { λ c. (c.draws.state ≡ state_after c.seed (4 * c.rounds + 8)) × (c.time ≡ time_of c.seed c.rounds) × ((host : ℕ) → host < 8 → slice_index_or c.offsets host 0 ≡ offset c.seed host) };
}

impl Course {
    /// A trial before its first round, by the number that its draws begin with.
    pub fn begin(seed: u32) -> Course
        ensures { result ≡ record { seed = seed; rounds = 0 } }
    {
        let mut draws = Draws {
            state: u64::from(seed),
        };
        let mut offsets = [0; 8];
        for host in 0..8 {
            offsets[host] = draws.below(1_000_000_000);
        }
        Course {
            seed,
            draws,
            offsets,
            time: 1_000_000_000,
            rounds: 0,
        }
    }

    /// The message of the next round. There are at most 2,000 rounds.
    pub fn next_message(&mut self) -> Message
        requires { self.old.rounds < 2000 }
        ensures message { result ≡ message self.old.seed (self.old.rounds + 1) }
        ensures course { self.new ≡ record { seed = self.old.seed; rounds = self.old.rounds + 1 } }
    {
        self.rounds += 1;
        self.time += 1 + self.draws.below(100_000);
        let sender = self.draws.below(8) as u32;
        let receiver = (sender + 1 + self.draws.below(7) as u32) % HOSTS;
        let delay = 1000 + self.draws.below(99_001);
        Message {
            number: self.rounds,
            sender,
            sent: self.offsets[sender as usize] + self.time,
            receiver,
            received: self.offsets[receiver as usize] + self.time + delay,
        }
    }
}
