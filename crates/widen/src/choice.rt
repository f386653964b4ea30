// Which widening is tried next.
ghost use Rattle.std.specs.Prelude.{◌≤◌, ◌<◌};

// By how much more it is farther each time, while no execution is known.
const FACTOR: u64 = 16;

/// Tries the low end, and something above it, by turns: the low end is the answer where the contradiction below it was the
/// last one, and what lies above looks for an execution in strides that grow, or halves what is left.
#[derive(Drop)]
pub struct Choice {
    above: bool,
    stride: u64,
}

impl Choice {
    pub fn new() -> Choice {
        Choice {
            above: false,
            stride: 1,
        }
    }

    /// The next widening to try, in ns, from `low` on and below `high`, which heals where `heals`.
    pub fn next(&mut self, low: u64, high: u64, heals: bool) -> u64
        requires { low < high }
        ensures from { low ≤ result }
        ensures below { result < high }
    {
        let above = self.above;
        self.above = !above;
        if !above {
            return low;
        }
        if heals {
            return low + (high - low) / 2;
        }
        let stride = self.stride;
        self.stride = stride.saturating_mul(FACTOR);
        low.saturating_add(stride).min(high - 1)
    }
}
