// The least widening, with what shows it.
use atto::Nano;
use cert::{Chain, Execution};
use cert_check::What;

/// By how much a problem must be widened at least, so that an execution exists. What of it is widened stands beside.
#[derive(Drop)]
pub enum Widening {
    /// By `extra`, in ns or for rates in parts per billion: an execution of the problem that is widened by it, and,
    /// where it is above 0, a cycle of bounds, with the weights that they have where the problem is widened by 1 less,
    /// whose sum is negative. There is no cycle exactly where `extra` is 0.
    Least {
        extra: Nano,
        execution: Execution,
        cycle: Option<Chain>,
    },
    /// By no number below 2^62: a cycle of bounds, with the weights that they have where the problem is widened by 2^62 - 1,
    /// whose sum is negative.
    Never(Chain),
}

/// A widening, and what of the problem it widens.
#[derive(Drop)]
pub struct StatedWidening {
    /// The numbers of the problem that are widened, each by the same.
    pub what: What,
    /// By how much at least, or that no number heals, with what shows it.
    pub widening: Widening,
}
