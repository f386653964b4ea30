// What a certificate shows of a problem.
use crate::chain::Chain;
use crate::execution::Execution;
use atto::Units;

/// One end of the interval of the differences of two events' real times over all executions: where it is, or that there is
/// none.
#[derive(Drop)]
pub enum EndProof {
    /// The end is `value`, in units of 1e-9 ns: the weights along the path of bounds let no execution have a difference
    /// beyond it, and this execution has it.
    At {
        value: Units,
        path: Chain,
        execution: Execution,
    },
    /// There is no end: the clocks inside a cut, by their places in rising order, with an execution to shift from.
    Unbounded {
        inside: Vec<u32>,
        execution: Execution,
    },
}

/// What shows that a problem has no execution, that it has one, or where the differences of two events' real times end.
#[derive(Drop)]
pub enum Cert {
    /// No execution exists: a cycle of bounds with a negative sum of weights.
    Cycle(Chain),
    /// An execution exists: this one.
    Run(Execution),
    /// The ends of the interval of x(q) - x(p), for two events by their places.
    Ends {
        p: u32,
        q: u32,
        upper: EndProof,
        lower: EndProof,
    },
}
