// What a widening that was tried shows.
use cert::{Chain, Execution};

/// What trying one widening found.
#[derive(Drop)]
pub enum Tried {
    /// The earliest execution of the problem that is so widened.
    Run(Execution),
    /// A contradiction that is there up to this widening, with the weights that it has there.
    Cycle { last: u64, cycle: Chain },
}
