// What is known while the least widening is searched for.
ghost use Rattle.std.specs.Prelude.{◌≡◌, ◌≤◌, ◌<◌, ◌-◌, ◌^◌};
ghost use Rattle.problem_model.specs.Problem.{ProblemLists};
ghost use Rattle.cert_check.specs.declared.what.What.{What};
ghost use Rattle.widen.specs.Found.{FindsWidening};
ghost use Rattle.widen.specs.Search.{IsTried, IsKnown};

use crate::tried::Tried;
use crate::widening::Widening;
use atto::Nano;
use cert::{Chain, Execution};

/// No widening below `low` heals, and one by `high` does where there is an execution.
#[derive(Drop)]
pub struct Known {
    pub low: u64,
    /// The contradiction where the problem is widened by 1 less than `low`; none where that is 0.
    pub below: Option<Chain>,
    /// At most 2^62.
    pub high: u64,
    /// The earliest execution where the problem is widened by `high`.
    pub run: Option<Execution>,
}

/// Nothing is known yet.
pub fn nothing_known() -> Known
    ensures known { (what : What) (p : ProblemLists) → IsKnown what p result }
    ensures low { result.low ≡ 0 }
    ensures high { result.high ≡ 2 ^ 62 }
{
    Known {
        low: 0,
        below: None,
        high: 1 << 62,
        run: None,
    }
}

/// What is known once a widening between both ends was tried. The ends come closer.
pub fn narrow(known: &mut Known, extra: u64, tried: Tried)
    requires from { known.old.low ≤ extra }
    requires before { extra < known.old.high }
    requires tried { (what : What) × (p : ProblemLists) × IsTried what p extra tried }
    ensures known { (what : What) (p : ProblemLists) → IsKnown what p known.old → IsTried what p extra tried → IsKnown what p known.new }
    ensures closer { known.new.high - known.new.low < known.old.high - known.old.low }
{
    match tried {
        Tried::Run(execution) => {
            known.high = extra;
            known.run = Some(execution);
        }
        Tried::Cycle { last, cycle } => {
            known.low = last + 1;
            known.below = Some(cycle);
        }
    }
}

/// A widening in range.
pub fn nano(extra: u64) -> Nano
    requires { extra < 2 ^ 62 }
    ensures { result ≡ extra }
{
    match Nano::new(extra) {
        Some(extra) => extra,
        None => unreachable!(),
    }
}

/// The least widening, once nothing is left between both ends.
pub fn concluded(known: Known) -> Widening
    requires done { known.high ≤ known.low }
    requires known { (what : What) × (p : ProblemLists) × IsKnown what p known }
    ensures { (what : What) (p : ProblemLists) → IsKnown what p known → FindsWidening what p result }
{
    let (low, below, run) = (known.low, known.below, known.run);
    match run {
        Some(execution) => Widening::Least {
            extra: nano(low),
            execution,
            cycle: below,
        },
        None => match below {
            Some(cycle) => Widening::Never(cycle),
            None => unreachable!(),
        },
    }
}
