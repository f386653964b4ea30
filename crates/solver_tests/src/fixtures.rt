// Problems that several modules use, and what solving one finds.
ghost use Rattle.std.specs.Prelude.{◌≡◌, ◌<◌, [], true, IfOk};
ghost use Rattle.row_pool.specs.Pool.{free_rows};
ghost use Rattle.solver.specs.Current.{IsCurrent};
ghost use Rattle.solver.specs.Solution.{IsSolution};

use atto::Steps;
use problem::Problem;
use problem_solver::solve;
use solver::Solver;
use std::alloc::{AllocError, Global};
use std::marker::Brand;
use std::sync::ledger::{Blank, Ledger};

// The same logs as those of LATE_LOGS_PROBLEM, but each begins with a receive of what the other one sends last.
pub(crate) const CIRCLE_PROBLEM: &str =
    "problem 1\nclock a 0 0 0 0\nclock b 0 0 3 7\nevent a#1 a 100\nevent a#2 a 180\nevent b#1 b 250\nevent b#2 b 300\n\
    message a#2 b#1 10 20\nmessage b#2 a#1 10 20\nend\n";

// One event, whose clock may be early or late.
pub(crate) const ALONE_PROBLEM: &str = "problem 1\nclock a 0 0 2 3\nevent p a 7\nend\n";

// What solving a problem holds, with two rows to lend and with its steps counted by this ledger.
fn solve_counted<L: Ledger>(alloc: Global, p: &Problem, blank: Blank) -> Result<Solver, AllocError>
    requires { (blank.name ≡ L.name) × (blank.parts ≡ L.parts) × (0 < L.parts) }
    ensures solution { IfOk result (λ s. IsSolution p.now s) }
    ensures free { IfOk result (λ s. free_rows s.pool ≡ 2) }
{
    let mut steps = Steps::<L>::open(blank);
    solve(alloc, p, 2, &mut steps)
}

// What solving a problem holds, with two rows to lend.
pub(crate) fn solve_alone(alloc: Global, p: &Problem) -> Result<Solver, AllocError>
    ensures solution { IfOk result (λ s. IsSolution p.now s) }
    ensures free { IfOk result (λ s. free_rows s.pool ≡ 2) }
{
    solve_counted::<Brand>(alloc, p, Blank::new(1))
}

// Whether there is an execution.
pub(crate) fn is_solved(s: &Solver) -> bool
    requires { IsCurrent s.now }
    ensures { result ≡ true → s.now.contradiction ≡ [] }
{
    s.contradiction().is_empty()
}
