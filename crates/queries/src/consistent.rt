// Whether a problem has an execution.
ghost use Rattle.problem_model.specs.Problem.{ProblemLists};
ghost use Rattle.problem.specs.Listing.{Listed};
ghost use Rattle.solver.specs.Solution.{IsSolutionBy};
ghost use Rattle.queries.specs.Consistent.{IsConsistent};

use crate::{contradictions, executions};
use solver::Solver;

/// Whether some execution obeys all bounds of the problem of which the engine holds the answer.
pub fn is_consistent(solver: &Solver) -> bool
    ensures { (l : Listed) (p : ProblemLists) → IsSolutionBy l p solver.now → IsConsistent p result }
{
    // They tell what the values of nodes are, and what a contradiction shows.
    executions();
    contradictions();
    solver.earliest().solved()
}
