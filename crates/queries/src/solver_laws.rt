//! What is held of a graph that stands for a listed problem says of the problem. The functions do nothing.
ghost use Rattle.std.specs.Prelude.{◌≡◌, [], true};
ghost use Rattle.problem_model.specs.Problem.{ProblemLists};
ghost use Rattle.problem.specs.Listing.{Listed};
ghost use Rattle.solver.specs.Solver.{SolverLists};
ghost use Rattle.solver.specs.Solution.{IsSolutionBy};
ghost use Rattle.queries.specs.HeldAnswers.{HoldEarliest, HoldEarliestAlone, HoldValues, AreWrittenAsRun, HoldContradiction, IsWrittenAsCycle, ArePairs, FitPairs, StandByBounds};

/// Where no contradiction is held, the values of the listed nodes are the earliest execution of the problem.
pub fn executions()
    ensures earliest { HoldEarliest }
    ensures each { HoldEarliestAlone }
    ensures solved { (s : SolverLists) (l : Listed) (p : ProblemLists) → IsSolutionBy l p s → s.contradiction ≡ [] → s.earliest.is_solved ≡ true }
    ensures one_each { HoldValues }
    ensures written { AreWrittenAsRun }
{}

/// Where a contradiction is held, it is one of the problem, which then has no execution, and what is written of it by the
/// listing is its certificate.
pub fn contradictions()
    ensures held { HoldContradiction }
    ensures written { IsWrittenAsCycle }
{}

/// Where no contradiction is held, greatest differences of two nodes over the executions of the graph are those over the
/// executions of the problem, and below 2^120 in absolute value.
pub fn pairs()
    ensures pair { ArePairs }
    ensures fits { FitPairs }
{}

/// A graph that has the nodes of a problem in their order, and as its arcs the bounds of the short list in any order, stands
/// for the problem as it lists itself.
pub fn own_graphs()
    ensures { StandByBounds }
{}
