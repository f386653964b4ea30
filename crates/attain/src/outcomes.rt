//! What is proved of outcomes. The function does nothing.

ghost use Rattle.std.specs.Prelude.{ℕ, ℤ, List, ◌⊎◌};
ghost use Rattle.problem_model.specs.Problem.{ProblemLists, IsProblem};
ghost use Rattle.problem_model.specs.Bounds.{Times};
ghost use Rattle.problem_model.specs.Executions.{Arc, AreWithin};
ghost use Rattle.problem_model.specs.Earliest.{IsEarliest};
ghost use Rattle.problem_model.specs.Paths.{IsContradiction};
ghost use Rattle.problem_model.specs.Solutions.{IsEarliestExecution, WeighedBound, IsContradictionOf};

/// A law, which does nothing when it runs: arcs between nodes have an earliest execution or a contradiction, and so each
/// problem has one or the other.
pub fn each_has_an_outcome()
    ensures arcs { (nodes : ℕ) (arcs : List Arc) → AreWithin nodes arcs
        → ((xs : List ℤ) × IsEarliest nodes arcs xs) ⊎ ((steps : List Arc) × IsContradiction arcs steps) }
    ensures problems { (p : ProblemLists) → IsProblem p
        → ((x : Times) × IsEarliestExecution p x) ⊎ ((steps : List WeighedBound) × IsContradictionOf p steps) }
{}
