// Laws of bounds and nodes.
ghost use Rattle.std.specs.Prelude.{◌≡◌, ◌↔◌, ℕ, ℤ, List, All, Contains, length};
ghost use Rattle.problem_model.specs.Problem.{ProblemLists, IsChained};
ghost use Rattle.problem_model.specs.Bounds.{Times, IsExecution};
ghost use Rattle.problem_model.specs.Nodes.{Reading, AreReadings, nodes_of, Lists};
ghost use Rattle.problem_model.specs.ShortList.{ObeysNamed, short_list, follow_bounds};
ghost use Rattle.problem_model.specs.Nearest.{IsLastOn, IsFirstOn, IsNearestBefore};
ghost use Rattle.problem_model.specs.declared.items.Bound.TheVariants as bounds;

/// A law, which does nothing when it runs. Where follows make chains, real times obey every declared bound, between
/// every two readings of a clock and of clocks that come after each other, exactly where they obey the bounds of the
/// short list, between neighbouring readings.
pub fn short_list_suffices()
    ensures { (p : ProblemLists) (readings : List Reading) (x : Times) → IsChained p → AreReadings p readings → (All (ObeysNamed p x) (short_list p readings) ↔ IsExecution p x) }
{}

/// A law, which does nothing when it runs. The readings of a problem are one list, and each list of one number per node
/// is the list of some real times.
pub fn nodes_are_one_list()
    ensures readings { (p : ProblemLists) (readings : List Reading) (others : List Reading) → AreReadings p readings → AreReadings p others → readings ≡ others }
    ensures times { (p : ProblemLists) (readings : List Reading) (values : List ℤ) → AreReadings p readings → length values ≡ length (nodes_of p readings) → (x : Times) × Lists p x values }
{}

/// A law, which does nothing when it runs. The follows of the short list are those of the first reading of a clock and the
/// last reading of the nearest clock before it that has one.
pub fn follows_join_neighbours()
    ensures { (p : ProblemLists) (readings : List Reading) (c : ℕ) (s : ℕ) (d : ℕ) (t : ℕ) → IsChained p → AreReadings p readings
        → (Contains (follow_bounds p.follows readings 0 p.clocks) (bounds.Follow c s d t) ↔ (IsNearestBefore p c d × IsLastOn p c s × IsFirstOn p d t)) }
{}
