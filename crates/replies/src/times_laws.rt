// What is true of the times of all events.
ghost use Rattle.std.specs.Prelude.{◌≡◌, ℕ, List};
ghost use Rattle.problem_model.specs.Problem.{ProblemLists};
ghost use Rattle.queries.specs.Replies.{HasReading};
ghost use Rattle.replies.specs.AllTimes.{AreTimesBy, AreEndsSince, IsTimesText};

/// A law, which does nothing when it runs: the events of a problem have one text of their times by a clock that has a
/// reading, and one of the real time from an event to each.
pub fn times_are_one()
    ensures by_clock { (p : ProblemLists) (clock : ℕ) (a b : List ℕ) → HasReading p clock → IsTimesText p (AreTimesBy p clock) a → IsTimesText p (AreTimesBy p clock) b → a ≡ b }
    ensures since { (p : ProblemLists) (first : ℕ) (a b : List ℕ) → IsTimesText p (AreEndsSince p first) a → IsTimesText p (AreEndsSince p first) b → a ≡ b }
{}
