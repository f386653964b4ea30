// What is true of every reply.
ghost use Rattle.std.specs.Prelude.{◌≡◌, ℕ, List};
ghost use Rattle.problem_model.specs.Problem.{ProblemLists};
ghost use Rattle.problem_model.specs.Bounds.{Times, IsExecution};
ghost use Rattle.queries.specs.Replies.{HasReading, IsIntervalLine, IsOrderLine, IsTimeLine, Replies};

/// A law, which does nothing when it runs: two events of a problem have one line of their interval and, where some
/// execution obeys the bounds, one line of their order; an event has one line of its time by a clock that has a
/// reading. There each question has one reply, and no contradiction is one.
pub fn replies_are_one()
    ensures interval { (p : ProblemLists) (first second : ℕ) (a b : List ℕ) → IsIntervalLine p first second a → IsIntervalLine p first second b → a ≡ b }
    ensures order { (p : ProblemLists) (first second : ℕ) (a b : List ℕ) → ((x : Times) × IsExecution p x) → IsOrderLine p first second a → IsOrderLine p first second b → a ≡ b }
    ensures time { (p : ProblemLists) (clock event : ℕ) (a b : List ℕ) → HasReading p clock → IsTimeLine p clock event a → IsTimeLine p clock event b → a ≡ b }
    ensures interval_reply { (p : ProblemLists) (first second : ℕ) (text : List ℕ) → ((x : Times) × IsExecution p x) → Replies p (IsIntervalLine p first second) text → IsIntervalLine p first second text }
    ensures order_reply { (p : ProblemLists) (first second : ℕ) (text : List ℕ) → ((x : Times) × IsExecution p x) → Replies p (IsOrderLine p first second) text → IsOrderLine p first second text }
    ensures time_reply { (p : ProblemLists) (clock event : ℕ) (text : List ℕ) → ((x : Times) × IsExecution p x) → Replies p (IsTimeLine p clock event) text → IsTimeLine p clock event text }
{}
