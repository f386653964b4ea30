//! What ends and orders say of the executions of a problem, one function for each subject. None of them does anything.

ghost use Rattle.std.specs.Prelude.{◌≡◌, ℕ, ◌*◌, ◌↔◌, ℤ, pos};
ghost use Rattle.problem_model.specs.declared.items.Node.{Node};
ghost use Rattle.problem_model.specs.declared.items.Node.TheVariants.{Reading};
ghost use Rattle.problem_model.specs.Problem.{ProblemLists};
ghost use Rattle.problem_model.specs.Bounds.{Times};
ghost use Rattle.row_pool.specs.declared.cell.Pair.{Pair};
ghost use Rattle.intervals.specs.declared.ends.End.{End};
ghost use Rattle.intervals.specs.declared.ends.End.TheVariants.{Unbounded};
ghost use Rattle.intervals.specs.declared.ends.Ends.{Ends};
ghost use Rattle.intervals.specs.declared.order.Order.{Order};
ghost use Rattle.intervals.specs.Ends.{ends_of, shifted};
ghost use Rattle.intervals.specs.Orders.{IsInterval, IsOrder};
ghost use Rattle.intervals.specs.Executions.{IsPairOf, time_difference, time_by, RisesPast, FallsPast, IsGreatestEnd, IsLeastEnd, AreEndsOf, IsOrderOf};

/// The ends of a pair are the least and the greatest difference over all executions. A time has one end above and one
/// below, which is unbounded exactly where executions pass every number on this side.
pub fn intervals()
    ensures ends { (p : ProblemLists) (from to : Node) (pair : Pair) → IsPairOf p from to pair → AreEndsOf p (time_difference from to) (ends_of pair) }
    ensures interval { (p : ProblemLists) (from to : Node) (pair : Pair) → IsPairOf p from to pair → IsInterval (ends_of pair) }
    ensures one_greatest { (p : ProblemLists) (time : Times → ℤ) (a b : End) → IsGreatestEnd p time a → IsGreatestEnd p time b → a ≡ b }
    ensures one_least { (p : ProblemLists) (time : Times → ℤ) (a b : End) → IsLeastEnd p time a → IsLeastEnd p time b → a ≡ b }
    ensures unbounded_above { (p : ProblemLists) (time : Times → ℤ) (e : Ends) → AreEndsOf p time e → (e.greatest ≡ Unbounded) ↔ RisesPast p time }
    ensures unbounded_below { (p : ProblemLists) (time : Times → ℤ) (e : Ends) → AreEndsOf p time e → (e.least ≡ Unbounded) ↔ FallsPast p time }
{}

/// The ends of an interval have one order. Those of a pair have an order exactly where it is that of the two nodes in all
/// executions, and the nodes have one.
pub fn orders()
    ensures of_ends { (e : Ends) (a b : Order) → IsInterval e → IsOrder e a → IsOrder e b → a ≡ b }
    ensures of_nodes { (p : ProblemLists) (from to : Node) (pair : Pair)
        → IsPairOf p from to pair → (o : Order)
        → IsOrder (ends_of pair) o ↔ IsOrderOf p from to o }
    ensures one { (p : ProblemLists) (from to : Node) (pair : Pair)
        → IsPairOf p from to pair → (a b : Order) → IsOrderOf p from to a → IsOrderOf p from to b
        → a ≡ b }
{}

/// The ends of a pair of a clock's reading and a node, later by the reading's stamp, are those of the node's time by this
/// reading.
pub fn source_times()
    ensures { (p : ProblemLists) (clock stamp : ℕ) (node : Node) (pair : Pair)
        → IsPairOf p (Reading clock stamp) node pair
        → AreEndsOf p (time_by clock stamp node) (shifted (pos (stamp * 1000000000)) (ends_of pair)) }
{}
