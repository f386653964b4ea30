// The search by which kept rows are made.
ghost use Rattle.std.specs.Prelude.{◌≡◌, true, false, MatchOption};
ghost use Rattle.earliest.specs.Values.{IsEarliestOf};
ghost use Rattle.solver.specs.Searches.{search_from};

use distances::{Search, Side};
use earliest::Earliest;
use sync_graph::Graph;

/// A search from nodes. It is `None` where there is no execution, and only there.
pub fn search_of<'a>(graph: &'a Graph, earliest: &'a Earliest) -> Option<Search<'a>>
    requires { earliest.now.is_solved ≡ true → IsEarliestOf graph.now earliest.now.values }
    ensures { MatchOption result (earliest.now.is_solved ≡ false) (λ search. (earliest.now.is_solved ≡ true) × (search ≡ search_from graph.now earliest.now)) }
{
    if !earliest.solved() {
        return None;
    }
    Some(Search::new(graph, earliest, Side::From))
}
