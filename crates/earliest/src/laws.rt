//! What is proved of graphs that grow, and of those from which arcs are withdrawn. The functions do nothing.
ghost use Rattle.std.specs.Prelude.{◌≡◌, ℕ, ℤ, List, [], ◌++◌, ◌∷◌, pos, length, true, false, slice_set, slice_index_or};
ghost use Rattle.problem_model.specs.declared.items.Node.{Node};
ghost use Rattle.sync_graph.specs.declared.arc.Arc.{Arc};
ghost use Rattle.sync_graph.specs.Graph.{GraphLists, IsGraph, arc_at, no_graph, with_node, with_arc};
ghost use Rattle.earliest.specs.Values.{IsEarliestOf, IsEarliestBut};
ghost use Rattle.earliest.specs.Withdrawn.{IsEarliestWith};

/// Without nodes there are no values; a node that is pushed has the value 0; and once an arc is pushed, the earliest
/// execution before is that of all arcs but the new one.
pub fn growth()
    ensures no_node { IsEarliestOf no_graph [] }
    ensures node { (g : GraphLists) (n : Node) (values : List ℤ) → IsGraph g → IsEarliestOf g values → IsEarliestOf (with_node g n) (values ++ pos 0 ∷ []) }
    ensures arc { (g : GraphLists) (a : Arc) (values : List ℤ) → IsGraph g → IsEarliestOf g values → IsEarliestBut (with_arc g a) (length g.arcs) values }
{}

/// The earliest execution of a graph is that of the graph after arcs were withdrawn, one after another, with these in
/// force as well: what `Earliest::withdraw` begins with.
pub fn removals()
    ensures none { (g : GraphLists) (values : List ℤ) → IsEarliestOf g values → IsEarliestWith g [] values }
    ensures one { (g h : GraphLists) → IsGraph g → IsGraph h → (k : ℕ) (removed : List Arc) (values : List ℤ)
        → h.nodes ≡ g.nodes → h.arcs ≡ g.arcs → h.in_force ≡ slice_set g.in_force k false → slice_index_or g.in_force k false ≡ true
        → IsEarliestWith g removed values → IsEarliestWith h (removed ++ arc_at g.arcs k ∷ []) values }
{}
