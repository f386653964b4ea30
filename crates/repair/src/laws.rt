// What kept rows are once a graph or a pool has grown. Nothing is done here.
ghost use Rattle.std.specs.Prelude.{ℕ, length};
ghost use Rattle.problem_model.specs.declared.items.Node.{Node};
ghost use Rattle.sync_graph.specs.declared.arc.Arc.{Arc};
ghost use Rattle.sync_graph.specs.Graph.{GraphLists, IsGraph, with_node, with_arc};
ghost use Rattle.row_pool.specs.Pool.{Pool, grown};
ghost use Rattle.repair.specs.Slots.{KeptRows, AreOwnRows, AreRowsOf, AreRowsBut};

/// The rows of a graph are those of the graph with a node more, and those of the graph with an arc more without this arc.
pub fn rows_of_a_grown_graph()
    ensures node { (g : GraphLists) (n : Node) (kept : KeptRows) (pool : Pool) → AreRowsOf g kept pool → AreRowsOf (with_node g n) kept pool }
    ensures arc { (g : GraphLists) (a : Arc) (kept : KeptRows) (pool : Pool)
        → IsGraph g → AreRowsOf g kept pool
        → AreRowsBut (with_arc g a) (length g.arcs) kept pool }
{}

/// The rows of slots in a pool are so in the pool that has grown.
pub fn rows_in_a_grown_pool()
    ensures own { (kept : KeptRows) (pool : Pool) (count nodes : ℕ) → AreOwnRows kept pool → AreOwnRows kept (grown pool count nodes) }
    ensures rows { (g : GraphLists) (kept : KeptRows) (pool : Pool) (count nodes : ℕ)
        → AreOwnRows kept pool → AreRowsOf g kept pool
        → AreRowsOf g kept (grown pool count nodes) }
{}
