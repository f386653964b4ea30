// What solving a graph found.
use earliest::Earliest;
use sync_graph::Arc;

/// What solving a graph found.
#[derive(Drop)]
pub enum GraphSolution {
    /// There is an execution, and this is the earliest one, one value for each node.
    Execution(Earliest),
    /// There is none: a closed chain of arcs in force with a negative sum, at most as many as there are nodes.
    Contradiction(Vec<Arc>),
}
