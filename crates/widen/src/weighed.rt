// Arcs with the weights that bounds have in a problem that is widened.
ghost use Rattle.std.specs.Prelude.{◌≡◌, ◌<◌, ◌^◌, unsigned_abs, map, true, All, IfOk};
ghost use Rattle.cert_check.specs.Widened.{widened};
ghost use Rattle.widen.specs.Weighed.{IsNameOf, IsWeighed, unweighed};

use atto::Nano;
use cert_check::{What, declared_in};
use problem::Problem;
use std::alloc::{AllocError, Global};
use sync_graph::{Arc, Graph};

// The arc with the weight that its bound has in the problem that is widened.
fn arc_in(p: &Problem, what: What, extra: Nano, a: Arc) -> Arc
    requires { IsNameOf p.now a }
    ensures same { unweighed result ≡ unweighed a }
    ensures weighed { IsWeighed (widened what p.now extra) result }
    ensures small { unsigned_abs result.weight < 2 ^ 93 }
{
    let bound = declared_in(p, what, extra, &a.name);
    Arc {
        from: a.from,
        to: a.to,
        weight: bound.weight,
        name: a.name,
    }
}

/// The arcs, whose names are those of bounds of the problem, with the weights that these have where it is widened.
pub fn arcs_in(
    alloc: Global,
    p: &Problem,
    what: What,
    extra: Nano,
    arcs: &[Arc],
) -> Result<Vec<Arc>, AllocError>
    requires { All (IsNameOf p.now) arcs.now }
    ensures same { IfOk result (λ others. map unweighed others.items ≡ map unweighed arcs.now) }
    ensures weighed { IfOk result (λ others. All (IsWeighed (widened what p.now extra)) others.items) }
    ensures small { IfOk result (λ others. All (λ a. unsigned_abs a.weight < 2 ^ 93) others.items) }
{
    let mut others = Vec::new(alloc);
    for arc in arcs {
        others.push(arc_in(p, what, extra, *arc))?;
    }
    Ok(others)
}

/// The graph with the weights that bounds have where the problem is widened: the same nodes, and the same arcs but for their
/// weights, with the same numbers, all in force.
pub fn widened_graph(
    alloc: Global,
    p: &Problem,
    what: What,
    extra: Nano,
    g: &Graph,
) -> Result<Graph, AllocError>
    requires { All (IsNameOf p.now) g.now.arcs }
    ensures nodes { IfOk result (λ h. h.nodes ≡ g.now.nodes) }
    ensures same { IfOk result (λ h. map unweighed h.arcs ≡ map unweighed g.now.arcs) }
    ensures weighed { IfOk result (λ h. All (IsWeighed (widened what p.now extra)) h.arcs) }
    ensures in_force { IfOk result (λ h. h.in_force ≡ map (λ a. true) h.arcs) }
{
    // It tells what the lists of the graph hold.
    g.exact();
    let mut h = g.without_arcs(alloc)?;
    for k in 0..g.arcs() {
        h.push_arc(arc_in(p, what, extra, g.arc(k)))?;
    }
    Ok(h)
}
