// The certificate of a contradiction.
ghost use Rattle.std.specs.Prelude.{All, map};
ghost use Rattle.std.specs.List.{flat_map};
ghost use Rattle.ports.specs.Content.{Writes};
ghost use Rattle.cert.specs.Listed.{HasNames, listed_step, listed_cycle};

use cert::write_step;
use ports::{Failed, Sink, write_whole};
use problem::Listing;
use problem_model::Bound;
use sync_graph::Arc;

// Writes the line of a step.
pub(crate) fn write_arc<N: Listing, O: Sink>(
    names: &N,
    arc: &Arc,
    out: &mut O,
) -> Result<(), Failed>
    requires named { HasNames (N.listed names.now) arc.now.name }
    ensures { Writes (listed_step (N.listed names.now) (arc.now.name, arc.now.weight)) (O.told out.old) (O.told out.new) result }
{
    let name: Bound = arc.name;
    write_step(names, &name, arc.weight, out)
}

// Writes the lines of the steps.
fn write_steps<N: Listing, O: Sink>(names: &N, cycle: &[Arc], out: &mut O) -> Result<(), Failed>
    requires named { All (λ a. HasNames (N.listed names.now) a.name) cycle.now }
    ensures { Writes (flat_map (listed_step (N.listed names.now)) (map (λ a. (a.name, a.weight)) cycle.now)) (O.told out.old) (O.told out.new) result }
{
    for arc in cycle {
        write_arc(names, arc, out)?;
    }
    Ok(())
}

/// Writes the certificate that no execution obeys the bounds: the arcs of a closed chain with a negative sum, in their
/// order, each with the name of its bound and its weight in ns. It takes no memory. After `Failed`, which comes only
/// where the sink's count of faults rose, some front of the certificate is written.
pub fn write_cycle<N: Listing, O: Sink>(names: &N, cycle: &[Arc], out: &mut O) -> Result<(), Failed>
    requires named { All (λ a. HasNames (N.listed names.now) a.name) cycle.now }
    ensures { Writes (listed_cycle (N.listed names.now) (map (λ a. (a.name, a.weight)) cycle.now)) (O.told out.old) (O.told out.new) result }
{
    write_whole(out, b"certificate 1\ncycle\n")?;
    write_steps(names, cycle, out)?;
    write_whole(out, b"end\n")
}
