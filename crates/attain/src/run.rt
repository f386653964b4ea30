// The certificate of an execution.
ghost use Rattle.std.specs.Prelude.{◌≡◌, ◌<◌, true, All, length, slice_get, Some};
ghost use Rattle.ports.specs.Content.{Writes};
ghost use Rattle.problem_model.specs.Executions.{at};
ghost use Rattle.problem.specs.Listing.{listed_nodes};
ghost use Rattle.cert.specs.Listed.{listed_values, listed_run};

use cert::write_value;
use earliest::Earliest;
use ports::{Failed, Sink, write_whole};
use problem::Listing;

// The number of the node at a place: the events in their order, then the readings.
pub(crate) fn node_at<N: Listing>(names: &N, place: u32) -> u32
    requires { place < length (listed_nodes (N.listed names.now)) }
    ensures { slice_get (listed_nodes (N.listed names.now)) place ≡ Some result }
{
    let events = names.event_count();
    if place < events {
        return names.event_at(place).1;
    }
    names.reading_at(place - events).2
}

// How many nodes are listed.
pub(crate) fn node_count<N: Listing>(names: &N) -> u32
    ensures { result ≡ length (listed_nodes (N.listed names.now)) }
{
    names.event_count() + names.reading_count()
}

// Writes the lines of the nodes.
pub(crate) fn write_values<N: Listing, O: Sink>(
    names: &N,
    e: &Earliest,
    out: &mut O,
) -> Result<(), Failed>
    requires solved { e.now.is_solved ≡ true }
    requires one_each { All (λ k. k < length e.now.values) (listed_nodes (N.listed names.now)) }
    ensures { Writes (listed_values (N.listed names.now) (at e.now.values)) (O.told out.old) (O.told out.new) result }
{
    for place in 0..node_count(names) {
        let value = e.value(node_at(names, place));
        write_value(names, place, value, out)?;
    }
    Ok(())
}

/// Writes the certificate of an execution: the value of each listed node, in units of 1e-9 ns, as ns text. It takes no
/// memory. After `Failed`, which comes only where the sink's count of faults rose, some front of the certificate is
/// written.
pub fn write_run<N: Listing, O: Sink>(names: &N, e: &Earliest, out: &mut O) -> Result<(), Failed>
    requires solved { e.now.is_solved ≡ true }
    requires one_each { All (λ k. k < length e.now.values) (listed_nodes (N.listed names.now)) }
    ensures { Writes (listed_run (N.listed names.now) (at e.now.values)) (O.told out.old) (O.told out.new) result }
{
    write_whole(out, b"certificate 1\nrun\n")?;
    write_values(names, e, out)?;
    write_whole(out, b"end\n")
}
