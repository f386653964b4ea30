// The certificate of both ends of an interval.
ghost use Rattle.std.specs.Prelude.{ℕ, List};
ghost use Rattle.ports.specs.Content.{Writes};
ghost use Rattle.attain.specs.Ends.{StandsForSome, AreEventNodes, IsEndsText};

use crate::interval::write_interval;
use crate::node_rows::NodeRows;
use ports::{Failed, Sink};
use problem::Listing;

/// Writes the certificate of both ends of the difference `x_q - x_p`, over all executions, of the event at the node of
/// the rows, p, and the one whose node is `q`. A limit is shown by a path with its sum and by an execution that attains
/// it, and the absence of one by the clocks inside a cut and the earliest execution. Numbers are printed as ns texts. It
/// takes no memory. After `Failed`, which comes only where the sink's count of faults rose, some front of the certificate
/// is written.
pub fn write_ends<N: Listing, O: Sink>(
    names: &N,
    rows: &NodeRows,
    q: u32,
    out: &mut O,
) -> Result<(), Failed>
    requires stands { StandsForSome (N.listed names.now) rows.now.graph }
    requires events { AreEventNodes (N.listed names.now) rows.now.node q }
    ensures { (text : List ℕ) × IsEndsText (N.listed names.now) rows.now.graph rows.now.node q text × Writes text (O.told out.old) (O.told out.new) result }
{
    // It tells that both rows hold the distances of the node, one from it and one towards it.
    rows.exact();
    write_interval(names, rows, q, out)
}
