// Lines of replies, written.
ghost use Rattle.std.specs.Prelude.{◌≡◌, ℕ, List, IfErr};
ghost use Rattle.ports.specs.Content.{SinkTold, Writes};
ghost use Rattle.queries.specs.declared.stop.Stop.TheVariants as stops;

use ports::{Failed, Sink, write_whole};
use queries::Stop;

/// What a write is to a session.
pub(crate) fn written(write: Result<(), Failed>) -> Result<(), Stop>
    ensures writes { (text : List ℕ) (old new : SinkTold) → Writes text old new write → Writes text old new result }
    ensures only { IfErr result (λ stop. stop ≡ stops.WriteFault) }
{
    write?;
    Ok(())
}

/// Writes a line that has its line feed.
pub(crate) fn write_line<O: Sink>(line: &[u8], out: &mut O) -> Result<(), Stop>
    ensures writes { Writes line.now (O.told out.old) (O.told out.new) result }
    ensures only { IfErr result (λ stop. stop ≡ stops.WriteFault) }
{
    written(write_whole(out, line))
}
