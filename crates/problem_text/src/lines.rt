// Lines of a problem's text, each written in one piece: those of which there are few.
ghost use Rattle.std.specs.Prelude.{◌≡◌, ◌⊎◌, ◌∷◌, [], codes};
ghost use Rattle.atto.specs.Decimal.{decimal_of};
ghost use Rattle.line_format.specs.Words.{line_of};
ghost use Rattle.ports.specs.Content.{Writes};
ghost use Rattle.problem_model.specs.ProblemText.{clock_line};
ghost use Rattle.problem.specs.Line.{line_words};
ghost use Rattle.problem.specs.Line.Line.{FollowLine, EndLine};

use crate::words::{clock_line, follow_line};
use atto::Nano;
use ports::{Failed, Sink, write_whole};
use problem_model::{Clock, Name};

/// Writes the first line of the text of a problem, which names its version: `problem 1` where no clock follows another,
/// `problem 2` where there are follows, or `problem 3` where events have bounds of their own. The version is one of these.
/// It takes no memory. After `Failed`, which comes only where the sink's count of faults rose, some front of the line is
/// written.
pub fn write_head<O: Sink>(version: u32, out: &mut O) -> Result<(), Failed>
    requires { (version ≡ 1) ⊎ (version ≡ 2) ⊎ (version ≡ 3) }
    ensures { Writes (line_of (codes "problem" ∷ decimal_of version ∷ [])) (O.told out.old) (O.told out.new) result }
{
    if version == 1 {
        write_whole(out, b"problem 1\n")
    } else if version == 2 {
        write_whole(out, b"problem 2\n")
    } else {
        write_whole(out, b"problem 3\n")
    }
}

/// Writes the line of a clock: `clock`, its name, its short and its long rate in parts per billion, and by how many ns an
/// event may come early and late. It takes no memory. After `Failed`, which comes only where the sink's count of faults
/// rose, some front of the line is written.
pub fn write_clock<O: Sink>(c: &Clock, out: &mut O) -> Result<(), Failed>
    ensures { Writes (clock_line c.now) (O.told out.old) (O.told out.new) result }
{
    let line = clock_line(c);
    write_whole(out, line.as_slice())
}

/// Writes the line of a follow: `follow`, the names of the earlier and of the later clock, and the least real time in ns
/// from each reading of the one to each of the other. It takes no memory. After `Failed`, which comes only where the
/// sink's count of faults rose, some front of the line is written.
pub fn write_follow<O: Sink>(
    earlier: &Name,
    later: &Name,
    gap: Nano,
    out: &mut O,
) -> Result<(), Failed>
    ensures { Writes (line_of (line_words (FollowLine earlier.now later.now gap))) (O.told out.old) (O.told out.new) result }
{
    let line = follow_line(earlier, later, gap);
    write_whole(out, line.as_slice())
}

/// Writes the last line of the text of a problem: `end`. It takes no memory. After `Failed`, which comes only where the
/// sink's count of faults rose, some front of the line is written.
pub fn write_end<O: Sink>(out: &mut O) -> Result<(), Failed>
    ensures { Writes (line_of (line_words EndLine)) (O.told out.old) (O.told out.new) result }
{
    write_whole(out, b"end\n")
}
