// A session over the lines of a script.
ghost use Rattle.std.specs.Prelude.{◌≡◌, ◌<◌, ◌≤◌, IfErr, OnOk, false};
ghost use Rattle.ports.specs.Content.{Appends};
ghost use Rattle.ports.specs.Files.{Keeps};
ghost use Rattle.decl.specs.Declaration.{Declaration, IsDeclaration, declaration_of};
ghost use Rattle.ports.specs.Reader.{fresh, room};
ghost use Rattle.replies.specs.Sessions.{start};
ghost use Rattle.session.specs.Stands.{StandsFor, IsReady};
ghost use Rattle.session.specs.Script.{ScriptAnswered, devices};
ghost use Rattle.session.specs.Turns.{AnswersLine, HasNoReply};

use crate::{Ended, Session};
use atto::Steps;
use decl::Decl;
use ports::{Files, Line, LineFault, LineReader, LineText, Sink, Source};
use std::alloc::Global;
use std::sync::ledger::Ledger;

// Reads a line, and writes its reply.
fn answer_line<F: Files, I: Source, O: Sink, L: Ledger>(
    session: &mut Session,
    reader: &mut LineReader,
    files: &mut F,
    input: &mut I,
    out: &mut O,
    steps: &mut Steps<L>,
) -> Result<(), Ended>
    requires going { reader.old.over ≡ false }
    requires ready { IsReady session.old }
    ensures ok { OnOk result (AnswersLine session.old session.new reader.old reader.new
        (devices (F.told files.old) (I.told input.old) (O.told out.old)) (devices (F.told files.new) (I.told input.new) (O.told out.new))
        (Appends (O.told out.old).written (O.told out.new).written)) }
    ensures err { IfErr result (HasNoReply session.old session.new reader.old reader.new
        (devices (F.told files.old) (I.told input.old) (O.told out.old)) (devices (F.told files.new) (I.told input.new) (O.told out.new))) }
    ensures going { OnOk result (reader.new.over ≡ false) }
    ensures ready { OnOk result (IsReady session.new) }
    ensures progress { OnOk result (room reader.new < room reader.old) }
    ensures keeps { Keeps (F.told files.old) (F.told files.new) }
    ensures no_fall { ((I.told input.old).faults ≤ (I.told input.new).faults) × ((O.told out.old).faults ≤ (O.told out.new).faults) }
{
    let mut line = LineText::new();
    match reader.next_line(input, &mut line) {
        Ok(Line::Text) => Ok(session.step(line.as_slice(), files, out, steps)?),
        Ok(Line::TooLong) => Ok(session.too_long(out)?),
        Ok(Line::End) => Err(Ended::Done),
        Err(LineFault::Read) => Err(Ended::ReadFault),
        Err(LineFault::Limit) => Err(Ended::Limit),
    }
}

// Answers the lines of a script until one gets no reply.
fn answer_lines<F: Files, I: Source, O: Sink, L: Ledger>(
    session: &mut Session,
    reader: &mut LineReader,
    files: &mut F,
    input: &mut I,
    out: &mut O,
    steps: &mut Steps<L>,
) -> Ended
    requires fresh { reader.old ≡ fresh }
    requires ready { IsReady session.old }
    ensures ended { (d : Declaration) → StandsFor session.old d (start d) → ScriptAnswered d
        (devices (F.told files.old) (I.told input.old) (O.told out.old)) (devices (F.told files.new) (I.told input.new) (O.told out.new)) result }
    ensures keeps { Keeps (F.told files.old) (F.told files.new) }
    ensures no_fall { ((I.told input.old).faults ≤ (I.told input.new).faults) × ((O.told out.old).faults ≤ (O.told out.new).faults) }
{
    loop {
        if let Err(ended) = answer_line(session, reader, files, input, out, steps) {
            return ended;
        }
    }
}

/// Answers the lines of a script, one after another, in a session that begins with nothing: reads a line, reads what it
/// asks for, and writes its reply before it reads the next line. A line without a line feed at the end of the script is a
/// line too.
///
/// `Done` comes where the whole script was taken, and no line of it lacks its reply; `ReadFault` where the script could
/// not be read on, and `Limit` where it has more than 2^30 bytes, when each line that is whole before that has its
/// reply, and nothing else is written; `WriteFault` where a write failed, when a front of the replies to the first of
/// these lines is written; `Memory` where memory ran out, in a line that may ask for it: the lines before it have their
/// replies, and nothing of its own reply is written. A file that cannot be read is a reply, and no end.
pub fn answer_script<F: Files, I: Source, O: Sink, L: Ledger>(
    alloc: Global,
    decl: Decl,
    files: &mut F,
    input: &mut I,
    out: &mut O,
    steps: &mut Steps<L>,
) -> Ended
    requires { IsDeclaration (declaration_of decl) }
    ensures ended { ScriptAnswered (declaration_of decl)
        (devices (F.told files.old) (I.told input.old) (O.told out.old)) (devices (F.told files.new) (I.told input.new) (O.told out.new)) result }
    ensures keeps { Keeps (F.told files.old) (F.told files.new) }
    ensures no_fall { ((I.told input.old).faults ≤ (I.told input.new).faults) × ((O.told out.old).faults ≤ (O.told out.new).faults) }
{
    match Session::new(alloc, decl) {
        Ok(mut session) => {
            let mut reader = LineReader::new();
            answer_lines(&mut session, &mut reader, files, input, out, steps)
        }
        Err(_) => Ended::Memory,
    }
}
