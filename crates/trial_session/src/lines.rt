// Lines that a session answers.
ghost use Rattle.std.specs.Prelude.{◌≡◌, ◌∷◌, ◌<◌, length, OnOk};
ghost use Rattle.ports.specs.Content.{Appends};
ghost use Rattle.ports.specs.Files.{Keeps};
ghost use Rattle.decl.specs.Declaration.{Declaration};
ghost use Rattle.ports.specs.Lines.{lines_of};
ghost use Rattle.replies.specs.Reply.{State};
ghost use Rattle.session.specs.Stands.{StandsFor, Stepped, IsReady};
ghost use Rattle.trial_session.specs.Answering.{AnswersLines};

use atto::Steps;
use line_format::cut;
use ports::{Files, Sink};
use session::Session;
use std::alloc::AllocError;
use std::sync::ledger::Ledger;

/// The most bytes of a line that is no longer than it may be.
const MOST_LINE: usize = 4096;

// The first line of some bytes, without its line feed, and what is behind it.
fn first_line(bytes: &[u8]) -> (&[u8], &[u8])
    requires { 0 < length bytes.now }
    ensures first { lines_of bytes.now ≡ result.0.now ∷ lines_of result.1.now }
    ensures shorter { length result.1.now < length bytes.now }
{
    match cut(b'\n', bytes) {
        Some((line, rest)) => (line, rest),
        None => (bytes, &[]),
    }
}

// Writes the reply to a line. Where the sink has no room for it, it is as if memory did not suffice.
fn answer_line<F: Files, O: Sink, L: Ledger>(
    session: &mut Session,
    line: &[u8],
    files: &mut F,
    replies: &mut O,
    steps: &mut Steps<L>,
) -> Result<(), AllocError>
    requires { IsReady session.old }
    ensures reply { OnOk result (Stepped line.now (F.told files.old) (F.told files.new) session.old session.new (Appends (O.told replies.old).written (O.told replies.new).written)) }
    ensures ready { OnOk result (IsReady session.new) }
    ensures keeps { Keeps (F.told files.old) (F.told files.new) }
{
    if line.len() > MOST_LINE {
        return session.too_long(replies).map_err(|_| AllocError);
    }
    session
        .step(line, files, replies, steps)
        .map_err(|_| AllocError)
}

/// Answers each of these lines, and writes the replies. An `Err` comes where memory does not suffice, or the sink has no
/// room.
pub(crate) fn answer_lines<F: Files, O: Sink, L: Ledger>(
    session: &mut Session,
    lines: &[u8],
    files: &mut F,
    replies: &mut O,
    steps: &mut Steps<L>,
) -> Result<(), AllocError>
    requires { IsReady session.old }
    ensures answers { (d : Declaration) (s : State) → StandsFor session.old d s → OnOk result (AnswersLines d s (lines_of lines.now) session.new
        (F.told files.old) (F.told files.new) (O.told replies.old).written (O.told replies.new).written) }
    ensures ready { OnOk result (IsReady session.new) }
    ensures keeps { Keeps (F.told files.old) (F.told files.new) }
{
    let mut rest = lines;
    while !rest.is_empty() {
        let (line, more) = first_line(rest);
        answer_line(session, line, files, replies, steps)?;
        rest = more;
    }
    Ok(())
}
