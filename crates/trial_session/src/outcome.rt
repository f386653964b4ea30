// A trial and what it comes to.
ghost use Rattle.std.specs.Prelude.{◌≡◌, ℕ, [], Some, IfOk, OnOk};
ghost use Rattle.decl.specs.Declaration.{Declaration, IsDeclaration, declaration_of};
ghost use Rattle.decl.specs.Walk.{IsDocumentOf};
ghost use Rattle.ports.specs.Lines.{lines_of};
ghost use Rattle.replies.specs.Reply.{State};
ghost use Rattle.replies.specs.Sessions.{start};
ghost use Rattle.session.specs.Stands.{StandsFor, IsReady};
ghost use Rattle.trial.specs.Declaration.{declaration_text};
ghost use Rattle.trial.specs.Workload.{files_of, script_of, HasFiles};
ghost use Rattle.trial_session.specs.Logs.{logs_told};
ghost use Rattle.trial_session.specs.Answering.{AnswersLines};
ghost use Rattle.trial_session.specs.Trial.{IsTrial};

use crate::lines::answer_lines;
use crate::logs::Logs;
use atto::Steps;
use decl::{Decl, read_decl};
use ports::MemSink;
use replies::commands_are_one;
use session::Session;
use std::alloc::{AllocError, Global};
use std::sync::ledger::Ledger;
use trial::generate;

/// How many bytes of replies there is room for.
const ROOM: u32 = 1 << 20;

/// What is asked when the script is done.
const QUESTIONS: &[u8] =
    b"interval h0#1 h1#1\ninterval h0#1 h2#1\ninterval h0#1 h3#1\ninterval h0#1 h4#1\ninterval h0#1 h5#1\ninterval h0#1 h6#1\ninterval h0#1 h7#1\n";

/// What a trial comes to.
#[derive(Drop)]
pub struct Outcome {
    /// How many events the session has at its end.
    pub events: u64,
    /// How many messages there are among them.
    pub messages: u64,
    /// Its replies to the questions about the first events.
    pub replies: MemSink,
}

// The declaration in a text. One that is refused is taken for want of memory; that of a trial is not.
fn declared(alloc: Global, text: &[u8]) -> Result<Decl, AllocError>
    ensures declares { IfOk result (λ d. IsDocumentOf text.now (declaration_of d)) }
    ensures lawful { IfOk result (λ d. IsDeclaration (declaration_of d)) }
{
    read_decl(alloc, text).map_err(|_| AllocError)
}

// A session over the declaration in a text, in which nothing was added.
fn session_over(alloc: Global, text: &[u8]) -> Result<Session, AllocError>
    ensures stands { IfOk result (λ session. (d : Declaration) × IsDocumentOf text.now d × StandsFor session d (start d)) }
    ensures ready { IfOk result (λ session. IsReady session) }
{
    let decl = declared(alloc, text)?;
    Session::new(alloc, decl)
}

// The replies to these lines.
fn replies_to<L: Ledger>(
    alloc: Global,
    session: &mut Session,
    lines: &[u8],
    files: &mut Logs,
    steps: &mut Steps<L>,
) -> Result<MemSink, AllocError>
    requires { IsReady session.old }
    ensures answers { (d : Declaration) (s : State) → StandsFor session.old d s → IfOk result (λ replies. AnswersLines d s (lines_of lines.now) session.new
        (logs_told files.old) (logs_told files.new) (Some []) (Some replies.held)) }
    ensures ready { OnOk result (IsReady session.new) }
{
    let mut replies = MemSink::new(alloc, ROOM, ROOM, &[])?;
    answer_lines(session, lines, files, &mut replies, steps)?;
    Ok(replies)
}

// What comes of the script of a trial in a session over its declaration and its files.
fn conclude<L: Ledger>(
    alloc: Global,
    session: &mut Session,
    script: &[u8],
    files: &mut Logs,
    steps: &mut Steps<L>,
) -> Result<Outcome, AllocError>
    requires { IsReady session.old }
    ensures { (n : ℕ) (d : Declaration) → IsDocumentOf declaration_text d → StandsFor session.old d (start d) → script.now ≡ script_of n → HasFiles files.old.puts (files_of n)
        → IfOk result (λ o. IsTrial n o.events o.messages o.replies.held) }
{
    // It tells that a line asks for one command.
    commands_are_one();
    replies_to(alloc, session, script, files, steps)?;
    let events = session.event_count();
    let messages = session.message_count();
    let replies = replies_to(alloc, session, QUESTIONS, files, steps)?;
    Ok(Outcome {
        events,
        messages,
        replies,
    })
}

/// Makes the workload of the trial with this number, has a session answer its script, and asks it for the intervals from
/// the first event of the first host to that of each other one. An `Err` comes only where memory does not suffice.
pub fn conduct<L: Ledger>(
    alloc: Global,
    number: u32,
    steps: &mut Steps<L>,
) -> Result<Outcome, AllocError>
    ensures { IfOk result (λ o. IsTrial number o.events o.messages o.replies.held) }
{
    let trial = generate(alloc, number)?;
    let mut session = session_over(alloc, &trial.declaration)?;
    let mut files = Logs::new(trial.files);
    conclude(alloc, &mut session, &trial.script, &mut files, steps)
}
