// One line at a time.
ghost use Rattle.std.specs.Prelude.{◌≡◌, ◌≤◌, ◌↔◌, length, IsTrue, IfSome, IfOk, IfErr, OnOk, IsErrOf};
ghost use Rattle.ports.specs.Content.{Writes};
ghost use Rattle.ports.specs.Files.{Keeps};
ghost use Rattle.decl.specs.Declaration.{IsDeclaration, declaration_of};
ghost use Rattle.queries.specs.declared.stop.Stop.TheVariants as stops;
ghost use Rattle.replies.specs.Commands as commands;
ghost use Rattle.replies.specs.Commands.{TakesMemory, AsksForMemory, IsReadOff, question_seen};
ghost use Rattle.replies.specs.declared.refusal.Refusal.TheVariants as refusals;
ghost use Rattle.replies.specs.Refusals.{refusal_line};
ghost use Rattle.replies.specs.Sessions.{start};
ghost use Rattle.session.specs.Stands.{WritesReply, StandsFor, Stepped, IsReady, IsKeptUp, AddsByLine, KeepsEvent, AsksOfRows};
ghost use Rattle.session.specs.Inside.{UnreadAnswered};

use crate::accepted::nothing_under;
use crate::answers::answer;
use crate::lines::{write_line, written};
use atto::Steps;
use captures::{new_stands, nothing_reads};
use decl::Decl;
use ports::{Files, Sink};
use queries::Stop;
use replies::{Command, Question, Refusal, read_command, write_refusal};
use session_answers::{Answers, decl_of, first_answers};
use std::alloc::{AllocError, Global};
use std::marker::Model;
use std::sync::ledger::Ledger;
use traces::{Accepted, EventId};

/// A session over a declaration: what was added to its labels, the events that are kept, and replies to commands about them.
/// What questions are answered from stands ready between two calls.
#[derive(Drop)]
pub struct Session {
    pub(crate) alloc: Global,
    pub(crate) accepted: Vec<Accepted>,
    pub(crate) kept: Vec<EventId>,
    pub(crate) answers: Answers,
    // Not where memory ran out in a change: the answers are used no more then, but for the declaration.
    pub(crate) ready: bool,
}

impl Model for Session {
    ghost use Rattle.std.specs.Prelude.{◌≡◌, true};
    ghost use Rattle.traces.specs.Held.{seen_in};
    ghost use Rattle.session.specs.Stands.{Held, IsHeldInSession, held_parts, solver_of};
    ghost use Rattle.replies.specs.Reply.{AreKept};
    ghost use Rattle.session_answers.specs.Ready.{AreAnswersOf, declared};

    ghost Value = { Held };

    ghost view = { λ s. held_parts (declared s.answers) s.accepted.items s.kept.items (solver_of s.ready s.answers) };

    ghost invariant = { λ s. IsHeldInSession (held_parts (declared s.answers) s.accepted.items s.kept.items (solver_of s.ready s.answers))
        × AreKept (seen_in s.accepted.items) s.kept.items
        × (s.ready ≡ true → AreAnswersOf (seen_in s.accepted.items) s.kept.items s.answers) };
}

impl Session {
    /// A session in which nothing was added; an error only where memory runs out, which drops the declaration.
    pub fn new(alloc: Global, decl: Decl) -> Result<Session, AllocError>
        requires { IsDeclaration (declaration_of decl) }
        ensures stands { IfOk result (λ session. StandsFor session (declaration_of decl) (start (declaration_of decl))) }
        ensures ready { IfOk result (λ session. IsReady session) }
        ensures current { IfOk result (λ session. IfSome session.answers (IsKeptUp session)) }
    {
        // They tell what a capture is of which nothing came yet.
        nothing_reads();
        new_stands();
        let answers = first_answers(alloc, decl)?;
        let accepted = nothing_under(alloc, &decl_of(&answers).labels)?;
        Ok(Session {
            alloc,
            accepted,
            kept: Vec::new(alloc),
            answers,
            ready: true,
        })
    }

    /// Whether lines may be answered: no call before ran out of memory. Then what stands ready is of all that was
    /// accepted: the graph is that of its problem, with what is known of it as it is now, with the rows of the kept
    /// events and of the source, and with at most eight arcs for each event, withdrawn ones included.
    pub fn is_ready(&self) -> bool
        ensures ready { IsTrue result ↔ IsReady self.now }
        ensures current { IfSome self.now.answers (IsKeptUp self.now) }
    {
        self.ready
    }

    /// Writes the reply to a line, which is given without its line feed and has at most 4,096 bytes. A command that is
    /// refused changes nothing. The steps of its searches are counted: `time`, `times`, `merge`, `problem`, `report` and
    /// `thin` take none, nor do `interval`, `order`, `prove` and `times` about a first event that is kept, nor `interval`
    /// and `order` where the second one is. Where some execution exists before and after an `add`, its steps go by the nodes whose values
    /// or distances it changes, unless it brings the source's first reading; without a new event it takes none. No call
    /// before answered `Memory`.
    ///
    /// `WriteFault` is answered only where the sink's count of faults rose, or stands at its last value: a front of the
    /// reply is then written, and the session is as if all of it were. `Memory` is answered where memory runs out,
    /// which it may on `add`, `keep`, `merge`, `report`, `blame` and `thin` alone: nothing is written then, and nothing
    /// is promised of the session.
    pub fn step<F: Files, O: Sink, L: Ledger>(
        &mut self,
        line: &[u8],
        files: &mut F,
        out: &mut O,
        steps: &mut Steps<L>,
    ) -> Result<(), Stop>
        requires short { length line.now ≤ 4096 }
        requires ready { IsReady self.old }
        ensures writes { WritesReply (Stepped line.now (F.told files.old) (F.told files.new) self.old self.new)
            (O.told out.old) (O.told out.new) result }
        ensures keeps { Keeps (F.told files.old) (F.told files.new) }
        ensures ready { OnOk result (IsReady self.new) }
        ensures ready_again { IsErrOf result stops.WriteFault → IsReady self.new }
        ensures memory { IsErrOf result stops.Memory → AsksForMemory line.now }
        ensures untouched { IsErrOf result stops.Memory → O.told out.new ≡ O.told out.old }
        ensures steps { AsksOfRows self.old line.now → steps.new ≡ steps.old }
        ensures addition { AddsByLine line.now self.old self.new steps.old steps.new }
        ensures current { IfSome self.new.answers (IsKeptUp self.new) }
    {
        let replied = self.reply_to(line, files, out, steps);
        // It tells that what stands ready is of all that is held.
        let _ = self.is_ready();
        replied
    }

    /// Writes the reply to a line of more than 4,096 bytes, which is refused. `WriteFault` is answered only where the
    /// sink's count of faults rose, or stands at its last value.
    pub fn too_long<O: Sink>(&mut self, out: &mut O) -> Result<(), Stop>
        ensures writes { Writes (refusal_line refusals.NoCommand) (O.told out.old) (O.told out.new) result }
        ensures only { IfErr result (λ stop. stop ≡ stops.WriteFault) }
        ensures unchanged { self.new ≡ self.old }
    {
        written(write_refusal(Refusal::NoCommand, out))
    }

    // Writes the reply to a line.
    fn reply_to<F: Files, O: Sink, L: Ledger>(
        &mut self,
        line: &[u8],
        files: &mut F,
        out: &mut O,
        steps: &mut Steps<L>,
    ) -> Result<(), Stop>
        requires short { length line.now ≤ 4096 }
        requires ready { IsReady self.old }
        ensures writes { WritesReply (Stepped line.now (F.told files.old) (F.told files.new) self.old self.new)
            (O.told out.old) (O.told out.new) result }
        ensures keeps { Keeps (F.told files.old) (F.told files.new) }
        ensures ready { OnOk result (IsReady self.new) }
        ensures ready_again { IsErrOf result stops.WriteFault → IsReady self.new }
        ensures memory { IsErrOf result stops.Memory → AsksForMemory line.now }
        ensures untouched { IsErrOf result stops.Memory → O.told out.new ≡ O.told out.old }
        ensures steps { AsksOfRows self.old line.now → steps.new ≡ steps.old }
        ensures addition { AddsByLine line.now self.old self.new steps.old steps.new }
    {
        match read_command(line) {
            Some(Command::Add { label, path }) => {
                let outcome = self.add(label, path, files, steps)?;
                write_line(&outcome.line(), out)
            }
            Some(Command::Keep { event }) => {
                let outcome = self.keep(event, steps)?;
                write_line(&outcome.line(), out)
            }
            Some(Command::Ask(question)) => self.ask(question, out, steps),
            None => written(write_refusal(Refusal::NoCommand, out)),
        }
    }

    // Writes the answer to a question.
    fn ask<O: Sink, L: Ledger>(
        &mut self,
        question: Question,
        out: &mut O,
        steps: &mut Steps<L>,
    ) -> Result<(), Stop>
        requires { IsReady self.old }
        ensures writes { WritesReply (UnreadAnswered self.old self.new (commands.Ask (question_seen question.entry))) (O.told out.old) (O.told out.new) result }
        ensures ready { IsReady self.new }
        ensures memory { IsErrOf result stops.Memory → TakesMemory (commands.Ask (question_seen question.entry)) }
        ensures untouched { IsErrOf result stops.Memory → O.told out.new ≡ O.told out.old }
        ensures steps { IsReadOff (KeepsEvent self.old) (question_seen question.entry) → steps.new ≡ steps.old }
    {
        answer(
            self.alloc,
            &self.accepted,
            &mut self.answers,
            question,
            out,
            steps,
        )
    }
}
