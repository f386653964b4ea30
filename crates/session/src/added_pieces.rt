// Additions to the labels of a session.
ghost use Rattle.std.specs.Prelude.{◌≡◌, ◌<◌, ◌≤◌, ◌+◌, [], length, Some, true, IfOk, OnOk};
ghost use Rattle.problem_model.specs.Limits.{most_events};
ghost use Rattle.ports.specs.Files.{Keeps};
ghost use Rattle.captures.specs.Feeding.{seen_packets};
ghost use Rattle.traces.specs.Seen.{seen_events};
ghost use Rattle.traces.specs.Traces.{event_count};
ghost use Rattle.replies.specs.Commands as asked;
ghost use Rattle.replies.specs.Outcomes.{IsOutcomeLine};
ghost use Rattle.session.specs.Stands.{AddsSo, IsReady, seen_held};
ghost use Rattle.session.specs.Inside.{HasPlace, IsStreamWithin, FrontAnswered, AcceptAnswered, CommandAnswered};
ghost use Rattle.session.specs.TakingInside.{CompletesFront, HadRoom, KeepsFound, UnderAnswered};

use crate::Session;
use crate::accepted::{aside_in, extend, has_place, room_left};
use crate::addition::outcome_of;
use crate::labels::label_at;
use crate::limits::MOST_PIECE;
use crate::pieces::{Origin, Piece, read_piece};
use atto::Steps;
use captures::Packet;
use ports::{FileFault, Files, read_file};
use replies::{Outcome, Refusal};
use session_answers::{decl_of, renew};
use std::alloc::AllocError;
use std::sync::ledger::Ledger;
use traces::{Event, Stream};

/// The packets that the bytes of an addition complete, where they are to be kept.
#[derive(Drop)]
pub(crate) struct Completed {
    /// Whether they are to be kept.
    pub(crate) keeps: bool,
    /// Those that are kept, in their order.
    pub(crate) packets: Vec<Packet>,
}

// Lets packets go that are not to be kept.
fn keep_only(completed: &mut Completed)
    ensures { completed.old.keeps ≡ true → completed.new.packets.items ≡ completed.old.packets.items }
{
    if !completed.keeps {
        completed.packets.clear();
    }
}

impl Session {
    /// Adds the file at a path to the label of this name, and answers what came of it, before anything is written.
    pub(crate) fn add<F: Files, L: Ledger>(
        &mut self,
        label: &[u8],
        path: &str,
        files: &mut F,
        steps: &mut Steps<L>,
    ) -> Result<Outcome, AllocError>
        requires { IsReady self.old }
        ensures answers { IfOk result (λ outcome. CommandAnswered (Some (asked.Add label.now path.now)) (F.told files.old) (F.told files.new) self.old self.new (IsOutcomeLine outcome)) }
        ensures keeps { Keeps (F.told files.old) (F.told files.new) }
        ensures ready { OnOk result (IsReady self.new) }
        ensures addition { AddsSo self.old self.new steps.old steps.new }
    {
        match decl_of(&self.answers).label_at(label) {
            Some(k) => {
                let mut completed = Completed {
                    keeps: false,
                    packets: Vec::new(self.alloc),
                };
                self.add_under(k, path, files, &mut completed, steps)
            }
            None => Ok(Outcome::Refused(Refusal::UnknownLabel)),
        }
    }

    /// Adds the file at a path to the label at a place. `completed`, which has no packets yet, gets those that a
    /// capture's bytes complete, where they are to be kept.
    pub(crate) fn add_under<F: Files, L: Ledger>(
        &mut self,
        k: usize,
        path: &str,
        files: &mut F,
        completed: &mut Completed,
        steps: &mut Steps<L>,
    ) -> Result<Outcome, AllocError>
        requires inside { k < length self.old.declaration.labels }
        requires ready { IsReady self.old }
        requires none { completed.old.packets.items ≡ [] }
        ensures answers { IfOk result (λ outcome. UnderAnswered k path.now (F.told files.old) (F.told files.new) self.old self.new
            (KeepsFound completed.old.keeps self.old k (seen_packets completed.new.packets.items) outcome) (IsOutcomeLine outcome)) }
        ensures room { completed.old.keeps ≡ true → IfOk result (HadRoom self.old (length completed.new.packets.items)) }
        ensures keeps { Keeps (F.told files.old) (F.told files.new) }
        ensures ready { OnOk result (IsReady self.new) }
        ensures addition { AddsSo self.old self.new steps.old steps.new }
    {
        match read_file(self.alloc, files, path, MOST_PIECE) {
            Ok(file) => self.add_piece(k, &file.bytes, file.more, completed, steps),
            Err(FileFault::Absent) => Ok(Outcome::Refused(Refusal::UnreadFile)),
            Err(FileFault::Read) => Ok(Outcome::Refused(Refusal::UnreadFile)),
            Err(FileFault::Memory) => Err(AllocError),
        }
    }

    // Adds a piece, which is read whole where there is no more of it, to the label at a place.
    fn add_piece<L: Ledger>(
        &mut self,
        k: usize,
        front: &[u8],
        more: bool,
        completed: &mut Completed,
        steps: &mut Steps<L>,
    ) -> Result<Outcome, AllocError>
        requires inside { k < length self.old.declaration.labels }
        requires ready { IsReady self.old }
        requires none { completed.old.packets.items ≡ [] }
        ensures answers { IfOk result (λ outcome. FrontAnswered more front.now self.old self.new k (IsOutcomeLine outcome)) }
        ensures packets { completed.old.keeps ≡ true → IfOk result (CompletesFront more front.now self.old k (seen_packets completed.new.packets.items)) }
        ensures room { completed.old.keeps ≡ true → IfOk result (HadRoom self.old (length completed.new.packets.items)) }
        ensures ready { OnOk result (IsReady self.new) }
        ensures addition { AddsSo self.old self.new steps.old steps.new }
    {
        let count = self.answers.graph.roster.len();
        let room = room_left(count);
        let under = &self.accepted[k];
        if more {
            return Ok(Outcome::Refused(Refusal::TooManyBytes));
        }
        if !has_place(under.size, front.len() as u64) {
            return Ok(Outcome::Refused(Refusal::TooManyBytes));
        }
        let decl = decl_of(&self.answers);
        let label = label_at(&decl.labels, k);
        let origin = Origin { decl, label };
        let read = read_piece(
            self.alloc,
            &origin,
            &under.stream,
            front,
            room,
            &mut completed.packets,
        )?;
        keep_only(completed);
        match read {
            Piece::Read { events, stream } => self.accept(
                k,
                events,
                front.len() as u64,
                stream,
                steps,
            ),
            Piece::TooManyEvents => Ok(Outcome::Refused(Refusal::TooManyEvents)),
            Piece::Refused(refusal) => Ok(Outcome::Refused(refusal)),
        }
    }

    // Accepts events that came in a piece of so many bytes, and for which there is room.
    fn accept<L: Ledger>(
        &mut self,
        k: usize,
        events: Vec<Event>,
        size: u64,
        stream: Stream,
        steps: &mut Steps<L>,
    ) -> Result<Outcome, AllocError>
        requires inside { k < length self.old.under }
        requires place { HasPlace self.old.under k size }
        requires within { IsStreamWithin self.old.under k size stream }
        requires room { event_count (seen_held self.old.under) + length events.items ≤ most_events }
        requires ready { IsReady self.old }
        ensures answers { IfOk result (λ outcome. AcceptAnswered self.old self.new k (seen_events events.items) size stream (IsOutcomeLine outcome)) }
        ensures room { IfOk result (HadRoom self.old (length events.items)) }
        ensures ready { OnOk result (IsReady self.new) }
        ensures addition { AddsSo self.old self.new steps.old steps.new }
    {
        let more = events.len();
        let aside = aside_in(&stream);
        // What stood ready is of fewer events.
        self.ready = false;
        extend(&mut self.accepted, k, events, size, stream)?;
        let renewed = renew(&mut self.answers, &self.accepted, k, more, steps)?;
        self.ready = true;
        Ok(outcome_of(renewed.consistent, more as u64, aside, renewed.changed))
    }
}
