// Additions of which the packets are kept.
ghost use Rattle.std.specs.Prelude.{◌≡◌, ◌≤◌, ◌<◌, ◌+◌, ◌++◌, length, IfOk, OnOk, OnErr};
ghost use Rattle.ports.specs.Files.{Keeps};
ghost use Rattle.captures.specs.Feeding.{seen_packets};
ghost use Rattle.replies.specs.Reply.{most_of_label};
ghost use Rattle.mergecap.specs.Packets.{all_timed};
ghost use Rattle.session.specs.Stands.{IsReady};
ghost use Rattle.session.specs.Taken.{packets_from};
ghost use Rattle.session.specs.Taking.{AsksToAdd, Takes};
ghost use Rattle.session.specs.TakingInside.{TakesFile, TakesUnder};

use crate::Session;
use crate::added_pieces::Completed;
use atto::Steps;
use captures::{Packet, captures_are_one};
use mergecap::Stored;
use ports::Files;
use replies::{Command, Outcome, Refusal, RefusedText, read_command, refused_text};
use session_answers::decl_of;
use std::alloc::AllocError;
use std::sync::ledger::Ledger;

/// What came of an addition of which the packets are kept.
#[derive(Debug, Drop)]
pub enum AddAnswer {
    /// It was accepted.
    Accepted,
    /// It was refused with this reply, which has no line feed here.
    Refused(RefusedText),
}

// Appends packets under the label at a place, which are numbered behind so many, at time 0.
fn store(
    kept: &mut Vec<Stored>,
    place: u32,
    before: u32,
    packets: Vec<Packet>,
) -> Result<(), AllocError>
    requires { before + length packets.items ≤ most_of_label }
    ensures { OnOk result (all_timed kept.new.items ≡ all_timed kept.old.items ++ packets_from place (before + 1) (seen_packets packets.items)) }
{
    let mut n = before;
    for packet in packets {
        n += 1;
        kept.push(Stored {
            place,
            n,
            value: 0,
            packet,
        })?;
    }
    Ok(())
}

impl Session {
    /// Adds a file by a line `add LABEL PATH`, which is given without its line feed and has at most 4,096 bytes, as
    /// `step` does, and appends the packets that a capture's bytes complete to those that are kept: as they stand, by
    /// the place of the label and the number of the event there, at time 0. No reply is written. `Accepted` is answered
    /// exactly where the reply tells what was added; else the reply is a refusal, and nothing is kept. A line that asks
    /// for anything else is refused as one that spells no command.
    ///
    /// The steps of its searches are counted. No call before ran out of memory. An error is answered where memory runs out,
    /// which it may only on a line that asks for an addition; then nothing is promised of the session and of the packets.
    pub fn take_add<F: Files, L: Ledger>(
        &mut self,
        line: &[u8],
        files: &mut F,
        kept: &mut Vec<Stored>,
        steps: &mut Steps<L>,
    ) -> Result<AddAnswer, AllocError>
        requires short { length line.now ≤ 4096 }
        requires ready { IsReady self.old }
        ensures takes { IfOk result (λ answer. Takes line.now (F.told files.old) (F.told files.new) self.old self.new (all_timed kept.old.items) (all_timed kept.new.items) answer) }
        ensures keeps { Keeps (F.told files.old) (F.told files.new) }
        ensures ready { OnOk result (IsReady self.new) }
        ensures memory { OnErr result (AsksToAdd line.now) }
    {
        match read_command(line) {
            Some(Command::Add { label, path }) => self.take_file(label, path, files, kept, steps),
            Some(Command::Keep { .. }) => {
                Ok(AddAnswer::Refused(refused_text(Refusal::NoCommand)))
            }
            Some(Command::Ask(_)) => Ok(AddAnswer::Refused(refused_text(Refusal::NoCommand))),
            None => Ok(AddAnswer::Refused(refused_text(Refusal::NoCommand))),
        }
    }

    // Adds the file at a path to the label of this name, and keeps its packets.
    fn take_file<F: Files, L: Ledger>(
        &mut self,
        label: &[u8],
        path: &str,
        files: &mut F,
        kept: &mut Vec<Stored>,
        steps: &mut Steps<L>,
    ) -> Result<AddAnswer, AllocError>
        requires { IsReady self.old }
        ensures takes { IfOk result (λ answer. TakesFile label.now path.now (F.told files.old) (F.told files.new) self.old self.new (all_timed kept.old.items) (all_timed kept.new.items) answer) }
        ensures keeps { Keeps (F.told files.old) (F.told files.new) }
        ensures ready { OnOk result (IsReady self.new) }
    {
        match decl_of(&self.answers).label_at(label) {
            Some(k) => self.take_under(k, path, files, kept, steps),
            None => Ok(AddAnswer::Refused(refused_text(Refusal::UnknownLabel))),
        }
    }

    // Adds the file at a path to the label at a place, and keeps its packets.
    fn take_under<F: Files, L: Ledger>(
        &mut self,
        k: usize,
        path: &str,
        files: &mut F,
        kept: &mut Vec<Stored>,
        steps: &mut Steps<L>,
    ) -> Result<AddAnswer, AllocError>
        requires inside { k < length self.old.declaration.labels }
        requires ready { IsReady self.old }
        ensures takes { IfOk result (λ answer. TakesUnder k path.now (F.told files.old) (F.told files.new) self.old self.new (all_timed kept.old.items) (all_timed kept.new.items) answer) }
        ensures keeps { Keeps (F.told files.old) (F.told files.new) }
        ensures ready { OnOk result (IsReady self.new) }
    {
        // It tells that bytes stand for one capture.
        captures_are_one();
        let before = self.accepted[k].events.len() as u32;
        let mut completed = Completed {
            keeps: true,
            packets: Vec::new(self.alloc),
        };
        let outcome = self.add_under(k, path, files, &mut completed, steps)?;
        match outcome {
            Outcome::Refused(refusal) => Ok(AddAnswer::Refused(refused_text(refusal))),
            _ => {
                store(kept, k as u32, before, completed.packets)?;
                Ok(AddAnswer::Accepted)
            }
        }
    }
}
