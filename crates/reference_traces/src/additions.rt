// Events that come to labels, piece by piece.
ghost use Rattle.std.specs.Prelude.{◌≡◌, [], map, IfOk, OnOk};
ghost use Rattle.decl.specs.declared.items.Label.{Label};
ghost use Rattle.decl.specs.Declaration.{IsDeclaration, declaration_of};
ghost use Rattle.traces.specs.Seen.{seen_events};
ghost use Rattle.traces.specs.Held.{seen_in};
ghost use Rattle.roster.specs.Groups.{with_more};
ghost use Rattle.reference_traces.specs.Added.{AreAllAdded};

use decl::{Decl, Label};
use msg_match::{Change, Matcher, items_of};
use problem_model::MOST_EVENTS;
use roster::Roster;
use std::alloc::{AllocError, Global};
use traces::{Accepted, Event, Stream};

/// What came to the labels of a declaration: the events by number, the ends of messages among them by these numbers, and the
/// events of each label.
#[derive(Drop)]
pub struct Additions {
    pub roster: Roster,
    pub matcher: Matcher,
    pub labels: Vec<Accepted>,
}

// No events under each of these labels; an error where memory runs out.
fn nothing_under(alloc: Global, labels: &[Label]) -> Result<Vec<Accepted>, AllocError>
    ensures { IfOk result (λ accepted. seen_in accepted.items ≡ map (λ (l : Label). []) labels.now) }
{
    let mut accepted = Vec::new(alloc);
    for _ in labels {
        accepted.push(Accepted {
            events: Vec::new(alloc),
            size: 0,
            stream: Stream::Log,
        })?;
    }
    Ok(accepted)
}

impl Additions {
    /// No events; an error where memory runs out, which drops the declaration.
    pub fn new(alloc: Global, decl: Decl) -> Result<Additions, AllocError>
        requires { IsDeclaration (declaration_of decl) }
        ensures { IfOk result (λ a. AreAllAdded a.roster a.matcher (seen_in a.labels.items)) }
    {
        let labels = nothing_under(alloc, &decl.labels)?;
        let roster = Roster::new(alloc, decl)?;
        // It tells that the roster is lawful.
        let _ = roster.decl();
        Ok(Additions {
            roster,
            matcher: Matcher::new(alloc),
            labels,
        })
    }

    /// Adds events of a label, behind those that it has, and answers how they change the messages. There is an error
    /// where memory runs out, where no label is at this place, and where there would be more than 2^24 events; what
    /// came is used no more then.
    pub fn add(&mut self, label: u32, mut events: Vec<Event>) -> Result<Change, AllocError>
        requires { AreAllAdded self.old.roster self.old.matcher (seen_in self.old.labels.items) }
        ensures added { OnOk result (AreAllAdded self.new.roster self.new.matcher (seen_in self.new.labels.items)) }
        ensures events { OnOk result (seen_in self.new.labels.items ≡ with_more (seen_in self.old.labels.items) label (seen_events events.items)) }
    {
        let first = self.roster.len();
        if label as usize >= self.roster.decl().labels.len()
            || events.len() > MOST_EVENTS - first as usize
        {
            return Err(AllocError);
        }
        let items = items_of(*events.allocator(), first, &events)?;
        let change = self.matcher.add(&items)?;
        let _first = self.roster.push(label, &events)?;
        self.labels[label as usize].events.append(&mut events)?;
        Ok(change)
    }
}
