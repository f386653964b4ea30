// The text of what a roster holds.
ghost use Rattle.std.specs.Prelude.{◌≡◌, ◌≤◌, ◌⊎◌, ◌∷◌, [], List, codes, length};
ghost use Rattle.std.specs.List.{flat_map};
ghost use Rattle.atto.specs.Decimal.{decimal_of};
ghost use Rattle.ports.specs.Content.{Writes};
ghost use Rattle.problem_model.specs.ProblemText.{clock_line, follow_line, plain_head, problem_text};
ghost use Rattle.problem_model.specs.Limits.{most_clocks};
ghost use Rattle.decl.specs.Declaration.{declaration_of, follows_of, has_own_bounds};
ghost use Rattle.traces.specs.Seen.{Seen};
ghost use Rattle.traces.specs.Messages.{problem_of_seen};
ghost use Rattle.roster.specs.Roster.{HoldsEvents};
ghost use Rattle.roster.specs.Told.{TellsMessages, messages_by_number};
ghost use Rattle.problem_text.specs.RosterText.{HasPartners, came_lines, roster_head, roster_text, sent_lines};

use crate::lines::{write_clock, write_end, write_head};
use crate::pages::{Page, put};
use crate::roster_lines::{came_line, sent_line, write_next};
use decl::Decl;
use ports::{Failed, Sink, write_whole};
use problem::Listing;
use roster::Roster;

// The version of a text whose events have no bounds of their own: 2 where one clock follows another, and 1 elsewhere.
fn plain_version(decl: &Decl) -> u32
    requires { length decl.now.owners.items ≤ most_clocks }
    ensures known { (result ≡ 1) ⊎ (result ≡ 2) ⊎ (result ≡ 3) }
    ensures head { plain_head (follows_of (declaration_of decl.now)) ≡ codes "problem" ∷ decimal_of result ∷ [] }
{
    for place in 0..decl.owners.len() as u32 {
        if decl.follow_from(place).is_some() {
            return 2;
        }
    }
    1
}

// The version of the text: 3 where events have bounds of their own, 2 elsewhere where one clock follows another, and else 1.
fn version_of(roster: &Roster, own: bool) -> u32
    requires { own ≡ has_own_bounds roster.now.declaration }
    ensures known { (result ≡ 1) ⊎ (result ≡ 2) ⊎ (result ≡ 3) }
    ensures head { roster_head roster.now ≡ codes "problem" ∷ decimal_of result ∷ [] }
{
    if own && roster.event_count() != 0 {
        return 3;
    }
    plain_version(roster.decl())
}

// Writes the lines of the clocks.
fn write_clocks<O: Sink>(decl: &Decl, out: &mut O) -> Result<(), Failed>
    ensures { Writes (flat_map clock_line (declaration_of decl.now).clocks) (O.told out.old) (O.told out.new) result }
{
    for clock in &decl.clocks {
        write_clock(clock, out)?;
    }
    Ok(())
}

// Writes the lines of the follows.
fn write_follows<O: Sink>(roster: &Roster, out: &mut O) -> Result<(), Failed>
    ensures { Writes (flat_map (follow_line roster.now.declaration.clocks) (follows_of roster.now.declaration)) (O.told out.old) (O.told out.new) result }
{
    for place in 0..roster.decl().owners.len() as u32 {
        write_next(roster, place, out)?;
    }
    Ok(())
}

// Writes the lines of the events, many in one write.
fn write_events<O: Sink>(roster: &Roster, own: bool, out: &mut O) -> Result<(), Failed>
    requires { own ≡ has_own_bounds roster.now.declaration }
    ensures { Writes (came_lines roster.now) (O.told out.old) (O.told out.new) result }
{
    let mut page = Page::new();
    for place in 0..roster.event_count() {
        let (v, _) = roster.event_at(place);
        put(&mut page, came_line(roster, own, v).as_slice(), out)?;
    }
    write_whole(out, page.as_slice())
}

// Writes the lines of the messages, many in one write.
fn write_messages<O: Sink>(roster: &Roster, out: &mut O) -> Result<(), Failed>
    requires { HasPartners roster.now }
    ensures { Writes (sent_lines roster.now) (O.told out.old) (O.told out.new) result }
{
    let mut page = Page::new();
    for place in 0..roster.event_count() {
        let (v, _) = roster.event_at(place);
        put(&mut page, sent_line(roster, v).as_slice(), out)?;
    }
    write_whole(out, page.as_slice())
}

// Writes the text.
fn write_text<O: Sink>(roster: &Roster, out: &mut O) -> Result<(), Failed>
    requires { HasPartners roster.now }
    ensures { Writes (roster_text roster.now) (O.told out.old) (O.told out.new) result }
{
    let decl = roster.decl();
    let own = decl.has_own_bounds();
    write_head(version_of(roster, own), out)?;
    write_clocks(decl, out)?;
    write_follows(roster, out)?;
    write_events(roster, own, out)?;
    write_messages(roster, out)?;
    write_end(out)
}

/// Writes the text of the problem of what a roster holds: the clocks of its declaration, those of one host following each
/// other, the events of all labels by label and then by number, and their messages in the order of their sends, of which the
/// roster tells. It takes no memory.
/// After `Failed`, which comes only where the sink's count of faults rose, some front of the text is written.
pub fn write_roster<O: Sink>(roster: &Roster, out: &mut O) -> Result<(), Failed>
    requires told { (seen : List (List Seen)) × HoldsEvents roster.now seen × TellsMessages roster.now (messages_by_number roster.now seen) }
    ensures { (seen : List (List Seen)) → HoldsEvents roster.now seen → TellsMessages roster.now (messages_by_number roster.now seen) → Writes (problem_text (problem_of_seen roster.now.declaration seen)) (O.told out.old) (O.told out.new) result }
{
    // It tells that the roster is lawful.
    let _ = roster.decl();
    write_text(roster, out)
}
