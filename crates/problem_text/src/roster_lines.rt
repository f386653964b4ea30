// The lines of what a roster holds.
ghost use Rattle.std.specs.Prelude.{◌≡◌, ◌<◌, length};
ghost use Rattle.ports.specs.Content.{Writes};
ghost use Rattle.problem_model.specs.ProblemText.{follow_line};
ghost use Rattle.decl.specs.Declaration.{declaration_of, has_own_bounds};
ghost use Rattle.traces.specs.Traces.{host_of};
ghost use Rattle.roster.specs.Roster.{id_of, event_at};
ghost use Rattle.problem_text.specs.RosterText.{HasPartners, came_line, couple_line, next_line, sent_line};

use crate::lines::write_follow;
use crate::words::{event_line, message_line};
use decl::Decl;
use ports::fixed_line::Line;
use ports::{Failed, Sink};
use problem::Listing;
use problem_model::Follow;
use roster::{Came, Roster};

// Writes the line of a follow.
fn write_own_follow<O: Sink>(roster: &Roster, follow: &Follow, out: &mut O) -> Result<(), Failed>
    requires earlier { follow.now.earlier < length roster.now.declaration.clocks }
    requires later { follow.now.later < length roster.now.declaration.clocks }
    ensures { Writes (follow_line roster.now.declaration.clocks follow.now) (O.told out.old) (O.told out.new) result }
{
    let earlier = roster.clock_name(follow.earlier);
    let later = roster.clock_name(follow.later);
    write_follow(&earlier, &later, follow.gap, out)
}

/// Writes the line of the follow from the clock at this place to the next one, if there is one.
pub(crate) fn write_next<O: Sink>(roster: &Roster, place: u32, out: &mut O) -> Result<(), Failed>
    ensures { Writes (next_line roster.now.declaration place) (O.told out.old) (O.told out.new) result }
{
    match roster.decl().follow_from(place) {
        Some(follow) => write_own_follow(roster, &follow, out),
        None => Ok(()),
    }
}

/// The line of the event with this number. Events have bounds of their own where some label gives any.
pub(crate) fn came_line(roster: &Roster, own: bool, v: u32) -> Line
    requires came { v < length roster.now.came }
    requires own { own ≡ has_own_bounds roster.now.declaration }
    ensures { result.items ≡ came_line roster.now v }
{
    let came = roster.event(v);
    let decl = roster.decl();
    let label = &decl.labels[came.label as usize];
    let name = roster.event_name(v);
    let clock = roster.clock_name(label.clock);
    let bounds = decl.own_bounds_if(own, label);
    event_line(&name, &clock, came.stamp, bounds)
}

// The host that an event happened at.
fn host_of(decl: &Decl, came: &Came) -> u32
    requires { came.now.label < length decl.now.labels.items }
    ensures { result ≡ host_of (declaration_of decl.now) (id_of came.now) }
{
    decl.labels[came.label as usize].host
}

// The line of the message that one event sends and another receives.
fn couple_line(roster: &Roster, send: u32, receive: u32) -> Line
    requires send { send < length roster.now.came }
    requires receive { receive < length roster.now.came }
    ensures { result.items ≡ couple_line roster.now.declaration (id_of (event_at roster.now.came send)) (id_of (event_at roster.now.came receive)) }
{
    let decl = roster.decl();
    let from = host_of(decl, &roster.event(send));
    let to = host_of(decl, &roster.event(receive));
    let (least, most) = decl.link_of(from, to);
    let send = roster.event_name(send);
    let receive = roster.event_name(receive);
    message_line(&send, &receive, least, most)
}

/// The line of the message that the event with this number sends. It is empty where it sends none.
pub(crate) fn sent_line(roster: &Roster, v: u32) -> Line
    requires came { v < length roster.now.came }
    requires partners { HasPartners roster.now }
    ensures { result.items ≡ sent_line roster.now v }
{
    match roster.event(v).partner {
        Some(partner) => couple_line(roster, v, partner.event),
        None => Line::new(),
    }
}
