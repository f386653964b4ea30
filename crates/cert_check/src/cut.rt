// What is wrong with the cut that shows that an interval has no end.
ghost use Rattle.std.specs.Prelude.{◌≡◌, ◌↔◌, ◌<◌, ℕ, List, [], ◌∷◌, Contains, AllPairs, IsTrue, length};
ghost use Rattle.std.specs.List.{flat_map};
ghost use Rattle.problem_model.specs.declared.items.Node.TheVariants as nodes;
ghost use Rattle.problem_model.specs.Problem.{ProblemLists, IsWellFormed};
ghost use Rattle.problem_model.specs.Bounds.{Constraint, Declares};
ghost use Rattle.problem_model.specs.Nodes.{Reading, AreReadings};
ghost use Rattle.problem_model.specs.ShortList.{clocks_before, first_reading, nearest_reading, follow_bound, follow_bounds, most_bound, message_bounds};
ghost use Rattle.cert.specs.Shows.{IsInside, Parts};
ghost use Rattle.cert_check.specs.Reasons.{joining_bounds, home_of, away_of, CutIs};
ghost use Rattle.cert_check.specs.Faults.{FindsFault, FindsLeaving};
ghost use Rattle.cert_check.specs.Sizes.{IsSmallReason};
ghost use Rattle.std.specs.Prelude.{IfSome};

use crate::answer::{Part, Reason};
use crate::declared::listed_bound;
use problem::Problem;
use problem_model::{Bound, Message};

// Whether a clock is among those inside, which rise.
fn has_clock(inside: &[u32], clock: u32) -> bool
    requires { AllPairs (λ j k. j < k) inside.now }
    ensures { IsTrue result ↔ Contains inside.now clock }
{
    inside.binary_search(&clock).is_ok()
}

// Whether the clock of an event is inside.
fn is_inside(p: &Problem, inside: &[u32], event: u32) -> bool
    requires rising { AllPairs (λ j k. j < k) inside.now }
    requires event { event < length p.now.events }
    ensures { IsTrue result ↔ IsInside p.now inside.now (nodes.Event event) }
{
    has_clock(inside, p.events()[event as usize].clock)
}

// The bound, where it leads from a node inside to one outside.
fn crossing(bound: Bound, from: bool, to: bool) -> Option<Bound>
    ensures { (p : ProblemLists) (inside : List ℕ) (c : Constraint) → IsWellFormed p → Declares p bound c → (IsTrue from ↔ IsInside p inside c.from) → (IsTrue to ↔ IsInside p inside c.to)
        → FindsLeaving p inside (bound ∷ []) result }
{
    if from && !to { Some(bound) } else { None }
}

// The bound on the greatest delay of a message, where there is one and it leads out.
fn leaving_most(message: &Message, send: bool, receive: bool) -> Option<Bound>
    ensures { (p : ProblemLists) (inside : List ℕ) → IsWellFormed p → Contains p.messages message.now → (IsTrue send ↔ IsInside p inside (nodes.Event message.now.send)) → (IsTrue receive ↔ IsInside p inside (nodes.Event message.now.receive))
        → FindsLeaving p inside (most_bound message.now message.now.most) result }
{
    match message.most {
        Some(_) => {
            let bound = Bound::DelayMost {
                send: message.send,
                receive: message.receive,
            };
            crossing(bound, send, receive)
        }
        None => None,
    }
}

// The first bound of a message that leads out.
fn leaving_bound(message: &Message, send: bool, receive: bool) -> Option<Bound>
    ensures { (p : ProblemLists) (inside : List ℕ) → IsWellFormed p → Contains p.messages message.now → (IsTrue send ↔ IsInside p inside (nodes.Event message.now.send)) → (IsTrue receive ↔ IsInside p inside (nodes.Event message.now.receive))
        → FindsLeaving p inside (message_bounds message.now) result }
{
    match leaving_most(message, send, receive) {
        None => {
            let bound = Bound::DelayLeast {
                send: message.send,
                receive: message.receive,
            };
            crossing(bound, receive, send)
        }
        leaving => leaving,
    }
}

// The follow of the short list whose later clock this is, where there is one and it leads out: from this clock, which is
// inside, to the earlier one, which is not.
fn leaving_follow(p: &Problem, inside: &[u32], later: u32) -> Option<Bound>
    requires rising { AllPairs (λ j k. j < k) inside.now }
    requires later { later < length p.now.clocks }
    ensures { (readings : List Reading) → AreReadings p.now readings
        → FindsLeaving p.now inside.now (follow_bound (nearest_reading readings (clocks_before p.now.follows later later)) (first_reading readings later)) result }
{
    // It tells that the problem is lawful.
    let _ = p.clocks();
    match p.nearest_follow(later) {
        Some(follow) => {
            let from = has_clock(inside, later);
            let to = has_clock(inside, follow.earlier);
            crossing(listed_bound(later, &follow), from, to)
        }
        None => None,
    }
}

// The first follow of the short list that leads from a clock inside to one outside.
fn first_follow_leaving(p: &Problem, inside: &[u32]) -> Option<Bound>
    requires { AllPairs (λ j k. j < k) inside.now }
    ensures { (readings : List Reading) → AreReadings p.now readings → FindsLeaving p.now inside.now (follow_bounds p.now.follows readings 0 p.now.clocks) result }
{
    for later in 0..p.clocks().len() as u32 {
        if let Some(bound) = leaving_follow(p, inside, later) {
            return Some(bound);
        }
    }
    None
}

// The first bound of the messages that leads from a clock inside to one outside.
fn first_delay_leaving(p: &Problem, inside: &[u32]) -> Option<Bound>
    requires { AllPairs (λ j k. j < k) inside.now }
    ensures { FindsLeaving p.now inside.now (flat_map message_bounds p.now.messages) result }
{
    for message in p.messages() {
        let send = is_inside(p, inside, message.send);
        let receive = is_inside(p, inside, message.receive);
        match leaving_bound(message, send, receive) {
            None => {}
            leaving => return leaving,
        }
    }
    None
}

// The first bound of the follows and the messages that leads from a clock inside to one outside.
fn first_leaving(p: &Problem, inside: &[u32]) -> Option<Bound>
    requires { AllPairs (λ j k. j < k) inside.now }
    ensures { (readings : List Reading) → AreReadings p.now readings → FindsLeaving p.now inside.now (joining_bounds p.now readings) result }
{
    match first_follow_leaving(p, inside) {
        None => first_delay_leaving(p, inside),
        leaving => leaving,
    }
}

// The event whose clock should be inside.
fn home_of(part: Part, first: u32, second: u32) -> u32
    ensures { result ≡ home_of part first second }
{
    match part {
        Part::Lower => second,
        _ => first,
    }
}

// The event whose clock should not.
fn away_of(part: Part, first: u32, second: u32) -> u32
    ensures { result ≡ away_of part first second }
{
    match part {
        Part::Lower => first,
        _ => second,
    }
}

/// What is wrong with a cut between two events, the clocks of which rise.
pub fn cut_fault(p: &Problem, part: Part, first: u32, second: u32, inside: &[u32]) -> Option<Reason>
    requires rising { AllPairs (λ j k. j < k) inside.now }
    requires first { first < length p.now.events }
    requires second { second < length p.now.events }
    ensures found { FindsFault part (CutIs p.now part first second inside.now) (Parts p.now inside.now (home_of part first second) (away_of part first second)) result }
    ensures small { IfSome result IsSmallReason }
{
    // Both tell that the problem is lawful, for its events and for its readings.
    let _ = p.events();
    let _readings = p.readings();
    if !is_inside(p, inside, home_of(part, first, second)) {
        return Some(Reason::Home);
    }
    if is_inside(p, inside, away_of(part, first, second)) {
        return Some(Reason::Away);
    }
    match first_leaving(p, inside) {
        Some(bound) => Some(Reason::Leaves(bound)),
        None => None,
    }
}
