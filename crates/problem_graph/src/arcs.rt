// The arcs that one thing of a problem brings.
ghost use Rattle.std.specs.Prelude.{◌≡◌, ◌<◌, [], ◌∷◌, Contains};
ghost use Rattle.problem_model.specs.declared.items.Event.{Event};
ghost use Rattle.problem_model.specs.declared.items.Node.TheVariants as nodes;
ghost use Rattle.problem_model.specs.declared.items.Bound.TheVariants as bounds;
ghost use Rattle.problem_model.specs.declared.items.Bound.TheVariants.{SpanMost, SpanLeast, Late, Early, DelayLeast};
ghost use Rattle.problem_model.specs.Bounds.{Declares, ClockAt, EventAt, IsReading, early_by, late_by};
ghost use Rattle.problem_model.specs.ShortList.{message_bounds};
ghost use Rattle.problem.specs.Nearest.{gap_between};
ghost use Rattle.problem_graph.specs.BoundArcs.{AreArcsOf, HaveNumbers, arcs_in};

use atto::{Nano, delay_units, span_least, span_most};
use problem::NearestFollow;
use problem_model::{Bound, Clock, Message, StampBounds};
use sync_graph::Arc;

/// The arcs that one thing brings, in their order.
#[derive(Clone, Copy)]
pub enum Arcs {
    /// None.
    Nothing,
    /// This one.
    One(Arc),
    /// These two.
    Two(Arc, Arc),
}

/// The arcs of both bounds over the span of two readings of the clock at a place, whose nodes have these numbers.
pub fn span_arcs(place: u32, clock: &Clock, s: Nano, t: Nano, first: u32, second: u32) -> Arcs
    requires { s < t }
    ensures { AreArcsOf (SpanMost place s t ∷ SpanLeast place s t ∷ [])
        (HaveNumbers first (nodes.Reading place s) second (nodes.Reading place t))
        (λ p. ClockAt p place clock.now × IsReading p place s × IsReading p place t) (arcs_in result) }
{
    Arcs::Two(
        Arc {
            from: first,
            to: second,
            weight: span_most(clock.rate, s, t),
            name: Bound::SpanMost { clock: place, s, t },
        },
        Arc {
            from: second,
            to: first,
            weight: -span_least(clock.rate, s, t),
            name: Bound::SpanLeast { clock: place, s, t },
        },
    )
}

// How far behind the reading on its stamp an event on the clock may lie.
fn late_by(clock: &Clock, own: &Option<StampBounds>) -> Nano
    ensures { result ≡ late_by clock.now own.now }
{
    match own {
        None => clock.late,
        Some(own) => own.late,
    }
}

// How far before it.
fn early_by(clock: &Clock, own: &Option<StampBounds>) -> Nano
    ensures { result ≡ early_by clock.now own.now }
{
    match own {
        None => clock.early,
        Some(own) => own.early,
    }
}

/// The arcs of both bounds on the stamp of the event at a place, which its clock shows, with its own bounds where it
/// has any; the nodes of reading and event have these numbers.
pub fn stamp_arcs(
    event: u32,
    place: u32,
    clock: &Clock,
    stamp: Nano,
    own: &Option<StampBounds>,
    reading: u32,
    node: u32,
) -> Arcs
    ensures { AreArcsOf (Late event ∷ Early event ∷ [])
        (HaveNumbers reading (nodes.Reading place stamp) node (nodes.Event event))
        (λ p. (e : Event) × EventAt p event e × (e.clock ≡ place) × (e.stamp ≡ stamp) × (e.bounds ≡ own.now) × ClockAt p place clock.now) (arcs_in result) }
{
    Arcs::Two(
        Arc {
            from: reading,
            to: node,
            weight: delay_units(late_by(clock, own)),
            name: Bound::Late(event),
        },
        Arc {
            from: node,
            to: reading,
            weight: delay_units(early_by(clock, own)),
            name: Bound::Early(event),
        },
    )
}

/// The arc of the bound between a reading of a clock and one of the later clock at a place; the nodes of the earlier and
/// the later reading have these numbers.
pub fn follow_arcs(f: &NearestFollow, later: u32, first: u32, second: u32) -> Arcs
    ensures { AreArcsOf (bounds.Follow f.now.earlier f.now.s later f.now.t ∷ [])
        (HaveNumbers first (nodes.Reading f.now.earlier f.now.s) second (nodes.Reading later f.now.t))
        (λ p. Declares p (bounds.Follow f.now.earlier f.now.s later f.now.t) (gap_between f.now.earlier f.now.s later f.now.t f.now.gap)) (arcs_in result) }
{
    Arcs::One(Arc {
        from: second,
        to: first,
        weight: -delay_units(f.gap),
        name: Bound::Follow {
            earlier: f.earlier,
            s: f.s,
            later,
            t: f.t,
        },
    })
}

// The arc of the bound on the least delay of a message.
fn least_arc(message: &Message, send: u32, receive: u32) -> Arc
    ensures { AreArcsOf (DelayLeast message.now.send message.now.receive ∷ [])
        (HaveNumbers send (nodes.Event message.now.send) receive (nodes.Event message.now.receive))
        (λ p. Contains p.messages message.now) (result ∷ []) }
{
    Arc {
        from: receive,
        to: send,
        weight: -delay_units(message.least),
        name: Bound::DelayLeast {
            send: message.send,
            receive: message.receive,
        },
    }
}

/// The arcs of the bounds on the delay of a message, the greatest before the least; the nodes of its send and its receive
/// have these numbers.
pub fn message_arcs(message: &Message, send: u32, receive: u32) -> Arcs
    ensures { AreArcsOf (message_bounds message.now)
        (HaveNumbers send (nodes.Event message.now.send) receive (nodes.Event message.now.receive))
        (λ p. Contains p.messages message.now) (arcs_in result) }
{
    let least = least_arc(message, send, receive);
    match message.most {
        Some(most) => Arcs::Two(
            Arc {
                from: send,
                to: receive,
                weight: delay_units(most),
                name: Bound::DelayMost {
                    send: message.send,
                    receive: message.receive,
                },
            },
            least,
        ),
        None => Arcs::One(least),
    }
}
