// Which messages of each link are fastest or slowest, and which of these covers each other one. Nothing here is relied
// on: what is found is tested before a message is left out.
ghost use Rattle.std.specs.Prelude.{◌≡◌, ◌<◌, IfOk, IfSome, length};

use crate::courses::{Course, courses_of};
use problem::Problem;
use std::alloc::{AllocError, Global};

// Which messages of a link are wanted.
#[derive(Clone, Copy)]
enum Side {
    Fastest,
    Slowest,
}

// Whether an earlier received message takes the place of a later one. The one coordinate tells.
fn covers_later(side: Side, earlier: &Course, later: &Course) -> bool {
    match side {
        Side::Fastest => earlier.v >= later.v,
        Side::Slowest => earlier.u <= later.u,
    }
}

// Whether a later received message takes the place of an earlier one. The other coordinate tells.
fn covers_earlier(side: Side, later: &Course, earlier: &Course) -> bool {
    match side {
        Side::Fastest => later.u >= earlier.u,
        Side::Slowest => later.v <= earlier.v,
    }
}

// Messages need no slowest ones where they have no greatest delay.
fn concerns(side: Side, course: &Course) -> bool {
    match side {
        Side::Fastest => true,
        Side::Slowest => course.bounded,
    }
}

/// The number that stands at a place, which itself stands for a place.
pub fn onward(witnesses: &[u32], place: u32) -> u32 {
    match witnesses.get(place as usize) {
        Some(next) => *next,
        None => place,
    }
}

// Lets one place name another.
fn point(witnesses: &mut [u32], place: u32, next: u32) {
    if let Some(witness) = witnesses.get_mut(place as usize) {
        *witness = next;
    }
}

// Each place by itself.
fn each_itself(alloc: Global, count: u32) -> Result<Vec<u32>, AllocError> {
    let mut witnesses = Vec::new(alloc);
    for place in 0..count {
        witnesses.push(place)?;
    }
    Ok(witnesses)
}

/// The steps of one link that stand so far, and all that ever stood, in their order.
#[derive(Drop)]
struct Stairs {
    standing: Vec<Course>,
    raised: Vec<u32>,
}

// Whether the last step is of another link.
fn is_of_another(standing: &[Course], course: &Course) -> bool {
    match standing.last() {
        Some(top) => top.link != course.link,
        None => false,
    }
}

// The place of the last step, if it covers the message.
fn covering_top(standing: &[Course], side: Side, course: &Course) -> Option<u32> {
    let top = standing.last()?;
    if covers_later(side, top, course) {
        Some(top.place)
    } else {
        None
    }
}

// The place of the last step, if the message covers it.
fn covered_top(standing: &[Course], side: Side, course: &Course) -> Option<u32>
    ensures { IfSome result (λ place. 0 < length standing.now) }
{
    let top = standing.last()?;
    if covers_earlier(side, course, top) {
        Some(top.place)
    } else {
        None
    }
}

// Takes down the steps that the message covers.
fn take_down(standing: &mut Vec<Course>, side: Side, course: &Course, witnesses: &mut [u32]) {
    while let Some(place) = covered_top(standing, side, course) {
        point(witnesses, place, course.place);
        let _ = standing.pop();
    }
}

// The next message of a link: it is covered by the last step, or becomes the last one.
fn raise(
    stairs: &mut Stairs,
    side: Side,
    course: &Course,
    witnesses: &mut [u32],
) -> Result<(), AllocError> {
    if is_of_another(&stairs.standing, course) {
        stairs.standing.clear();
    }
    if let Some(place) = covering_top(&stairs.standing, side, course) {
        point(witnesses, course.place, place);
        return Ok(());
    }
    take_down(&mut stairs.standing, side, course, witnesses);
    stairs.standing.push(*course)?;
    stairs.raised.push(course.place)?;
    Ok(())
}

// Lets each place name the last one that it leads to.
fn lead_on(count: u32, raised: &[u32], witnesses: &mut [u32]) {
    for place in raised.iter().rev() {
        let last = onward(witnesses, onward(witnesses, *place));
        point(witnesses, *place, last);
    }
    for place in 0..count {
        let last = onward(witnesses, onward(witnesses, place));
        point(witnesses, place, last);
    }
}

// For each message the place of one that covers it, itself where it is one of the fastest or slowest.
fn witnesses_of(
    alloc: Global,
    count: u32,
    courses: &[Course],
    side: Side,
) -> Result<Vec<u32>, AllocError> {
    let mut witnesses = each_itself(alloc, count)?;
    let mut stairs = Stairs {
        standing: Vec::new(alloc),
        raised: Vec::new(alloc),
    };
    for course in courses {
        if concerns(side, course) {
            raise(&mut stairs, side, course, &mut witnesses)?;
        }
    }
    lead_on(count, &stairs.raised, &mut witnesses);
    Ok(witnesses)
}

/// Which messages to keep, and which of them cover each other one.
#[derive(Drop)]
pub struct Proposal {
    /// For each message whether it is kept.
    pub fixed: Vec<bool>,
    /// For each message the place of one that is as fast.
    pub fast: Vec<u32>,
    /// For each message with a greatest delay the place of one that it is as fast as.
    pub slow: Vec<u32>,
}

// Whether each message is one of the fastest, or has a greatest delay and is one of the slowest.
fn fixed_by(alloc: Global, p: &Problem, fast: &[u32], slow: &[u32]) -> Result<Vec<bool>, AllocError>
    ensures { IfOk result (λ fixed. length fixed.items ≡ length p.now.messages) }
{
    let mut fixed = Vec::new(alloc);
    for (place, message) in p.messages().iter().enumerate() {
        let place = place as u32;
        let fastest = onward(fast, place) == place;
        let slowest = message.most.is_some() && onward(slow, place) == place;
        fixed.push(fastest || slowest)?;
    }
    Ok(fixed)
}

/// The fastest messages of each link, and the slowest where there are greatest delays.
pub fn propose(alloc: Global, p: &Problem) -> Result<Proposal, AllocError>
    ensures { IfOk result (λ r. length r.fixed.items ≡ length p.now.messages) }
{
    let count = p.messages().len() as u32;
    let courses = courses_of(alloc, p)?;
    let fast = witnesses_of(alloc, count, &courses, Side::Fastest)?;
    let slow = witnesses_of(alloc, count, &courses, Side::Slowest)?;
    let fixed = fixed_by(alloc, p, &fast, &slow)?;
    Ok(Proposal { fixed, fast, slow })
}
