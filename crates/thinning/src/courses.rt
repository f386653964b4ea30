// The messages of a problem by their links: those of one link can take each other's place.
ghost use Rattle.std.specs.Prelude.{◌<◌, length};

use crate::coordinates::{coordinate_u, coordinate_v};
use problem::Problem;
use problem_model::{Event, Message};
use std::alloc::{AllocError, Global};

/// What a link goes by: both clocks, both bounds on delays and the own bounds of the sends and of the receives, in ns;
/// 2^64 - 1 is a bound that is not there.
pub type Link = [u64; 8];

/// A message of a link with its coordinates, in units of 1e-9 ns.
#[derive(Clone, Copy)]
pub struct Course {
    pub link: Link,
    /// When it is received and sent, in ns of its clocks.
    pub received: u64,
    pub sent: u64,
    pub u: i128,
    pub v: i128,
    /// The place of the message, from 0 on.
    pub place: u32,
    /// Whether it has a greatest delay.
    pub bounded: bool,
}

// An event's own bounds, in ns.
fn own_bounds(event: &Event) -> (u64, u64) {
    match event.bounds {
        Some(own) => (own.early.get(), own.late.get()),
        None => (u64::MAX, u64::MAX),
    }
}

// A message's greatest delay, in ns.
fn greatest_delay(message: &Message) -> u64 {
    match message.most {
        Some(most) => most.get(),
        None => u64::MAX,
    }
}

// The link of a message between these events.
fn link_of(message: &Message, send: &Event, receive: &Event) -> Link {
    let (sent_early, sent_late) = own_bounds(send);
    let (received_early, received_late) = own_bounds(receive);
    [
        u64::from(send.clock),
        u64::from(receive.clock),
        message.least.get(),
        greatest_delay(message),
        sent_early,
        sent_late,
        received_early,
        received_late,
    ]
}

// The course of the message at a place.
fn course_of(p: &Problem, place: u32, message: &Message) -> Course
    requires send { message.now.send < length p.now.events }
    requires receive { message.now.receive < length p.now.events }
{
    let send = &p.events()[message.send as usize];
    let receive = &p.events()[message.receive as usize];
    let sender = p.clocks()[send.clock as usize].rate;
    let receiver = p.clocks()[receive.clock as usize].rate;
    Course {
        link: link_of(message, send, receive),
        received: receive.stamp.get(),
        sent: send.stamp.get(),
        u: coordinate_u(sender, receiver, send.stamp, receive.stamp),
        v: coordinate_v(sender, receiver, send.stamp, receive.stamp),
        place,
        bounded: message.most.is_some(),
    }
}

/// The courses of all messages, by link, and then by the stamps of their receives and their sends.
pub fn courses_of(alloc: Global, p: &Problem) -> Result<Vec<Course>, AllocError> {
    let mut courses = Vec::new(alloc);
    for (place, message) in p.messages().iter().enumerate() {
        courses.push(course_of(p, place as u32, message))?;
    }
    courses.sort_unstable_by_key(|course| (course.link, course.received, course.sent));
    Ok(courses)
}
