// What is printed of a problem: its names, its events and its readings.
ghost use Rattle.std.specs.Prelude.{◌≡◌, ◌<◌, ◌≤◌, ◌+◌, Some, length, slice_get};
ghost use Rattle.problem_model.specs.Limits.{most_nodes};
ghost use Rattle.problem.specs.Listing.{Listed};

use crate::problem::Problem;
use atto::Nano;
use problem_model::Name;

/// The names of clocks and events, and the events and readings by their places in the order in which they are printed.
/// Places, numbers and nodes count from 0.
pub trait Listing {
    /// What is listed.
    ghost listed: { Self → Listed };

    /// How many events are listed.
    fn event_count(&self) -> u32
        ensures { result ≡ length (listed self.now).events };

    /// How many readings are listed. Events and readings together are at most 2^25.
    fn reading_count(&self) -> u32
        ensures count { result ≡ length (listed self.now).readings }
        ensures few { length (listed self.now).events + length (listed self.now).readings ≤ most_nodes };

    /// The name of event `e`.
    fn event_name(&self, e: u32) -> Name
        requires { e < length (listed self.now).event_names }
        ensures { slice_get (listed self.now).event_names e ≡ Some result };

    /// The name of the clock at place `c`.
    fn clock_name(&self, c: u32) -> Name
        requires { c < length (listed self.now).clock_names }
        ensures { slice_get (listed self.now).clock_names c ≡ Some result };

    /// The number and the node of the event at a place. The number has a name.
    fn event_at(&self, place: u32) -> (u32, u32)
        requires { place < length (listed self.now).events }
        ensures value { slice_get (listed self.now).events place ≡ Some result }
        ensures named { result.0 < length (listed self.now).event_names };

    /// The clock, the stamp and the node of the reading at a place. The clock has a name.
    fn reading_at(&self, place: u32) -> (u32, Nano, u32)
        requires { place < length (listed self.now).readings }
        ensures value { slice_get (listed self.now).readings place ≡ Some result }
        ensures named { result.0 < length (listed self.now).clock_names };
}

impl Listing for Problem {
    ghost use Rattle.problem.specs.Listing.{listing_of};

    ghost listed = { listing_of };

    fn event_count(&self) -> u32 {
        self.events().len() as u32
    }

    fn reading_count(&self) -> u32 {
        // It tells that the problem is lawful.
        let _ = self.events();
        self.readings().len() as u32
    }

    fn event_name(&self, e: u32) -> Name {
        self.events()[e as usize].name
    }

    fn clock_name(&self, c: u32) -> Name {
        self.clocks()[c as usize].name
    }

    fn event_at(&self, place: u32) -> (u32, u32) {
        (place, place)
    }

    fn reading_at(&self, place: u32) -> (u32, Nano, u32) {
        let count = self.events().len() as u32;
        let reading = &self.readings()[place as usize];
        (reading.0, reading.1, count + place)
    }
}
