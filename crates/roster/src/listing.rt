// What is listed of a roster.
ghost use Rattle.std.specs.Prelude.{◌≡◌, ◌<◌, length, slice_get, Some};
ghost use Rattle.roster.specs.Readings.{Stamped};

use crate::roster::Roster;
use atto::Nano;
use problem::Listing;
use problem_model::Name;
use traces::event_name;

// The reading at a place of its clock.
fn reading_of(readings: &[(Nano, u32)], place: u32) -> (Nano, u32)
    requires { place < length readings.now }
    ensures { slice_get {X = Stamped} readings.now place ≡ Some result }
{
    readings[place as usize]
}

impl Listing for Roster {
    ghost use Rattle.roster.specs.Roster.{listed};

    ghost listed = { listed };

    fn event_count(&self) -> u32 {
        self.came.len() as u32
    }

    fn reading_count(&self) -> u32 {
        self.readings.total()
    }

    fn event_name(&self, e: u32) -> Name {
        let came = self.came[e as usize];
        event_name(&self.decl.labels[came.label as usize].name, came.number)
    }

    fn clock_name(&self, c: u32) -> Name {
        self.decl.clocks[c as usize].name
    }

    fn event_at(&self, place: u32) -> (u32, u32) {
        let (label, k) = self.under.find(place);
        let v = self.under.group(label)[k as usize];
        (v, self.came[v as usize].node)
    }

    fn reading_at(&self, place: u32) -> (u32, Nano, u32) {
        let (clock, k) = self.readings.find(place);
        let reading = reading_of(self.readings.group(clock), k);
        (clock, reading.0, reading.1)
    }
}
