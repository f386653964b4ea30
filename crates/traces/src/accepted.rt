// What was accepted under a label.
ghost use Rattle.std.specs.Prelude.{◌≡◌};
ghost use Rattle.traces.specs.Held.{dropped_by, passed_by};

use crate::Event;
use captures::{CaptureStream, Dropped, Passed};

/// What is kept of the bytes that were accepted under a label, by its kind, so that the next piece can be read.
#[derive(Drop)]
pub enum Stream {
    /// Of a log nothing is: each of its pieces has whole rows.
    Log,
    /// How far a capture was read.
    Capture(CaptureStream),
}

impl Stream {
    /// How many packets were passed over, by cause. Of a log none are.
    pub fn passed(&self) -> Passed
        ensures { result ≡ passed_by self.now }
    {
        match self {
            Stream::Log => Passed {
                simple: 0,
                obsolete: 0,
                other: 0,
            },
            Stream::Capture(stream) => stream.passed(),
        }
    }

    /// How many packets were dropped before they were captured. A log tells of none.
    pub fn dropped(&self) -> Dropped
        ensures { result ≡ dropped_by self.now }
    {
        match self {
            Stream::Log => Dropped::none(),
            Stream::Capture(stream) => stream.dropped(),
        }
    }
}

/// What was accepted under a label: its events, in their order, and how many bytes they came in.
#[derive(Drop)]
pub struct Accepted {
    pub events: Vec<Event>,
    /// In bytes, at most 2^30.
    pub size: u64,
    /// What is kept of these bytes.
    pub stream: Stream,
}
