// What the lines of a certificate so far say.
use crate::certificate::{Cert, EndProof};

/// What the lines so far say. The last list of it may still grow.
#[derive(Drop)]
pub enum Parts {
    /// Nothing yet.
    Nothing,
    /// The places of the two events whose difference has the ends.
    Events { p: u32, q: u32 },
    /// These, and the upper end.
    Upper { p: u32, q: u32, upper: EndProof },
    /// A cycle, a run, or both ends.
    Whole(Cert),
}

/// What a line leads to.
#[derive(Drop)]
pub enum Next {
    /// It says more.
    More(Parts),
    /// It is the end of this certificate.
    Done(Cert),
}
