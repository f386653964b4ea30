// Files that have more than a session takes: more than 2^28 bytes. More rows than fit: `tests/hostile_inputs.py`.
use crate::fixtures::{session_over, step};
use ports::{FileFail, Files, MemSink};
use session::{Session, Stop};
use shared_fixtures::TWO_LOGS_DECLARATION;
use std::alloc::Global;
use std::test::*;

// Files without an end, at every path.
#[derive(Drop)]
struct Endless;

impl Files for Endless {
    ghost use Rattle.std.specs.Prelude.{None};

    ghost told = { λ f. record { content = None; faults = 0; absences = 0 } };

    fn read_at(&mut self, _: &str, _: u64, buf: &mut [u8]) -> Result<usize, FileFail> {
        Ok(buf.len())
    }
}

// Whether a piece without an end is refused, and nothing is added.
fn is_endless_refused(session: &mut Session, out: &mut MemSink) -> Result<bool, Stop> {
    let mut files = Endless;
    let are_lines = step(session, &mut files, "add a endless", out)?
        && step(session, &mut files, "order a#1 a#1", out)?;
    Ok(are_lines && out.bytes() == b"refused 23\nrefused 28\n".as_slice())
}

// The same over a sink.
fn is_refused_into(alloc: Global, session: &mut Session) -> Result<bool, Stop> {
    let mut out = MemSink::new(alloc, 100, 5_000, &[])?;
    is_endless_refused(session, &mut out)
}

fn is_refused_over(alloc: Global) -> Result<bool, Stop> {
    match session_over(alloc, TWO_LOGS_DECLARATION)? {
        Some(mut session) => is_refused_into(alloc, &mut session),
        None => Ok(false),
    }
}

#[test]
fn endless_piece(rt: HostRuntime) {
    assert!(rt; is_refused_over(rt.alloc()) == Ok(true));
}
