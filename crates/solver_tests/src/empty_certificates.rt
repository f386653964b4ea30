// The certificates of the problem that says nothing.
ghost use Rattle.std.specs.Prelude.{◌≡◌, [], true};
ghost use Rattle.problem_model.specs.Problem.{empty_problem};

use attain::{write_cycle, write_run};
use earliest::Earliest;
use ports::MemSink;
use problem::Problem;
use std::alloc::{AllocError, Global};
use std::test::Fail;

// Whether this is written of an execution of no nodes.
fn run_into(p: &Problem, e: &Earliest, out: &mut MemSink, printed: &[u8]) -> bool
    requires problem { p.now ≡ empty_problem }
    requires values { e.now ≡ record { values = []; is_solved = true; workspace = [] } }
{
    let _failed = write_run(p, e, out);
    out.bytes() == printed
}

// The same over a sink where these writes fail.
fn run_over(
    alloc: Global,
    p: &Problem,
    e: &Earliest,
    fails: &[u32],
    printed: &[u8],
) -> Result<bool, AllocError>
    requires problem { p.now ≡ empty_problem }
    requires values { e.now ≡ record { values = []; is_solved = true; workspace = [] } }
{
    let mut out = MemSink::new(alloc, 60, 5, fails)?;
    Ok(run_into(p, e, &mut out, printed))
}

fn run_so(alloc: Global, fails: &[u32], printed: &[u8]) -> Result<bool, AllocError> {
    let p = Problem::empty(alloc);
    let e = Earliest::new(alloc);
    run_over(alloc, &p, &e, fails, printed)
}

// Whether this is written of a cycle of no steps.
fn cycle_into(p: &Problem, out: &mut MemSink, printed: &[u8]) -> bool {
    let _failed = write_cycle(p, &[], out);
    out.bytes() == printed
}

// The same over a sink where these writes fail.
fn cycle_over(
    alloc: Global,
    p: &Problem,
    fails: &[u32],
    printed: &[u8],
) -> Result<bool, AllocError> {
    let mut out = MemSink::new(alloc, 60, 5, fails)?;
    Ok(cycle_into(p, &mut out, printed))
}

fn cycle_so(alloc: Global, fails: &[u32], printed: &[u8]) -> Result<bool, AllocError> {
    let p = Problem::empty(alloc);
    cycle_over(alloc, &p, fails, printed)
}

#[test]
fn certificates_of_nothing(rt: HostRuntime) -> Result<(), Fail> {
    let alloc = rt.alloc();
    assert!(rt; run_so(alloc, &[], b"certificate 1\nrun\nend\n")?);
    assert!(rt; run_so(alloc, &[3], b"certificat")?);
    assert!(rt; cycle_so(alloc, &[], b"certificate 1\ncycle\nend\n")?);
    assert!(rt; cycle_so(alloc, &[5], b"certificate 1\ncycle\n")?);
    Ok(())
}
