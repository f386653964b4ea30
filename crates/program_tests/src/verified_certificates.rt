// Certificates that are checked: lawful ones, and what is answered of each change.
use crate::runs::{NO_SCRIPT, Wanted, prints, run_over};
use crate::verify_cases::{
    ACCEPTED, CHANGED_INTERVALS, CHANGED_RUNS_AND_CYCLES, CHANGED_UNBOUNDED, ILL_FORMED, REFUSED,
};
use ports::{MemFiles, MemSink};
use problem_commands::Status;
use shared_fixtures::{
    APART_PROBLEM, CONTRADICTING_PROBLEM, ONE_WAY_PROBLEM, OPEN_PROBLEM, TWO_LOGS_PROBLEM,
};
use std::alloc::{AllocError, Global};
use std::test::Fail;

// A certificate of a problem, with a text in place of the first such text.
#[derive(Clone, Copy)]
struct Change<'a> {
    problem: &'a str,
    cert: &'a str,
    old: &'a str,
    new: &'a str,
}

// Adds the certificate with its change.
fn push_changed(change: Change<'_>, text: &mut Vec<u8>) -> Result<(), AllocError> {
    match change.cert.split_once(change.old) {
        Some((before, after)) => {
            text.extend_from_slice(before.as_bytes())?;
            text.extend_from_slice(change.new.as_bytes())?;
            text.extend_from_slice(after.as_bytes())
        }
        None => Ok(()),
    }
}

// Whether `verify` over these two texts ends so.
fn ends_so(
    alloc: Global,
    problem: &str,
    cert: &[u8],
    status: Status,
    printed: &str,
) -> Result<bool, AllocError> {
    let mut files = MemFiles::new(alloc, &[])?;
    files.put("p", problem.as_bytes())?;
    files.put("c", cert)?;
    let wanted = Wanted {
        words: &["verify", "p", "c"],
        status,
        printed,
    };
    prints(alloc, &wanted, &mut files, &[])
}

// Whether `verify` over the problem and the changed certificate ends so.
fn verifies_so(
    alloc: Global,
    change: Change<'_>,
    status: Status,
    printed: &str,
) -> Result<bool, AllocError> {
    let mut cert = Vec::new(alloc);
    push_changed(change, &mut cert)?;
    ends_so(alloc, change.problem, &cert, status, printed)
}

// Prints what `solve` finds of a problem.
pub(crate) fn solve_into(
    alloc: Global,
    problem: &str,
    out: &mut MemSink,
) -> Result<(), AllocError> {
    let mut files = MemFiles::new(alloc, &[])?;
    files.put("p", problem.as_bytes())?;
    run_over(alloc, &["solve", "p"], &mut files, &NO_SCRIPT, out)?;
    Ok(())
}

// Whether what `solve` prints of a problem is accepted.
fn solution_holds(alloc: Global, problem: &str) -> Result<bool, AllocError> {
    let mut cert = MemSink::new(alloc, 600, 7, &[])?;
    solve_into(alloc, problem, &mut cert)?;
    ends_so(alloc, problem, cert.bytes(), Status::Done, "yes\n")
}

// How many rows, from the first on, come out as they say. A row has a problem, a certificate, what is changed in it,
// and what is printed.
pub(crate) fn rows_verified(
    alloc: Global,
    rows: &[(&str, &str, &str, &str, &str)],
    status: Status,
) -> Result<usize, AllocError> {
    for (place, (problem, cert, old, new, printed)) in rows.iter().enumerate() {
        let change = Change {
            problem: *problem,
            cert: *cert,
            old: *old,
            new: *new,
        };
        if !verifies_so(alloc, change, status, printed)? {
            return Ok(place);
        }
    }
    Ok(rows.len())
}

#[test]
fn certificates_that_hold(rt: HostRuntime) -> Result<(), Fail> {
    let right = rows_verified(rt.alloc(), &ACCEPTED, Status::Done)?;
    assert!(rt; right == ACCEPTED.len(), "at row {right}");
    Ok(())
}

#[test]
fn changed_intervals(rt: HostRuntime) -> Result<(), Fail> {
    let right = rows_verified(rt.alloc(), &CHANGED_INTERVALS, Status::No)?;
    assert!(rt; right == CHANGED_INTERVALS.len(), "at row {right}");
    Ok(())
}

#[test]
fn changed_runs_and_cycles(rt: HostRuntime) -> Result<(), Fail> {
    let right = rows_verified(rt.alloc(), &CHANGED_RUNS_AND_CYCLES, Status::No)?;
    assert!(rt; right == CHANGED_RUNS_AND_CYCLES.len(), "at row {right}");
    Ok(())
}

#[test]
fn changed_unbounded(rt: HostRuntime) -> Result<(), Fail> {
    let right = rows_verified(rt.alloc(), &CHANGED_UNBOUNDED, Status::No)?;
    assert!(rt; right == CHANGED_UNBOUNDED.len(), "at row {right}");
    Ok(())
}

#[test]
fn ill_formed_certificates(rt: HostRuntime) -> Result<(), Fail> {
    let right = rows_verified(rt.alloc(), &ILL_FORMED, Status::BadCert)?;
    assert!(rt; right == ILL_FORMED.len(), "at row {right}");
    Ok(())
}

#[test]
fn refused_certificates(rt: HostRuntime) -> Result<(), Fail> {
    let right = rows_verified(rt.alloc(), &REFUSED, Status::BadCert)?;
    assert!(rt; right == REFUSED.len(), "at row {right}");
    Ok(())
}

#[test]
fn solutions_hold(rt: HostRuntime) -> Result<(), Fail> {
    for problem in [
        TWO_LOGS_PROBLEM,
        CONTRADICTING_PROBLEM,
        APART_PROBLEM,
        OPEN_PROBLEM,
        ONE_WAY_PROBLEM,
        "problem 1\nend\n",
        "problem 1\nclock c 100 100 5 7\nevent p c 0\nevent q c 1000000000\nevent r c 2000000000\nmessage p r 5 1\nend\n",
        "problem 1\nclock c 100 100 5 7\nclock d 0 0 0 9\nevent p c 0\nevent q c 10\nevent r d 4611686018427387903\n\
        message p r 5 9\nmessage r q 0 none\nend\n",
    ] {
        assert!(rt; solution_holds(rt.alloc(), problem)?);
    }
    Ok(())
}
