// Clocks that follow each other: their texts are read or refused, and their gaps count in every answer over a problem.
use crate::commands_over_problems::{rows_ended, rows_obeyed, rows_refused};
use crate::runs::{Wanted, prints};
use crate::verified_certificates::{rows_verified, solve_into};
use ports::{MemFiles, MemSink};
use problem_commands::Status;
use shared_fixtures::push_lines;
use std::alloc::{AllocError, Global};
use std::test::Fail;

// One clock takes over from another after 5 ns at least.
const GAP: &str =
    "problem 2\nclock c 0 0 0 0\nclock d 0 0 0 0\nfollow c d 5\nevent p c 10\nevent q d 3\nend\n";

// The same with a message back to the earlier clock, which can't be.
const GAP_BACK: &str =
    "problem 2\nclock c 0 0 0 0\nclock d 0 0 0 0\nfollow c d 5\nevent p c 10\nevent q d 3\nmessage q p 0 none\nend\n";

// Three clocks, one after the other, of which the one between has no reading.
const CHAIN: &str =
    "problem 2\nclock c 0 0 0 0\nclock d 0 0 0 0\nclock e 0 0 0 0\nfollow c d 5\nfollow d e 7\nevent p c 10\n\
    event q e 0\nend\n";

// The same with a reading of the clock between.
const READ_CHAIN: &str =
    "problem 2\nclock c 0 0 0 0\nclock d 0 0 0 0\nclock e 0 0 0 0\nfollow c d 5\nfollow d e 7\nevent p c 10\n\
    event q e 0\nevent r d 0\nend\n";

// That chain with a message back to the first clock.
const CHAIN_BACK: &str =
    "problem 2\nclock c 0 0 0 0\nclock d 0 0 0 0\nclock e 0 0 0 0\nfollow c d 5\nfollow d e 7\nevent p c 10\n\
    event q e 0\nevent r d 0\nmessage q p 0 none\nend\n";

// From p to q there is the gap, or the sum of the gaps between clocks with readings, and nothing bounds it from above.
const INTERVALS: [(&str, &str, &str, Status, &str); 5] = [
    (GAP, "p", "q", Status::Done, "5.000000000 +inf before\n"),
    (GAP, "q", "p", Status::Done, "-inf -5.000000000 after\n"),
    (CHAIN, "p", "q", Status::Done, "7.000000000 +inf before\n"),
    (
        READ_CHAIN,
        "p",
        "q",
        Status::Done,
        "12.000000000 +inf before\n",
    ),
    (
        READ_CHAIN,
        "p",
        "r",
        Status::Done,
        "5.000000000 +inf before\n",
    ),
];

#[test]
fn gaps_bound_intervals(rt: HostRuntime) -> Result<(), Fail> {
    let right = rows_ended(rt.alloc(), &INTERVALS)?;
    assert!(rt; right == INTERVALS.len(), "at row {right}");
    Ok(())
}

// The steps of the contradiction, which may be printed from any of them on.
const STEPS: [&str; 4] = [
    "step delay-least q p 0.000000000\n",
    "step early q 0.000000000\n",
    "step follow c 10 d 3 -5.000000000\n",
    "step late p 0.000000000\n",
];

// Whether this is the certificate of the contradiction with these steps, and then those.
fn is_cycle_of(
    alloc: Global,
    printed: &[u8],
    steps: &[&str],
    others: &[&str],
) -> Result<bool, AllocError> {
    let mut text = Vec::from_slice(alloc, b"certificate 1\ncycle\n")?;
    push_lines(&mut text, steps)?;
    push_lines(&mut text, others)?;
    text.extend_from_slice(b"end\n")?;
    Ok(text.as_slice() == printed)
}

// Whether this is the certificate of the contradiction.
fn is_contradiction(alloc: Global, printed: &[u8]) -> Result<bool, AllocError> {
    for (first, _) in STEPS.iter().enumerate() {
        let (others, steps) = STEPS.split_at(first);
        if is_cycle_of(alloc, printed, steps, others)? {
            return Ok(true);
        }
    }
    Ok(false)
}

// Whether `solve` prints the contradiction.
fn contradicts(alloc: Global) -> Result<bool, AllocError> {
    let mut cert = MemSink::new(alloc, 600, 7, &[])?;
    solve_into(alloc, GAP_BACK, &mut cert)?;
    is_contradiction(alloc, cert.bytes())
}

#[test]
fn a_message_back_contradicts(rt: HostRuntime) -> Result<(), Fail> {
    assert!(rt; contradicts(rt.alloc())?);
    Ok(())
}

// The later clock's reading is as early as the gap lets it be.
const GAP_RUN: &str =
    "certificate 1\nrun\nevent p 0.000000000\nevent q 5.000000000\nreading c 10 0.000000000\n\
    reading d 3 5.000000000\nend\n";

// Whether `solve` prints the earliest execution.
fn solves(alloc: Global) -> Result<bool, AllocError> {
    let mut files = MemFiles::new(alloc, &[])?;
    files.put("p", GAP.as_bytes())?;
    let wanted = Wanted {
        words: &["solve", "p"],
        status: Status::Done,
        printed: GAP_RUN,
    };
    prints(alloc, &wanted, &mut files, &[])
}

#[test]
fn a_gap_is_waited_for(rt: HostRuntime) -> Result<(), Fail> {
    assert!(rt; solves(rt.alloc())?);
    Ok(())
}

// A follow is broken where less time is between the clocks, before any message is, and it is that of the nearest
// reading.
const JUDGED: [(&str, &str, Status, &str); 7] = [
    (
        GAP,
        "execution 1\nevent p 0.000000000\nevent q 5.000000000\nreading c 10 0.000000000\nreading d 3 5.000000000\nend\n",
        Status::Done,
        "obeys\n",
    ),
    (
        GAP,
        "execution 1\nevent p 0.000000000\nevent q 99.000000000\nreading c 10 0.000000000\n\
        reading d 3 99.000000000\nend\n",
        Status::Done,
        "obeys\n",
    ),
    (
        GAP,
        "execution 1\nevent p 0.000000000\nevent q 4.999999999\nreading c 10 0.000000000\nreading d 3 4.999999999\nend\n",
        Status::No,
        "broken follow c 10 d 3 -5.000000000 -4.999999999\n",
    ),
    (
        GAP_BACK,
        "execution 1\nevent p 0.000000000\nevent q 4.000000000\nreading c 10 0.000000000\nreading d 3 4.000000000\nend\n",
        Status::No,
        "broken follow c 10 d 3 -5.000000000 -4.000000000\n",
    ),
    (
        GAP_BACK,
        "execution 1\nevent p 0.000000000\nevent q 5.000000000\nreading c 10 0.000000000\nreading d 3 5.000000000\nend\n",
        Status::No,
        "broken delay-least q p 0.000000000 5.000000000\n",
    ),
    (
        CHAIN,
        "execution 1\nevent p 0.000000000\nevent q 6.000000000\nreading c 10 0.000000000\nreading e 0 6.000000000\nend\n",
        Status::No,
        "broken follow c 10 e 0 -7.000000000 -6.000000000\n",
    ),
    (
        READ_CHAIN,
        "execution 1\nevent p 0.000000000\nevent q 11.000000000\nevent r 5.000000000\nreading c 10 0.000000000\n\
        reading d 0 5.000000000\nreading e 0 11.000000000\nend\n",
        Status::No,
        "broken follow d 0 e 0 -7.000000000 -6.000000000\n",
    ),
];

#[test]
fn gaps_are_judged(rt: HostRuntime) -> Result<(), Fail> {
    let right = rows_obeyed(rt.alloc(), &JUDGED)?;
    assert!(rt; right == JUDGED.len(), "at row {right}");
    Ok(())
}

// Texts of which a follow, or what stands in its place, is refused, and why.
const REFUSED: [(&str, &str); 14] = [
    // the second version has a follow, and the first has none
    ("problem 2\n", "problem 1 2\n"),
    ("problem 2\nend\n", "problem 1 2\n"),
    (
        "problem 2\nclock c 0 0 0 0\nclock d 0 0 0 0\nevent p c 10\nevent q d 3\nend\n",
        "problem 1 4\n",
    ),
    (
        "problem 1\nclock c 0 0 0 0\nclock d 0 0 0 0\nfollow c d 5\nend\n",
        "problem 1 4\n",
    ),
    // follows stand between clocks and events
    (
        "problem 2\nclock c 0 0 0 0\nclock d 0 0 0 0\nfollow c d 5\nclock e 0 0 0 0\nend\n",
        "problem 1 5\n",
    ),
    (
        "problem 2\nclock c 0 0 0 0\nclock d 0 0 0 0\nclock e 0 0 0 0\nfollow c d 5\nevent p c 0\nfollow d e 5\nend\n",
        "problem 1 7\n",
    ),
    (
        "problem 2\nclock c 0 0 0 0\nclock d 0 0 0 0\nfollow c d\nend\n",
        "problem 1 4\n",
    ),
    // to a clock that stands behind, each clock once as the earlier and once as the later one
    (
        "problem 2\nclock c 0 0 0 0\nclock d 0 0 0 0\nfollow d c 5\nevent p c 10\nevent q d 3\nend\n",
        "problem 2 4\n",
    ),
    (
        "problem 2\nclock c 0 0 0 0\nfollow c c 5\nend\n",
        "problem 2 3\n",
    ),
    (
        "problem 2\nclock c 0 0 0 0\nfollow c d 5\nend\n",
        "problem 2 3\n",
    ),
    (
        "problem 2\nclock c 0 0 0 0\nclock d 0 0 0 0\nclock e 0 0 0 0\nfollow c d 5\nfollow c e 5\nend\n",
        "problem 2 6\n",
    ),
    (
        "problem 2\nclock c 0 0 0 0\nclock d 0 0 0 0\nclock e 0 0 0 0\nfollow c e 5\nfollow d e 5\nend\n",
        "problem 2 6\n",
    ),
    // a gap below 2^62
    (
        "problem 2\nclock c 0 0 0 0\nclock d 0 0 0 0\nfollow c d 4611686018427387904\nevent p c 10\nevent q d 3\nend\n",
        "problem 3 4\n",
    ),
    (
        "problem 2\nclock c 0 0 0 0\nclock d 0 0 0 0\nfollow d c 4611686018427387904\nend\n",
        "problem 2 4\n",
    ),
];

#[test]
fn follows_are_refused(rt: HostRuntime) -> Result<(), Fail> {
    let right = rows_refused(rt.alloc(), &REFUSED)?;
    assert!(rt; right == REFUSED.len(), "at row {right}");
    Ok(())
}

const BACK_CYCLE: &str =
    "certificate 1\ncycle\nstep delay-least q p 0.000000000\nstep early q 0.000000000\n\
    step follow c 10 d 3 -5.000000000\nstep late p 0.000000000\nend\n";

// The same in the chain, past the clock between, and by it.
const FAR_CYCLE: &str =
    "certificate 1\ncycle\nstep delay-least q p 0.000000000\nstep early q 0.000000000\n\
    step follow c 10 e 0 -7.000000000\nstep late p 0.000000000\nend\n";

const NEAR_CYCLE: &str =
    "certificate 1\ncycle\nstep delay-least q p 0.000000000\nstep early q 0.000000000\n\
    step follow d 0 e 0 -7.000000000\nstep follow c 10 d 0 -5.000000000\nstep late p 0.000000000\nend\n";

// The interval from p to q. Nothing leaves the earlier clock.
const GAP_ENDS: &str =
    "certificate 1\nends p q\nupper +inf\ninside c\nevent p 0.000000000\nevent q 5.000000000\nreading c 10 0.000000000\n\
    reading d 3 5.000000000\nlower 5.000000000\nstep early q 0.000000000\nstep follow c 10 d 3 -5.000000000\n\
    step late p 0.000000000\nevent p 0.000000000\nevent q 5.000000000\nreading c 10 0.000000000\n\
    reading d 3 5.000000000\nend\n";

// Certificates with a change, and what is printed. A step may name a follow that is not in the short list.
const ACCEPTED: [(&str, &str, &str, &str, &str); 5] = [
    (GAP, GAP_RUN, "", "", "yes\n"),
    (GAP_BACK, BACK_CYCLE, "", "", "yes\n"),
    (CHAIN_BACK, FAR_CYCLE, "", "", "yes\n"),
    (CHAIN_BACK, NEAR_CYCLE, "", "", "yes\n"),
    (GAP, GAP_ENDS, "", "", "yes\n"),
];

// Certificates that do not show what they should, and why.
const CHANGED: [(&str, &str, &str, &str, &str); 5] = [
    (
        GAP,
        GAP_RUN,
        "5.000000000\nreading c 10 0.000000000\nreading d 3 5.",
        "4.000000000\nreading c 10 0.000000000\nreading d 3 4.",
        "no run broken follow c 10 d 3 -5.000000000 -4.000000000\n",
    ),
    (
        GAP_BACK,
        BACK_CYCLE,
        "d 3 -5.",
        "d 3 -6.",
        "no cycle weight 3\n",
    ),
    (
        CHAIN_BACK,
        NEAR_CYCLE,
        "step follow c 10 d 0 -5.000000000\n",
        "",
        "no cycle join 3\n",
    ),
    (
        GAP,
        GAP_ENDS,
        "lower 5.000000000\nstep early q 0.000000000\nstep follow c 10 d 3 -5.000000000\nstep late p 0.000000000\n",
        "lower -inf\ninside d\n",
        "no lower leaves follow c 10 d 3\n",
    ),
    (
        GAP,
        GAP_ENDS,
        "lower 5.000000000",
        "lower 4.000000000",
        "no lower sum -5.000000000\n",
    ),
];

// Steps of which a follow is misspelled, is none of the problem, or weighs too much.
const ILL_FORMED: [(&str, &str, &str, &str, &str); 6] = [
    (
        GAP_BACK,
        BACK_CYCLE,
        "follow c 10 d 3",
        "follow c 10 d",
        "certificate 1 5\n",
    ),
    (
        GAP_BACK,
        BACK_CYCLE,
        "follow c 10 d 3",
        "follow d 3 c 10",
        "certificate 2 5\n",
    ),
    (
        GAP_BACK,
        BACK_CYCLE,
        "follow c 10 d 3",
        "follow c 11 d 3",
        "certificate 2 5\n",
    ),
    (
        GAP_BACK,
        BACK_CYCLE,
        "follow c 10 d 3",
        "follow c 10 d 4",
        "certificate 2 5\n",
    ),
    (
        GAP_BACK,
        BACK_CYCLE,
        "follow c 10 d 3",
        "follow c 10 e 3",
        "certificate 2 5\n",
    ),
    (
        GAP_BACK,
        BACK_CYCLE,
        "d 3 -5.000000000",
        "d 3 -1329227995784915872903807060.280344577",
        "certificate 3 5\n",
    ),
];

#[test]
fn steps_over_gaps_hold(rt: HostRuntime) -> Result<(), Fail> {
    let right = rows_verified(rt.alloc(), &ACCEPTED, Status::Done)?;
    assert!(rt; right == ACCEPTED.len(), "at row {right}");
    Ok(())
}

#[test]
fn changed_steps_over_gaps(rt: HostRuntime) -> Result<(), Fail> {
    let right = rows_verified(rt.alloc(), &CHANGED, Status::No)?;
    assert!(rt; right == CHANGED.len(), "at row {right}");
    Ok(())
}

#[test]
fn ill_formed_steps_over_gaps(rt: HostRuntime) -> Result<(), Fail> {
    let right = rows_verified(rt.alloc(), &ILL_FORMED, Status::BadCert)?;
    assert!(rt; right == ILL_FORMED.len(), "at row {right}");
    Ok(())
}
