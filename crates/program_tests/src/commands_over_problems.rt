use crate::fixtures::{TWO_LOGS_RUN, USAGE};
use crate::runs::{Wanted, prints, rows_right};
use atto::{NsText, write_decimal};
use ports::MemFiles;
use problem_commands::Status;
use shared_fixtures::{
    CONTRADICTING_PROBLEM, CYCLE, ONE_WAY_PROBLEM, OPEN_PROBLEM, TWO_LOGS_PROBLEM,
};
use std::alloc::{AllocError, Global};
use std::test::Fail;

// Whether `obey` over these two texts ends so.
fn obeys_so(
    alloc: Global,
    problem: &str,
    exec: &str,
    status: Status,
    printed: &str,
) -> Result<bool, AllocError> {
    let mut files = MemFiles::new(alloc, &[])?;
    files.put("p", problem.as_bytes())?;
    files.put("e", exec.as_bytes())?;
    let wanted = Wanted {
        words: &["obey", "p", "e"],
        status,
        printed,
    };
    prints(alloc, &wanted, &mut files, &[])
}

const ONE_EVENT: &str = "problem 1\nclock c 0 0 0 0\nevent p c 0\nend\n";

// A clock at both extremes of drift, with readings at both ends of the range of stamps.
const DRIFT: &str =
    "problem 1\nclock c 999999999 1000000000 0 0\nevent p c 0\nevent q c 4611686018427387903\nend\n";

const STAMP_ERROR: &str = "problem 1\nclock c 0 0 5 7\nevent p c 0\nend\n";

const CHAIN: &str = "problem 1\nclock c 0 0 9 9\nevent p c 0\nevent q c 10\nevent r c 20\nend\n";

// One event a clock, and a message with both bounds; another without the greatest.
const MESSAGES: &str =
    "problem 1\nclock c 0 0 0 0\nclock d 0 0 0 0\nevent p c 5\nevent q d 3\nmessage p q 10 20\nmessage q p 0 none\nend\n";

const NO_MOST: &str =
    "problem 1\nclock c 0 0 0 0\nclock d 0 0 0 0\nevent p c 5\nevent q d 3\nmessage p q 10 none\nend\n";

// Two events of one stamp have one reading.
const SHARED: &str = "problem 1\nclock c 0 0 1 0\nevent p c 4\nevent q c 4\nend\n";

// Problems, executions, and what is answered.
const JUDGED: [(&str, &str, Status, &str); 17] = [
    (
        ONE_EVENT,
        "execution 1\nevent p 0.000000000\nreading c 0 0.000000000\nend\n",
        Status::Done,
        "obeys\n",
    ),
    (
        ONE_EVENT,
        "execution 1\nevent p 1.000000000\nreading c 0 0.000000000\nend\n",
        Status::No,
        "broken late p 0.000000000 1.000000000\n",
    ),
    (
        ONE_EVENT,
        "execution 1\nevent p -1.000000000\nreading c 0 0.000000000\nend\n",
        Status::No,
        "broken early p 0.000000000 1.000000000\n",
    ),
    (
        DRIFT,
        "execution 1\nevent p 0.000000000\nevent q 9223372036854775806.000000000\nreading c 0 0.000000000\n\
        reading c 4611686018427387903 9223372036854775806.000000000\nend\n",
        Status::Done,
        "obeys\n",
    ),
    (
        DRIFT,
        "execution 1\nevent p 0.000000000\nevent q 9223372036854775806.000000001\nreading c 0 0.000000000\n\
        reading c 4611686018427387903 9223372036854775806.000000001\nend\n",
        Status::No,
        "broken span-most c 0 4611686018427387903 9223372036854775806.000000000 9223372036854775806.000000001\n",
    ),
    (
        DRIFT,
        "execution 1\nevent p 0.000000000\nevent q 4611686018.427387903\nreading c 0 0.000000000\n\
        reading c 4611686018427387903 4611686018.427387903\nend\n",
        Status::Done,
        "obeys\n",
    ),
    (
        DRIFT,
        "execution 1\nevent p 0.000000000\nevent q 4611686018.427387902\nreading c 0 0.000000000\n\
        reading c 4611686018427387903 4611686018.427387902\nend\n",
        Status::No,
        "broken span-least c 0 4611686018427387903 -4611686018.427387903 -4611686018.427387902\n",
    ),
    (
        STAMP_ERROR,
        "execution 1\nevent p -5.000000000\nreading c 0 0.000000000\nend\n",
        Status::Done,
        "obeys\n",
    ),
    (
        STAMP_ERROR,
        "execution 1\nevent p -5.000000001\nreading c 0 0.000000000\nend\n",
        Status::No,
        "broken early p 5.000000000 5.000000001\n",
    ),
    (
        STAMP_ERROR,
        "execution 1\nevent p 7.000000001\nreading c 0 0.000000000\nend\n",
        Status::No,
        "broken late p 7.000000000 7.000000001\n",
    ),
    (
        CHAIN,
        "execution 1\nevent p 0.000000000\nevent q 11.000000000\nevent r 20.000000000\nreading c 0 0.000000000\n\
        reading c 10 11.000000000\nreading c 20 20.000000000\nend\n",
        Status::No,
        "broken span-most c 0 10 10.000000000 11.000000000\n",
    ),
    (
        MESSAGES,
        "execution 1\nevent p 0.000000000\nevent q 21.000000000\nreading c 5 0.000000000\nreading d 3 21.000000000\nend\n",
        Status::No,
        "broken delay-most p q 20.000000000 21.000000000\n",
    ),
    (
        MESSAGES,
        "execution 1\nevent p 0.000000000\nevent q 9.000000000\nreading c 5 0.000000000\nreading d 3 9.000000000\nend\n",
        Status::No,
        "broken delay-least p q -10.000000000 -9.000000000\n",
    ),
    (
        MESSAGES,
        "execution 1\nevent p 0.000000000\nevent q 15.000000000\nreading c 5 0.000000000\nreading d 3 15.000000000\nend\n",
        Status::No,
        "broken delay-least q p 0.000000000 15.000000000\n",
    ),
    (
        NO_MOST,
        "execution 1\nevent p 0.000000000\nevent q 999999999999.000000000\nreading c 5 0.000000000\n\
        reading d 3 999999999999.000000000\nend\n",
        Status::Done,
        "obeys\n",
    ),
    (
        SHARED,
        "execution 1\nevent p 3.000000000\nevent q 4.000000000\nreading c 4 4.000000000\nend\n",
        Status::Done,
        "obeys\n",
    ),
    (
        "problem 1\nend\n",
        "execution 1\nend\n",
        Status::Done,
        "obeys\n",
    ),
];

// How many rows, from the first on, come out as they say.
pub(crate) fn rows_obeyed(
    alloc: Global,
    rows: &[(&str, &str, Status, &str)],
) -> Result<usize, AllocError> {
    for (place, (problem, exec, status, printed)) in rows.iter().enumerate() {
        if !obeys_so(alloc, problem, exec, *status, printed)? {
            return Ok(place);
        }
    }
    Ok(rows.len())
}

#[test]
fn executions_are_judged(rt: HostRuntime) -> Result<(), Fail> {
    let right = rows_obeyed(rt.alloc(), &JUDGED)?;
    assert!(rt; right == JUDGED.len(), "at row {right}");
    Ok(())
}

// Problems and executions of which one is refused.
const REFUSED: [(&str, &str, Status, &str); 10] = [
    ("", "", Status::BadProblem, "problem 1 1\n"),
    (
        "problem 1\nclock c 0 0 0 0\nevent p d 0\nend\n",
        "",
        Status::BadProblem,
        "problem 2 3\n",
    ),
    (
        "problem 1\nclock c 1000000000 0 0 0\nend\n",
        "",
        Status::BadProblem,
        "problem 3 2\n",
    ),
    ("problem 1\nend", "", Status::BadProblem, "problem 1 2\n"),
    (ONE_EVENT, "", Status::BadExec, "execution 1 1\n"),
    (
        ONE_EVENT,
        "execution 1\nevent p 0.000000000\nend\n",
        Status::BadExec,
        "execution 1 3\n",
    ),
    (
        ONE_EVENT,
        "execution 1\nevent q 0.000000000\nreading c 0 0.000000000\nend\n",
        Status::BadExec,
        "execution 2 2\n",
    ),
    (
        ONE_EVENT,
        "execution 1\nevent p 0.000000000\nreading c 1 0.000000000\nend\n",
        Status::BadExec,
        "execution 2 3\n",
    ),
    (
        ONE_EVENT,
        "execution 1\nevent p 1329227995784915872903807060.280344577\nreading c 0 0.000000000\nend\n",
        Status::BadExec,
        "execution 3 2\n",
    ),
    (
        ONE_EVENT,
        "execution 1\nevent p 0.000000000\nreading c 0 0.000000000\nend\n\n",
        Status::BadExec,
        "execution 1 5\n",
    ),
];

#[test]
fn texts_are_refused(rt: HostRuntime) -> Result<(), Fail> {
    let right = rows_obeyed(rt.alloc(), &REFUSED)?;
    assert!(rt; right == REFUSED.len(), "at row {right}");
    Ok(())
}

// Whether `solve` over this text prints this certificate.
fn solves_so(alloc: Global, problem: &str, printed: &str) -> Result<bool, AllocError> {
    let mut files = MemFiles::new(alloc, &[])?;
    files.put("p", problem.as_bytes())?;
    let wanted = Wanted {
        words: &["solve", "p"],
        status: Status::Done,
        printed,
    };
    prints(alloc, &wanted, &mut files, &[])
}

// A least delay that is above the greatest, and its contradiction.
const CROSSED: &str =
    "problem 1\nclock c 0 0 0 0\nevent p c 0\nevent q c 0\nmessage p q 2 1\nend\n";

const CROSSED_CYCLE: &str =
    "certificate 1\ncycle\nstep early p 0.000000000\nstep late q 0.000000000\nstep delay-least p q -2.000000000\nend\n";

// The sums of the cycles: 20 + 50 + 20 - 95 = -5 ns; 0 + 0 - 2, where the least delay is above the greatest; 39 - 4 *
// 10 over four clocks; and 1000000000 - 1000000100, where one clock may run 100 ppb slow and the other must keep time.
const SOLVED: [(&str, &str); 7] = [
    ("problem 1\nend\n", "certificate 1\nrun\nend\n"),
    (TWO_LOGS_PROBLEM, TWO_LOGS_RUN),
    (CONTRADICTING_PROBLEM, CYCLE),
    (CROSSED, CROSSED_CYCLE),
    (
        "problem 1\nclock a 0 0 0 0\nclock b 0 0 0 0\nclock c 0 0 0 0\nclock d 0 0 0 0\nevent a1 a 0\nevent a2 a 39\n\
        event b1 b 5\nevent c1 c 7\nevent d1 d 9\nmessage a1 b1 10 none\nmessage b1 c1 10 none\nmessage c1 d1 10 none\n\
        message d1 a2 10 none\nend\n",
        "certificate 1\ncycle\nstep delay-least c1 d1 -10.000000000\nstep delay-least b1 c1 -10.000000000\n\
        step delay-least a1 b1 -10.000000000\nstep early a1 0.000000000\nstep span-most a 0 39 39.000000000\n\
        step late a2 0.000000000\nstep delay-least d1 a2 -10.000000000\nend\n",
    ),
    (
        "problem 1\nclock c 0 0 0 0\nclock d 0 0 0 0\nevent p c 0\nevent q c 1000000000\nevent r d 0\n\
        event s d 1000000100\nmessage p r 0 0\nmessage q s 0 0\nend\n",
        "certificate 1\ncycle\nstep early s 0.000000000\nstep span-least d 0 1000000100 -1000000100.000000000\n\
        step late r 0.000000000\nstep delay-least p r 0.000000000\nstep early p 0.000000000\n\
        step span-most c 0 1000000000 1000000000.000000000\nstep late q 0.000000000\nstep delay-most q s 0.000000000\n\
        end\n",
    ),
    (
        "problem 1\nclock c 0 0 0 0\nclock d 100 0 0 0\nevent p c 0\nevent q c 1000000000\nevent r d 0\n\
        event s d 1000000100\nmessage p r 0 0\nmessage q s 0 0\nend\n",
        "certificate 1\nrun\nevent p 0.000000000\nevent q 1000000000.000000000\nevent r 0.000000000\n\
        event s 1000000000.000000000\nreading c 0 0.000000000\nreading c 1000000000 1000000000.000000000\n\
        reading d 0 0.000000000\nreading d 1000000100 1000000000.000000000\nend\n",
    ),
];

#[test]
fn problems_are_solved(rt: HostRuntime) -> Result<(), Fail> {
    for (problem, printed) in SOLVED {
        assert!(rt; solves_so(rt.alloc(), problem, printed)?, "at {problem}");
    }
    Ok(())
}

// Whether `ends` over this text and these events ends so.
fn ends_of_so(
    alloc: Global,
    problem: &str,
    first: &str,
    second: &str,
    status: Status,
    printed: &str,
) -> Result<bool, AllocError> {
    let mut files = MemFiles::new(alloc, &[])?;
    files.put("p", problem.as_bytes())?;
    let wanted = Wanted {
        words: &["ends", "p", first, second],
        status,
        printed,
    };
    prints(alloc, &wanted, &mut files, &[])
}

const RATE: &str = "problem 1\nclock c 100 100 0 0\nevent p c 0\nevent q c 1000000000\nend\n";

// Drift of 100 ppb over a second; a message of 0 ns and of 1 ns at least; stamps off by 5 and 7 ns; the greatest span
// at both extremes of drift; clocks that no message ties; two paths of which the longer is the tighter; a
// contradiction; names that are not there, also beside one.
const INTERVALS: [(&str, &str, &str, Status, &str); 16] = [
    (
        RATE,
        "p",
        "q",
        Status::Done,
        "999999900.000000000 1000000100.000000000 before\n",
    ),
    (
        RATE,
        "q",
        "p",
        Status::Done,
        "-1000000100.000000000 -999999900.000000000 after\n",
    ),
    (
        RATE,
        "p",
        "p",
        Status::Done,
        "0.000000000 0.000000000 same\n",
    ),
    (RATE, "p", "z", Status::UnknownName, "unknown event\n"),
    (
        OPEN_PROBLEM,
        "p",
        "q",
        Status::Done,
        "0.000000000 +inf open\n",
    ),
    (
        OPEN_PROBLEM,
        "q",
        "p",
        Status::Done,
        "-inf 0.000000000 open\n",
    ),
    (
        ONE_WAY_PROBLEM,
        "p",
        "q",
        Status::Done,
        "1.000000000 +inf before\n",
    ),
    (
        "problem 1\nclock c 0 0 5 7\nevent p c 0\nevent q c 100\nend\n",
        "p",
        "q",
        Status::Done,
        "88.000000000 112.000000000 before\n",
    ),
    (
        "problem 1\nclock c 0 0 5 7\nevent p c 0\nevent q c 0\nend\n",
        "p",
        "q",
        Status::Done,
        "-12.000000000 12.000000000 open\n",
    ),
    (
        DRIFT,
        "p",
        "q",
        Status::Done,
        "4611686018.427387903 9223372036854775806.000000000 before\n",
    ),
    (
        "problem 1\nclock c 0 0 0 0\nclock d 0 0 0 0\nevent p c 5\nevent q d 3\nend\n",
        "p",
        "q",
        Status::Done,
        "-inf +inf open\n",
    ),
    (
        "problem 1\nclock a 0 0 0 0\nclock b 0 0 0 0\nevent a#1 a 100\nevent a#2 a 190\nevent b#1 b 250\n\
        event b#2 b 300\nmessage a#1 b#1 10 20\nmessage b#2 a#2 10 20\nend\n",
        "a#1",
        "b#1",
        Status::Done,
        "20.000000000 20.000000000 before\n",
    ),
    (CROSSED, "p", "q", Status::Done, CROSSED_CYCLE),
    (CONTRADICTING_PROBLEM, "a#1", "b#1", Status::Done, CYCLE),
    (CROSSED, "z", "q", Status::UnknownName, "unknown event\n"),
    ("problem 4\n", "p", "q", Status::BadProblem, "problem 1 1\n"),
];

// How many rows, from the first on, come out as they say.
pub(crate) fn rows_ended(
    alloc: Global,
    rows: &[(&str, &str, &str, Status, &str)],
) -> Result<usize, AllocError> {
    for (place, (problem, first, second, status, printed)) in rows.iter().enumerate() {
        if !ends_of_so(alloc, problem, first, second, *status, printed)? {
            return Ok(place);
        }
    }
    Ok(rows.len())
}

#[test]
fn intervals_are_printed(rt: HostRuntime) -> Result<(), Fail> {
    let right = rows_ended(rt.alloc(), &INTERVALS)?;
    assert!(rt; right == INTERVALS.len(), "at row {right}");
    Ok(())
}

// Adds the line of a clock of this number.
fn push_clock(number: u64, text: &mut Vec<u8>) -> Result<(), AllocError> {
    let mut digits = NsText::new();
    write_decimal(number, &mut digits);
    text.extend_from_slice(b"clock c")?;
    text.extend_from_slice(digits.as_slice())?;
    text.extend_from_slice(b" 0 0 0 0\n")
}

// Adds as many clocks as a problem may have.
fn push_clocks(text: &mut Vec<u8>) -> Result<(), AllocError> {
    for number in 0..65_536 {
        push_clock(number, text)?;
    }
    Ok(())
}

// Whether this text is refused so.
fn refused_so(alloc: Global, text: &[u8], printed: &str) -> Result<bool, AllocError> {
    let mut files = MemFiles::new(alloc, &[])?;
    files.put("p", text)?;
    let wanted = Wanted {
        words: &["solve", "p"],
        status: Status::BadProblem,
        printed,
    };
    prints(alloc, &wanted, &mut files, &[])
}

// Whether a text of as many clocks as a problem may have, and then this line, is refused so.
fn refused_behind_clocks(alloc: Global, line: &str, printed: &str) -> Result<bool, AllocError> {
    let mut text = Vec::from_slice(alloc, b"problem 1\n")?;
    push_clocks(&mut text)?;
    text.extend_from_slice(line.as_bytes())?;
    refused_so(alloc, &text, printed)
}

// Each line has two faults. Syntax counts before Name, Name before Range, Range before Limit.
const TWO_FAULTS: [(&str, &str); 6] = [
    (
        "problem 1\nclock c 0 0 0 0\nevent p d 01\nend\n",
        "problem 1 3\n",
    ),
    (
        "problem 1\nclock c 0 0 0 0\nevent p c 4611686018427387904 \nend\n",
        "problem 1 3\n",
    ),
    (
        "problem 1\nclock c 0 0 0 0\nevent p d 4611686018427387904\nend\n",
        "problem 2 3\n",
    ),
    (
        "problem 1\nclock c 0 0 0 0\nclock c 1000000000 0 0 0\nend\n",
        "problem 2 3\n",
    ),
    (
        "problem 1\nclock c 0 0 0 0\nevent p c 0\nmessage p q 4611686018427387904 none\nend\n",
        "problem 2 4\n",
    ),
    (
        "problem 1\nclock c 0 0 0 0\nevent p c 0\nevent q c 0\nmessage p q 4611686018427387904 00\nend\n",
        "problem 1 5\n",
    ),
];

// The same of the last line behind 65,536 clocks.
const FAULTS_BEHIND_CLOCKS: [(&str, &str); 4] = [
    ("clock d 0 0 0 0\n", "problem 4 65538\n"),
    ("clock d 0 0 0\n", "problem 1 65538\n"),
    ("clock c7 0 0 0 0\n", "problem 2 65538\n"),
    ("clock d 1000000000 0 0 0\n", "problem 3 65538\n"),
];

// How many rows, from the first on, come out as they say.
pub(crate) fn rows_refused(alloc: Global, rows: &[(&str, &str)]) -> Result<usize, AllocError> {
    for (place, (text, printed)) in rows.iter().enumerate() {
        if !refused_so(alloc, text.as_bytes(), printed)? {
            return Ok(place);
        }
    }
    Ok(rows.len())
}

#[test]
fn the_first_of_two_faults(rt: HostRuntime) -> Result<(), Fail> {
    let right = rows_refused(rt.alloc(), &TWO_FAULTS)?;
    assert!(rt; right == TWO_FAULTS.len(), "at row {right}");
    Ok(())
}

#[test]
fn the_first_fault_behind_clocks(rt: HostRuntime) -> Result<(), Fail> {
    for (line, printed) in FAULTS_BEHIND_CLOCKS {
        assert!(rt;
            refused_behind_clocks(rt.alloc(), line, printed)?,
            "at {line}"
        );
    }
    Ok(())
}

const OBEYING: &str = "execution 1\nevent p 0.000000000\nreading c 0 0.000000000\nend\n";

// Words, the writes that fail, and what is answered. Files are there or not, writes fail, one of them in the
// certificate, and words are no command.
const FAILING: [(&[&str], &[u32], Status, &str); 11] = [
    (&["obey", "p", "e"], &[], Status::Done, "obeys\n"),
    (&["obey", "q", "e"], &[], Status::ReadFault, "read fault\n"),
    (&["obey", "p", "q"], &[], Status::ReadFault, "read fault\n"),
    (
        &["obey", "x", "q"],
        &[],
        Status::BadProblem,
        "problem 1 1\n",
    ),
    (&["obey", "p", "e"], &[1], Status::WriteFault, ""),
    (&["solve", "p", "e"], &[], Status::Usage, USAGE),
    (&[], &[3], Status::WriteFault, "usage: tracesy"),
    (&["solve", "q"], &[], Status::ReadFault, "read fault\n"),
    (&["solve", "x"], &[], Status::BadProblem, "problem 1 1\n"),
    (&["solve", "p"], &[3], Status::WriteFault, "certificate 1\n"),
    (&["obey", "p"], &[], Status::Usage, USAGE),
];

// How many rows, from the first on, come out as they say, over three files.
fn rows_failed(alloc: Global) -> Result<usize, AllocError> {
    let files: [(&str, &[u8]); 3] = [
        ("p", ONE_EVENT.as_bytes()),
        ("e", OBEYING.as_bytes()),
        ("x", b"no problem"),
    ];
    rows_right(alloc, &files, &FAILING)
}

#[test]
fn devices_fail(rt: HostRuntime) -> Result<(), Fail> {
    let right = rows_failed(rt.alloc())?;
    assert!(rt; right == FAILING.len(), "at row {right}");
    Ok(())
}

// Whether `obey` over these files answers that a read failed, and the next time that the bounds are kept.
fn fails_then_obeys(alloc: Global, files: &mut MemFiles) -> Result<bool, AllocError> {
    let words: &[&str] = &["obey", "p", "e"];
    let failed = Wanted {
        words,
        status: Status::ReadFault,
        printed: "read fault\n",
    };
    let obeyed = Wanted {
        words,
        status: Status::Done,
        printed: "obeys\n",
    };
    let first = prints(alloc, &failed, files, &[])?;
    let second = prints(alloc, &obeyed, files, &[])?;
    Ok(first && second)
}

// The same over two files of which the second read fails.
fn second_read_fails(alloc: Global) -> Result<bool, AllocError> {
    let mut files = MemFiles::new(alloc, &[2])?;
    files.put("p", ONE_EVENT.as_bytes())?;
    files.put("e", OBEYING.as_bytes())?;
    fails_then_obeys(alloc, &mut files)
}

#[test]
fn a_read_fails_once(rt: HostRuntime) -> Result<(), Fail> {
    assert!(rt; second_read_fails(rt.alloc())?);
    Ok(())
}
