// The least widening of a problem is printed, and judged; what each candidate has to do with a contradiction is told.
use crate::runs::{NO_SCRIPT, Wanted, answers, prints, run_over};
use ports::{MemFiles, MemSink};
use problem_commands::Status;
use shared_fixtures::{CONTRADICTING_PROBLEM, HOPELESS_PROBLEM, TWO_LOGS_PROBLEM};
use std::alloc::{AllocError, Global};
use std::test::Fail;

// How the text of the widening of the contradicting problem begins.
const THREE: &str =
    "event a#1 0.000000000\nevent a#2 95.000000000\nevent b#1 22.000000000\nevent b#2 72.000000000\n\
    reading a 100 0.000000000\nreading a 195 95.000000000\nreading b 250 22.000000000\nreading b 300 72.000000000\n";

const CYCLE: &str =
    "cycle\nstep delay-most a#1 b#1 22.000000000\nstep early b#1 0.000000000\nstep span-most b 250 300 50.000000000\n\
    step late b#2 0.000000000\nstep delay-most b#2 a#2 22.000000000\nstep early a#2 0.000000000\n\
    step span-least a 100 195 -95.000000000\nstep late a#1 0.000000000\nend\n";

const ZERO: &str =
    "widening 1\nleast 0\nevent a#1 0.000000000\nevent a#2 80.000000000\nevent b#1 10.000000000\nevent b#2 60.000000000\n\
    reading a 100 0.000000000\nreading a 180 80.000000000\nreading b 250 10.000000000\nreading b 300 60.000000000\nend\n";

// The text of a widening of the contradicting problem with this first line.
fn put_widening(alloc: Global, files: &mut MemFiles, least: &str) -> Result<(), AllocError> {
    let mut text = Vec::new(alloc);
    text.extend_from_slice(b"widening 1\n")?;
    text.extend_from_slice(least.as_bytes())?;
    text.extend_from_slice(THREE.as_bytes())?;
    text.extend_from_slice(CYCLE.as_bytes())?;
    files.put("w", &text)
}

// Whether judging such a text ends so.
fn judged_so(
    alloc: Global,
    least: &str,
    status: Status,
    printed: &str,
) -> Result<bool, AllocError> {
    let mut files = MemFiles::new(alloc, &[])?;
    files.put("p", CONTRADICTING_PROBLEM.as_bytes())?;
    put_widening(alloc, &mut files, least)?;
    let wanted = Wanted {
        words: &["judge", "p", "w"],
        status,
        printed,
    };
    prints(alloc, &wanted, &mut files, &[])
}

// Prints the least widening of a problem.
fn widen_into(alloc: Global, problem: &str, out: &mut MemSink) -> Result<(), AllocError> {
    let mut files = MemFiles::new(alloc, &[])?;
    files.put("p", problem.as_bytes())?;
    run_over(alloc, &["widen", "p"], &mut files, &NO_SCRIPT, out)?;
    Ok(())
}

// Whether these bytes are judged yes.
fn holds(alloc: Global, problem: &str, widening: &[u8]) -> Result<bool, AllocError> {
    let mut files = MemFiles::new(alloc, &[])?;
    files.put("p", problem.as_bytes())?;
    files.put("w", widening)?;
    let wanted = Wanted {
        words: &["judge", "p", "w"],
        status: Status::Done,
        printed: "yes\n",
    };
    prints(alloc, &wanted, &mut files, &[])
}

// Whether what `widen` prints of a problem begins so, and is judged yes.
fn widens_so(alloc: Global, problem: &str, head: &str) -> Result<bool, AllocError> {
    let mut out = MemSink::new(alloc, 1000, 7, &[])?;
    widen_into(alloc, problem, &mut out)?;
    Ok(out.bytes().starts_with(head.as_bytes()) && holds(alloc, problem, out.bytes())?)
}

// How a run with these words ends where the problem is there and the widening is not.
fn ends_so(
    alloc: Global,
    words: &[&str],
    problem: &str,
    status: Status,
    printed: &str,
) -> Result<bool, AllocError> {
    let mut files = MemFiles::new(alloc, &[])?;
    files.put("p", problem.as_bytes())?;
    let wanted = Wanted {
        words,
        status,
        printed,
    };
    let mut out = MemSink::new(alloc, 1000, 7, &[])?;
    answers(alloc, &wanted, &mut files, &NO_SCRIPT, &mut out)
}

#[test]
fn least_widening_is_printed_and_judged(rt: HostRuntime) -> Result<(), Fail> {
    let alloc = rt.alloc();
    assert!(rt;
        widens_so(
            alloc,
            CONTRADICTING_PROBLEM,
            "widening 1\nleast 3\nevent a#1 0.000000000\nevent a#2 95.000000000\n"
        )?
    );
    assert!(rt; widens_so(alloc, HOPELESS_PROBLEM, "widening 1\nleast none\ncycle\n")?);
    assert!(rt; widens_so(alloc, TWO_LOGS_PROBLEM, ZERO)?);
    Ok(())
}

#[test]
fn widening_is_judged_from_both_sides(rt: HostRuntime) -> Result<(), Fail> {
    let alloc = rt.alloc();
    assert!(rt; judged_so(alloc, "least 3\n", Status::Done, "yes\n")?);
    assert!(rt; judged_so(alloc, "least 4\n", Status::No, "no cycle weight 1\n")?);
    assert!(rt;
        judged_so(
            alloc,
            "least 2\n",
            Status::No,
            "no run broken delay-most b#2 a#2 22.000000000 23.000000000\n"
        )?
    );
    assert!(rt; judged_so(alloc, "least none\n", Status::BadCert, "certificate 1 3\n")?);
    Ok(())
}

#[test]
fn what_is_not_there_is_not_widened(rt: HostRuntime) -> Result<(), Fail> {
    let alloc = rt.alloc();
    assert!(rt;
        ends_so(
            alloc,
            &["widen", "q"],
            HOPELESS_PROBLEM,
            Status::ReadFault,
            "read fault\n"
        )?
    );
    assert!(rt;
        ends_so(
            alloc,
            &["widen", "p"],
            "problem 4\n",
            Status::BadProblem,
            "problem 1 1\n"
        )?
    );
    assert!(rt;
        ends_so(
            alloc,
            &["judge", "p", "w"],
            HOPELESS_PROBLEM,
            Status::ReadFault,
            "read fault\n"
        )?
    );
    Ok(())
}

// What each candidate has to do with the contradicting problem, in which 95 ns of a stand against 50 of b and two
// messages of 20 at most; and with the one whose message takes 20 ns at least, while its clock counts 10.
const BLAMED: &str =
    "blame delays 3 ns\nblame least none\nblame stamps 2 ns\nblame rates 34482759 ppb\nblame stamps a 3 ns\n\
    blame rates a 52631579 ppb\nblame stamps b 3 ns\nblame rates b 100000000 ppb\nblame delays a b 5 ns\n\
    blame least a b none\nblame delays b a 5 ns\nblame least b a none\nend\n";

const BLAMED_LEAST: &str =
    "blame delays none\nblame least 10 ns\nblame stamps 5 ns\nblame rates 1000000000 ppb\nblame stamps c 5 ns\n\
    blame rates c 1000000000 ppb\nblame delays c c none\nblame least c c 10 ns\nend\n";

// Host web waits 95 ns, of which db accounts for 85: 10 are left for messages of 20 ns and of 5 at least, 15 too few.
// With least delays of e ns less the one has 20 - e and the other none from 5 on, so 10 heal; of the second link all 5
// do not. Events that are e ns off change each wait by 2 e, and rates that are off by r the one by 95 r, the other by
// 85 r.
const SHORT_PROBLEM: &str =
    "problem 1\nclock web 0 0 0 0\nclock db 0 0 0 0\nevent ask web 100\nevent hear web 195\nevent get db 250\n\
    event tell db 335\nmessage ask get 20 30\nmessage tell hear 5 30\nend\n";

const BLAMED_SHORT: &str =
    "blame delays none\nblame least 10 ns\nblame stamps 4 ns\nblame rates 83333334 ppb\nblame stamps web 8 ns\n\
    blame rates web 157894737 ppb\nblame stamps db 8 ns\nblame rates db 176470589 ppb\nblame delays web db none\n\
    blame least web db 15 ns\nblame delays db web none\nblame least db web none\nend\n";

// The same with 90 ns of db and with 10 at least for either message, 15 too few again: 8 ns less for both heal, but
// the 10 ns of one of them do not.
const BOTH_PROBLEM: &str =
    "problem 1\nclock web 0 0 0 0\nclock db 0 0 0 0\nevent ask web 100\nevent hear web 195\nevent get db 250\n\
    event tell db 340\nmessage ask get 10 30\nmessage tell hear 10 30\nend\n";

const BLAMED_BOTH: &str =
    "blame delays none\nblame least 8 ns\nblame stamps 4 ns\nblame rates 81081082 ppb\nblame stamps web 8 ns\n\
    blame rates web 157894737 ppb\nblame stamps db 8 ns\nblame rates db 166666667 ppb\nblame delays web db none\n\
    blame least web db none\nblame delays db web none\nblame least db web none\nend\n";

// A message goes from the later clock back to the earlier one, over a gap of 10 ns.
const BACK_PROBLEM: &str =
    "problem 2\nclock old 0 0 0 0\nclock new 0 0 0 0\nfollow old new 10\nevent p old 5\nevent q new 0\n\
    message q p 0 none\nend\n";

const BLAMED_BACK: &str =
    "blame delays none\nblame least none\nblame stamps 5 ns\nblame rates none\nblame gaps 10 ns\n\
    blame stamps old 10 ns\nblame rates old none\nblame stamps new 10 ns\nblame rates new none\n\
    blame delays new old none\nblame least new old none\nend\n";

// The events' own bounds are narrower than those of their clock: 13 ns are between them at most, 7 too few.
const BOUNDED_PROBLEM: &str =
    "problem 3\nclock c 0 0 9 9\nevent p c 0 1 0\nevent q c 10 0 2\nmessage p q 20 none\nend\n";

const BLAMED_BOUNDED: &str =
    "blame delays none\nblame least 7 ns\nblame stamps 4 ns\nblame rates 700000000 ppb\nblame stamps c 4 ns\n\
    blame rates c 700000000 ppb\nblame delays c c none\nblame least c c 7 ns\nend\n";

#[test]
fn each_candidate_is_told(rt: HostRuntime) -> Result<(), Fail> {
    let alloc = rt.alloc();
    let words = ["blame", "p"];
    let done = Status::Done;
    assert!(rt; ends_so(alloc, &words, CONTRADICTING_PROBLEM, done, BLAMED)?);
    assert!(rt; ends_so(alloc, &words, HOPELESS_PROBLEM, done, BLAMED_LEAST)?);
    assert!(rt; ends_so(alloc, &words, BOUNDED_PROBLEM, done, BLAMED_BOUNDED)?);
    assert!(rt; ends_so(alloc, &words, TWO_LOGS_PROBLEM, done, "blame none\n")?);
    Ok(())
}

#[test]
fn links_and_gaps_are_told(rt: HostRuntime) -> Result<(), Fail> {
    let alloc = rt.alloc();
    let words = ["blame", "p"];
    let done = Status::Done;
    assert!(rt; ends_so(alloc, &words, SHORT_PROBLEM, done, BLAMED_SHORT)?);
    assert!(rt; ends_so(alloc, &words, BOTH_PROBLEM, done, BLAMED_BOTH)?);
    assert!(rt; ends_so(alloc, &words, BACK_PROBLEM, done, BLAMED_BACK)?);
    Ok(())
}

// What `widen` prints with which words behind the contradicting problem.
const NAMED: [(&[&str], &str); 7] = [
    (&["widen", "p", "delays"], "widening 1\nleast 3\nevent"),
    (
        &["widen", "p", "least"],
        "widening 1\nleast none least\ncycle\n",
    ),
    (
        &["widen", "p", "stamps"],
        "widening 1\nleast 2 stamps\nevent",
    ),
    (
        &["widen", "p", "stamps", "a"],
        "widening 1\nleast 3 stamps a\nevent",
    ),
    (
        &["widen", "p", "rates", "b"],
        "widening 1\nleast 100000000 rates b\nevent",
    ),
    (
        &["widen", "p", "gaps"],
        "widening 1\nleast none gaps\ncycle\n",
    ),
    (
        &["widen", "p", "delays", "b", "a"],
        "widening 1\nleast 5 delays b a\nevent",
    ),
];

// Whether what is printed with these words begins so, and is judged yes.
fn names_so(alloc: Global, words: &[&str], head: &str) -> Result<bool, AllocError> {
    let mut files = MemFiles::new(alloc, &[])?;
    files.put("p", CONTRADICTING_PROBLEM.as_bytes())?;
    let mut out = MemSink::new(alloc, 4096, 512, &[])?;
    run_over(alloc, words, &mut files, &NO_SCRIPT, &mut out)?;
    Ok(
        out.bytes().starts_with(head.as_bytes())
            && holds(alloc, CONTRADICTING_PROBLEM, out.bytes())?,
    )
}

#[test]
fn each_kind_is_widened_by_name(rt: HostRuntime) -> Result<(), Fail> {
    let alloc = rt.alloc();
    for (words, head) in &NAMED {
        assert!(rt; names_so(alloc, words, head)?, "{head}");
    }
    Ok(())
}

#[test]
fn clock_that_is_not_there_is_not_widened(rt: HostRuntime) -> Result<(), Fail> {
    let alloc = rt.alloc();
    for clock in ["c", "a#1", ""] {
        let words = ["widen", "p", "rates", clock];
        assert!(rt;
            ends_so(
                alloc,
                &words,
                CONTRADICTING_PROBLEM,
                Status::UnknownName,
                "unknown clock\n"
            )?
        );
    }
    Ok(())
}

#[test]
fn text_names_what_is_judged(rt: HostRuntime) -> Result<(), Fail> {
    let alloc = rt.alloc();
    assert!(rt;
        judged_so(
            alloc,
            "least 3 delays\n",
            Status::BadCert,
            "certificate 1 2\n"
        )?
    );
    assert!(rt;
        judged_so(
            alloc,
            "least 3 rates c\n",
            Status::BadCert,
            "certificate 2 2\n"
        )?
    );
    assert!(rt;
        judged_so(
            alloc,
            "least 3 rates a b\n",
            Status::BadCert,
            "certificate 1 2\n"
        )?
    );
    Ok(())
}
