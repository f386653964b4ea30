// In how many rounds least widenings are found.
ghost use Rattle.std.specs.Prelude.{◌≡◌, ◌<◌};

use atto::Steps;
use cert_check::{Links, What};
use problem::{Problem, read_problem};
use std::alloc::{AllocError, Global};
use std::marker::Brand;
use std::sync::ledger::{Blank, Ledger};
use std::test::*;
use widen::{Found, Widening, widening_in_rounds};

// How many messages there are, each 1 us behind the one before, of 10 to 20 ns.
const MESSAGES: u64 = 800;

// The clock of the receives runs away by so much from one message to the next, in ns.
const DRIFT: u64 = 10;

// Both clocks, and the two events of each message. The first one seems to take 10 ns, the next one 20, and so on.
fn push_events(alloc: Global, text: &mut String) -> Result<(), AllocError> {
    text.push_str("problem 1\nclock a 0 0 0 0\nclock b 0 0 0 0\n")?;
    for k in 0..MESSAGES {
        let send = 1000 * k;
        let receive = send + DRIFT * (k + 1);
        let events = format!(in alloc; "event a#{k} a {send}\nevent b#{k} b {receive}\n")?;
        text.push_str(&events)?;
    }
    Ok(())
}

// A problem whose contradiction grows with each message.
fn growing(alloc: Global) -> Result<String, AllocError> {
    let mut text = String::new(alloc);
    push_events(alloc, &mut text)?;
    for k in 0..MESSAGES {
        let message = format!(in alloc; "message a#{k} b#{k} 10 20\n")?;
        text.push_str(&message)?;
    }
    text.push_str("end\n")?;
    Ok(text)
}

// The least widening of a problem, with its steps counted by this ledger.
fn found_counted<L: Ledger>(alloc: Global, p: &Problem, blank: Blank) -> Result<Found, AllocError>
    requires { (blank.name ≡ L.name) × (blank.parts ≡ L.parts) × (0 < L.parts) }
{
    let mut steps = Steps::<L>::open(blank);
    widening_in_rounds(alloc, p, What::Delays(Links::All), &mut steps)
}

// By how many ns, where there is a least widening, and whether that was found in fewer rounds than this.
fn least_within(found: &Found, limit: u64) -> (Option<u64>, bool) {
    match &found.widening {
        Widening::Least { extra, .. } => (Some(extra.get()), found.rounds < limit),
        Widening::Never(_) => (None, found.rounds < limit),
    }
}

// The same of the text of a problem.
fn found_within(alloc: Global, text: &str, limit: u64) -> (Option<u64>, bool) {
    let Ok(p) = read_problem(alloc, text.as_bytes()) else {
        return (None, false);
    };
    match found_counted::<Brand>(alloc, &p, Blank::new(1)) {
        Ok(found) => least_within(&found, limit),
        Err(_) => (None, false),
    }
}

// The last message seems to take 8000 ns where the first takes 10, and may take 20. One contradiction after another
// would take a round for each message, and halving the range of widenings 63.
#[test]
fn contradiction_that_grows_is_healed_in_few_rounds(rt: HostRuntime) -> Result<(), Fail> {
    let text = growing(rt.alloc())?;
    assert_eq!(rt; found_within(rt.alloc(), &text, 63), (Some(7980), true));
    Ok(())
}
