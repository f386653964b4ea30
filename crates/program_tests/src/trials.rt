// Trials, over workloads that the program makes.
use crate::fixtures::USAGE;
use crate::runs::{Wanted, prints};
use ports::MemFiles;
use problem_commands::Status;
use std::alloc::{AllocError, Global};
use std::test::Fail;

// The counts of the trial 7, and the replies of a session over the same rows that were added in one piece for each
// host.
const TRIAL_SEVEN: &str = "trial 7 events 4000 messages 2000\n\
    interval 123310.259140000 126663.778920000\n\
    interval 108358.655420000 111213.416140000\n\
    interval 32020.434340000 35373.603720000\n\
    interval 57686.927700000 61148.087180000\n\
    interval -24895.975760000 -22175.917060000\n\
    interval -94892.288140000 -92563.089040000\n\
    interval 301583.948300000 304536.969840000\n";

// Whether a run with these words, without a file, comes to what is wanted.
fn tells(alloc: Global, wanted: &Wanted<'_>) -> Result<bool, AllocError> {
    let mut files = MemFiles::new(alloc, &[])?;
    prints(alloc, wanted, &mut files, &[])
}

#[test]
fn trial_seven(rt: HostRuntime) -> Result<(), Fail> {
    let wanted = Wanted {
        words: &["trial", "7"],
        status: Status::Done,
        printed: TRIAL_SEVEN,
    };
    assert!(rt; tells(rt.alloc(), &wanted)?);
    Ok(())
}

// No number, more than one, and texts that spell none below 2^32.
const NO_TRIALS: [&[&str]; 6] = [
    &["trial"],
    &["trial", "7", "8"],
    &["trial", "x"],
    &["trial", "007"],
    &["trial", "-1"],
    &["trial", "4294967296"],
];

#[test]
fn words_of_trials(rt: HostRuntime) -> Result<(), Fail> {
    for words in NO_TRIALS {
        let wanted = Wanted {
            words,
            status: Status::Usage,
            printed: USAGE,
        };
        assert!(rt; tells(rt.alloc(), &wanted)?);
    }
    Ok(())
}
