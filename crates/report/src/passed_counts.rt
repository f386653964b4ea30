// How many packets were passed over.
ghost use Rattle.std.specs.Prelude.{◌≡◌, ◌≤◌, ◌+◌, ℕ, length};
ghost use Rattle.traces.specs.Held.{missed_in};
ghost use Rattle.report.specs.Reports.{passed_sums};
ghost use Rattle.report.specs.Inside.{AreOfLabels, sums_with};

use crate::PassedSums;
use captures::Passed;
use traces::Accepted;

// These and those of one label more.
fn sums_with(sums: PassedSums, more: Passed) -> PassedSums
    requires { AreOfLabels 65536 sums }
    ensures sums { result ≡ sums_with sums more }
    ensures few { (labels : ℕ) → AreOfLabels labels sums → AreOfLabels (labels + 1) result }
{
    PassedSums {
        simple: sums.simple + u64::from(more.simple),
        obsolete: sums.obsolete + u64::from(more.obsolete),
        other: sums.other + u64::from(more.other),
    }
}

/// How many packets were passed over under all labels, by cause.
pub(crate) fn passed_sums(accepted: &[Accepted]) -> PassedSums
    requires { length accepted.now ≤ 65536 }
    ensures { result ≡ passed_sums (missed_in accepted.now) }
{
    let mut sums = PassedSums {
        simple: 0,
        obsolete: 0,
        other: 0,
    };
    for under in accepted {
        sums = sums_with(sums, under.stream.passed());
    }
    sums
}
