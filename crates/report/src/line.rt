// The line of a report.
ghost use Rattle.std.specs.Prelude.{◌≡◌, All, IfOk};
ghost use Rattle.report.specs.Report.{HasAsciiKey, report_line, reported};

use crate::View;
use crate::values::report_value;
use std::alloc::{AllocError, Global};

/// The report on a view: one line of JSON (RFC 8259) with its line feed, without spaces, and with the keys of each object
/// in byte order.
///
/// | Key | Its value |
/// |---|---|
/// | `alone` | how many keys stand alone, as the view counts them; where it does not, there is no such key |
/// | `ambiguous` | an array with an object for each ambiguous key: its text as `key`, and the names of its events as `receives` and `sends`, in the order of the view |
/// | `consistent` | whether what is declared has an execution |
/// | `dropped` | an array with an object for each label under which packets were dropped before they were captured: its name as `label`, and the fields of `Dropped` of `captures`; where none were, there is no such key |
/// | `events`, `messages` | how many there are |
/// | `nokey` | how many events have no key, by reason: an object with the fields of `NoKeys` |
/// | `passed` | how many packets were passed over, by cause: an object with the fields of `PassedSums`; where none were, there is no such key |
/// | `unmatched` | how many events have a key and neither a partner nor an ambiguous key |
///
/// A quotation mark and a backslash in a key are written with a backslash before them. The texts of keys must be ASCII.
/// The error comes only where memory runs out.
pub fn report_line(alloc: Global, v: &View) -> Result<Vec<u8>, AllocError>
    requires { All HasAsciiKey v.now.groups.items }
    ensures { IfOk result (λ line. line.items ≡ report_line (reported v.now)) }
{
    let mut line = report_value(alloc, v)?.to_vec(alloc)?;
    line.push(b'\n')?;
    Ok(line)
}
