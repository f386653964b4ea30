// A widening's text, read and judged at once.
ghost use Rattle.widen.specs.JudgedText.{JudgesText};

use crate::read::read_widening;
use crate::verdicts::judge;
use cert::CertError;
use cert_check::Answer;
use problem::Problem;
use std::alloc::Global;

/// Reads a widening's text of `p`, and answers whether the widening of what it names shows what it should, or the first
/// reason why it does not, as `judge` does. Errors are those of reading: the first fault of the text with its line, or
/// that the text has more than 2^34 bytes, or want of memory.
pub fn judge_text(alloc: Global, p: &Problem, text: &[u8]) -> Result<Answer, CertError>
    ensures { JudgesText p.now text.now result }
{
    // It tells what the readings of the problem are.
    let _readings = p.readings();
    match read_widening(alloc, p, text) {
        Ok(stated) => Ok(judge(p, stated.what, &stated.widening)),
        Err(error) => Err(error),
    }
}
