// A certificate's text, read and checked at once.
ghost use Rattle.cert_check.specs.CheckedText.{ChecksText};

use crate::{Answer, check};
use cert::{CertError, read_cert};
use problem::Problem;
use std::alloc::Global;

/// Reads a certificate text of `p`, and answers whether the certificate shows what it should, or the first reason why it
/// does not, as `check` does. Errors are those of reading: the first fault of the text with its line, or that the text has
/// more than 2^34 bytes, or want of memory.
pub fn check_text(alloc: Global, p: &Problem, text: &[u8]) -> Result<Answer, CertError>
    ensures { ChecksText p.now text.now result }
{
    // It tells that the problem is lawful.
    let _ = p.readings();
    match read_cert(alloc, p, text) {
        Ok(c) => Ok(check(p, &c)),
        Err(error) => Err(error),
    }
}
