// The text of a row.
ghost use Rattle.std.specs.Prelude.{◌≡◌, ◌↔◌, SomeIff, IsTrue, All, IfOk};
ghost use Rattle.std.specs.Int.{IsInRange};
ghost use Rattle.event_log.specs.Texts.{IsLogText};

use std::alloc::{AllocError, Global};
use std::marker::Model;

/// The text of a row: 0 to 200 bytes from 32 to 126. It is seen as these bytes.
///
/// It takes as much memory as it has bytes, and none where it has none.
#[derive(Debug, Drop)]
pub struct LogText {
    bytes: Vec<u8>,
}

impl Model for LogText {
    ghost use Rattle.std.specs.Prelude.{ℕ, List};
    ghost use Rattle.event_log.specs.Texts.{IsLogText};

    ghost Value = { List ℕ };

    ghost view = { λ t. t.bytes.items };

    ghost invariant = { λ t. IsLogText t.bytes.items };
}

fn is_text_byte(c: u8) -> bool
    ensures { IsTrue result ↔ IsInRange 32 126 c }
{
    c == b' ' || c.is_ascii_graphic()
}

fn are_text_bytes(text: &[u8]) -> bool
    ensures { IsTrue result ↔ All (λ c. IsInRange 32 126 c) text.now }
{
    text.iter().all(|c| is_text_byte(*c))
}

fn is_log_text(text: &[u8]) -> bool
    ensures { IsTrue result ↔ IsLogText text.now }
{
    if text.len() > 200 {
        return false;
    }
    are_text_bytes(text)
}

impl LogText {
    // The text of these bytes; None exactly where they are more than 200, or one is outside 32 to 126.
    pub(crate) fn new(alloc: Global, text: &[u8]) -> Result<Option<LogText>, AllocError>
        ensures { IfOk result (λ t. SomeIff t (IsLogText text.now) text.now) }
    {
        if !is_log_text(text) {
            return Ok(None);
        }
        let mut bytes = Vec::with_capacity(alloc, text.len())?;
        bytes.extend_from_slice(text)?;
        Ok(Some(LogText { bytes }))
    }

    /// The bytes of the text.
    pub fn bytes(&self) -> &[u8]
        ensures value { result.now ≡ self.now }
        ensures text { IsLogText self.now }
    {
        &self.bytes
    }
}
