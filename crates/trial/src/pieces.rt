// The logs of a batch.
ghost use Rattle.std.specs.Prelude.{◌≡◌, ◌++◌, codes, IfOk, OnOk, string_bytes};
ghost use Rattle.trial.specs.Workload.{row, rows_of, piece_of};

use crate::rounds::Message;
use std::alloc::{AllocError, Global};
use std::fmt::Write;

/// The rows of a host in a batch of these messages, one for each that it sends or receives.
pub fn piece(alloc: Global, host: u32, messages: &[Message]) -> Result<String, AllocError>
    ensures { IfOk result (λ text. string_bytes text ≡ piece_of host messages.now) }
{
    let mut text = String::new(alloc);
    for message in messages {
        push_rows(&mut text, host, message)?;
    }
    Ok(text)
}

fn push_rows(text: &mut String, host: u32, message: &Message) -> Result<(), AllocError>
    ensures { OnOk result (string_bytes text.new ≡ string_bytes text.old ++ rows_of host message.now) }
{
    if message.sender == host {
        push_row(text, message.sent, "send", message.number)?;
    }
    if message.receiver == host {
        push_row(text, message.received, "receive", message.number)?;
    }
    Ok(())
}

fn push_row(text: &mut String, stamp: u64, kind: &str, number: u32) -> Result<(), AllocError>
    ensures { OnOk result (string_bytes text.new ≡ string_bytes text.old ++ row stamp kind.now number) }
{
    write!(text, "{stamp},{kind},m{number},\n")
}
