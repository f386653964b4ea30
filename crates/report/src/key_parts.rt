// Parts of the text of a key: addresses, ports and payloads.
ghost use Rattle.std.specs.Prelude.{◌≡◌, ◌<◌, ◌/◌, ◌%◌, ◌++◌, ◌∷◌, [], OnOk};
ghost use Rattle.std.specs.Str.{IsAscii};
ghost use Rattle.atto.specs.Decimal.{decimal_of};
ghost use Rattle.report.specs.KeyTexts.{dotted, endpoint, four_groups, groups, hex, hex_digit, payload_word, quad, wide_endpoint};

use atto::{NsText, write_decimal};
use std::alloc::AllocError;

/// Appends a decimal.
pub(crate) fn push_decimal(text: &mut Vec<u8>, number: u32) -> Result<(), AllocError>
    ensures { OnOk result (text.new.items ≡ text.old.items ++ decimal_of number) }
{
    let mut digits = NsText::new();
    write_decimal(u64::from(number), &mut digits);
    text.extend_from_slice(digits.as_slice())?;
    Ok(())
}

/// Appends an IPv4 address: its four bytes as decimals, with dots between.
pub(crate) fn push_dotted(text: &mut Vec<u8>, address: u32) -> Result<(), AllocError>
    ensures { OnOk result (text.new.items ≡ text.old.items ++ dotted address) }
{
    push_decimal(text, address / 0x100_0000)?;
    text.push(b'.')?;
    push_decimal(text, address / 0x1_0000 % 0x100)?;
    text.push(b'.')?;
    push_decimal(text, address / 0x100 % 0x100)?;
    text.push(b'.')?;
    push_decimal(text, address % 0x100)?;
    Ok(())
}

/// Appends an address, a colon and a port.
pub(crate) fn push_endpoint(text: &mut Vec<u8>, address: u32, port: u16) -> Result<(), AllocError>
    ensures { OnOk result (text.new.items ≡ text.old.items ++ endpoint address port) }
{
    push_dotted(text, address)?;
    text.push(b':')?;
    push_decimal(text, u32::from(port))?;
    Ok(())
}

// A digit of the hexadecimal number system, in lower case.
fn hex_digit(n: u8) -> u8
    requires { n < 16 }
    ensures digit { result ≡ hex_digit n }
    ensures ascii { result < 128 }
{
    if n < 10 { b'0' + n } else { b'a' - 10 + n }
}

// Appends the four digits of a number's lowest 16 bits.
fn push_quad(text: &mut Vec<u8>, number: u128) -> Result<(), AllocError>
    ensures { OnOk result (text.new.items ≡ text.old.items ++ quad number) }
{
    text.push(hex_digit((number / 0x1000 % 16) as u8))?;
    text.push(hex_digit((number / 0x100 % 16) as u8))?;
    text.push(hex_digit((number / 0x10 % 16) as u8))?;
    text.push(hex_digit((number % 16) as u8))?;
    Ok(())
}

// Appends four groups of a number's lowest 64 bits, with colons between.
fn push_four_groups(text: &mut Vec<u8>, number: u128) -> Result<(), AllocError>
    ensures { OnOk result (text.new.items ≡ text.old.items ++ four_groups number) }
{
    push_quad(text, number / 0x1_0000_0000_0000)?;
    text.push(b':')?;
    push_quad(text, number / 0x1_0000_0000)?;
    text.push(b':')?;
    push_quad(text, number / 0x1_0000)?;
    text.push(b':')?;
    push_quad(text, number)?;
    Ok(())
}

/// Appends an IPv6 address: eight groups of four digits, with colons between.
pub(crate) fn push_groups(text: &mut Vec<u8>, address: u128) -> Result<(), AllocError>
    ensures { OnOk result (text.new.items ≡ text.old.items ++ groups address) }
{
    push_four_groups(text, address / 0x1_0000_0000_0000_0000)?;
    text.push(b':')?;
    push_four_groups(text, address)?;
    Ok(())
}

/// Appends an IPv6 address in brackets, a colon and a port.
pub(crate) fn push_wide_endpoint(
    text: &mut Vec<u8>,
    address: u128,
    port: u16,
) -> Result<(), AllocError>
    ensures { OnOk result (text.new.items ≡ text.old.items ++ wide_endpoint address port) }
{
    text.push(b'[')?;
    push_groups(text, address)?;
    text.push(b']')?;
    text.push(b':')?;
    push_decimal(text, u32::from(port))?;
    Ok(())
}

// Appends the two digits of a byte.
fn push_byte(text: &mut Vec<u8>, byte: u8) -> Result<(), AllocError>
    ensures text { OnOk result (text.new.items ≡ text.old.items ++ hex_digit (byte / 16) ∷ hex_digit (byte % 16) ∷ []) }
    ensures ascii { OnOk result (IsAscii (hex_digit (byte / 16) ∷ hex_digit (byte % 16) ∷ [])) }
{
    text.push(hex_digit(byte / 16))?;
    text.push(hex_digit(byte % 16))?;
    Ok(())
}

// Appends two digits for each byte.
fn push_hex(text: &mut Vec<u8>, bytes: &[u8]) -> Result<(), AllocError>
    ensures text { OnOk result (text.new.items ≡ text.old.items ++ hex bytes.now) }
    ensures ascii { OnOk result (IsAscii (hex bytes.now)) }
{
    for byte in bytes {
        push_byte(text, *byte)?;
    }
    Ok(())
}

/// Appends the digits of the bytes of a payload, or a dash for none.
pub(crate) fn push_payload(text: &mut Vec<u8>, payload: &[u8]) -> Result<(), AllocError>
    ensures text { OnOk result (text.new.items ≡ text.old.items ++ payload_word payload.now) }
    ensures ascii { OnOk result (IsAscii (payload_word payload.now)) }
{
    if payload.is_empty() {
        text.push(b'-')?;
        Ok(())
    } else {
        push_hex(text, payload)
    }
}
