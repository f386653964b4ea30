// Texts made of lines.
ghost use Rattle.std.specs.Prelude.{◌≡◌, ◌++◌, IfOk, OnOk, flat_map, map};
ghost use Rattle.std.specs.List.{concat};
ghost use Rattle.shared_fixtures.specs.LinesWith.{lines_with};

use std::alloc::{AllocError, Global};

/// Appends these lines to a text. Without memory some of them are appended.
pub fn push_lines(text: &mut Vec<u8>, lines: &[&str]) -> Result<(), AllocError>
    ensures { OnOk result (text.new.items ≡ text.old.items ++ flat_map (λ line. line.now) lines.now) }
{
    for line in lines {
        text.extend_from_slice(line.as_bytes())?;
    }
    Ok(())
}

/// The text of these lines, with another one in the place of the line of this number, counted from 1. A number that no
/// line has, as 0, exchanges none.
pub fn text_with(
    alloc: Global,
    lines: &[&str],
    number: usize,
    other: &str,
) -> Result<Vec<u8>, AllocError>
    ensures { IfOk result (λ text. text.items ≡ concat (lines_with number other.now (map (λ line. line.now) lines.now))) }
{
    let mut text = Vec::new(alloc);
    if number == 0 || number > lines.len() {
        push_lines(&mut text, lines)?;
        return Ok(text);
    }
    push_lines(&mut text, &lines[..number - 1])?;
    text.extend_from_slice(other.as_bytes())?;
    push_lines(&mut text, &lines[number..])?;
    Ok(text)
}
