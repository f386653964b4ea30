// Events in one order, and the line of each.
ghost use Rattle.std.specs.Prelude.{◌≡◌, ◌≤◌, ◌∷◌, [], ◌++◌, length, slice_get, IfOk};
ghost use Rattle.std.specs.List.{range_with_len};
ghost use Rattle.problem_model.specs.Limits.{most_items};
ghost use Rattle.atto.specs.NsText.{ns_text};
ghost use Rattle.line_format.specs.Words.{words};
ghost use Rattle.ports.specs.Content.{Writes};
ghost use Rattle.report.specs.Merging.{AreApart, IsMergeOrder, merge_line};

use atto::{NsText, write_ns};
use ports::fixed_line::{Line, first_word, push_word};
use ports::{Failed, Sink, write_whole};
use problem_model::Name;
use std::alloc::{AllocError, Global};

/// What an event is merged by. Keys are ordered by value, then by place, then by number.
#[derive(Clone, Copy, Debug, PartialEq, Eq, PartialOrd, Ord)]
pub struct MergeKey {
    /// Its real time, in units of 1e-9 ns.
    pub value: i128,
    /// The place of its label, from 0 on.
    pub place: u32,
    /// Its number there.
    pub n: u32,
}

// The numbers below this one, upward.
fn positions(alloc: Global, count: u32) -> Result<Vec<u32>, AllocError>
    ensures { IfOk result (λ all. all.items ≡ range_with_len 0 count) }
{
    let mut all = Vec::with_capacity(alloc, count as usize)?;
    for position in 0..count {
        all.push(position)?;
    }
    Ok(all)
}

// The key at a position, where there is one.
fn key_at(keys: &[MergeKey], position: u32) -> Option<MergeKey>
    ensures { result ≡ slice_get keys.now position }
{
    keys.get(position as usize).copied()
}

/// The positions of these keys, from 0 on, in the order of their values, then of their places, then of their numbers; an
/// error where memory runs out.
///
/// No two keys have the same place and the same number, and there are at most 2^25.
pub fn merge_order(alloc: Global, keys: &[MergeKey]) -> Result<Vec<u32>, AllocError>
    requires differ { AreApart keys.now }
    requires few { length keys.now ≤ most_items }
    ensures { IfOk result (λ order. IsMergeOrder keys.now order.items) }
{
    let mut order = positions(alloc, keys.len() as u32)?;
    order.sort_unstable_by_key(|position| key_at(keys, *position));
    Ok(order)
}

// The first words of an event's line: its value, in units of 1e-9 ns, as ns text, and its name.
fn merge_head(value: i128, name: &Name) -> Line
    ensures words { result.items ≡ words (ns_text value ∷ name.now ∷ []) }
    ensures short { length result.items ≤ 97 }
{
    let mut text = NsText::new();
    write_ns(value, &mut text);
    let mut line = first_word(text.as_slice());
    push_word(&mut line, name.bytes());
    line
}

// Writes what stands before a text, the text, and a line feed.
fn write_text<O: Sink>(head: &[u8], text: &[u8], out: &mut O) -> Result<(), Failed>
    ensures { Writes (head.now ++ text.now ++ 10 ∷ []) (O.told out.old) (O.told out.new) result }
{
    write_whole(out, head)?;
    write_whole(out, text)?;
    write_whole(out, b"\n")
}

/// Writes the line of an event: its real time, given in units of 1e-9 ns, as ns text; its name; and what an event log
/// says of it, unless that is empty. It takes no memory.
///
/// `Failed` comes only where the sink's count of faults rose, or stands at its last value; a front of the line is then
/// written.
pub fn write_merge_line<O: Sink>(
    value: i128,
    name: &Name,
    text: &[u8],
    out: &mut O,
) -> Result<(), Failed>
    ensures { Writes (merge_line value name.now text.now) (O.told out.old) (O.told out.new) result }
{
    let mut line = merge_head(value, name);
    if text.is_empty() {
        line.push(b'\n');
        return write_whole(out, line.as_slice());
    }
    line.push(b' ');
    write_text(line.as_slice(), text, out)
}
