// What is said of packets in comments.
ghost use Rattle.std.specs.Prelude.{◌≡◌, ◌<◌, ◌≤◌, ◌+◌, ◌++◌, ◌∷◌, [], ℕ, List, length};
ghost use Rattle.line_format.specs.Words.{words};
ghost use Rattle.ports.specs.Room.{HasRoomBehind};
ghost use Rattle.queries.specs.Words.{end_word};
ghost use Rattle.decl.specs.Declaration.{HasLawfulLabels, declaration_of};
ghost use Rattle.mergecap.specs.Packets.{timed};
ghost use Rattle.merged_blocks.specs.Remarks.{remark_of, remark_words};

use decl::Decl;
use intervals::{End, Ends};
use mergecap::Stored;
use ports::fixed_line::{Line, first_word, push_decimal, push_ns, push_word};
use problem_model::Name;
use traces::{EventId, name_of};

// Appends the word of an end.
fn push_end(line: &mut Line, end: End, unlimited: &[u8])
    requires short { length unlimited.now ≤ 48 }
    requires room { HasRoomBehind line.old.items 49 }
    ensures appended { (first : List ℕ) (ws : List (List ℕ)) → line.old.items ≡ words (first ∷ ws) → line.new.items ≡ words (first ∷ ws ++ end_word unlimited.now end ∷ []) }
    ensures grown { length line.new.items ≤ length line.old.items + 49 }
{
    match end {
        End::At(units) => push_ns(line, units),
        End::Unbounded => push_word(line, unlimited),
    }
}

// An event by its name, its stamp in ns, and the ends of the real time from another event to it.
fn remark_words(event: &Name, stamp: u64, since: &Name, ends: &Ends) -> Line
    ensures is { result.items ≡ remark_words event.now stamp since.now ends.now }
    ensures short { length result.items ≤ 512 }
{
    let mut line = first_word(b"tracesync");
    push_word(&mut line, event.bytes());
    push_word(&mut line, b"stamp");
    push_decimal(&mut line, stamp);
    push_word(&mut line, b"since");
    push_word(&mut line, since.bytes());
    push_end(&mut line, ends.least, b"-inf");
    push_word(&mut line, b"to");
    push_end(&mut line, ends.greatest, b"+inf");
    push_word(&mut line, b"ns");
    line
}

/// What is said of a packet: `tracesync`, its event, which goes by its label and its number there, `stamp`, and its stamp
/// in ns of its own clock; `since`, another event, and the ends of the real time from that to it, in ns.
pub(crate) fn remark_line(decl: &Decl, since: EventId, stored: &Stored, ends: &Ends) -> Line
    requires labels { HasLawfulLabels (declaration_of decl.now) }
    requires label { stored.now.place < length decl.now.labels.items }
    requires since { since.label < length decl.now.labels.items }
    ensures is { result.items ≡ remark_of (declaration_of decl.now) since (timed stored.now) ends.now }
    ensures short { length result.items ≤ 512 }
{
    let event = name_of(
        decl,
        EventId {
            label: stored.place,
            number: stored.n,
        },
    );
    let other = name_of(decl, since);
    remark_words(&event, stored.packet.stamp.get(), &other, ends)
}
