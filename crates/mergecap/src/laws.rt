// What a merged capture stands for, and that packets have one order.
ghost use Rattle.std.specs.Prelude.{◌≡◌, List, All};
ghost use Rattle.mergecap.specs.MergedCapture.{AreWritable, IsArranged, IsShort, Timed};
ghost use Rattle.mergecap.specs.Reading.{HasLinkType, IsReadBack};

/// A law, which does nothing when it runs: packets are arranged in one way.
pub fn arranged_in_one_way()
    ensures { (ts a b : List Timed) → IsArranged ts a → IsArranged ts b → a ≡ b }
{}

/// A law: a merged capture is read as a capture of these packets, each with its time in whole ns as its stamp, and nothing
/// is left.
pub fn merged_captures_are_read()
    ensures { (ts : List Timed) → AreWritable ts → All IsShort ts → HasLinkType ts → IsReadBack ts }
{}
