// What merged files stand for, and that packets have one list of taps.
ghost use Rattle.std.specs.Prelude.{◌≡◌, List, ℤ, All};
ghost use Rattle.intervals.specs.declared.ends.Ends.{Ends};
ghost use Rattle.decl.specs.Declaration.{Declaration, IsDeclaration};
ghost use Rattle.traces.specs.declared.event_id.EventId.{EventId};
ghost use Rattle.mergecap.specs.MergedCapture.{IsShort, Timed};
ghost use Rattle.pcapng_blocks.specs.File.{IsWritten};
ghost use Rattle.merged_blocks.specs.declared.taps.Tap.{Tap};
ghost use Rattle.merged_blocks.specs.Taps.{AreTapsOf};
ghost use Rattle.merged_blocks.specs.MergedFile.{AreDated, HaveEnds, merged_file};
ghost use Rattle.merged_blocks.specs.Reading.{AreEarly, IsReadBack};

use pcapng_blocks::files_are_read;

/// A law, which does nothing when it runs: packets have one list of taps.
pub fn taps_are_one()
    ensures { (ts : List Timed) (a b : List Tap) → AreTapsOf ts a → AreTapsOf ts b → a ≡ b }
{}

/// A law: a file of merged packets can be written, and where no date is past what readers take, it is read as these
/// packets, each once, in their order, with their dates in whole ns and both their lengths, each under the interface of
/// its tap; and nothing is left.
pub fn files_are_read_back()
    ensures written { (d : Declaration) (ts : List Timed) (taps : List Tap) (shift : ℤ) (since : EventId) (all : List Ends) → IsDeclaration d → AreDated ts taps shift → All IsShort ts → HaveEnds since ts all → IsWritten (merged_file d taps shift since ts all) }
    ensures read { (d : Declaration) (ts : List Timed) (taps : List Tap) (shift : ℤ) (since : EventId) (all : List Ends) → IsDeclaration d → AreDated ts taps shift → All IsShort ts → HaveEnds since ts all
        → AreEarly shift ts → IsReadBack d taps shift since ts all }
{
    // It tells what files are read as.
    files_are_read();
}
