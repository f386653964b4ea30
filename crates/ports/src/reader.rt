// A reader of lines.
ghost use Rattle.std.specs.Prelude.{◌≡◌, ◌<◌, ◌≤◌, ◌^◌, ◌⊎◌, ◌↔◌, ℕ, List, [], true, false, IfOk, IsErrOf};
ghost use Rattle.ports.specs.Reader.{AnswersOneLine, NeedsNoRead, fresh, is_final, room};
ghost use Rattle.ports.specs.Block.{EndsLine, IsKeptFront, Refills, TakesPiece, found_as};
ghost use Rattle.ports.specs.Lines.{most_taken};

use crate::block::{feed_place, keep, read_block};
use crate::{Line, LineFault, LineText, Source};
use std::marker::Model;

// How many bytes are read at a time, at most.
const BLOCK: usize = 4096;

// How many bytes a reader takes, at most, so that a source that never ends is left.
const MOST: u32 = 1 << 30;

/// A reader of lines. It reads ahead at most 4,096 bytes, and takes no memory but its own. It is seen as the bytes that
/// it read ahead, the number of bytes that it took from sources, whether it found the end of one, and whether it
/// answered the end or a fault.
#[derive(Drop)]
pub struct LineReader {
    block: [u8; BLOCK],
    start: usize,
    end: usize,
    taken: u32,
    ended: bool,
    over: bool,
}

impl Model for LineReader {
    ghost use Rattle.std.specs.Prelude.{◌≡◌, ◌+◌, ◌^◌, ◌≤◌, false, slice_range, true};
    ghost use Rattle.ports.specs.Lines.{most_taken};
    ghost use Rattle.ports.specs.Reader.{Reader};

    ghost Value = { Reader };

    ghost view = { λ r. record { held = slice_range r.block r.start r.end; taken = r.taken; ended = r.ended; over = r.over } };

    ghost invariant = { λ r. (r.start ≤ r.end) × (r.end ≤ 4096) × (r.over ≡ false → r.taken ≤ most_taken) × (r.ended ≡ true → r.start ≡ r.end) };
}

// What the bytes held have of a line.
enum Piece {
    // Its end. The line is text or too long.
    Whole(Line),
    // No line feed, and whether the line is too long already.
    Part(bool),
}

impl LineReader {
    /// A reader that holds nothing and took nothing.
    pub fn new() -> LineReader
        ensures { result ≡ fresh }
    {
        LineReader {
            block: [0; BLOCK],
            start: 0,
            end: 0,
            taken: 0,
            ended: false,
            over: false,
        }
    }

    /// Gives the next line of the bytes that were read ahead, followed by those that `source` has left. A line ends at
    /// its line feed, which is not part of it, or at the end of the bytes, if it has a byte. All other bytes are as they
    /// stand, a carriage return too.
    ///
    /// `Text` puts the line into `line`. `TooLong` skips all of it. `End` is answered where nothing is left, and without a
    /// read behind a last line with no line feed. In each other case `line` holds any bytes.
    ///
    /// A line whose line feed was read ahead is given without a read, so no fault comes before it. `Read` is answered where
    /// the source fails, `Limit` where a byte comes behind the first 2^30 that this reader took: a line whose line feed is
    /// not among these gets no answer. `End` and a fault are the last answers of a reader.
    pub fn next_line<S: Source>(
        &mut self,
        source: &mut S,
        line: &mut LineText,
    ) -> Result<Line, LineFault>
        requires { self.old.over ≡ false }
        ensures next { AnswersOneLine self.old self.new (S.told source.old) (S.told source.new) line.new.items result }
        ensures unread { NeedsNoRead self.old → (source.new ≡ source.old) × (self.new.taken ≡ self.old.taken) }
        ensures limit { IsErrOf result LineFault.Limit ↔ (most_taken < self.new.taken) }
        ensures over { self.new.over ≡ is_final result }
        ensures progress { IfOk result (λ found. (found ≡ Line.End) ⊎ (room self.new < room self.old)) }
    {
        if self.is_ended() {
            self.close();
            return Ok(Line::End);
        }
        line.clear();
        let mut long = false;
        'pieces: loop {
            match self.take_piece(line, long) {
                Piece::Whole(found) => return Ok(found),
                Piece::Part(more) => long = more,
            }
            if !self.refill(source)? {
                return Ok(self.end_line(line, long));
            }
        }
    }

    // Whether the end was found. Then nothing is held.
    fn is_ended(&self) -> bool
        ensures value { result ≡ self.now.ended }
        ensures none { self.now.ended ≡ true → self.now.held ≡ [] }
        ensures within { self.now.over ≡ false → self.now.taken ≤ most_taken }
    {
        self.ended
    }

    // No call may follow.
    fn close(&mut self)
        ensures { self.new ≡ record self.old { over = true } }
    {
        self.over = true;
    }

    // Takes the bytes held up to a line feed, or all of them, as what follows in a line.
    fn take_piece(&mut self, line: &mut LineText, long: bool) -> Piece
        requires { self.old.ended ≡ false }
        ensures piece { (front : List ℕ) → IsKeptFront front line.old.items long → TakesPiece self.old self.new front line.new.items result }
        ensures same { self.new ≡ record self.old { held = self.new.held } }
    {
        match feed_place(&self.block[self.start..self.end]) {
            Some(k) => {
                let at = self.start + k;
                let long = keep(line, long, &self.block[self.start..at]);
                self.start = at + 1;
                Piece::Whole(found(long))
            }
            None => {
                let long = keep(line, long, &self.block[self.start..self.end]);
                self.start = self.end;
                Piece::Part(long)
            }
        }
    }

    // Reads a block where none is held, and answers whether it has a byte. It takes no more than the limit, and where that
    // is taken it tries one byte.
    fn refill<S: Source>(&mut self, source: &mut S) -> Result<bool, LineFault>
        requires none { self.old.held ≡ [] }
        requires going { self.old.ended ≡ false }
        requires more { self.old.over ≡ false }
        ensures { Refills self.old self.new (S.told source.old) (S.told source.new) result }
    {
        self.start = 0;
        self.end = 0;
        let may = (MOST - self.taken) as usize;
        match read_block(source, &mut self.block, may.clamp(1, BLOCK)) {
            Ok(0) => {
                self.ended = true;
                Ok(false)
            }
            Ok(_) if may == 0 => {
                self.taken += 1;
                self.over = true;
                Err(LineFault::Limit)
            }
            Ok(n) => {
                self.end = n;
                self.taken += n as u32;
                Ok(true)
            }
            Err(_) => {
                self.over = true;
                Err(LineFault::Read)
            }
        }
    }

    // What is answered at the end of the source, behind the front of a line.
    fn end_line(&mut self, line: &LineText, long: bool) -> Line
        ensures { (front : List ℕ) → IsKeptFront front line.now.items long → EndsLine self.old self.new front line.now.items result }
    {
        if line.is_empty() && !long {
            self.over = true;
            return Line::End;
        }
        found(long)
    }
}

// What a line is told as.
fn found(long: bool) -> Line
    ensures { result ≡ found_as long }
{
    if long { Line::TooLong } else { Line::Text }
}
