// What a piece says, by the kind of its label.
ghost use Rattle.std.specs.Prelude.{◌≡◌, ◌≤◌, ◌+◌, [], length, IfOk};
ghost use Rattle.captures.specs.Feeding.{taken, seen_packets};
ghost use Rattle.decl.specs.Declaration.{IsDeclaration, declaration_of};
ghost use Rattle.traces.specs.declared.accepted.Stream.TheVariants as streams;
ghost use Rattle.replies.specs.Reply.{most_of_label, most_piece};
ghost use Rattle.session.specs.Pieces.{IsRead, HasPlaceFor, HasRoomFor};
ghost use Rattle.session.specs.TakingInside.{HasPackets};

use captures::{CaptureStream, FirstPackets, Packet};
use decl::{Decl, Label};
use event_log::read_first_rows;
use replies::{Refusal, capture_refusal, log_refusal};
use std::alloc::{AllocError, Global};
use traces::{Event, Stream, packet_events, row_events};

/// Where events come from: a label, and the declaration that it is in.
#[derive(Clone, Copy)]
pub(crate) struct Origin<'a> {
    /// The declaration.
    pub(crate) decl: &'a Decl,
    /// The label.
    pub(crate) label: &'a Label,
}

/// What a piece says.
#[derive(Drop)]
pub enum Piece {
    /// Events, and what is then kept under the label.
    Read {
        /// The events, in their order.
        events: Vec<Event>,
        /// What is then kept.
        stream: Stream,
    },
    /// More events than there is room for.
    TooManyEvents,
    /// It is refused.
    Refused(Refusal),
}

/// Reads a piece for a label of this origin, under which this is kept, where there is room for so many events more. It
/// is read to its end, and no more rows or packets are held than there is room for. `packets`, which has none yet, gets
/// those that a capture's piece completes.
pub(crate) fn read_piece(
    alloc: Global,
    origin: &Origin,
    stream: &Stream,
    piece: &[u8],
    room: u64,
    packets: &mut Vec<Packet>,
) -> Result<Piece, AllocError>
    requires declared { IsDeclaration (declaration_of origin.now.decl.now) }
    requires short { length piece.now ≤ most_piece }
    requires place { HasPlaceFor stream.now (length piece.now) }
    requires none { packets.old.items ≡ [] }
    ensures read { IfOk result (λ read. IsRead (declaration_of origin.now.decl.now) origin.now.label.now room stream.now piece.now read) }
    ensures room { IfOk result (λ read. HasRoomFor room read) }
    ensures packets { IfOk result (λ read. HasPackets stream.now piece.now (seen_packets packets.new.items) read) }
{
    match stream {
        Stream::Log => read_log(alloc, origin, piece, room),
        Stream::Capture(stream) => read_capture(alloc, origin, stream, piece, room, packets),
    }
}

// Reads a piece of a log.
fn read_log(alloc: Global, origin: &Origin, piece: &[u8], room: u64) -> Result<Piece, AllocError>
    requires declared { IsDeclaration (declaration_of origin.now.decl.now) }
    requires short { length piece.now ≤ most_piece }
    ensures read { IfOk result (λ read. IsRead (declaration_of origin.now.decl.now) origin.now.label.now room streams.Log piece.now read) }
    ensures room { IfOk result (λ read. HasRoomFor room read) }
{
    match read_first_rows(alloc, piece, room) {
        Ok(rows) => {
            if rows.count > room {
                return Ok(Piece::TooManyEvents);
            }
            let events = row_events(alloc, origin.decl, origin.label, rows.kept)?;
            let stream = Stream::Log;
            Ok(Piece::Read { events, stream })
        }
        Err(e) => match log_refusal(e) {
            Some(refusal) => Ok(Piece::Refused(refusal)),
            None => Err(AllocError),
        },
    }
}

// Reads the next piece of a capture.
fn read_capture(
    alloc: Global,
    origin: &Origin,
    stream: &CaptureStream,
    piece: &[u8],
    room: u64,
    packets: &mut Vec<Packet>,
) -> Result<Piece, AllocError>
    requires declared { IsDeclaration (declaration_of origin.now.decl.now) }
    requires place { taken stream.now + length piece.now ≤ most_of_label }
    ensures read { IfOk result (λ read. IsRead (declaration_of origin.now.decl.now) origin.now.label.now room (streams.Capture stream.now) piece.now read) }
    ensures room { IfOk result (λ read. HasRoomFor room read) }
    ensures packets { IfOk result (λ read. HasPackets (streams.Capture stream.now) piece.now (seen_packets packets.new.items) read) }
{
    let mut completed = FirstPackets::new(alloc, room);
    match stream.feed_first(piece, &mut completed) {
        Ok(next) => {
            if completed.more {
                return Ok(Piece::TooManyEvents);
            }
            let events = packet_events(alloc, origin.decl, origin.label, &completed.kept)?;
            *packets = completed.kept;
            let stream = Stream::Capture(next);
            Ok(Piece::Read { events, stream })
        }
        Err(e) => match capture_refusal(e) {
            Some(refusal) => Ok(Piece::Refused(refusal)),
            None => Err(AllocError),
        },
    }
}
