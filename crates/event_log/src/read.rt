// A piece of an event log, record by record.
ghost use Rattle.std.specs.Prelude.{◌≡◌, ◌≤◌, ◌^◌, ◌++◌, ◌∷◌, [], ℕ, List, length, take, IfOk, IfErr, OnOk, IsTrue, IsFalse};
ghost use Rattle.csv.specs.Records.{fields_of};
ghost use Rattle.event_log.specs.Given.{HasGiven};
ghost use Rattle.event_log.specs.Log.{records_of, AreRows, AreFirstRows, IsLogFault};
ghost use Rattle.event_log.specs.declared.errors.LogError.TheVariants.{Memory};
ghost use Rattle.event_log.specs.declared.row.Row as rows;

use crate::fields::read_row;
use crate::front::short_front;
use crate::{LogError, Row};
use csv::{ByteRecord, Reader, ReaderBuilder};
use std::alloc::{AllocError, Global};

/// The rows of a piece, as far as they were wanted.
#[derive(Debug, Drop)]
pub struct FirstRows {
    /// The first rows, in their order.
    pub kept: Vec<Row>,
    /// How many rows the piece has in all.
    pub count: u64,
}

// A reader of the records of a piece, which has no header, and whose records may have any length.
fn open(alloc: Global, piece: &[u8]) -> Reader<&[u8]>
    ensures { HasGiven piece.now [] result }
{
    ReaderBuilder::new()
        .has_headers(false)
        .flexible(true)
        .from_reader(alloc, piece)
}

// Reads the next record, if there is one. An error of the reader over a piece in memory is want of memory too.
fn next_record(reader: &mut Reader<&[u8]>, record: &mut ByteRecord) -> Result<bool, LogError>
    ensures more { (piece : List ℕ) (given : List (List (List ℕ))) → HasGiven piece given reader.old
        → IfOk result (λ found. IsTrue found → HasGiven piece (given ++ fields_of «record».new ∷ []) reader.new) }
    ensures end { (piece : List ℕ) (given : List (List (List ℕ))) → HasGiven piece given reader.old
        → IfOk result (λ found. IsFalse found → records_of piece ≡ given) }
    ensures memory { IfErr result (λ e. e ≡ Memory) }
{
    match reader.read_byte_record(record) {
        Ok(found) => Ok(found),
        Err(_) => Err(LogError::Memory),
    }
}

// Appends a row behind so many others, unless as many are kept as may be.
fn keep_row(kept: &mut Vec<Row>, row: Row, before: u64, most: u64) -> Result<(), AllocError>
    ensures { (all : List rows.Row) → kept.old.items ≡ take most all → before ≡ length all → OnOk result (kept.new.items ≡ take most (all ++ row ∷ [])) }
{
    if before < most {
        kept.push(row)?;
    }
    Ok(())
}

/// The rows of a piece of an event log, which has at most 2^28 bytes, or why it is refused. Its records are those that
/// `csv` reads: with commas and double quotes, without a header, and without a byte order mark in front. Each answer
/// comes exactly where it is defined, but for `Memory`, which comes where memory runs out.
pub fn read_rows(alloc: Global, piece: &[u8]) -> Result<Vec<Row>, LogError>
    requires { length piece.now ≤ 2 ^ 28 }
    ensures rows { IfOk result (λ rows. AreRows (records_of piece.now) rows.items) }
    ensures fault { IfErr result (λ e. IsLogFault piece.now e) }
{
    let rows = read_first_rows(alloc, piece, u64::MAX)?;
    Ok(rows.kept)
}

/// The first rows of a piece, at most so many of those that `read_rows` gives, and how many rows it has in all; or why it is
/// refused, as `read_rows` does. A row behind those that are kept is read and judged as any other.
pub fn read_first_rows(alloc: Global, piece: &[u8], most: u64) -> Result<FirstRows, LogError>
    requires { length piece.now ≤ 2 ^ 28 }
    ensures rows { IfOk result (λ read. AreFirstRows piece.now most read) }
    ensures fault { IfErr result (λ e. IsLogFault piece.now e) }
{
    read_records(alloc, short_front(piece), most)
}

// The same, by records that are kept whole, one after another.
fn read_records(alloc: Global, piece: &[u8], most: u64) -> Result<FirstRows, LogError>
    requires { length piece.now ≤ 2 ^ 28 }
    ensures rows { IfOk result (λ read. AreFirstRows piece.now most read) }
    ensures fault { IfErr result (λ e. IsLogFault piece.now e) }
{
    let mut reader = open(alloc, piece);
    let mut record = ByteRecord::new(alloc);
    let mut kept = Vec::new(alloc);
    let mut number: u32 = 0;
    'records: while next_record(&mut reader, &mut record)? {
        let before = u64::from(number);
        number += 1;
        keep_row(&mut kept, read_row(alloc, &record, number)?, before, most)?;
    }
    Ok(FirstRows {
        kept,
        count: u64::from(number),
    })
}
