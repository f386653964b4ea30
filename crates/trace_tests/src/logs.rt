use event_log::{Kind, LogError, Row, read_first_rows, read_rows};
use std::alloc::{AllocError, Global};
use std::test::*;

// What a row is to have: its stamp, kind, key (empty for none) and text.
type Wanted = (u64, Kind, &'static str, &'static str);

fn is_wanted(row: &Row, wanted: &Wanted) -> bool {
    let key = match &row.key {
        Some(key) => key.bytes(),
        None => b"".as_slice(),
    };
    row.stamp.get() == wanted.0
        && row.kind == wanted.1
        && key == wanted.2.as_bytes()
        && row.text.bytes() == wanted.3.as_bytes()
}

fn are_wanted(rows: &[Row], wanted: &[Wanted]) -> bool {
    rows.len() == wanted.len()
        && rows
            .iter()
            .zip(wanted)
            .all(|(row, one)| is_wanted(row, one))
}

fn reads(alloc: Global, piece: &str, wanted: &[Wanted]) -> bool {
    if piece.len() > 1 << 28 {
        return false;
    }
    match read_rows(alloc, piece.as_bytes()) {
        Ok(rows) => are_wanted(&rows, wanted),
        Err(_) => false,
    }
}

fn fault_of(alloc: Global, piece: &str) -> Option<LogError> {
    if piece.len() > 1 << 28 {
        return None;
    }
    read_rows(alloc, piece.as_bytes()).err()
}

// Why a log is refused of which no row is kept.
fn fault_behind_the_limit(alloc: Global, piece: &str) -> Option<LogError> {
    if piece.len() > 1 << 28 {
        return None;
    }
    read_first_rows(alloc, piece.as_bytes(), 0).err()
}

#[test]
fn rows(rt: HostRuntime) {
    let none: [Wanted; 0] = [];
    assert!(rt; reads(rt.alloc(), "", &none));
    assert!(rt; reads(rt.alloc(), "\r\n\n\r", &none));
    let cases: [(&str, Wanted, Wanted); 6] = [
        (
            "5,send,m1,\n7,receive,m1,hello world\n",
            (5, Kind::Send, "m1", ""),
            (7, Kind::Receive, "m1", "hello world"),
        ),
        (
            "\n007,local,,\r\n\r\n\n8,local,,x",
            (7, Kind::Local, "", ""),
            (8, Kind::Local, "", "x"),
        ),
        (
            "\u{feff}1,send,a,x\r2,local,,",
            (1, Kind::Send, "a", "x"),
            (2, Kind::Local, "", ""),
        ),
        (
            "\"2\",\"send\",\"k,1\",\"say \"\"hi\"\", all\"\n2,receive,k,\"\"\n",
            (2, Kind::Send, "k,1", "say \"hi\", all"),
            (2, Kind::Receive, "k", ""),
        ),
        (
            "4611686018427387903,send,!~, \n0000000000000000000,local,\"\", ~",
            (4611686018427387903, Kind::Send, "!~", " "),
            (0, Kind::Local, "", " ~"),
        ),
        (
            "1,send,a123456789b123456789c123456789d123456789e123456789f123456789g123,\n1,local,,.",
            (
                1,
                Kind::Send,
                "a123456789b123456789c123456789d123456789e123456789f123456789g123",
                "",
            ),
            (1, Kind::Local, "", "."),
        ),
    ];
    for (piece, first, second) in &cases {
        assert!(rt; reads(rt.alloc(), piece, &[*first, *second]), "{piece}");
    }
}

#[test]
fn faults(rt: HostRuntime) {
    let cases = [
        ("1,send,a\n", LogError::Fields(1)),
        ("1,send,a,b,c", LogError::Fields(1)),
        ("1,local,,,x\n2,local,,\n", LogError::Fields(1)),
        ("\u{feff}\"1\",send,a,\",\",,\n1\n", LogError::Fields(1)),
        ("1,local,,\"\n,\"\",\",", LogError::Fields(1)),
        ("1,local,,\"\n,\"\",\"\n2", LogError::Text(1)),
        ("1,local,,\n\n\r\nx\n", LogError::Fields(2)),
        ("1;local;;\n", LogError::Fields(1)),
        ("\u{feff}\u{feff}1,local,,\n", LogError::Stamp(1)),
        (",local,,", LogError::Stamp(1)),
        ("+1,local,,", LogError::Stamp(1)),
        (" 1,local,,", LogError::Stamp(1)),
        ("1_000,local,,", LogError::Stamp(1)),
        ("4611686018427387904,local,,", LogError::Stamp(1)),
        ("9999999999999999999,local,,", LogError::Stamp(1)),
        ("00000000000000000001,local,,", LogError::Stamp(1)),
        ("1,Send,a,", LogError::Kind(1)),
        ("1,sends,a,", LogError::Kind(1)),
        ("1,,,", LogError::Kind(1)),
        ("1,send,,", LogError::Kind(1)),
        ("1,receive,,x", LogError::Kind(1)),
        ("1,local,a,", LogError::Kind(1)),
        ("1,send,a b,", LogError::Text(1)),
        ("1,send,a,\u{7f}", LogError::Text(1)),
        (
            "1,send,a123456789b123456789c123456789d123456789e123456789f123456789g1234,",
            LogError::Text(1),
        ),
        ("1,local,,a\tb", LogError::Text(1)),
        ("1,local,,\"a\nb\"", LogError::Text(1)),
        ("1,local,,\u{e4}", LogError::Text(1)),
        ("1,local,,\nx,send,,\n2\n", LogError::Stamp(2)),
        ("x,nope,a b,\n", LogError::Stamp(1)),
        ("1,nope,a b,\t", LogError::Kind(1)),
        (
            "1,local,,\n\n2,local,,\n3,send,a b,\n4,send,,\n",
            LogError::Text(3),
        ),
    ];
    for (piece, wanted) in &cases {
        assert!(rt; fault_of(rt.alloc(), piece) == Some(*wanted), "{piece}");
        assert!(rt;
            fault_behind_the_limit(rt.alloc(), piece) == Some(*wanted),
            "{piece}"
        );
    }
}

// How many rows of a log are kept where at most so many are, and how many it has.
fn first_rows(alloc: Global, piece: &str, most: u64) -> Option<(usize, u64)> {
    if piece.len() > 1 << 28 {
        return None;
    }
    let rows = read_first_rows(alloc, piece.as_bytes(), most).ok()?;
    Some((rows.kept.len(), rows.count))
}

#[test]
fn few_rows(rt: HostRuntime) {
    let log = "1,local,,\n2,local,,\n3,local,,\n";
    for (most, kept) in [(0, 0), (1, 1), (2, 2), (3, 3), (4, 3)] {
        assert!(rt;
            first_rows(rt.alloc(), log, most) == Some((kept, 3)),
            "{most}"
        );
    }
}

// Why a log is refused of a good row and one with so many commas.
fn fault_of_commas(alloc: Global, count: usize) -> Result<Option<LogError>, AllocError> {
    let mut piece = Vec::new(alloc);
    piece.extend_from_slice(b"1,local,,\n")?;
    for _ in 0..count {
        piece.push(b',')?;
    }
    if piece.len() > 1 << 28 {
        return Ok(None);
    }
    Ok(read_rows(alloc, &piece).err())
}

#[test]
fn many_fields(rt: HostRuntime) {
    for (count, wanted) in [
        (3, LogError::Stamp(2)),
        (4, LogError::Fields(2)),
        (5, LogError::Fields(2)),
        (1_000_000, LogError::Fields(2)),
    ] {
        match fault_of_commas(rt.alloc(), count) {
            Ok(fault) => assert!(rt; fault == Some(wanted), "{count}"),
            Err(_) => assert!(rt; false, "{count}"),
        }
    }
}
