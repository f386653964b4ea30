use ports::read_file;
use std::alloc::Global;
use std::test::Fail;
use trial::{Trial, generate};

// Logs of three trials by seed and path: their sizes, and the rows that they begin and end with.
const LOGS: [(u32, &str, usize, &str, &str); 6] = [
    (
        7,
        "h0.1",
        540,
        "1059330651,send,m2,\n1059553648,send,m5,\n",
        "1064061168,send,m91,\n",
    ),
    (
        7,
        "h3.1",
        555,
        "1585917452,send,m3,\n1586170288,send,m7,\n",
        "1590718147,receive,m94,\n",
    ),
    (
        7,
        "h7.20",
        712,
        "1787559136,send,m1904,\n1787790751,send,m1907,\n",
        "1792791034,receive,m1996,\n",
    ),
    (
        0,
        "h0.1",
        348,
        "1168546447,send,m10,\n1168690718,receive,m13,\n",
        "1172699515,send,m99,\n",
    ),
    (
        0,
        "h7.20",
        562,
        "1860400275,send,m1901,\n1860677032,send,m1908,\n",
        "1865160876,send,m1997,\n",
    ),
    (
        4294967295,
        "h7.20",
        660,
        "1954438588,receive,m1901,\n1954405445,send,m1902,\n",
        "1959348306,send,m2000,\n",
    ),
];

#[test]
fn logs_have_their_rows(rt: HostRuntime) {
    assert!(rt; logs_right(rt.alloc(), &LOGS) == LOGS.len());
}

// How many of these logs are as they are to be.
fn logs_right(alloc: Global, logs: &[(u32, &str, usize, &str, &str)]) -> usize {
    let mut right: usize = 0;
    for (seed, path, size, first, last) in logs {
        if log_is(alloc, *seed, path, *size, first, last) {
            right = right.saturating_add(1);
        }
    }
    right
}

fn log_is(alloc: Global, seed: u32, path: &str, size: usize, first: &str, last: &str) -> bool {
    match generate(alloc, seed) {
        Ok(mut trial) => file_is(alloc, &mut trial, path, size, first, last),
        Err(_) => false,
    }
}

fn file_is(
    alloc: Global,
    trial: &mut Trial,
    path: &str,
    size: usize,
    first: &str,
    last: &str,
) -> bool {
    match read_file(alloc, &mut trial.files, path, 1 << 20) {
        Ok(file) => text_is(&file.bytes, size, first, last),
        Err(_) => false,
    }
}

fn text_is(text: &[u8], size: usize, first: &str, last: &str) -> bool {
    text.len() == size && text.starts_with(first.as_bytes()) && text.ends_with(last.as_bytes())
}

// There is no other path.
#[test]
fn nothing_stands_elsewhere(rt: HostRuntime) {
    for path in ["h8.1", "h0.0", "h0.21", "h0"] {
        assert!(rt; !log_is(rt.alloc(), 7, path, 0, "", ""));
    }
}

#[test]
fn the_script_adds_keeps_and_asks(rt: HostRuntime) -> Result<(), Fail> {
    let trial = generate(rt.alloc(), 7)?;
    assert!(rt;
        text_is(
            &trial.script,
            6148,
            SCRIPT_BEGINS,
            "interval h0#1 h7#1\ntime h7#1\n",
        )
    );
    Ok(())
}

// The lines of the first batch, and the first of the second one.
const SCRIPT_BEGINS: &str =
    "add h0 h0.1\nadd h1 h1.1\nadd h2 h2.1\nadd h3 h3.1\nadd h4 h4.1\nadd h5 h5.1\nadd h6 h6.1\nadd h7 h7.1\nkeep h0#1\nkeep h1#1\nkeep h2#1\nkeep h3#1\nkeep h4#1\nkeep h5#1\nkeep h6#1\nkeep h7#1\ninterval h0#1 h1#1\ntime h1#1\ninterval h0#1 h2#1\ntime h2#1\ninterval h0#1 h3#1\ntime h3#1\ninterval h0#1 h4#1\ntime h4#1\ninterval h0#1 h5#1\ntime h5#1\ninterval h0#1 h6#1\ntime h6#1\ninterval h0#1 h7#1\ntime h7#1\nadd h0 h0.2\n";

#[test]
fn the_declaration_names_hosts_logs_and_links(rt: HostRuntime) -> Result<(), Fail> {
    let trial = generate(rt.alloc(), 7)?;
    assert!(rt;
        text_is(
            &trial.declaration,
            4070,
            "source = \"h0\"\n[hosts.h0]\nshort = 0\nlong = 0\nearly = 0\nlate = 50\n[hosts.h1]\nshort = 20000\n",
            "[[links]]\nfrom = \"h7\"\nto = \"h6\"\nleast = 1000\nmost = 100000\n",
        )
    );
    Ok(())
}
