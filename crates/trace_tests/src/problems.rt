// Worked logs and the problems that they make.
ghost use Rattle.decl.specs.Declaration.{IsDeclaration, declaration_of};

use crate::fixtures::{declared, logs_of};
use decl::Decl;
use problem::{Problem, read_problem};
use problem_model::{MOST_EVENTS, Name};
use reference_traces::{messages_in, problem_of};
use std::alloc::Global;
use std::test::*;
use traces::{Accepted, event_count, event_name};

// Label p at the host b, q and r at the host a. From a to b a message takes 10 to 20 ns, from b to a at least 5, and from a
// to a 1 or 2.
const DECLARATION: &str =
    "[hosts.a]\nshort = 10\nlong = 20\nearly = 1\nlate = 2\n[hosts.b]\nearly = 3\nlate = 5\n\
    [labels.p]\nhost = \"b\"\nkind = \"log\"\n[labels.q]\nhost = \"a\"\nkind = \"log\"\n[labels.r]\nhost = \"a\"\nkind = \"log\"\n\
    [[links]]\nfrom = \"a\"\nto = \"b\"\nleast = 10\nmost = 20\n[[links]]\nfrom = \"b\"\nto = \"a\"\nleast = 5\n\
    [[links]]\nfrom = \"a\"\nto = \"a\"\nleast = 1\nmost = 2\n";

// The logs of the three labels, and the problem that they make.
const CASES: [([&str; 3], &str); 6] = [
    (
        ["", "\n", ""],
        "problem 1\nclock a 10 20 1 2\nclock b 0 0 3 5\nend\n",
    ),
    (
        ["250,receive,m,\n", "5,send,m,x\n", ""],
        "problem 1\nclock a 10 20 1 2\nclock b 0 0 3 5\nevent p#1 b 250\nevent q#1 a 5\nmessage q#1 p#1 10 20\nend\n",
    ),
    (
        ["9,send,k,\n7,receive,j,\n", "", "1,receive,k,\n2,send,j,\n"],
        "problem 1\nclock a 10 20 1 2\nclock b 0 0 3 5\nevent p#1 b 9\nevent p#2 b 7\nevent r#1 a 1\nevent r#2 a 2\n\
        message p#1 r#1 5 none\nmessage r#2 p#2 10 20\nend\n",
    ),
    (
        [
            "5,send,z,\n6,receive,z,\n",
            "1,send,x,\n2,send,y,\n",
            "3,receive,y,\n4,receive,x,\n",
        ],
        "problem 1\nclock a 10 20 1 2\nclock b 0 0 3 5\nevent p#1 b 5\nevent p#2 b 6\nevent q#1 a 1\nevent q#2 a 2\n\
        event r#1 a 3\nevent r#2 a 4\nmessage p#1 p#2 0 none\nmessage q#1 r#2 1 2\nmessage q#2 r#1 1 2\nend\n",
    ),
    (
        [
            "1,send,m,\n1,local,,note\n",
            "2,send,m,\n3,receive,n,\n",
            "4,receive,m,\n0,send,n,\n3,receive,n,\n",
        ],
        "problem 1\nclock a 10 20 1 2\nclock b 0 0 3 5\nevent p#1 b 1\nevent p#2 b 1\nevent q#1 a 2\nevent q#2 a 3\n\
        event r#1 a 4\nevent r#2 a 0\nevent r#3 a 3\nend\n",
    ),
    (
        [
            "4611686018427387903,receive,m,\n",
            "0,local,,\n0,local,,\n0,local,,\n0,local,,\n0,local,,\n0,local,,\n0,local,,\n0,local,,\n0,local,,\n8,send,m,\n",
            "",
        ],
        "problem 1\nclock a 10 20 1 2\nclock b 0 0 3 5\nevent p#1 b 4611686018427387903\nevent q#1 a 0\nevent q#2 a 0\n\
        event q#3 a 0\nevent q#4 a 0\nevent q#5 a 0\nevent q#6 a 0\nevent q#7 a 0\nevent q#8 a 0\nevent q#9 a 0\n\
        event q#10 a 8\nmessage q#10 p#1 10 20\nend\n",
    ),
];

// The same labels: p at the host b, which has two clocks, on its first one; q on the last clock of the host a, which
// comes back to the first one's numbers, and r on its second one. Nothing is on the first clock of a.
const STEPPED_DECLARATION: &str = "[hosts.a]\nshort = 10\nlong = 20\nearly = 1\nlate = 2\n\
    clocks = [{ name = \"z\", gap = 9 }, { name = \"a\", short = 0 }, { name = \"y\", gap = 7 }]\n\
    [hosts.b]\nclocks = [{ name = \"b\" }, { name = \"c\", gap = 4611686018427387903 }]\n\
    [labels.p]\nhost = \"b\"\nkind = \"log\"\n[labels.q]\nhost = \"a\"\nkind = \"log\"\nclock = \"y\"\n\
    [labels.r]\nhost = \"a\"\nkind = \"log\"\nclock = \"a\"\n\
    [[links]]\nfrom = \"a\"\nto = \"b\"\nleast = 10\nmost = 20\n[[links]]\nfrom = \"a\"\nto = \"a\"\nleast = 1\nmost = 2\n";

// Each two neighbouring clocks of a host follow each other, events stand on the clocks of their labels, and the bounds
// of messages are those of hosts, whichever their clocks are.
const STEPPED: [([&str; 3], &str); 2] = [
    (
        ["", "", ""],
        "problem 2\nclock z 10 20 1 2\nclock a 0 20 1 2\nclock y 10 20 1 2\nclock b 0 0 0 0\nclock c 0 0 0 0\n\
        follow z a 0\nfollow a y 7\nfollow b c 4611686018427387903\nend\n",
    ),
    (
        [
            "250,receive,m,\n",
            "5,send,m,\n6,receive,k,\n",
            "7,send,k,\n",
        ],
        "problem 2\nclock z 10 20 1 2\nclock a 0 20 1 2\nclock y 10 20 1 2\nclock b 0 0 0 0\nclock c 0 0 0 0\n\
        follow z a 0\nfollow a y 7\nfollow b c 4611686018427387903\nevent p#1 b 250\nevent q#1 y 5\nevent q#2 y 6\n\
        event r#1 a 7\nmessage q#1 p#1 10 20\nmessage r#1 q#2 1 2\nend\n",
    ),
];

// The same labels, of which two give a bound of their own stamps each, so that each event has both. The host b has two
// clocks.
const BOUNDED_DECLARATION: &str = "[hosts.a]\nshort = 10\nlong = 20\nearly = 1\nlate = 2\n\
    [hosts.b]\nclocks = [{ name = \"b\", late = 5 }, { name = \"c\", gap = 4 }]\n\
    [labels.p]\nhost = \"b\"\nkind = \"log\"\n[labels.q]\nhost = \"a\"\nkind = \"log\"\nlate = 1000\n\
    [labels.r]\nhost = \"a\"\nkind = \"log\"\nearly = 0\n[[links]]\nfrom = \"a\"\nto = \"b\"\nleast = 10\nmost = 20\n";

const BOUNDED: [([&str; 3], &str); 2] = [
    (
        ["", "", ""],
        "problem 2\nclock a 10 20 1 2\nclock b 0 0 0 5\nclock c 0 0 0 0\nfollow b c 4\nend\n",
    ),
    (
        ["250,receive,m,\n", "5,send,m,\n", "7,local,,\n8,local,,\n"],
        "problem 3\nclock a 10 20 1 2\nclock b 0 0 0 5\nclock c 0 0 0 0\nfollow b c 4\nevent p#1 b 250 0 5\n\
        event q#1 a 5 1 1000\nevent r#1 a 7 0 2\nevent r#2 a 8 0 2\nmessage q#1 p#1 10 20\nend\n",
    ),
];

// The problem that these logs make.
fn made(alloc: Global, decl: &Decl, logs: &[Accepted]) -> Option<Problem>
    requires { IsDeclaration (declaration_of decl.now) }
{
    if logs.len() > 65536
        || logs.len() != decl.labels.len()
        || event_count(logs) > MOST_EVENTS as u64
    {
        return None;
    }
    let messages = messages_in(alloc, logs).ok()?;
    problem_of(alloc, decl, logs, &messages).ok()
}

fn made_of(alloc: Global, declaration: &str, texts: &[&str; 3]) -> Option<Problem> {
    let decl = declared(alloc, declaration)?;
    let logs = logs_of(alloc, &decl, texts).ok()?;
    made(alloc, &decl, &logs)
}

fn are_same(a: &Problem, b: &Problem) -> bool {
    a.clocks() == b.clocks()
        && a.follows() == b.follows()
        && a.events() == b.events()
        && a.messages() == b.messages()
}

// Whether a text is read as this problem.
fn reads_as(alloc: Global, text: &str, problem: &Problem) -> bool {
    match read_problem(alloc, text.as_bytes()) {
        Ok(read) => are_same(&read, problem),
        Err(_) => false,
    }
}

fn makes(alloc: Global, declaration: &str, texts: &[&str; 3], wanted: &str) -> bool {
    match made_of(alloc, declaration, texts) {
        Some(problem) => reads_as(alloc, wanted, &problem),
        None => false,
    }
}

#[test]
fn problems(rt: HostRuntime) {
    for (texts, wanted) in &CASES {
        assert!(rt; makes(rt.alloc(), DECLARATION, texts, wanted), "{wanted}");
    }
}

#[test]
fn problems_of_several_clocks(rt: HostRuntime) {
    for (texts, wanted) in &STEPPED {
        assert!(rt;
            makes(rt.alloc(), STEPPED_DECLARATION, texts, wanted),
            "{wanted}"
        );
    }
}

#[test]
fn problems_of_labels_with_bounds(rt: HostRuntime) {
    for (texts, wanted) in &BOUNDED {
        assert!(rt;
            makes(rt.alloc(), BOUNDED_DECLARATION, texts, wanted),
            "{wanted}"
        );
    }
}

fn is_named(label: &str, number: u32, wanted: &str) -> bool {
    let Some(label) = Name::new(label.as_bytes()) else {
        return false;
    };
    if !label.is_short() {
        return false;
    }
    event_name(&label, number).bytes() == wanted.as_bytes()
}

#[test]
fn names(rt: HostRuntime) {
    let cases = [
        ("a", 1, "a#1"),
        ("A.b_c-9", 10, "A.b_c-9#10"),
        ("0", 0, "0#0"),
        (
            "a123456789b123456789c123456789d1",
            4_294_967_295,
            "a123456789b123456789c123456789d1#4294967295",
        ),
    ];
    for (label, number, wanted) in &cases {
        assert!(rt; is_named(label, *number, wanted), "{wanted}");
    }
}
