// What the words of a command line ask for.
ghost use Rattle.std.specs.Prelude.{◌≡◌, [], ◌∷◌, Some, None, codes, drop};
ghost use Rattle.std.specs.Str.{bytes_eq};
ghost use Rattle.commands.specs.Asked.{asked_by, asked_few, asked_of, merge_as, seen_request, thin_by, widen_all, widen_clock, widen_link};

use ports::Words;
use problem_commands::what_words::{KindOfClocks, KindOfLinks};

/// What the words of a command line ask for.
#[derive(Clone, Copy)]
pub enum Request<'a> {
    /// `obey PROBLEM EXEC`.
    Obey {
        problem: &'a str,
        exec: &'a str,
    },
    /// `solve PROBLEM`.
    Solve {
        problem: &'a str,
    },
    /// `ends PROBLEM P Q`.
    Ends {
        problem: &'a str,
        first: &'a str,
        second: &'a str,
    },
    /// `verify PROBLEM CERT`.
    Verify {
        problem: &'a str,
        cert: &'a str,
    },
    /// `session DECL`.
    Session {
        decl: &'a str,
    },
    /// `trial N`.
    Trial {
        number: &'a str,
    },
    /// `widen PROBLEM KIND`, and `widen PROBLEM`, which is of greatest delays.
    WidenLinks {
        problem: &'a str,
        kind: KindOfLinks,
    },
    /// `widen PROBLEM KIND`.
    WidenClocks {
        problem: &'a str,
        kind: KindOfClocks,
    },
    /// `widen PROBLEM gaps`.
    WidenGaps {
        problem: &'a str,
    },
    /// `widen PROBLEM KIND FROM TO`.
    WidenLink {
        problem: &'a str,
        kind: KindOfLinks,
        from: &'a str,
        to: &'a str,
    },
    /// `widen PROBLEM KIND CLOCK`.
    WidenClock {
        problem: &'a str,
        kind: KindOfClocks,
        clock: &'a str,
    },
    /// `judge PROBLEM WIDENING`.
    Judge {
        problem: &'a str,
        widening: &'a str,
    },
    /// `blame PROBLEM`.
    Blame {
        problem: &'a str,
    },
    /// `thin PROBLEM P..`, whose words are all that there are.
    Thin {
        problem: &'a str,
        words: &'a Words,
    },
    /// `mergecap DECL`.
    Mergecap {
        decl: &'a str,
    },
    /// `mergecap DECL pcapng`.
    MergeDated {
        decl: &'a str,
    },
    /// `mergecap DECL pcapng EVENT`.
    MergeSince {
        decl: &'a str,
        event: &'a str,
    },
    /// `--help`.
    Help,
    /// `--version`.
    Version,
    /// No form of words.
    Nothing,
}

// What a word alone asks for.
fn asked_alone<'a>(name: &str) -> Request<'a>
    ensures { seen_request result ≡ asked_by name.now [] }
{
    match name {
        "--help" => Request::Help,
        "--version" => Request::Version,
        _ => Request::Nothing,
    }
}

// What `widen` asks for with a kind.
fn widen_all<'a>(problem: &'a str, kind: &str) -> Request<'a>
    ensures { seen_request result ≡ widen_all problem.now kind.now }
{
    match kind {
        "delays" => Request::WidenLinks {
            problem,
            kind: KindOfLinks::Delays,
        },
        "least" => Request::WidenLinks {
            problem,
            kind: KindOfLinks::Least,
        },
        "stamps" => Request::WidenClocks {
            problem,
            kind: KindOfClocks::Stamps,
        },
        "rates" => Request::WidenClocks {
            problem,
            kind: KindOfClocks::Rates,
        },
        "gaps" => Request::WidenGaps { problem },
        _ => Request::Nothing,
    }
}

// What `widen` asks for with a kind and the name of a clock.
fn widen_clock<'a>(problem: &'a str, kind: &str, clock: &'a str) -> Request<'a>
    ensures { seen_request result ≡ widen_clock problem.now kind.now clock.now }
{
    match kind {
        "stamps" => Request::WidenClock {
            problem,
            kind: KindOfClocks::Stamps,
            clock,
        },
        "rates" => Request::WidenClock {
            problem,
            kind: KindOfClocks::Rates,
            clock,
        },
        _ => Request::Nothing,
    }
}

// What `widen` asks for with a kind and the names of two clocks.
fn widen_link<'a>(problem: &'a str, kind: &str, from: &'a str, to: &'a str) -> Request<'a>
    ensures { seen_request result ≡ widen_link problem.now kind.now from.now to.now }
{
    match kind {
        "delays" => Request::WidenLink {
            problem,
            kind: KindOfLinks::Delays,
            from,
            to,
        },
        "least" => Request::WidenLink {
            problem,
            kind: KindOfLinks::Least,
            from,
            to,
        },
        _ => Request::Nothing,
    }
}

// What `mergecap` asks for with a format.
fn merge_as<'a>(decl: &'a str, format: &str) -> Request<'a>
    ensures { seen_request result ≡ merge_as decl.now format.now None }
{
    match format {
        "pcapng" => Request::MergeDated { decl },
        _ => Request::Nothing,
    }
}

// What `mergecap` asks for with a format and the name of an event.
fn merge_since<'a>(decl: &'a str, format: &str, event: &'a str) -> Request<'a>
    ensures { seen_request result ≡ merge_as decl.now format.now (Some event.now) }
{
    match format {
        "pcapng" => Request::MergeSince { decl, event },
        _ => Request::Nothing,
    }
}

// What a word with one more asks for.
fn asked_of_one<'a>(name: &str, first: &'a str) -> Request<'a>
    ensures { seen_request result ≡ asked_by name.now (first.now ∷ []) }
{
    match name {
        "solve" => Request::Solve { problem: first },
        "session" => Request::Session { decl: first },
        "trial" => Request::Trial { number: first },
        "widen" => Request::WidenLinks {
            problem: first,
            kind: KindOfLinks::Delays,
        },
        "blame" => Request::Blame { problem: first },
        "mergecap" => Request::Mergecap { decl: first },
        _ => Request::Nothing,
    }
}

// What a word with two more asks for.
fn asked_of_two<'a>(name: &str, first: &'a str, second: &'a str) -> Request<'a>
    ensures { seen_request result ≡ asked_by name.now (first.now ∷ second.now ∷ []) }
{
    match name {
        "obey" => Request::Obey {
            problem: first,
            exec: second,
        },
        "verify" => Request::Verify {
            problem: first,
            cert: second,
        },
        "judge" => Request::Judge {
            problem: first,
            widening: second,
        },
        "widen" => widen_all(first, second),
        "mergecap" => merge_as(first, second),
        _ => Request::Nothing,
    }
}

// What a word with three more asks for.
fn asked_of_three<'a>(name: &str, first: &'a str, second: &'a str, third: &'a str) -> Request<'a>
    ensures { seen_request result ≡ asked_by name.now (first.now ∷ second.now ∷ third.now ∷ []) }
{
    match name {
        "ends" => Request::Ends {
            problem: first,
            first: second,
            second: third,
        },
        "widen" => widen_clock(first, second, third),
        "mergecap" => merge_since(first, second, third),
        _ => Request::Nothing,
    }
}

// What a word with four more asks for.
fn asked_of_four<'a>(
    name: &str,
    first: &'a str,
    second: &'a str,
    third: &'a str,
    fourth: &'a str,
) -> Request<'a>
    ensures { seen_request result ≡ asked_by name.now (first.now ∷ second.now ∷ third.now ∷ fourth.now ∷ []) }
{
    match name {
        "widen" => widen_link(first, second, third, fourth),
        _ => Request::Nothing,
    }
}

// Whether a word is `thin`.
fn is_thin(word: &str) -> bool
    ensures { result ≡ bytes_eq word.now (codes "thin") }
{
    word == "thin"
}

// What words ask for that do not begin with `thin`.
fn asked_of_few(words: &Words) -> Request<'_>
    ensures { seen_request result ≡ asked_few words.now }
{
    match words.len() {
        1 => asked_alone(words.word(0)),
        2 => asked_of_one(words.word(0), words.word(1)),
        3 => asked_of_two(words.word(0), words.word(1), words.word(2)),
        4 => asked_of_three(words.word(0), words.word(1), words.word(2), words.word(3)),
        5 => asked_of_four(
            words.word(0),
            words.word(1),
            words.word(2),
            words.word(3),
            words.word(4),
        ),
        _ => Request::Nothing,
    }
}

// What words ask for that begin with `thin`.
fn asked_of_thin(words: &Words) -> Request<'_>
    ensures { seen_request result ≡ thin_by (drop 1 words.now) }
{
    if words.len() < 2 {
        return Request::Nothing;
    }
    Request::Thin {
        problem: words.word(1),
        words,
    }
}

/// What these words ask for.
pub fn request_of(words: &Words) -> Request<'_>
    ensures { seen_request result ≡ asked_of words.now }
{
    if words.len() == 0 {
        return Request::Nothing;
    }
    if is_thin(words.word(0)) {
        asked_of_thin(words)
    } else {
        asked_of_few(words)
    }
}
