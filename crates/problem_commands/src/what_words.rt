// What is to be widened, by the words that name it.
ghost use Rattle.std.specs.Prelude.{◌≡◌, [], ◌∷◌, IfSome, IfNone};
ghost use Rattle.problem_model.specs.Problem.{ProblemLists, IsProblem};
ghost use Rattle.widen.specs.Named.{SaysWhat};
ghost use Rattle.widen.specs.NamedWords.{clock_names, link_names, named_words};
ghost use Rattle.problem_commands.specs.WhatWords.{clocks_kind, links_kind, asked_words, SaysNothing};

use cert_check::What;
use problem::Problem;
use problem_model::Name;
use widen::{NamedClocks, NamedLinks, NamedWhat, what_of};

/// Numbers of messages that can be widened.
#[derive(Clone, Copy, Debug)]
pub enum KindOfLinks {
    /// `delays`: greatest delays.
    Delays,
    /// `least`: least delays.
    Least,
}

/// Numbers of clocks that can be widened.
#[derive(Clone, Copy, Debug)]
pub enum KindOfClocks {
    /// `stamps`: how early and how late an event may come.
    Stamps,
    /// `rates`: by how much a rate may be off.
    Rates,
}

/// What is to be widened, by the words that name it. Names are as they were given: none needs to be a clock's.
#[derive(Clone, Copy, Debug)]
pub enum WhatWords<'a> {
    /// Those of all messages.
    Links(KindOfLinks),
    /// Those of all clocks.
    Clocks(KindOfClocks),
    /// `gaps`: those between clocks that follow each other.
    Gaps,
    /// Those of the messages from an event of a clock to one of another.
    Link {
        kind: KindOfLinks,
        from: &'a str,
        to: &'a str,
    },
    /// Those of one clock.
    Clock {
        kind: KindOfClocks,
        clock: &'a str,
    },
}

// What a kind names, of these messages.
fn of_links(kind: KindOfLinks, which: NamedLinks) -> NamedWhat
    ensures { named_words result ≡ links_kind kind ∷ link_names which }
{
    match kind {
        KindOfLinks::Delays => NamedWhat::Delays(which),
        KindOfLinks::Least => NamedWhat::Least(which),
    }
}

// What a kind names, of these clocks.
fn of_clocks(kind: KindOfClocks, which: NamedClocks) -> NamedWhat
    ensures { named_words result ≡ clocks_kind kind ∷ clock_names which }
{
    match kind {
        KindOfClocks::Stamps => NamedWhat::Stamps(which),
        KindOfClocks::Rates => NamedWhat::Rates(which),
    }
}

// What a kind names with the names of two clocks.
fn of_link(kind: KindOfLinks, from: &str, to: &str) -> Option<NamedWhat>
    ensures some { IfSome result (λ n. named_words n ≡ links_kind kind ∷ from.now ∷ to.now ∷ []) }
    ensures none { IfNone result ((p : ProblemLists) → IsProblem p → SaysNothing p (links_kind kind ∷ from.now ∷ to.now ∷ [])) }
{
    match Name::new(from.as_bytes()) {
        Some(from) => match Name::new(to.as_bytes()) {
            Some(to) => Some(of_links(kind, NamedLinks::Between { from, to })),
            None => None,
        },
        None => None,
    }
}

// What a kind names with the name of a clock.
fn of_clock(kind: KindOfClocks, clock: &str) -> Option<NamedWhat>
    ensures some { IfSome result (λ n. named_words n ≡ clocks_kind kind ∷ clock.now ∷ []) }
    ensures none { IfNone result ((p : ProblemLists) → IsProblem p → SaysNothing p (clocks_kind kind ∷ clock.now ∷ [])) }
{
    match Name::new(clock.as_bytes()) {
        Some(clock) => Some(of_clocks(kind, NamedClocks::One(clock))),
        None => None,
    }
}

// What the words name, where each name is spelled as one.
fn named_of(words: &WhatWords) -> Option<NamedWhat>
    ensures some { IfSome result (λ n. named_words n ≡ asked_words words.now) }
    ensures none { IfNone result ((p : ProblemLists) → IsProblem p → SaysNothing p (asked_words words.now)) }
{
    match words {
        WhatWords::Links(kind) => Some(of_links(*kind, NamedLinks::All)),
        WhatWords::Clocks(kind) => Some(of_clocks(*kind, NamedClocks::All)),
        WhatWords::Gaps => Some(NamedWhat::Gaps),
        WhatWords::Link { kind, from, to } => of_link(*kind, from, to),
        WhatWords::Clock { kind, clock } => of_clock(*kind, clock),
    }
}

/// What of the problem the words name; None where a name is no clock's.
pub(crate) fn asked_in(p: &Problem, words: &WhatWords) -> Option<What>
    ensures some { IfSome result (SaysWhat p.now (asked_words words.now)) }
    ensures none { IfNone result (SaysNothing p.now (asked_words words.now)) }
{
    // It tells that the problem is lawful.
    let _ = p.events();
    match named_of(words) {
        Some(named) => what_of(p, named),
        None => None,
    }
}
