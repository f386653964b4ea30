// What is widened, by the names of clocks.
ghost use Rattle.std.specs.Prelude.{◌≡◌, ◌≤◌, ◌+◌, ◌++◌, [], ◌∷◌, ℕ, List, length, IfSome, IfNone};
ghost use Rattle.std.specs.Option.{SomeIff};
ghost use Rattle.line_format.specs.Words.{words};
ghost use Rattle.ports.specs.Room.{HasRoomBehind};
ghost use Rattle.problem_model.specs.Name.{IsClockName};
ghost use Rattle.cert_check.specs.declared.what.Clocks.{Clocks};
ghost use Rattle.cert_check.specs.declared.what.Links.{Links};
ghost use Rattle.cert_check.specs.declared.what.What.{What};
ghost use Rattle.widen.specs.Named.{NamesClocks, NamesLinks, NamesWhat, clocks_words, links_words, what_words, stated_words, SaysWhat, IsKindOfClocks, AreStated};
ghost use Rattle.widen.specs.NamedWords.{clock_names, link_names, named_words, stated_named};

use cert::push_clock;
use cert_check::{Clocks, Links, What};
use line_format::cut;
use ports::fixed_line::{Line, push_word};
use problem::Problem;
use problem_model::Name;

/// Clocks of a problem by their names.
#[derive(Clone, Copy, Debug)]
pub enum NamedClocks {
    /// All of them.
    All,
    /// The one of this name.
    One(Name),
}

/// Messages of a problem by the names of the clocks of their events.
#[derive(Clone, Copy, Debug)]
pub enum NamedLinks {
    /// All of them.
    All,
    /// Those from an event of the first clock to one of the second.
    Between { from: Name, to: Name },
}

/// What of a problem is widened, by the names of its clocks. Each is one of `What`.
#[derive(Clone, Copy, Debug)]
pub enum NamedWhat {
    /// Greatest delays of messages.
    Delays(NamedLinks),
    /// Least delays of messages.
    Least(NamedLinks),
    /// How early and how late an event may come.
    Stamps(NamedClocks),
    /// By how much rates may be off.
    Rates(NamedClocks),
    /// Gaps between clocks that follow each other, all of them.
    Gaps,
}

// The clocks that are meant.
fn clocks_of(p: &Problem, which: NamedClocks) -> Option<Clocks>
    ensures some { IfSome result (λ clocks. NamesClocks p.now clocks × (clock_names which ≡ clocks_words p.now clocks)) }
    ensures none { IfNone result ((clocks : Clocks) → NamesClocks p.now clocks → clock_names which ≡ clocks_words p.now clocks → ⊥) }
{
    match which {
        NamedClocks::All => Some(Clocks::All),
        NamedClocks::One(name) => match p.clock_place(&name) {
            Some(clock) => Some(Clocks::One(clock)),
            None => None,
        },
    }
}

// The messages between the clocks of two names.
fn link_of(p: &Problem, from: &Name, to: &Name) -> Option<Links>
    ensures some { IfSome result (λ links. NamesLinks p.now links × (from.now ∷ to.now ∷ [] ≡ links_words p.now links)) }
    ensures none { IfNone result ((links : Links) → NamesLinks p.now links → from.now ∷ to.now ∷ [] ≡ links_words p.now links → ⊥) }
{
    let Some(from) = p.clock_place(from) else {
        return None;
    };
    let Some(to) = p.clock_place(to) else {
        return None;
    };
    Some(Links::Between { from, to })
}

// The messages that are meant.
fn links_of(p: &Problem, which: NamedLinks) -> Option<Links>
    ensures some { IfSome result (λ links. NamesLinks p.now links × (link_names which ≡ links_words p.now links)) }
    ensures none { IfNone result ((links : Links) → NamesLinks p.now links → link_names which ≡ links_words p.now links → ⊥) }
{
    match which {
        NamedLinks::All => Some(Links::All),
        NamedLinks::Between { from, to } => link_of(p, &from, &to),
    }
}

/// What of the problem is meant; None where a name is that of no clock.
pub fn what_of(p: &Problem, named: NamedWhat) -> Option<What>
    ensures some { IfSome result (SaysWhat p.now (named_words named)) }
    ensures none { IfNone result ((what : What) → SaysWhat p.now (named_words named) what → ⊥) }
{
    match named {
        NamedWhat::Delays(which) => match links_of(p, which) {
            Some(links) => Some(What::Delays(links)),
            None => None,
        },
        NamedWhat::Least(which) => match links_of(p, which) {
            Some(links) => Some(What::Least(links)),
            None => None,
        },
        NamedWhat::Stamps(which) => match clocks_of(p, which) {
            Some(clocks) => Some(What::Stamps(clocks)),
            None => None,
        },
        NamedWhat::Rates(which) => match clocks_of(p, which) {
            Some(clocks) => Some(What::Rates(clocks)),
            None => None,
        },
        NamedWhat::Gaps => Some(What::Gaps),
    }
}

// The clock's name that a word is.
fn clock_name(word: &[u8]) -> Option<Name>
    ensures { SomeIff result (IsClockName word.now) word.now }
{
    let name = Name::new(word)?;
    if name.is_short() { Some(name) } else { None }
}

// What a kind of clocks names, with these clocks.
fn kind_of_clocks(kind: &[u8], which: NamedClocks) -> Option<NamedWhat>
    ensures some { IfSome result (λ n. IsKindOfClocks kind.now × (stated_named n ≡ kind.now ∷ clock_names which)) }
    ensures none { IfNone result (IsKindOfClocks kind.now → ⊥) }
{
    if kind == b"stamps".as_slice() {
        return Some(NamedWhat::Stamps(which));
    }
    if kind == b"rates".as_slice() {
        return Some(NamedWhat::Rates(which));
    }
    None
}

// What a kind alone names.
fn kind_alone(kind: &[u8]) -> Option<NamedWhat>
    ensures some { IfSome result (λ n. AreStated (kind.now ∷ []) × (stated_named n ≡ kind.now ∷ [])) }
    ensures none { IfNone result (AreStated (kind.now ∷ []) → ⊥) }
{
    if kind == b"least".as_slice() {
        return Some(NamedWhat::Least(NamedLinks::All));
    }
    if kind == b"gaps".as_slice() {
        return Some(NamedWhat::Gaps);
    }
    kind_of_clocks(kind, NamedClocks::All)
}

// What a kind names with the name of a clock.
fn kind_and_clock(kind: &[u8], clock: &[u8]) -> Option<NamedWhat>
    ensures some { IfSome result (λ n. AreStated (kind.now ∷ clock.now ∷ []) × (stated_named n ≡ kind.now ∷ clock.now ∷ [])) }
    ensures none { IfNone result (AreStated (kind.now ∷ clock.now ∷ []) → ⊥) }
{
    match clock_name(clock) {
        Some(clock) => kind_of_clocks(kind, NamedClocks::One(clock)),
        None => None,
    }
}

// What a kind names with the names of two clocks.
fn kind_and_link(kind: &[u8], from: &[u8], to: &[u8]) -> Option<NamedWhat>
    ensures some { IfSome result (λ n. AreStated (kind.now ∷ from.now ∷ to.now ∷ []) × (stated_named n ≡ kind.now ∷ from.now ∷ to.now ∷ [])) }
    ensures none { IfNone result (AreStated (kind.now ∷ from.now ∷ to.now ∷ []) → ⊥) }
{
    let Some(from) = clock_name(from) else {
        return None;
    };
    let Some(to) = clock_name(to) else {
        return None;
    };
    if kind == b"delays".as_slice() {
        return Some(NamedWhat::Delays(NamedLinks::Between { from, to }));
    }
    if kind == b"least".as_slice() {
        return Some(NamedWhat::Least(NamedLinks::Between { from, to }));
    }
    None
}

// What a kind names with the names behind it.
fn kind_and_names(kind: &[u8], names: &[u8]) -> Option<NamedWhat>
    ensures some { IfSome result (λ n. (first : List ℕ) × (more : List (List ℕ)) × AreStated (kind.now ∷ first ∷ more) × (stated_named n ≡ kind.now ∷ first ∷ more) × (names.now ≡ words (first ∷ more))) }
    ensures none { IfNone result ((first : List ℕ) (more : List (List ℕ)) → AreStated (kind.now ∷ first ∷ more) → names.now ≡ words (first ∷ more) → ⊥) }
{
    match cut(b' ', names) {
        Some((from, to)) => kind_and_link(kind, from, to),
        None => kind_and_clock(kind, names),
    }
}

/// What the words on the line of a widening name, of which there are some: a kind, and the names of one clock or of two.
pub(crate) fn named_by(body: &[u8]) -> Option<NamedWhat>
    ensures some { IfSome result (λ n. (kind : List ℕ) × (names : List (List ℕ)) × AreStated (kind ∷ names) × (stated_named n ≡ kind ∷ names) × (body.now ≡ words (kind ∷ names))) }
    ensures none { IfNone result ((kind : List ℕ) (names : List (List ℕ)) → AreStated (kind ∷ names) → body.now ≡ words (kind ∷ names) → ⊥) }
{
    match cut(b' ', body) {
        Some((kind, names)) => kind_and_names(kind, names),
        None => kind_alone(body),
    }
}

// Appends a word and the clock that is meant, where one is.
fn push_clocks(line: &mut Line, p: &Problem, kind: &[u8], which: Clocks)
    requires kind { length kind.now ≤ 48 }
    requires named { NamesClocks p.now which }
    requires room { HasRoomBehind line.old.items 147 }
    ensures appended { (first : List ℕ) (ws : List (List ℕ)) → line.old.items ≡ words (first ∷ ws) → line.new.items ≡ words (first ∷ ws ++ kind.now ∷ clocks_words p.now which) }
    ensures grown { length line.new.items ≤ length line.old.items + 147 }
{
    push_word(line, kind);
    if let Clocks::One(clock) = which {
        push_clock(line, p, clock);
    }
}

// Appends a word and the clocks of the link that is meant, where one is.
fn push_links(line: &mut Line, p: &Problem, kind: &[u8], which: Links)
    requires kind { length kind.now ≤ 48 }
    requires named { NamesLinks p.now which }
    requires room { HasRoomBehind line.old.items 147 }
    ensures appended { (first : List ℕ) (ws : List (List ℕ)) → line.old.items ≡ words (first ∷ ws) → line.new.items ≡ words (first ∷ ws ++ kind.now ∷ links_words p.now which) }
    ensures grown { length line.new.items ≤ length line.old.items + 147 }
{
    push_word(line, kind);
    if let Links::Between { from, to } = which {
        push_clock(line, p, from);
        push_clock(line, p, to);
    }
}

/// Appends the words that name what is widened.
pub fn push_what(line: &mut Line, p: &Problem, what: What)
    requires named { NamesWhat p.now what }
    requires room { HasRoomBehind line.old.items 147 }
    ensures appended { (first : List ℕ) (ws : List (List ℕ)) → line.old.items ≡ words (first ∷ ws) → line.new.items ≡ words (first ∷ ws ++ what_words p.now what) }
    ensures grown { length line.new.items ≤ length line.old.items + 147 }
{
    match what {
        What::Delays(which) => push_links(line, p, b"delays", which),
        What::Least(which) => push_links(line, p, b"least", which),
        What::Stamps(which) => push_clocks(line, p, b"stamps", which),
        What::Rates(which) => push_clocks(line, p, b"rates", which),
        What::Gaps => push_word(line, b"gaps"),
    }
}

/// Appends the words on the line of a widening that name what is widened: none where that is all greatest delays.
pub(crate) fn push_stated(line: &mut Line, p: &Problem, what: What)
    requires named { NamesWhat p.now what }
    requires room { HasRoomBehind line.old.items 147 }
    ensures appended { (first : List ℕ) (ws : List (List ℕ)) → line.old.items ≡ words (first ∷ ws) → line.new.items ≡ words (first ∷ ws ++ stated_words p.now what) }
    ensures grown { length line.new.items ≤ length line.old.items + 147 }
{
    match what {
        What::Delays(Links::All) => {}
        What::Delays(Links::Between { .. }) => push_what(line, p, what),
        What::Least(_) => push_what(line, p, what),
        What::Stamps(_) => push_what(line, p, what),
        What::Rates(_) => push_what(line, p, what),
        What::Gaps => push_what(line, p, what),
    }
}
