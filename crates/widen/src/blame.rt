// Tells by how much each candidate must be widened, so that it heals a contradiction by itself.
ghost use Rattle.std.specs.Prelude.{◌≡◌, ◌↔◌, ◌≤◌, ◌<◌, ◌+◌, ◌++◌, [], ◌∷◌, ℕ, List, length, All, Option, Some, IfOk, IfSome, OnOk, true};
ghost use Rattle.line_format.specs.Words.{words};
ghost use Rattle.ports.specs.Room.{HasRoomBehind};
ghost use Rattle.problem_model.specs.Problem.{ProblemLists};
ghost use Rattle.problem_graph.specs.HeldBounds.{HoldsShortList};
ghost use Rattle.solver.specs.Current.{IsCurrent};
ghost use Rattle.cert_check.specs.declared.what.Clocks.TheVariants as clocks;
ghost use Rattle.cert_check.specs.declared.what.What.{What};
ghost use Rattle.cert_check.specs.declared.what.Links.TheVariants as links;
ghost use Rattle.cert_check.specs.declared.what.What.TheVariants.{Delays, Rates};
ghost use Rattle.widen.specs.Named.{NamesWhat};
ghost use Rattle.widen.specs.Search.{IsCycleOf};
ghost use Rattle.widen.specs.Blame.{other_kinds, clock_candidates, link_candidates, links_of, gap_candidates, single_candidates, candidates, unit_of, healing_words, blame_line, IsHealing, Blames, IsBlamedUpTo, IsBlameText};

use crate::healing::least_healing;
use crate::links::links_of;
use crate::named::push_what;
use crate::shared_cycles::share;
use atto::{Nano, Steps};
use cert::Chain;
use cert_check::{Clocks, Links, What};
use ports::fixed_line::{Line, first_word, push_decimal, push_word};
use problem::Problem;
use problem_solver::solve;
use solver::Solver;
use std::alloc::{AllocError, Global};
use std::sync::ledger::Ledger;

// What a widening of it is counted in.
fn unit_of(what: What) -> &'static [u8]
    ensures word { result.now ≡ unit_of what }
    ensures short { length result.now ≤ 48 }
{
    match what {
        What::Rates(_) => b"ppb",
        What::Delays(_) => b"ns",
        What::Least(_) => b"ns",
        What::Stamps(_) => b"ns",
        What::Gaps => b"ns",
    }
}

// Appends by how much it is widened, or that nothing heals.
fn push_healing(line: &mut Line, what: What, extra: Option<Nano>)
    requires { HasRoomBehind line.old.items 98 }
    ensures appended { (first : List ℕ) (ws : List (List ℕ)) → line.old.items ≡ words (first ∷ ws) → line.new.items ≡ words (first ∷ ws ++ healing_words what extra) }
    ensures grown { length line.new.items ≤ length line.old.items + 98 }
{
    match extra {
        Some(extra) => {
            push_decimal(line, extra.get());
            push_word(line, unit_of(what));
        }
        None => push_word(line, b"none"),
    }
}

// The line of a candidate.
fn blame_line(p: &Problem, what: What, extra: Option<Nano>) -> Line
    requires { NamesWhat p.now what }
    ensures { result.items ≡ blame_line p.now what extra }
{
    let mut line = first_word(b"blame");
    push_what(&mut line, p, what);
    push_healing(&mut line, what, extra);
    line.push(b'\n');
    line
}

// The lines so far, and contradictions that were found on the way.
#[derive(Drop)]
struct Lines {
    text: Vec<u8>,
    cycles: Vec<Chain>,
}

// Appends the line of a candidate.
fn add_line(
    lines: &mut Lines,
    p: &Problem,
    what: What,
    extra: Option<Nano>,
) -> Result<(), AllocError>
    requires named { NamesWhat p.now what }
    requires healing { IsHealing p.now what extra }
    ensures lines { OnOk result ((rest : List What) → IsBlamedUpTo p.now (what ∷ rest) lines.old.text.items → IsBlamedUpTo p.now rest lines.new.text.items) }
    ensures cycles { lines.new.cycles.items ≡ lines.old.cycles.items }
{
    let line = blame_line(p, what, extra);
    lines.text.extend_from_slice(line.as_slice())?;
    Ok(())
}

// The least widening of a candidate, by what the solver of the problem holds. The contradiction of it is kept.
fn find<L: Ledger>(
    alloc: Global,
    lines: &mut Lines,
    p: &Problem,
    what: What,
    s: &Solver,
    steps: &mut Steps<L>,
) -> Result<Option<Nano>, AllocError>
    requires current { IsCurrent s.now }
    requires graph { HoldsShortList p.now s.now.graph }
    requires cycles { All (IsCycleOf p.now) lines.old.cycles.items }
    ensures healing { IfOk result (IsHealing p.now what) }
    ensures text { lines.new.text.items ≡ lines.old.text.items }
    ensures cycles { OnOk result (All (IsCycleOf p.now) lines.new.cycles.items) }
{
    let found = least_healing(alloc, p, what, s, &lines.cycles, steps)?;
    share(&mut lines.cycles, found.cycle)?;
    Ok(found.extra)
}

// Appends the line of a candidate, by what the solver of the problem holds.
fn add_found<L: Ledger>(
    alloc: Global,
    lines: &mut Lines,
    p: &Problem,
    what: What,
    s: &Solver,
    steps: &mut Steps<L>,
) -> Result<(), AllocError>
    requires named { NamesWhat p.now what }
    requires current { IsCurrent s.now }
    requires graph { HoldsShortList p.now s.now.graph }
    requires cycles { All (IsCycleOf p.now) lines.old.cycles.items }
    ensures lines { OnOk result ((rest : List What) → IsBlamedUpTo p.now (what ∷ rest) lines.old.text.items → IsBlamedUpTo p.now rest lines.new.text.items) }
    ensures cycles { OnOk result (All (IsCycleOf p.now) lines.new.cycles.items) }
{
    let extra = find(alloc, lines, p, what, s, steps)?;
    add_line(lines, p, what, extra)?;
    Ok(())
}

// Appends the line of all gaps, where a clock follows another one.
fn add_gaps<L: Ledger>(
    alloc: Global,
    lines: &mut Lines,
    p: &Problem,
    s: &Solver,
    steps: &mut Steps<L>,
) -> Result<(), AllocError>
    requires current { IsCurrent s.now }
    requires graph { HoldsShortList p.now s.now.graph }
    requires cycles { All (IsCycleOf p.now) lines.old.cycles.items }
    ensures lines { OnOk result ((rest : List What) → IsBlamedUpTo p.now (gap_candidates p.now.follows ++ rest) lines.old.text.items → IsBlamedUpTo p.now rest lines.new.text.items) }
    ensures cycles { OnOk result (All (IsCycleOf p.now) lines.new.cycles.items) }
{
    if p.follows().is_empty() {
        return Ok(());
    }
    add_found(alloc, lines, p, What::Gaps, s, steps)?;
    Ok(())
}

// Appends the lines of all least delays, all stamps, all rates, whose least widening is known, and all gaps.
fn add_kinds<L: Ledger>(
    alloc: Global,
    lines: &mut Lines,
    p: &Problem,
    s: &Solver,
    rates: Option<Nano>,
    steps: &mut Steps<L>,
) -> Result<(), AllocError>
    requires current { IsCurrent s.now }
    requires graph { HoldsShortList p.now s.now.graph }
    requires rates { IsHealing p.now (Rates clocks.All) rates }
    requires cycles { All (IsCycleOf p.now) lines.old.cycles.items }
    ensures lines { OnOk result (IsBlamedUpTo p.now (other_kinds p.now) lines.old.text.items → IsBlamedUpTo p.now (single_candidates p.now) lines.new.text.items) }
    ensures cycles { OnOk result (All (IsCycleOf p.now) lines.new.cycles.items) }
{
    add_found(alloc, lines, p, What::Least(Links::All), s, steps)?;
    add_found(alloc, lines, p, What::Stamps(Clocks::All), s, steps)?;
    add_line(lines, p, What::Rates(Clocks::All), rates)?;
    add_gaps(alloc, lines, p, s, steps)?;
    Ok(())
}

// Appends the lines of the stamps and the rate of each clock.
fn add_clocks<L: Ledger>(
    alloc: Global,
    lines: &mut Lines,
    p: &Problem,
    s: &Solver,
    steps: &mut Steps<L>,
) -> Result<(), AllocError>
    requires current { IsCurrent s.now }
    requires graph { HoldsShortList p.now s.now.graph }
    requires cycles { All (IsCycleOf p.now) lines.old.cycles.items }
    ensures lines { OnOk result ((rest : List What) → IsBlamedUpTo p.now (clock_candidates 0 p.now.clocks ++ rest) lines.old.text.items → IsBlamedUpTo p.now rest lines.new.text.items) }
    ensures cycles { OnOk result (All (IsCycleOf p.now) lines.new.cycles.items) }
{
    for place in 0..p.clocks().len() as u32 {
        add_found(alloc, lines, p, What::Stamps(Clocks::One(place)), s, steps)?;
        add_found(alloc, lines, p, What::Rates(Clocks::One(place)), s, steps)?;
    }
    Ok(())
}

// Appends the lines of the greatest and the least delays of a link.
fn add_link<L: Ledger>(
    alloc: Global,
    lines: &mut Lines,
    p: &Problem,
    link: &(u32, u32),
    s: &Solver,
    steps: &mut Steps<L>,
) -> Result<(), AllocError>
    requires from { link.now.0 < length p.now.clocks }
    requires to { link.now.1 < length p.now.clocks }
    requires current { IsCurrent s.now }
    requires graph { HoldsShortList p.now s.now.graph }
    requires cycles { All (IsCycleOf p.now) lines.old.cycles.items }
    ensures lines { OnOk result ((rest : List What) → IsBlamedUpTo p.now (link_candidates (link.now ∷ []) ++ rest) lines.old.text.items → IsBlamedUpTo p.now rest lines.new.text.items) }
    ensures cycles { OnOk result (All (IsCycleOf p.now) lines.new.cycles.items) }
{
    let (from, to) = *link;
    add_found(
        alloc,
        lines,
        p,
        What::Delays(Links::Between { from, to }),
        s,
        steps,
    )?;
    add_found(
        alloc,
        lines,
        p,
        What::Least(Links::Between { from, to }),
        s,
        steps,
    )?;
    Ok(())
}

// Appends the lines of the delays of each link.
fn add_links<L: Ledger>(
    alloc: Global,
    lines: &mut Lines,
    p: &Problem,
    links: &[(u32, u32)],
    s: &Solver,
    steps: &mut Steps<L>,
) -> Result<(), AllocError>
    requires named { All (λ l. (l.0 < length p.now.clocks) × (l.1 < length p.now.clocks)) links.now }
    requires current { IsCurrent s.now }
    requires graph { HoldsShortList p.now s.now.graph }
    requires cycles { All (IsCycleOf p.now) lines.old.cycles.items }
    ensures lines { OnOk result (IsBlamedUpTo p.now (link_candidates links.now) lines.old.text.items → IsBlamedUpTo p.now [] lines.new.text.items) }
    ensures cycles { OnOk result (All (IsCycleOf p.now) lines.new.cycles.items) }
{
    for link in links {
        add_link(alloc, lines, p, link, s, steps)?;
    }
    Ok(())
}

// Whether nothing needs to be widened.
fn heals_by_none(extra: &Option<Nano>) -> bool
    ensures { result ≡ true ↔ extra.now ≡ Some 0 }
{
    match extra {
        Some(extra) => extra.get() == 0,
        None => false,
    }
}

// Appends the lines of all candidates but all greatest delays.
fn add_others<L: Ledger>(
    alloc: Global,
    lines: &mut Lines,
    p: &Problem,
    s: &Solver,
    rates: Option<Nano>,
    steps: &mut Steps<L>,
) -> Result<(), AllocError>
    requires current { IsCurrent s.now }
    requires graph { HoldsShortList p.now s.now.graph }
    requires rates { IsHealing p.now (Rates clocks.All) rates }
    requires cycles { All (IsCycleOf p.now) lines.old.cycles.items }
    ensures lines { OnOk result (IsBlamedUpTo p.now (other_kinds p.now) lines.old.text.items → IsBlamedUpTo p.now [] lines.new.text.items) }
    ensures cycles { OnOk result (All (IsCycleOf p.now) lines.new.cycles.items) }
{
    let links = links_of(alloc, p)?;
    add_kinds(alloc, lines, p, s, rates, steps)?;
    add_clocks(alloc, lines, p, s, steps)?;
    add_links(alloc, lines, p, &links, s, steps)?;
    Ok(())
}

// The lines of all candidates and the end, where the least widening of all greatest delays is known.
fn add_all<L: Ledger>(
    alloc: Global,
    lines: &mut Lines,
    p: &Problem,
    s: &Solver,
    delays: Option<Nano>,
    steps: &mut Steps<L>,
) -> Result<(), AllocError>
    requires current { IsCurrent s.now }
    requires graph { HoldsShortList p.now s.now.graph }
    requires delays { IsHealing p.now (Delays links.All) delays }
    requires cycles { All (IsCycleOf p.now) lines.old.cycles.items }
    requires empty { lines.old.text.items ≡ [] }
    ensures { OnOk result (Blames p.now (candidates p.now) lines.new.text.items) }
{
    add_line(lines, p, What::Delays(Links::All), delays)?;
    // The contradiction of rates is mostly near that of stamps, and is found after few others.
    let rates = find(alloc, lines, p, What::Rates(Clocks::All), s, steps)?;
    add_others(alloc, lines, p, s, rates, steps)?;
    lines.text.extend_from_slice(b"end\n")?;
    Ok(())
}

// Writes the text of a problem, by what its solver holds.
fn write_text<L: Ledger>(
    alloc: Global,
    lines: &mut Lines,
    p: &Problem,
    s: &Solver,
    steps: &mut Steps<L>,
) -> Result<(), AllocError>
    requires current { IsCurrent s.now }
    requires graph { HoldsShortList p.now s.now.graph }
    requires cycles { All (IsCycleOf p.now) lines.old.cycles.items }
    requires empty { lines.old.text.items ≡ [] }
    ensures { OnOk result (IsBlameText p.now lines.new.text.items) }
{
    let delays = find(alloc, lines, p, What::Delays(Links::All), s, steps)?;
    if heals_by_none(&delays) {
        lines.text.extend_from_slice(b"blame none\n")?;
        return Ok(());
    }
    add_all(alloc, lines, p, s, delays, steps)?;
    Ok(())
}

// The text of a problem, by what its solver holds.
fn text_by<L: Ledger>(
    alloc: Global,
    p: &Problem,
    s: &Solver,
    steps: &mut Steps<L>,
) -> Result<Vec<u8>, AllocError>
    requires current { IsCurrent s.now }
    requires graph { HoldsShortList p.now s.now.graph }
    ensures { IfOk result (λ text. IsBlameText p.now text.items) }
{
    let mut lines = Lines {
        text: Vec::new(alloc),
        cycles: Vec::new(alloc),
    };
    write_text(alloc, &mut lines, p, s, steps)?;
    Ok(lines.text)
}

/// The text that says what is to blame: `blame none` alone where the problem has an execution, else a line for each
/// candidate and the end. The candidates are all greatest delays, all least ones, all stamps, all rates and, where a clock
/// follows another one, all gaps; then the stamps and the rate of each clock; then of each clock with each that a message goes
/// to, by the first and then by the second, the greatest delays and the least. A line says by how many ns, or for
/// rates parts per billion, its candidate must be widened at least, so that an execution exists with nothing else
/// widened, or `none` where no number below 2^62 will do. It answers an error only where memory runs out. No number of
/// steps is promised.
pub fn blame_text<L: Ledger>(
    alloc: Global,
    p: &Problem,
    steps: &mut Steps<L>,
) -> Result<Vec<u8>, AllocError>
    ensures { IfOk result (λ text. IsBlameText p.now text.items) }
{
    let s = solve(alloc, p, 0, steps)?;
    let text = text_by(alloc, p, &s, steps)?;
    Ok(text)
}
