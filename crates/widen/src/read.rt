// The text of a widening, line by line.
ghost use Rattle.std.specs.Prelude.{◌≡◌, ◌≤◌, ◌<◌, ◌+◌, ◌++◌, [], ◌∷◌, ℕ, ℤ, List, length, Option, Some, None, IfSome, IfNone, OnOk};
ghost use Rattle.line_format.specs.Words.{words, line_of};
ghost use Rattle.line_format.specs.Format.{most_text_bytes};
ghost use Rattle.problem_model.specs.Problem.{ProblemLists};
ghost use Rattle.problem_model.specs.Nodes.{Reading, nodes_of};
ghost use Rattle.problem_model.specs.Limits.{most_nodes, most_steps};
ghost use Rattle.problem.specs.Listing.{all_readings};
ghost use Rattle.cert.specs.ExecutionFormat.{AreValues};
ghost use Rattle.cert_check.specs.declared.what.What.{What};
ghost use Rattle.widen.specs.Named.{AreStated};
ghost use Rattle.widen.specs.NamedWords.{stated_named};
ghost use Rattle.widen.specs.WideningText.{widening_head, least_word, least_words};
ghost use Rattle.widen.specs.WideningFormat.{IsWhole};
ghost use Rattle.widen.specs.WideningFormat.WideningSaid.{Said};
ghost use Rattle.widen.specs.ReadsWidening.{ReadsWidening, ReadsWideningOf, ReadsWideningOver};
ghost use Rattle.widen.specs.ReadsLines.{IsStated, IsBehind, IsSecondOf, IsStatedIn, ReadsTime, ReadsTimes, ReadsEnd, ReadsCycle};

use crate::named::{NamedLinks, NamedWhat, named_by, what_of};
use crate::widening::{StatedWidening, Widening};
use atto::{Nano, NumFault, read_decimal};
use cert::take_part::{take_in_cycle, take_value};
use cert::{CertError, Chain, Execution, behind, error_at};
use cert_check::What;
use line_format::{MOST_BYTES, Taken, cut};
use problem::Problem;
use std::alloc::Global;

/// By how much is widened.
#[derive(Clone, Copy)]
pub enum Extra {
    /// By so many ns, or parts per billion of rates.
    Of(Nano),
    /// By 2^62 or more.
    TooMuch,
    /// No widening heals.
    Never,
}

/// What the line of the widening says.
#[derive(Clone, Copy)]
pub struct Stated {
    /// By how much.
    pub extra: Extra,
    /// What is widened.
    pub named: NamedWhat,
}

// The widening that a word spells.
fn extra_of(word: &[u8]) -> Option<Extra>
    ensures some { IfSome result (λ s. (extra : Option ℕ) × (word.now ≡ least_word extra) × IsStated extra s) }
    ensures none { IfNone result ((extra : Option ℕ) → word.now ≡ least_word extra → ⊥) }
{
    if word == b"none".as_slice() {
        return Some(Extra::Never);
    }
    match read_decimal(word) {
        Ok(extra) => match Nano::new(extra) {
            Some(extra) => Some(Extra::Of(extra)),
            None => Some(Extra::TooMuch),
        },
        Err(NumFault::Range) => Some(Extra::TooMuch),
        Err(NumFault::Spelling) => None,
    }
}

// What a number with the words behind it says.
fn stated_of(extra: &[u8], named: &[u8]) -> Option<Stated>
    ensures some { IfSome result (λ s. (extra' : Option ℕ) × (extra.now ≡ least_word extra') × IsStated extra' s.extra
        × (kind : List ℕ) × (names : List (List ℕ)) × AreStated (kind ∷ names) × (stated_named s.named ≡ kind ∷ names) × (named.now ≡ words (kind ∷ names))) }
    ensures none { IfNone result ((extra' : Option ℕ) (kind : List ℕ) (names : List (List ℕ)) → AreStated (kind ∷ names) → extra.now ≡ least_word extra' → named.now ≡ words (kind ∷ names) → ⊥) }
{
    let extra = extra_of(extra)?;
    let named = named_by(named)?;
    Some(Stated { extra, named })
}

// What a number without words behind it says.
fn stated_alone(extra: &[u8]) -> Option<Stated>
    ensures some { IfSome result (λ s. (extra' : Option ℕ) × (extra.now ≡ least_word extra') × IsStated extra' s.extra × (stated_named s.named ≡ [])) }
    ensures none { IfNone result ((extra' : Option ℕ) → extra.now ≡ least_word extra' → ⊥) }
{
    let extra = extra_of(extra)?;
    let named = NamedWhat::Delays(NamedLinks::All);
    Some(Stated { extra, named })
}

// What the words behind the first one of the line say.
fn stated_in(rest: &[u8]) -> Option<Stated>
    ensures some { IfSome result (λ s. (extra : Option ℕ) × (rest.now ≡ words (least_word extra ∷ stated_named s.named)) × IsStated extra s.extra × AreStated (stated_named s.named)) }
    ensures none { IfNone result ((extra : Option ℕ) (named : List (List ℕ)) → AreStated named → rest.now ≡ words (least_word extra ∷ named) → ⊥) }
{
    match cut(b' ', rest) {
        Some((extra, named)) => stated_of(extra, named),
        None => stated_alone(rest),
    }
}

// What a line `least E` or `least none` says, with the words behind it.
fn stated_by(body: &[u8]) -> Option<Stated>
    ensures some { IfSome result (λ s. (extra : Option ℕ) × (body.now ≡ words (least_words extra (stated_named s.named))) × IsStated extra s.extra × AreStated (stated_named s.named)) }
    ensures none { IfNone result ((extra : Option ℕ) (named : List (List ℕ)) → AreStated named → body.now ≡ words (least_words extra named) → ⊥) }
{
    match cut(b' ', body) {
        Some((word, rest)) => {
            if word != b"least".as_slice() {
                return None;
            }
            stated_in(rest)
        }
        None => None,
    }
}

// The number of the line of the next step, where that of the first has this number.
fn line_of_step(first: u64, cycle: &Chain) -> u64
    requires { first ≤ most_steps }
    ensures is { result ≡ first + length cycle.now }
    ensures few { result ≤ most_steps + most_steps }
{
    first + u64::from(cycle.len())
}

// The number of the line behind those of these real times.
fn line_behind(times: &Execution) -> u64
    ensures is { result ≡ length times.now + 3 }
    ensures few { result ≤ most_nodes + 3 }
{
    u64::from(times.len()) + 3
}

// The steps of a cycle up to the end of the text, where the first line has this number.
fn read_steps(alloc: Global, p: &Problem, lines: &[u8], first: u64) -> Result<Chain, CertError>
    requires { first ≤ most_steps }
    ensures { (what : What) (extra : Option ℕ) (values : List ℤ) (text : List ℕ) → IsBehind p.now (all_readings p.now.events) text lines.now (Said what extra values (Some [])) first
        → ReadsCycle p.now (all_readings p.now.events) text what extra values result }
{
    let mut cycle = Chain::new(alloc);
    let mut rest = lines;
    while let Some((body, after)) = cut(b'\n', rest) {
        let line = line_of_step(first, &cycle);
        match take_in_cycle(p, &mut cycle, body) {
            Ok(Taken::Line) => {}
            Ok(Taken::End) => {
                if after.is_empty() {
                    return Ok(cycle);
                }
                return Err(CertError::Syntax(line + 1));
            }
            Err(fault) => return Err(error_at(fault, line)),
        }
        rest = after;
    }
    Err(CertError::Syntax(line_of_step(first, &cycle)))
}

// The real time of the next node, and what follows its line.
fn next_time<'a>(p: &Problem, times: &mut Execution, lines: &'a [u8]) -> Result<&'a [u8], CertError>
    requires values { AreValues (length (nodes_of p.now (all_readings p.now.events))) times.old }
    requires more { IsWhole p.now (all_readings p.now.events) times.old → ⊥ }
    ensures read { (what : What) (extra : ℕ) (text : List ℕ) → IsBehind p.now (all_readings p.now.events) text lines.now (Said what (Some extra) times.old None) (length times.old + 3)
        → ReadsTime p.now (all_readings p.now.events) text what extra times.new result }
    ensures values { AreValues (length (nodes_of p.now (all_readings p.now.events))) times.new }
    ensures one { OnOk result (length times.new ≡ length times.old + 1) }
{
    let line = line_behind(times);
    match cut(b'\n', lines) {
        Some((body, rest)) => match take_value(p, times, body) {
            Ok(_) => Ok(rest),
            Err(fault) => Err(error_at(fault, line)),
        },
        None => Err(CertError::Syntax(line)),
    }
}

// The real time of each node, the first one in line 3, and what follows them.
fn read_times<'a>(
    p: &Problem,
    times: &mut Execution,
    lines: &'a [u8],
) -> Result<&'a [u8], CertError>
    requires { times.old ≡ [] }
    ensures { (what : What) (extra : ℕ) (text : List ℕ) → IsBehind p.now (all_readings p.now.events) text lines.now (Said what (Some extra) [] None) 3
        → ReadsTimes p.now (all_readings p.now.events) text what extra times.new result }
{
    let count = p.events().len() + p.readings().len();
    let mut rest = lines;
    'nodes: while (times.len() as usize) < count {
        match next_time(p, times, rest) {
            Ok(after) => rest = after,
            Err(error) => return Err(error),
        }
    }
    Ok(rest)
}

// The end of the text behind the real times, where the widening is 0.
fn read_end(lines: &[u8], line: u64) -> Result<(), CertError>
    requires { line ≤ most_steps }
    ensures { (p : ProblemLists) (readings : List Reading) (what : What) (values : List ℤ) (text : List ℕ) → IsBehind p readings text lines.now (Said what (Some 0) values None) line → IsWhole p readings values
        → ReadsEnd p readings text what values result }
{
    match behind(b"end", lines) {
        Some(rest) => {
            if rest.is_empty() {
                Ok(())
            } else {
                Err(CertError::Syntax(line + 1))
            }
        }
        None => Err(CertError::Syntax(line)),
    }
}

// What follows the real times of all nodes.
fn read_rest(
    alloc: Global,
    p: &Problem,
    extra: Nano,
    execution: Execution,
    lines: &[u8],
) -> Result<Widening, CertError>
    ensures { (what : What) (text : List ℕ) → IsBehind p.now (all_readings p.now.events) text lines.now (Said what (Some extra) execution None) (length execution + 3) → IsWhole p.now (all_readings p.now.events) execution
        → ReadsWideningOf p.now (all_readings p.now.events) what text result }
{
    // It tells what the readings of the problem are.
    let _ = p.readings();
    let line = line_behind(&execution);
    if extra.get() == 0 {
        return match read_end(lines, line) {
            Ok(()) => Ok(Widening::Least {
                extra,
                execution,
                cycle: None,
            }),
            Err(error) => Err(error),
        };
    }
    match behind(b"cycle", lines) {
        Some(rest) => match read_steps(alloc, p, rest, line + 1) {
            Ok(cycle) => Ok(Widening::Least {
                extra,
                execution,
                cycle: Some(cycle),
            }),
            Err(error) => Err(error),
        },
        None => Err(CertError::Syntax(line)),
    }
}

// What follows the line of a widening by so much.
fn read_least(alloc: Global, p: &Problem, extra: Nano, lines: &[u8]) -> Result<Widening, CertError>
    ensures { (what : What) (text : List ℕ) → IsBehind p.now (all_readings p.now.events) text lines.now (Said what (Some extra) [] None) 3 → ReadsWideningOf p.now (all_readings p.now.events) what text result }
{
    let mut execution = Execution::new(alloc);
    match read_times(p, &mut execution, lines) {
        Ok(rest) => read_rest(alloc, p, extra, execution, rest),
        Err(error) => Err(error),
    }
}

// What follows the line that no widening heals.
fn read_never(alloc: Global, p: &Problem, lines: &[u8]) -> Result<Widening, CertError>
    ensures { (what : What) (text : List ℕ) → IsBehind p.now (all_readings p.now.events) text lines.now (Said what None [] None) 3 → ReadsWideningOf p.now (all_readings p.now.events) what text result }
{
    // It tells what the readings of the problem are.
    let _ = p.readings();
    match behind(b"cycle", lines) {
        Some(rest) => match read_steps(alloc, p, rest, 4) {
            Ok(cycle) => Ok(Widening::Never(cycle)),
            Err(error) => Err(error),
        },
        None => Err(CertError::Syntax(3)),
    }
}

// What follows the line that says by how much.
fn read_widened(
    alloc: Global,
    p: &Problem,
    extra: Extra,
    lines: &[u8],
) -> Result<Widening, CertError>
    ensures { (what : What) (text : List ℕ) → IsStatedIn p.now (all_readings p.now.events) text lines.now what extra → ReadsWideningOf p.now (all_readings p.now.events) what text result }
{
    match extra {
        Extra::Of(extra) => read_least(alloc, p, extra, lines),
        Extra::TooMuch => Err(CertError::Range(2)),
        Extra::Never => read_never(alloc, p, lines),
    }
}

// What follows the line that states the widening of this.
fn read_of(
    alloc: Global,
    p: &Problem,
    what: What,
    extra: Extra,
    lines: &[u8],
) -> Result<StatedWidening, CertError>
    ensures { (text : List ℕ) → IsStatedIn p.now (all_readings p.now.events) text lines.now what extra → ReadsWideningOver p.now (all_readings p.now.events) text result }
{
    match read_widened(alloc, p, extra, lines) {
        Ok(widening) => Ok(StatedWidening { what, widening }),
        Err(error) => Err(error),
    }
}

// What follows the line that says this.
fn read_stated(
    alloc: Global,
    p: &Problem,
    stated: Stated,
    lines: &[u8],
) -> Result<StatedWidening, CertError>
    requires { AreStated (stated_named stated.named) }
    ensures { (extra : Option ℕ) (body text : List ℕ) → IsSecondOf p.now (all_readings p.now.events) text body lines.now → body ≡ words (least_words extra (stated_named stated.named)) → IsStated extra stated.extra
        → ReadsWideningOver p.now (all_readings p.now.events) text result }
{
    match what_of(p, stated.named) {
        Some(what) => read_of(alloc, p, what, stated.extra, lines),
        None => Err(CertError::Name(2)),
    }
}

// The lines behind the head, which is line 1.
fn read_lines(alloc: Global, p: &Problem, lines: &[u8]) -> Result<StatedWidening, CertError>
    requires { length (line_of widening_head ++ lines.now) ≤ most_text_bytes }
    ensures { ReadsWideningOver p.now (all_readings p.now.events) (line_of widening_head ++ lines.now) result }
{
    match cut(b'\n', lines) {
        Some((body, rest)) => match stated_by(body) {
            Some(stated) => read_stated(alloc, p, stated, rest),
            None => Err(CertError::Syntax(2)),
        },
        None => Err(CertError::Syntax(2)),
    }
}

fn read_text(alloc: Global, p: &Problem, text: &[u8]) -> Result<StatedWidening, CertError>
    ensures { ReadsWideningOver p.now (all_readings p.now.events) text.now result }
{
    if text.len() > MOST_BYTES {
        return Err(CertError::Long);
    }
    match behind(b"widening 1", text) {
        Some(lines) => read_lines(alloc, p, lines),
        None => Err(CertError::Syntax(1)),
    }
}

/// The widening of a problem that a text spells, and what it widens, or the first fault of the text with its line: `Syntax`
/// where a line is none of the forms that may stand there, which a cycle does behind `least none` and, behind the real times
/// of all nodes, where the widening is above 0; else `Name` where a name is not the one that stands there or not the
/// problem's; else `Range` where a real time or a weight is past 2^120 units in absolute value, or the widening 2^62 or
/// more; else `Limit` behind 2^26 steps. `Long` comes beyond 2^34 bytes, and `Memory` only where memory runs out.
pub fn read_widening(alloc: Global, p: &Problem, text: &[u8]) -> Result<StatedWidening, CertError>
    ensures { ReadsWidening p.now text.now result }
{
    read_text(alloc, p, text)
}
