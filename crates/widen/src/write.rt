// Widenings of a problem, written piece by piece.
ghost use Rattle.std.specs.Prelude.{◌≡◌, ◌++◌, List, Option, Some, None, All};
ghost use Rattle.ports.specs.Content.{Writes};
ghost use Rattle.problem_model.specs.Nodes.{Reading, AreReadings, nodes_of};
ghost use Rattle.problem_model.specs.ExecutionText.{value_lines};
ghost use Rattle.problem.specs.Listing.{all_readings};
ghost use Rattle.cert.specs.CertificateText.{IsStepOf, HasOneEach};
ghost use Rattle.widen.specs.Named.{NamesWhat};
ghost use Rattle.widen.specs.Widening.{HasCycle, IsWideningOf};
ghost use Rattle.widen.specs.WideningText.{least_line, cycle_lines, widening_lines, widening_text};

use crate::named::push_stated;
use crate::widening::Widening;
use atto::Nano;
use cert::{Chain, Execution, write_steps, write_values};
use cert_check::What;
use ports::fixed_line::{Line, first_word, push_decimal, push_word};
use ports::{Failed, Sink, write_whole};
use problem::Problem;

// The line that says by how much.
fn least_line(p: &Problem, what: What, extra: Nano) -> Line
    requires { NamesWhat p.now what }
    ensures { result.items ≡ least_line p.now what (Some extra) }
{
    let mut line = first_word(b"least");
    push_decimal(&mut line, extra.get());
    push_stated(&mut line, p, what);
    line.push(b'\n');
    line
}

// The line that says that no widening heals.
fn never_line(p: &Problem, what: What) -> Line
    requires { NamesWhat p.now what }
    ensures { result.items ≡ least_line p.now what None }
{
    let mut line = first_word(b"least");
    push_word(&mut line, b"none");
    push_stated(&mut line, p, what);
    line.push(b'\n');
    line
}

// Writes the lines of a cycle.
fn write_cycle<O: Sink>(p: &Problem, cycle: &Chain, out: &mut O) -> Result<(), Failed>
    requires { All (IsStepOf p.now) cycle.now }
    ensures { Writes (cycle_lines p.now (Some cycle.now)) (O.told out.old) (O.told out.new) result }
{
    write_whole(out, b"cycle\n")?;
    write_steps(p, cycle.steps(), out)
}

// Writes the lines of the cycle, where there is one.
fn write_below<O: Sink>(
    p: &Problem,
    extra: Nano,
    cycle: &Option<Chain>,
    out: &mut O,
) -> Result<(), Failed>
    requires { HasCycle p.now extra cycle.now }
    ensures { Writes (cycle_lines p.now cycle.now) (O.told out.old) (O.told out.new) result }
{
    match cycle {
        Some(cycle) => write_cycle(p, cycle, out),
        None => Ok(()),
    }
}

// Writes the widening, its execution and its cycle.
fn write_least<O: Sink>(
    p: &Problem,
    what: What,
    extra: Nano,
    execution: &Execution,
    cycle: &Option<Chain>,
    out: &mut O,
) -> Result<(), Failed>
    requires named { NamesWhat p.now what }
    requires execution { HasOneEach p.now execution.now }
    requires cycle { HasCycle p.now extra cycle.now }
    ensures { Writes (least_line p.now what (Some extra) ++ value_lines p.now (nodes_of p.now (all_readings p.now.events)) execution.now ++ cycle_lines p.now cycle.now) (O.told out.old) (O.told out.new) result }
{
    let line = least_line(p, what, extra);
    write_whole(out, line.as_slice())?;
    write_values(p, execution, out)?;
    write_below(p, extra, cycle, out)
}

// Writes that no widening heals, and its cycle.
fn write_never<O: Sink>(p: &Problem, what: What, cycle: &Chain, out: &mut O) -> Result<(), Failed>
    requires named { NamesWhat p.now what }
    requires cycle { All (IsStepOf p.now) cycle.now }
    ensures { Writes (least_line p.now what None ++ cycle_lines p.now (Some cycle.now)) (O.told out.old) (O.told out.new) result }
{
    let line = never_line(p, what);
    write_whole(out, line.as_slice())?;
    write_cycle(p, cycle, out)
}

// Writes what stands between the first line and the end.
fn write_lines<O: Sink>(p: &Problem, what: What, w: &Widening, out: &mut O) -> Result<(), Failed>
    requires named { NamesWhat p.now what }
    requires is { IsWideningOf p.now w.now }
    ensures { Writes (widening_lines p.now (nodes_of p.now (all_readings p.now.events)) what w.now) (O.told out.old) (O.told out.new) result }
{
    match w {
        Widening::Least {
            extra,
            execution,
            cycle,
        } => write_least(p, what, *extra, execution, cycle, out),
        Widening::Never(cycle) => write_never(p, what, cycle, out),
    }
}

/// Writes a widening of a problem: its first line, by how much what is named is widened or that nothing heals, its
/// execution and its cycle, where it has them, and its end. It takes no memory. After `Failed`, which comes only where
/// the sink's count of faults rose, some front of the text is written.
pub fn write_widening<O: Sink>(
    p: &Problem,
    what: What,
    w: &Widening,
    out: &mut O,
) -> Result<(), Failed>
    requires named { NamesWhat p.now what }
    requires is { IsWideningOf p.now w.now }
    ensures { (readings : List Reading) × AreReadings p.now readings × Writes (widening_text p.now (nodes_of p.now readings) what w.now) (O.told out.old) (O.told out.new) result }
{
    // It tells what the readings of the problem are.
    let _ = p.readings();
    write_whole(out, b"widening 1\n")?;
    write_lines(p, what, w, out)?;
    write_whole(out, b"end\n")
}
