// The steps of a chain and the real times of an execution, written.
ghost use Rattle.std.specs.Prelude.{All};
ghost use Rattle.std.specs.List.{flat_map};
ghost use Rattle.ports.specs.Content.{Writes};
ghost use Rattle.problem_model.specs.Nodes.{nodes_of};
ghost use Rattle.problem_model.specs.ExecutionText.{value_lines};
ghost use Rattle.problem.specs.Listing.{all_readings};
ghost use Rattle.cert.specs.CertificateText.{step_line, IsStepOf, HasOneEach};

use crate::chain::Step;
use crate::execution::Execution;
use crate::write::{write_step, write_value};
use ports::{Failed, Sink};
use problem::Problem;

/// Writes the lines of steps, as `write_step` does each.
pub fn write_steps<O: Sink>(p: &Problem, steps: &[Step], out: &mut O) -> Result<(), Failed>
    requires { All (IsStepOf p.now) steps.now }
    ensures { Writes (flat_map (step_line p.now) steps.now) (O.told out.old) (O.told out.new) result }
{
    // It tells that the problem is lawful.
    let _ = p.messages();
    for step in steps {
        write_step(p, &step.bound, step.weight.get(), out)?;
    }
    Ok(())
}

/// Writes the line of each node with its real time, as `write_value` does each.
pub fn write_values<O: Sink>(p: &Problem, execution: &Execution, out: &mut O) -> Result<(), Failed>
    requires { HasOneEach p.now execution.now }
    ensures { Writes (value_lines p.now (nodes_of p.now (all_readings p.now.events)) execution.now) (O.told out.old) (O.told out.new) result }
{
    for place in 0..execution.len() {
        write_value(p, place, execution.value(place).get(), out)?;
    }
    Ok(())
}
