// Finds the earliest execution of a problem, or a contradiction.
ghost use Rattle.std.specs.Prelude.{◌≡◌, [], List, ℕ};
ghost use Rattle.ports.specs.Content.{Writes};
ghost use Rattle.ports.specs.Files.{Keeps};
ghost use Rattle.solver.specs.Solution.{IsSolution};
ghost use Rattle.problem_commands.specs.Printing.{Prints};
ghost use Rattle.problem_commands.specs.Solve.{IsEarliestText, IsSolutionText, TellsSolution, Solved};

use crate::last_line::stop;
use crate::status::Status;
use crate::texts::problem_in;
use attain::write_run;
use atto::Steps;
use ports::{Failed, Files, Sink};
use problem::Problem;
use queries::{executions, write_contradiction};
use solver::Solver;
use std::alloc::Global;
use std::sync::ledger::Ledger;

// Writes the certificate of the earliest execution.
fn write_earliest<O: Sink>(p: &Problem, solver: &Solver, out: &mut O) -> Result<(), Failed>
    requires solution { IsSolution p.now solver.now }
    requires solved { solver.now.contradiction ≡ [] }
    ensures { (text : List ℕ) × IsEarliestText p.now text × Writes text (O.told out.old) (O.told out.new) result }
{
    // They tell what the readings of the problem are, and what the values of nodes are.
    let _ = p.readings();
    executions();
    write_run(p, solver.earliest(), out)
}

// Writes the certificate of a solution.
fn write_solution<O: Sink>(p: &Problem, solver: &Solver, out: &mut O) -> Result<(), Failed>
    requires { IsSolution p.now solver.now }
    ensures { (text : List ℕ) × IsSolutionText p.now text × Writes text (O.told out.old) (O.told out.new) result }
{
    let cycle = solver.contradiction();
    if cycle.is_empty() {
        write_earliest(p, solver, out)
    } else {
        write_contradiction(p, cycle, out)
    }
}

// Prints the certificate of a solution, and answers the status.
fn certify<O: Sink>(p: &Problem, solver: &Solver, out: &mut O) -> Status
    requires { IsSolution p.now solver.now }
    ensures { Prints (TellsSolution p.now) (O.told out.old) (O.told out.new) result }
{
    match write_solution(p, solver, out) {
        Ok(()) => Status::Done,
        Err(Failed) => Status::WriteFault,
    }
}

// Prints the certificate of a problem.
fn answer<O: Sink, L: Ledger>(
    alloc: Global,
    p: &Problem,
    out: &mut O,
    steps: &mut Steps<L>,
) -> Status
    ensures { Prints (TellsSolution p.now) (O.told out.old) (O.told out.new) result }
{
    match problem_solver::solve(alloc, p, 0, steps) {
        Ok(solver) => certify(p, &solver, out),
        Err(_) => Status::Memory,
    }
}

/// The earliest execution of the problem in a file, or a contradiction.
pub fn solve<F: Files, O: Sink, L: Ledger>(
    alloc: Global,
    files: &mut F,
    problem: &str,
    out: &mut O,
    steps: &mut Steps<L>,
) -> Status
    ensures solved { Prints (Solved problem.now (F.told files.old) (F.told files.new)) (O.told out.old) (O.told out.new) result }
    ensures keeps { Keeps (F.told files.old) (F.told files.new) }
{
    match problem_in(alloc, files, problem) {
        Ok(p) => answer(alloc, &p, out, steps),
        Err(unread) => stop(unread, b"problem", Status::BadProblem, out),
    }
}
