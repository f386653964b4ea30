// Room for nodes that come.
ghost use Rattle.std.specs.Prelude.{◌≡◌, ◌≤◌, ◌+◌, ◌*◌, length, OnOk};
ghost use Rattle.problem_model.specs.Limits.{most_events, most_nodes};
ghost use Rattle.solver.specs.Solver.{HasRoom};
ghost use Rattle.solver.specs.Current.{IsCurrent};
ghost use Rattle.session_graph.specs.Kept.{KeepsRows};
ghost use Rattle.session_graph.specs.Cuts.{IsRoomier};

use roster::Roster;
use solver::Solver;
use std::alloc::AllocError;

// Room for the nodes of so many events: a power of two, so that the rows are laid out anew for few additions.
fn room_for(events: u32) -> u32
    requires { events ≤ most_events }
    ensures enough { 2 * events ≤ result }
    ensures few { result ≤ most_nodes }
{
    (2 * events).next_power_of_two()
}

/// Makes room for the nodes of so many events more.
pub(crate) fn make_room(roster: &Roster, solver: &mut Solver, more: u32) -> Result<(), AllocError>
    requires current { IsCurrent solver.old }
    requires few { length roster.now.came + more ≤ most_events }
    ensures graph { OnOk result (solver.new.graph ≡ solver.old.graph) }
    ensures current { OnOk result (IsCurrent solver.new) }
    ensures room { OnOk result (HasRoom (2 * (length roster.now.came + more)) solver.new) }
    ensures rows { OnOk result (KeepsRows solver.old solver.new) }
    ensures roomier { OnOk result (IsRoomier solver.old solver.new) }
{
    solver.reserve(0, room_for(roster.len() + more))?;
    Ok(())
}
