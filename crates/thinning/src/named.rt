// Events that are asked about by their names.
ghost use Rattle.std.specs.Prelude.{◌≡◌, IfSome, IfNone};
ghost use Rattle.problem.specs.Line.{HasEvent, IsUnknown};
ghost use Rattle.thinning.specs.declared.named.Unfound.TheVariants.{Memory};

use problem::Problem;
use problem_model::Name;
use std::alloc::AllocFailed;

/// Why the events of some names were not found.
#[derive(Clone, Copy, Debug)]
pub enum Unfound {
    /// A name is no event's.
    Unknown,
    /// Memory ran out.
    Memory,
}

impl<T: Drop> From<AllocFailed<T>> for Unfound {
    ghost from_gives = { λ _ e. e ≡ Memory };

    fn from(_: AllocFailed<T>) -> Unfound {
        Unfound::Memory
    }
}

/// The place of the event of a name; None where it is no event's.
pub fn event_named(p: &Problem, name: &[u8]) -> Option<u32>
    ensures some { IfSome result (λ place. HasEvent p.now place name.now) }
    ensures none { IfNone result (IsUnknown p.now name.now) }
{
    // It tells that each event has an event's name.
    let _ = p.events();
    match Name::new(name) {
        Some(name) => p.event_place(&name),
        None => None,
    }
}
