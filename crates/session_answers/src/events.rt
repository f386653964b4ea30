// Events of a roster by their names.
ghost use Rattle.std.specs.Prelude.{◌⊎◌, None, IfSome, IfNone};
ghost use Rattle.traces.specs.declared.event_id.EventId.{EventId};
ghost use Rattle.roster.specs.Roster.{IsRoster, Finds};
ghost use Rattle.session_answers.specs.Keeping.{IsCalled};

use roster::Roster;
use traces::EventId;

/// The event of this name, and its node.
pub fn find_event(names: &Roster, name: &[u8]) -> Option<(EventId, u32)>
    ensures lawful { IsRoster names.now }
    ensures some { IfSome result (λ found. IsCalled names.now name.now found.0 found.1) }
    ensures none { IfNone result (Finds names.now name.now None) }
{
    // A roster is lawful, which a call tells that reads a field of it.
    let _ = names.decl();
    match names.find(name) {
        Some(number) => {
            let came = names.event(number);
            let event = EventId {
                label: came.label,
                number: came.number,
            };
            Some((event, came.node))
        }
        None => None,
    }
}

/// Two events, each by its name.
#[derive(Clone, Copy)]
pub struct TwoNames<'a> {
    /// The name of the first one, as the question spells it.
    pub first: &'a [u8],
    /// The name of the second one.
    pub second: &'a [u8],
}

/// The nodes of two events.
pub(crate) fn two_events(names: &Roster, events: &TwoNames) -> Option<(u32, u32)>
    ensures lawful { IsRoster names.now }
    ensures some { IfSome result (λ nodes. ((event : EventId) × IsCalled names.now events.now.first.now event nodes.0) × ((event : EventId) × IsCalled names.now events.now.second.now event nodes.1)) }
    ensures none { IfNone result (Finds names.now events.now.first.now None ⊎ Finds names.now events.now.second.now None) }
{
    match find_event(names, events.first) {
        Some((_, from)) => match find_event(names, events.second) {
            Some((_, to)) => Some((from, to)),
            None => None,
        },
        None => None,
    }
}
