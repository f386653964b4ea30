// How many messages a change brings and takes.
ghost use Rattle.std.specs.Prelude.{◌≡◌, List, length};
ghost use Rattle.traces.specs.Seen.{Seen};
ghost use Rattle.traces.specs.declared.event_id.EventId.{EventId};
ghost use Rattle.msg_match.specs.Ends.{AreChanges, IsChange};

use crate::Change;

/// How many messages come by an addition, and how many go.
#[derive(Clone, Copy, Debug, PartialEq, Eq)]
pub struct Changed {
    /// How many messages there are that were none before.
    pub messages: u64,
    /// How many messages before are none any more.
    pub withdrawn: u64,
}

/// How many messages come by a change, and how many go.
pub fn counts(change: &Change) -> Changed
    ensures messages { result.messages ≡ length change.now.added.items }
    ensures withdrawn { result.withdrawn ≡ length change.now.withdrawn.items }
    ensures change { (ids : List EventId) (before after : List (List Seen)) → AreChanges ids before after change.now → IsChange before after result }
{
    Changed {
        messages: change.added.len() as u64,
        withdrawn: change.withdrawn.len() as u64,
    }
}
