// What an addition changed.
ghost use Rattle.std.specs.Prelude.{⊤};
ghost use Rattle.problem_model.specs.Problem.{ProblemLists};
ghost use Rattle.queries.specs.Consistent.{IsConsistent};
ghost use Rattle.session.specs.Inside.{IsAddedTo};
ghost use Rattle.replies.specs.Outcomes.{outcome_line};
ghost use Rattle.session.specs.TakingInside.{WhereAdded};

use msg_match::Changed;
use replies::{Added, Aside, Outcome};

/// What is told of an addition of so many events, by whether some execution obeys all bounds, how the messages changed, and
/// what under the label gives no events.
pub(crate) fn outcome_of(consistent: bool, events: u64, aside: Aside, changed: Changed) -> Outcome
    ensures line { (p : ProblemLists) → IsConsistent p consistent → IsAddedTo p changed events aside (outcome_line result) }
    ensures added { WhereAdded ⊤ result }
{
    Outcome::Added(Added {
        events,
        messages: changed.messages,
        withdrawn: changed.withdrawn,
        aside,
        consistent,
    })
}
