// Events that are kept from now on.
ghost use Rattle.std.specs.Prelude.{IfOk, OnOk};
ghost use Rattle.replies.specs.Commands as commands;
ghost use Rattle.replies.specs.Outcomes.{IsOutcomeLine};
ghost use Rattle.session.specs.Stands.{IsReady};
ghost use Rattle.session.specs.Inside.{UnreadAnswered};

use crate::Session;
use atto::Steps;
use replies::Outcome;
use session_answers::keep_event;
use std::alloc::AllocError;
use std::sync::ledger::Ledger;

impl Session {
    /// Keeps the rows of the event of this name from now on, and answers what came of it, before anything is written.
    pub(crate) fn keep<L: Ledger>(
        &mut self,
        event: &[u8],
        steps: &mut Steps<L>,
    ) -> Result<Outcome, AllocError>
        requires ready { IsReady self.old }
        ensures answers { IfOk result (λ outcome. UnreadAnswered self.old self.new (commands.Keep event.now) (IsOutcomeLine outcome)) }
        ensures ready { OnOk result (IsReady self.new) }
    {
        let kept = keep_event(&mut self.kept, &mut self.answers, event, steps);
        if kept.is_err() {
            self.ready = false;
        }
        kept
    }
}
