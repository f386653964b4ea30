// What is reported of the events of all labels, and of the packets that have none.
ghost use Rattle.std.specs.Prelude.{◌≡◌, ◌≤◌, All, length, map, IfOk};
ghost use Rattle.problem_model.specs.Limits.{most_events};
ghost use Rattle.decl.specs.Declaration.{IsDeclaration, declaration_of};
ghost use Rattle.traces.specs.Traces.{event_count};
ghost use Rattle.traces.specs.Held.{missed_in, seen_in};
ghost use Rattle.roster.specs.Roster.{id_of};
ghost use Rattle.msg_match.specs.Ends.{AreEndsBy};
ghost use Rattle.report.specs.Report.{HasAsciiKey, reported};
ghost use Rattle.report.specs.Reports.{report_of};

use crate::View;
use crate::alone::keys_alone;
use crate::ambiguous::keys_in_order;
use crate::dropped_labels::dropped_labels;
use crate::key_names::named_keys;
use crate::nokey_counts::nokeys_of;
use crate::passed_counts::passed_sums;
use decl::Decl;
use msg_match::Matcher;
use roster::Roster;
use std::alloc::{AllocError, Global};
use traces::{Accepted, event_count};

/// What is to be reported of the events of all labels and of the packets that have none, by whether the problem of the
/// events has an execution; an error where memory runs out. The matcher has the ends of messages among these events, by
/// the roster's numbers and in whatever order they were added to it.
///
/// The time goes by the events, and by n log n for the n events of ambiguous keys and, where a window is declared, for the n
/// groups of events. Memory is taken for the ambiguous keys, their texts and the names of their events, for the labels
/// under which packets were dropped, and where a window is declared for references to the keys of all groups, alone.
pub fn view_of(
    alloc: Global,
    decl: &Decl,
    accepted: &[Accepted],
    roster: &Roster,
    matcher: &Matcher,
    consistent: bool,
) -> Result<View, AllocError>
    requires declared { IsDeclaration (declaration_of decl.now) }
    requires labels { length accepted.now ≡ length decl.now.labels.items }
    requires few { event_count (seen_in accepted.now) ≤ most_events }
    requires ends { AreEndsBy (map id_of roster.now.came) matcher.now (seen_in accepted.now) }
    ensures view { IfOk result (λ view. reported view ≡ report_of (declaration_of decl.now) (seen_in accepted.now) (missed_in accepted.now) consistent) }
    ensures ascii { IfOk result (λ view. All HasAsciiKey view.groups.items) }
{
    let alone = keys_alone(alloc, decl, matcher)?;
    let keys = keys_in_order(alloc, roster, matcher)?;
    let groups = named_keys(alloc, decl, &keys)?;
    let dropped = dropped_labels(alloc, decl, accepted)?;
    let tallies = matcher.tallies();
    Ok(View {
        alone,
        events: event_count(accepted) as u32,
        messages: tallies.messages,
        unmatched: tallies.unmatched,
        consistent,
        dropped,
        nokeys: nokeys_of(accepted),
        passed: passed_sums(accepted),
        groups,
    })
}
