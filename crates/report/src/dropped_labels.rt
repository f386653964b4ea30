// The labels under which packets were dropped.
ghost use Rattle.std.specs.Prelude.{◌≡◌, ◌++◌, length, map, IfOk, OnOk};
ghost use Rattle.decl.specs.Declaration.{declaration_of};
ghost use Rattle.traces.specs.Held.{missed_in};
ghost use Rattle.report.specs.Report.{reported_drops};
ghost use Rattle.report.specs.Reports.{drops_none, drops_of, drops_under};

use crate::LabelDrops;
use captures::Dropped;
use decl::{Decl, Label};
use std::alloc::{AllocError, Global};
use traces::Accepted;

fn drops_none(dropped: Dropped) -> bool
    ensures { result ≡ drops_none dropped }
{
    dropped.interface == 0 && dropped.system == 0
}

// Adds a label, if packets were dropped under it.
fn push_drops(
    labels: &mut Vec<LabelDrops>,
    label: &Label,
    dropped: Dropped,
) -> Result<(), AllocError>
    ensures { OnOk result (map reported_drops labels.new.items ≡ map reported_drops labels.old.items ++ drops_under label.now dropped) }
{
    if drops_none(dropped) {
        return Ok(());
    }
    labels.push(LabelDrops {
        label: label.name,
        dropped,
    })?;
    Ok(())
}

/// The labels under which packets were dropped, and how many, in the order of the declaration; an error where memory runs
/// out.
pub(crate) fn dropped_labels(
    alloc: Global,
    decl: &Decl,
    accepted: &[Accepted],
) -> Result<Vec<LabelDrops>, AllocError>
    requires { length accepted.now ≡ length decl.now.labels.items }
    ensures { IfOk result (λ labels. map reported_drops labels.items ≡ drops_of (declaration_of decl.now).labels (missed_in accepted.now)) }
{
    let mut dropped = Vec::new(alloc);
    for place in 0..accepted.len() {
        let under = accepted[place].stream.dropped();
        push_drops(&mut dropped, &decl.labels[place], under)?;
    }
    Ok(dropped)
}
