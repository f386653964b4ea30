// What is true of all reports.
ghost use Rattle.std.specs.Prelude.{List, Bool};
ghost use Rattle.decl.specs.Declaration.{Declaration};
ghost use Rattle.traces.specs.Seen.{Seen};
ghost use Rattle.traces.specs.Traces.{Missed};
ghost use Rattle.report.specs.Reports.{report_of};
ghost use Rattle.report.specs.Counts.{AddUp};

/// A law, which does nothing when it runs: each event is counted once. It is one of the two ends of a message, or it is
/// unmatched, or it is listed with an ambiguous key, or it has no key for one of the reasons.
pub fn counts_add_up()
    ensures { (d : Declaration) (seen : List (List Seen)) (missed : List Missed) (consistent : Bool) → AddUp (report_of d seen missed consistent) }
{}
