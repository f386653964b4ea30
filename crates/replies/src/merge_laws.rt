// What is true of every merge.
ghost use Rattle.std.specs.Prelude.{◌≡◌, List, ℕ};
ghost use Rattle.decl.specs.Declaration.{Declaration};
ghost use Rattle.traces.specs.Seen.{Seen};
ghost use Rattle.replies.specs.Merged.{IsMergeText};

/// A law, which does nothing when it runs: the events of all labels have one merge.
pub fn merges_are_one()
    ensures { (d : Declaration) (seen : List (List Seen)) (a b : List ℕ) → IsMergeText d seen a → IsMergeText d seen b → a ≡ b }
{}
