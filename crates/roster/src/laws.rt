// What is true of rosters.
ghost use Rattle.std.specs.Prelude.{◌≡◌, ◌++◌, ℕ, List, [], map, slice_get, slice_set, Option, Some};
ghost use Rattle.decl.specs.declared.items.Label.{Label};
ghost use Rattle.problem_model.specs.Nodes.{Reading, AreReadings};
ghost use Rattle.problem_graph.specs.ListedProblem.{IsListedBy};
ghost use Rattle.traces.specs.Seen.{Seen};
ghost use Rattle.traces.specs.Messages.{problem_of_seen};
ghost use Rattle.roster.specs.declared.came.Partner.{Partner};
ghost use Rattle.roster.specs.Roster.{RosterLists, IsRoster, HoldsEvents, IsGrown, SetsReading, event_at, listed};

/// A law, which does nothing when it runs: a roster that holds the events of each label lists the problem that they
/// make with its declaration.
pub fn roster_lists_its_problem()
    ensures { (r : RosterLists) (seen : List (List Seen)) (readings : List Reading) → IsRoster r → HoldsEvents r seen → AreReadings (problem_of_seen r.declaration seen) readings → IsListedBy (listed r) (problem_of_seen r.declaration seen) readings }
{}

/// A law, which does nothing when it runs: a roster without events holds none under each label, and with events that are
/// pushed it holds them behind those of their label.
pub fn rosters_grow()
    ensures none { (r : RosterLists) → IsRoster r → r.came ≡ [] → HoldsEvents r (map (λ (l : Label). []) r.declaration.labels) }
    ensures grown { (old new : RosterLists) (label : ℕ) (seen : List (List Seen)) (own more : List Seen) → IsRoster old → IsGrown old new label (map (λ (s : Seen). s.stamp) more) → HoldsEvents old seen → slice_get seen label ≡ Some own
        → HoldsEvents new (slice_set seen label (own ++ more)) }
{}

/// A law, which does nothing when it runs: a roster of which a node or a partner is told holds the same events.
pub fn telling_keeps_events()
    ensures nodes { (r : RosterLists) (seen : List (List Seen)) (v node : ℕ) → HoldsEvents r seen → HoldsEvents (record r { came = slice_set r.came v (record (event_at r.came v) { node = node }) }) seen }
    ensures partners { (r : RosterLists) (seen : List (List Seen)) (v : ℕ) (partner : Option Partner) → HoldsEvents r seen → HoldsEvents (record r { came = slice_set r.came v (record (event_at r.came v) { partner = partner }) }) seen }
    ensures readings { (old new : RosterLists) (clock stamp node : ℕ) (seen : List (List Seen)) → SetsReading old new clock stamp node → HoldsEvents old seen → HoldsEvents new seen }
{}
