// What is true of the messages and the problem of all traces.
ghost use Rattle.std.specs.Prelude.{◌≡◌, ◌≤◌, ◌↔◌, ◌≤ℤ◌, ℕ, ℤ, List, length, Contains, AllPairs, None};
ghost use Rattle.problem_model.specs.Problem.{IsProblem};
ghost use Rattle.problem_model.specs.Limits.{most_events};
ghost use Rattle.decl.specs.Declaration.{Declaration, IsDeclaration};
ghost use Rattle.traces.specs.declared.event_id.Couple.{Couple};
ghost use Rattle.traces.specs.Seen.{Seen};
ghost use Rattle.traces.specs.Traces.{Traces, event_count, events_of, seen_by};
ghost use Rattle.traces.specs.Messages.{couples_of, messages_of, problem_of_seen};
ghost use Rattle.traces.specs.Making.{StampsFit};
ghost use Rattle.traces.specs.Pairs.{ComesBefore, IsPair};
ghost use Rattle.traces.specs.Beginnings.{IsLinked, beginning};
ghost use Rattle.traces.specs.Windows.{grouped};

/// A law, which does nothing when it runs: the messages of events are those couples whose one is the only send of a group
/// and whose other is the only receive of that group, all of them, and each once, in the order of their sends. Without a
/// window all events of a key are a group; with one, events of a key that lie apart in time are of several.
pub fn messages_are_pairs()
    ensures pairs { (seen : List (List Seen)) (m : Couple) → Contains (messages_of (events_of seen)) m → IsPair (grouped (events_of seen)) m }
    ensures all { (seen : List (List Seen)) (m : Couple) → IsPair (grouped (events_of seen)) m → Contains (messages_of (events_of seen)) m }
    ensures order { (seen : List (List Seen)) → AllPairs (λ a b. ComesBefore a.send b.send) (messages_of (events_of seen)) }
{}

/// A law, which does nothing when it runs: without a window the groups are those of the keys themselves, so a message is the
/// only send of a key and the only receive of that key.
pub fn without_window()
    ensures { (d : Declaration) (traces : Traces) → d.window ≡ None → messages_of (events_of (seen_by d traces)) ≡ couples_of (events_of (seen_by d traces)) }
{}

/// A law, which does nothing when it runs: with a window, two events of a key are of one group exactly where other events of
/// that key lead from the one to the other, each later than the one before by the window at most.
pub fn groups_are_chains()
    ensures { (window : ℕ) (times : List ℤ) (a b : ℤ) → Contains times a → Contains times b → a ≤ℤ b → (beginning window times a ≡ beginning window times b) ↔ IsLinked window times a b }
{}

/// A law, which does nothing when it runs: a lawful declaration and at most 2^24 events under its labels, with stamps
/// below 2^62 ns, make a lawful problem.
pub fn lawful()
    ensures { (d : Declaration) (seen : List (List Seen)) → IsDeclaration d → length seen ≡ length d.labels → event_count seen ≤ most_events → StampsFit seen → IsProblem (problem_of_seen d seen) }
{}
