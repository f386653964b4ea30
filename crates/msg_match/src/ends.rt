// What is true of the ends of messages while events are added.
ghost use Rattle.std.specs.Prelude.{◌≡◌, ◌≢◌, ◌≤◌, ◌+◌, ◌++◌, ℕ, List, [], All, AllPairs, length, slice_get, slice_set, Some};
ghost use Rattle.traces.specs.Seen.{Seen};
ghost use Rattle.msg_match.specs.declared.change.Change.{Change};
ghost use Rattle.msg_match.specs.Groups.{SeenItem};
ghost use Rattle.msg_match.specs.Changes.{AreMessagesAnew};
ghost use Rattle.traces.specs.declared.event_id.EventId.{EventId};
ghost use Rattle.traces.specs.Traces.{event_count};
ghost use Rattle.msg_match.specs.Ends.{AreChanges, AreEndsBy, ids_from, items_from};

/// A law, which does nothing when it runs: where there are no events there are no ends of messages; with events that
/// are added to those of a label, and numbered behind all, their ends are added; there are no more ends than events;
/// and what changes by numbers among such ends changes so by the names of the events, where no two have one name.
pub fn ends_grow()
    ensures none { (seen : List (List Seen)) → All (λ events. events ≡ []) seen → AreEndsBy [] [] seen }
    ensures grow { (seen : List (List Seen)) (label : ℕ) (old more : List Seen) (ids : List EventId) (items : List SeenItem) → slice_get seen label ≡ Some old → AreEndsBy ids items seen
        → AreEndsBy (ids ++ ids_from label (length old + 1) more) (items ++ items_from (length ids) more) (slice_set seen label (old ++ more)) }
    ensures few { (seen : List (List Seen)) (ids : List EventId) (items : List SeenItem) → AreEndsBy ids items seen → length items ≤ event_count seen }
    ensures changes { (ids more : List EventId) (items new : List SeenItem) (before after : List (List Seen)) (c : Change) → AllPairs (λ a b. a ≢ b) (ids ++ more) → AreEndsBy ids items before → AreEndsBy (ids ++ more) (items ++ new) after
        → AreMessagesAnew items (items ++ new) c.added.items → AreMessagesAnew (items ++ new) items c.withdrawn.items → AreChanges (ids ++ more) before after c }
{}
