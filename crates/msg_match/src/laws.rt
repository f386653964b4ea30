// What is true of messages.
ghost use Rattle.std.specs.Prelude.{◌≡◌, List, true, false, Contains};
ghost use Rattle.msg_match.specs.Groups.{SeenItem, group_of, is_matched};
ghost use Rattle.msg_match.specs.Messages.{IsMessage, IsEnd};
ghost use Rattle.msg_match.specs.declared.change.Couple.{Couple};
ghost use Rattle.msg_match.specs.Changes.{HaveOwnNumbers};

/// A law, which does nothing when it runs: an event whose key has one send and one receive is an end of a message, and
/// every other event is an end of none.
pub fn matched_events_are_ends()
    ensures ends { (items : List SeenItem) (x : SeenItem) → Contains items x → is_matched (group_of items x.key) ≡ true → (m : Couple) × IsMessage items m × IsEnd x m }
    ensures others { (items : List SeenItem) (x : SeenItem) → HaveOwnNumbers items → Contains items x → is_matched (group_of items x.key) ≡ false → (m : Couple) → IsMessage items m → IsEnd x m → ⊥ }
{}
