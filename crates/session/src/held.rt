// What a session holds.
ghost use Rattle.std.specs.Prelude.{◌≡◌, length, map};
ghost use Rattle.decl.specs.Declaration.{declaration_of};
ghost use Rattle.session.specs.Stands.{under_of};

use crate::Session;
use decl::Decl;
use session_answers::decl_of;
use traces::Accepted;

impl Session {
    /// Its declaration.
    pub fn decl(&self) -> &Decl
        ensures { declaration_of result.now ≡ self.now.declaration }
    {
        decl_of(&self.answers)
    }

    /// What was accepted under each label, by the place of the label in the declaration.
    pub fn under(&self) -> &[Accepted]
        ensures held { map under_of result.now ≡ self.now.under }
        ensures each { length result.now ≡ length self.now.declaration.labels }
    {
        &self.accepted
    }
}
