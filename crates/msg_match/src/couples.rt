// Messages, each once.
ghost use Rattle.std.specs.Prelude.{◌≡◌, ◌++◌, ◌∷◌, [], None, OnOk, IfOk, position};
ghost use Rattle.std.specs.List.{list_any};
ghost use Rattle.msg_match.specs.Parts.{is_same_couple, left_of, noted};

use crate::Couple;
use interner::Places;
use std::alloc::{AllocError, Global};
use std::marker::Model;

/// Different messages, in the order in which they came.
#[derive(Drop)]
pub(crate) struct Couples {
    places: Places<Couple>,
    list: Vec<Couple>,
}

impl Model for Couples {
    ghost use Rattle.std.specs.Prelude.{◌≡◌, List};
    ghost use Rattle.msg_match.specs.declared.change.Couple.{Couple};

    ghost Value = { List Couple };

    ghost view = { λ c. c.list.items };

    ghost invariant = { λ c. c.places ≡ c.list.items };
}

impl Couples {
    // None yet. It takes no memory.
    pub(crate) fn new(alloc: Global) -> Couples
        ensures { result ≡ [] }
    {
        Couples {
            places: Places::new(alloc),
            list: Vec::new(alloc),
        }
    }

    // Appends a message that is not there; an error where memory runs out.
    fn push(&mut self, couple: Couple) -> Result<(), AllocError>
        requires new { position (is_same_couple couple) self.old ≡ None }
        ensures { OnOk result (self.new ≡ self.old ++ couple ∷ []) }
    {
        self.list.reserve(1)?;
        self.places.push(couple)?;
        self.list.push_reserved(couple);
        Ok(())
    }

    // Appends a message where there is one that is not there yet; an error where memory runs out.
    pub(crate) fn note(&mut self, couple: Option<Couple>) -> Result<(), AllocError>
        ensures { OnOk result (self.new ≡ noted self.old couple) }
    {
        match couple {
            None => Ok(()),
            Some(couple) => match self.places.place(&couple) {
                Some(_) => Ok(()),
                None => self.push(couple),
            },
        }
    }

    // Whether a message is there.
    fn has(&self, couple: &Couple) -> bool
        ensures { result ≡ list_any (is_same_couple couple.now) self.now }
    {
        self.places.place(couple).is_some()
    }

    // Those that are not among others, in their order; an error where memory runs out.
    pub(crate) fn without(&self, others: &Couples) -> Result<Vec<Couple>, AllocError>
        ensures { IfOk result (λ left. left.items ≡ left_of others.now self.now) }
    {
        let mut left = Vec::new(*self.list.allocator());
        for couple in &self.list {
            if !others.has(couple) {
                left.push(*couple)?;
            }
        }
        Ok(left)
    }

    // All of them.
    pub(crate) fn into_list(self) -> Vec<Couple>
        ensures { result.items ≡ self }
    {
        self.list
    }
}
