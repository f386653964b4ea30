// What is wrong in a declaration.
ghost use Rattle.std.specs.Prelude.{◌≡◌};
ghost use Rattle.decl.specs.Causes.{cause_number, fault_of_entry};

use crate::{DeclError, Section};

// What is wrong with a document or one of its entries.
#[derive(Clone, Copy, Debug, PartialEq, Eq)]
pub(crate) enum Cause {
    // It is no TOML document.
    Document,
    // A key may not stand there, or one is missing.
    Key,
    // A value has another shape.
    Shape,
    // A name is misspelled, unknown, or stands there once more.
    Name,
    // A number is out of its range, or there are too many entries.
    Number,
    // An address is misspelled, or stands there once more.
    Address,
    // The source is no clock that shows true time.
    Source,
    // There are too many bytes.
    Size,
    // Addresses are said to be on both sides of where a trace was taken.
    Sides,
}

impl Cause {
    // The number by which it is told.
    fn number(self) -> u32
        ensures { result ≡ cause_number self }
    {
        match self {
            Cause::Document => 1,
            Cause::Key => 2,
            Cause::Shape => 3,
            Cause::Name => 4,
            Cause::Number => 5,
            Cause::Address => 6,
            Cause::Source => 7,
            Cause::Size => 8,
            Cause::Sides => 9,
        }
    }

    // The fault of the entry of a section with this index.
    pub(crate) fn at(self, section: Section, index: u32) -> DeclError
        ensures { result ≡ fault_of_entry section index self }
    {
        DeclError::Fault {
            number: self.number(),
            section,
            index,
        }
    }
}
