// Why a declaration is refused.
ghost use Rattle.std.specs.Prelude.{◌≡◌};
ghost use Rattle.decl.specs.declared.errors.DeclError.TheVariants.{Memory};

use std::alloc::{AllocError, AllocFailed};
use std::fmt;

/// A part of a declaration.
#[derive(Clone, Copy, Debug, PartialEq, Eq)]
pub enum Section {
    /// The document itself.
    Top,
    /// The table of hosts.
    Hosts,
    /// The table of labels.
    Labels,
    /// The array of links.
    Links,
}

impl fmt::Display for Section {
    fn fmt<W: fmt::Write>(&self, f: &mut fmt::Formatter<W>) -> fmt::Result {
        f.write_str(match self {
            Section::Top => "top",
            Section::Hosts => "hosts",
            Section::Labels => "labels",
            Section::Links => "links",
        })
    }
}

/// Why a declaration is refused.
#[derive(Clone, Copy, Debug, PartialEq, Eq, thiserror::Error)]
pub enum DeclError {
    /// Its first fault.
    #[error("{number} {section} {index}")]
    Fault {
        /// What is wrong: 1, no document; 2, a key that may not stand there, or a missing one; 3, a value of another
        /// shape; 4, a name; 5, a number, or one entry too many; 6, an address; 7, the source; 8, too many bytes;
        /// 9, an address on both sides of a label.
        number: u32,
        /// Where it is.
        section: Section,
        /// Which entry of the section it is, counted from 1; 0 at the top.
        index: u32,
    },
    /// Memory ran out.
    #[error("out of memory")]
    Memory,
}

impl From<AllocError> for DeclError {
    ghost from_gives = { λ _ e. e ≡ Memory };

    fn from(_: AllocError) -> DeclError {
        DeclError::Memory
    }
}

impl<T: Drop> From<AllocFailed<T>> for DeclError {
    ghost from_gives = { λ _ e. e ≡ Memory };

    fn from(_: AllocFailed<T>) -> DeclError {
        DeclError::Memory
    }
}
