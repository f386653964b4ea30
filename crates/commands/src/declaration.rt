// The declaration in a file.
ghost use Rattle.std.specs.Prelude.{IfOk, IfErr};
ghost use Rattle.ports.specs.Files.{Keeps};
ghost use Rattle.decl.specs.Declaration.{IsDeclaration, declaration_of};
ghost use Rattle.commands.specs.Sessions.{IsDeclaredAt, IsUndeclared};

use decl::{Decl, DeclError, Section, read_decl};
use ports::{FileFault, Files, read_file};
use std::alloc::Global;

/// The greatest number of bytes of a declaration.
const MOST: u64 = 1 << 24;

/// Why a file gave no declaration.
#[derive(Clone, Copy, Debug)]
pub enum Undeclared {
    /// Its first fault: the number of what is wrong, the section and the index there.
    Faulty(u32, Section, u32),
    /// It is not there, or a read failed.
    Unread,
    /// Memory ran out.
    Memory,
}

/// The file of a declaration, with the memory for what stands there.
#[derive(Clone, Copy)]
pub struct DeclFile<'a> {
    /// Where memory comes from.
    pub alloc: Global,
    /// The path of the file.
    pub path: &'a str,
}

/// The declaration in a file, or why there is none.
pub fn decl_in<F: Files>(alloc: Global, files: &mut F, path: &str) -> Result<Decl, Undeclared>
    ensures lawful { IfOk result (λ d. IsDeclaration (declaration_of d)) }
    ensures ok { IfOk result (λ d. IsDeclaredAt (F.told files.old).content path.now (declaration_of d)) }
    ensures err { IfErr result (IsUndeclared path.now (F.told files.old) (F.told files.new)) }
    ensures keeps { Keeps (F.told files.old) (F.told files.new) }
{
    let file = match read_file(alloc, files, path, MOST) {
        Ok(file) => file,
        Err(FileFault::Memory) => return Err(Undeclared::Memory),
        Err(_) => return Err(Undeclared::Unread),
    };
    if file.more {
        return Err(Undeclared::Faulty(8, Section::Top, 0));
    }
    match read_decl(alloc, &file.bytes) {
        Ok(decl) => Ok(decl),
        Err(
            DeclError::Fault {
                number,
                section,
                index,
            },
        ) => Err(Undeclared::Faulty(number, section, index)),
        Err(DeclError::Memory) => Err(Undeclared::Memory),
    }
}
