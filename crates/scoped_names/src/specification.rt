//! The names of a whole specification.

ghost use Rattle.std.specs.Prelude.{IfOk};
ghost use Rattle.name_table.specs.Entry.{AreDistinct};
ghost use Rattle.scoped_names.specs.Reading.{Gives};
ghost use Rattle.scoped_names.specs.FileNames.{names_of};

use crate::fault::NameFault;
use crate::names::Names;
use crate::reader::Reader;
use idl_tree::spec::Spec;
use std::alloc::Global;

/// The names of a specification: what it declares, each name once, at its first declaration, and
/// what its pragmas say of repository ids.
///
/// # Errors
///
/// The first fault in the order of reading, with its place; a type that was declared ahead and is
/// never defined comes last.
pub fn bind<'a>(alloc: Global, spec: &Spec<'a>) -> Result<Names<'a>, NameFault>
    ensures told { Gives result (names_of spec.now.definitions.items) }
    ensures distinct { IfOk result (λ names. AreDistinct names.entries) }
{
    let mut reader = Reader::new(alloc);
    match reader.read_whole(alloc, spec) {
        Ok(()) => Ok(reader.names()),
        Err(fault) => Err(fault),
    }
}
