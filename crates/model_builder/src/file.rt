//! The model of a whole file.

ghost use Rattle.std.specs.Prelude.{IfErr, IfOk};
ghost use Rattle.scoped_names.specs.FileNames.{AreNames};
ghost use Rattle.model_builder.specs.Faults.{IsRefused};
ghost use Rattle.model_builder.specs.inner.Own.{IsLowered};
ghost use Rattle.model_builder.specs.Shown.{AreParts, Shows};

use crate::fault::ModelFault;
use crate::model::{Built, built_of};
use idl_tree::spec::Spec;
use lowered_operations::{OperationTable, lower_file};
use lowered_types::BuildFault;
use scoped_names::Names;
use std::alloc::Global;

/// What the file is lowered to.
fn lowered<'a>(
    alloc: Global,
    spec: &Spec<'a>,
    names: &Names<'a>,
) -> Result<OperationTable, ModelFault>
    requires { AreNames spec.now.definitions.items names.now }
    ensures lowered { IfOk result (IsLowered spec.now.definitions.items names.now) }
    ensures refused { IfErr result (IsRefused spec.now.definitions.items names.now) }
{
    match lower_file(alloc, names, spec) {
        Ok(table) => Ok(table),
        Err(BuildFault::Types(fault)) => Err(ModelFault::Types(fault)),
        Err(BuildFault::NoMemory) => Err(ModelFault::NoMemory),
        Err(BuildFault::OtherNames) => unreachable!(),
    }
}

/// The model of a file whose names are those that `bind` gave for it: its types with their names,
/// its interfaces, operations and exceptions; and for each node the names of its parts.
///
/// # Errors
/// The first fault of the file's types in the order of reading, with its line; a type that holds
/// itself and too long a path come last. Want of memory.
pub fn build<'a>(alloc: Global, spec: &Spec<'a>, names: &Names<'a>) -> Result<Built, ModelFault>
    requires { AreNames spec.now.definitions.items names.now }
    ensures shows { IfOk result (λ built. Shows spec.now.definitions.items names.now built.model) }
    ensures named { IfOk result (λ built. AreParts spec.now.definitions.items names.now built.parts) }
    ensures refused { IfErr result (IsRefused spec.now.definitions.items names.now) }
{
    let table = lowered(alloc, spec, names)?;
    let (types, operations, interfaces) = table.into_parts();
    built_of(alloc, names, types, operations, interfaces)
}
