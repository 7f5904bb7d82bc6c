//! Modules and whole files.

ghost use Rattle.std.specs.Prelude.{◌≤◌, length};
ghost use Rattle.lowered_types.specs.Faults.{Tells, each};
ghost use Rattle.lowered_operations.specs.Definitions.{defined_by, definition as definition_after};

use crate::table::OperationTable;
use idl_tree::definitions::Definition;
use idl_tree::spec::Spec;
use lowered_types::{BuildFault, declared_entry};
use scoped_names::{Names, Scope};
use std::alloc::Global;

impl OperationTable {
    #[cycle(definitions)]
    fn with_definition<'a>(
        self,
        alloc: Global,
        names: &Names<'a>,
        scope: Scope,
        definition: &Definition<'a>,
    ) -> Result<OperationTable, BuildFault>
        requires { scope.0 ≤ length names.now.entries }
        ensures { Tells result (λ table. table) (definition_after names.now.entries scope.0 self definition.now) }
    {
        match definition {
            Definition::Pragma(_) => Ok(self),
            Definition::Declaration(d) => self.with_declaration(alloc, names, scope, d),
            Definition::Interface(i) => self.with_interface(alloc, names, scope, i),
            Definition::Module(m) => {
                let entry = declared_entry(names, scope, m.identifier)?;
                let inside = Scope(entry + 1);
                self.with_definitions(alloc, names, inside, m.definitions.as_slice())
            }
        }
    }

    /// Definitions one behind another.
    #[cycle(definitions)]
    fn with_definitions<'a>(
        self,
        alloc: Global,
        names: &Names<'a>,
        scope: Scope,
        definitions: &[Definition<'a>],
    ) -> Result<OperationTable, BuildFault>
        requires { scope.0 ≤ length names.now.entries }
        ensures { Tells result (λ table. table)
            (each (definition_after names.now.entries scope.0) self definitions.now) }
    {
        let mut table = self;
        for definition in definitions {
            table = table.with_definition(alloc, names, scope, definition)?;
        }
        Ok(table)
    }
}

/// What a whole file is lowered to, whose names these are.
///
/// # Errors
/// The first fault in the order of reading; want of memory.
pub fn lower_file<'a>(
    alloc: Global,
    names: &Names<'a>,
    spec: &Spec<'a>,
) -> Result<OperationTable, BuildFault>
    ensures { Tells result (λ table. table) (defined_by names.now.entries spec.now.definitions.items) }
{
    let table = OperationTable::new(alloc, names.len())?;
    table.with_definitions(alloc, names, Scope::FILE, spec.definitions.as_slice())
}
