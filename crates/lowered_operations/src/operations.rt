//! Operations.

ghost use Rattle.std.specs.Prelude.{◌≤◌, length};
ghost use Rattle.lowered_types.specs.Faults.{Tells};
ghost use Rattle.lowered_operations.specs.Operations.{operation, with_operation};

use crate::frames::{Carried, Carrying, lower_carried};
use crate::oneway::check_oneway;
use crate::raised::find_all_raised;
use crate::signature::Role;
use crate::table::OperationTable;
use idl_tree::definitions::Operation;
use lowered_types::{BuildFault, Place, declared_entry};
use scoped_names::{Names, Scope};
use std::alloc::Global;

impl OperationTable {
    /// What an operation is lowered to behind the types that it carries.
    fn with_carried<'a>(
        self,
        alloc: Global,
        names: &Names<'a>,
        scope: Scope,
        carried: Carried,
        o: &Operation<'a>,
    ) -> Result<OperationTable, BuildFault>
        requires { scope.0 ≤ length names.now.entries }
        ensures { Tells result (λ table. table) (with_operation names.now.entries scope.0 self carried o.now) }
    {
        let at = o.identifier.at();
        let raises = find_all_raised(names, &self.types, alloc, scope, &o.raises)?;
        let entry = declared_entry(names, scope, o.identifier)?;
        let (table, request) = self.with_call(
            carried,
            o.is_oneway,
            raises,
            Role::Operation,
            entry,
            at,
        )?;
        table.with_place(entry, Place::Called { request })
    }

    /// What is lowered behind an operation.
    ///
    /// # Errors
    /// The first fault in the order of reading; want of memory.
    pub(crate) fn with_operation<'a>(
        self,
        alloc: Global,
        names: &Names<'a>,
        scope: Scope,
        o: &Operation<'a>,
    ) -> Result<OperationTable, BuildFault>
        requires { scope.0 ≤ length names.now.entries }
        ensures { Tells result (λ table. table) (operation names.now.entries scope.0 self o.now) }
    {
        check_oneway(o)?;
        let OperationTable {
            types,
            operations,
            interfaces,
        } = self;
        let Carrying { types, carried } = lower_carried(types, alloc, names, scope, o)?;
        let table = OperationTable {
            types,
            operations,
            interfaces,
        };
        table.with_carried(alloc, names, scope, carried, o)
    }
}
