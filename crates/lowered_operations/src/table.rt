//! The operations that are lowered so far.

ghost use Rattle.std.specs.Prelude.{◌≡◌, ◌≤◌, length, replicate, None, Ok};
ghost use Rattle.lowered_types.specs.Faults.{Tells};
ghost use Rattle.lowered_operations.specs.Operations.{declared, requested, undefined_yet, with_call, with_place};

use crate::frames::{Carried, lower_frames};
use crate::signature::{Offered, Role, Signature};
use idl_tree::definitions::Declaration;
use idl_tree::names::At;
use lowered_types::{BuildFault, Place, TypeTable};
use scoped_names::{Names, Scope};
use std::alloc::Global;
use std::marker::Model;
use type_graph::Items;

/// The types and operations that are lowered so far. A contract sees them, and what each entry has
/// that is a defined interface.
#[derive(Drop)]
pub struct OperationTable {
    pub(crate) types: TypeTable,
    pub(crate) operations: Vec<Signature>,
    pub(crate) interfaces: Vec<Option<Offered>>,
}

impl Model for OperationTable {
    ghost use Rattle.lowered_operations.specs.Operations.{Defined};

    ghost Value = { Defined };

    ghost view = { λ t. record { types = t.types; operations = t.operations.items; interfaces = t.interfaces.items } };
}

/// What entries have of which none is a defined interface.
fn no_interfaces(alloc: Global, entries: usize) -> Result<Vec<Option<Offered>>, BuildFault>
    ensures { Tells result (λ interfaces. interfaces.items) (Ok (replicate entries None)) }
{
    let mut interfaces = Vec::with_capacity(alloc, entries)?;
    for _ in 0..entries {
        interfaces.push(None)?;
    }
    Ok(interfaces)
}

impl OperationTable {
    /// The types of every specification and no operations, where there are so many entries.
    ///
    /// # Errors
    /// Want of memory.
    pub(crate) fn new(alloc: Global, entries: usize) -> Result<OperationTable, BuildFault>
        ensures { Tells result (λ table. table) (Ok (undefined_yet entries)) }
    {
        let interfaces = no_interfaces(alloc, entries)?;
        let types = TypeTable::new(alloc, entries)?;
        let operations = Vec::new(alloc);
        Ok(OperationTable {
            types,
            operations,
            interfaces,
        })
    }

    /// One more way to call an entry that stands there; gives the number of the request's
    /// frame.
    ///
    /// # Errors
    /// Those of `lower_frames`, want of memory.
    pub(crate) fn with_call(
        self,
        carried: Carried,
        is_oneway: bool,
        raises: Vec<usize>,
        role: Role,
        entry: usize,
        at: At,
    ) -> Result<(OperationTable, u32), BuildFault>
        ensures { Tells result (λ r. requested r.0 r.1)
            (with_call self carried is_oneway raises.items role entry at) }
    {
        let OperationTable {
            types,
            mut operations,
            interfaces,
        } = self;
        let (types, request) = lower_frames(types, carried, at)?;
        operations.push(Signature {
            entry,
            role,
            is_oneway,
            request,
            raises: Items::new(raises),
        })?;
        let table = OperationTable {
            types,
            operations,
            interfaces,
        };
        Ok((table, request))
    }

    /// An entry has this from now on. Takes no memory.
    ///
    /// # Errors
    /// `OtherNames` where there is no such entry.
    pub(crate) fn with_place(self, entry: usize, place: Place) -> Result<OperationTable, BuildFault>
        ensures { Tells result (λ table. table) (with_place self entry place) }
    {
        let OperationTable {
            types,
            operations,
            interfaces,
        } = self;
        let types = types.with_place(entry, place)?;
        Ok(OperationTable {
            types,
            operations,
            interfaces,
        })
    }

    /// What is lowered behind a declaration of a module or an interface.
    ///
    /// # Errors
    /// Those of `TypeTable::with_declaration`.
    pub(crate) fn with_declaration<'a>(
        self,
        alloc: Global,
        names: &Names<'a>,
        scope: Scope,
        d: &Declaration<'a>,
    ) -> Result<OperationTable, BuildFault>
        requires { scope.0 ≤ length names.now.entries }
        ensures { Tells result (λ table. table) (declared names.now.entries scope.0 self d.now) }
    {
        let OperationTable {
            types,
            operations,
            interfaces,
        } = self;
        let types = types.with_declaration(alloc, names, scope, d)?;
        Ok(OperationTable {
            types,
            operations,
            interfaces,
        })
    }

    /// Gives the types, the operations and what interfaces have back. Takes no memory.
    pub fn into_parts(self) -> (TypeTable, Vec<Signature>, Vec<Option<Offered>>)
        ensures types { result.0 ≡ self.types }
        ensures operations { result.1.items ≡ self.operations }
        ensures interfaces { result.2.items ≡ self.interfaces }
    {
        (self.types, self.operations, self.interfaces)
    }
}
