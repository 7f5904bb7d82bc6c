//! Attributes.

ghost use Rattle.std.specs.Prelude.{◌≡◌, ◌≤◌, length};
ghost use Rattle.idl_tree.specs.Lists.{parts};
ghost use Rattle.lowered_types.specs.Faults.{Tells, each};
ghost use Rattle.lowered_operations.specs.Operations.{attribute_identifiers, attribute, is_set as are_set, requested, with_access, with_attribute, with_get, with_set};

use crate::frames::{Carried, RESULT};
use crate::raised::{find_get_raised, find_set_raised};
use crate::signature::Role;
use crate::table::OperationTable;
use idl_tree::definitions::{Attribute, Attributes, Direction};
use idl_tree::names::{At, Leaf, Listed};
use lowered_types::{BuildFault, Place, declared_entry};
use scoped_names::{Names, Scope};
use std::alloc::Global;

/// Whether attributes that are declared together are set too.
fn is_set(declared: &Attributes<'_>) -> bool
    ensures { result ≡ are_set declared.now }
{
    match declared {
        Attributes::Silent { is_readonly, .. } => !*is_readonly,
        Attributes::Readonly { .. } => false,
        Attributes::Get { .. } | Attributes::Set { .. } => true,
    }
}

impl OperationTable {
    /// An attribute of the type that has the number is got; gives the frame of the request.
    fn with_get(
        self,
        alloc: Global,
        number: u32,
        raises: Vec<usize>,
        entry: usize,
        at: At,
    ) -> Result<(OperationTable, u32), BuildFault>
        ensures { Tells result (λ r. requested r.0 r.1) (with_get self number raises.items entry at) }
    {
        let carried = Carried::new(alloc).with_type(alloc, RESULT, Direction::Out, number, at)?;
        self.with_call(carried, false, raises, Role::Getting, entry, at)
    }

    /// The attribute of the name is set.
    fn with_set(
        self,
        alloc: Global,
        name: &str,
        number: u32,
        raises: Vec<usize>,
        entry: usize,
        at: At,
    ) -> Result<(OperationTable, u32), BuildFault>
        ensures { Tells result (λ r. requested r.0 r.1) (with_set self name.now number raises.items entry at) }
    {
        let carried = Carried::new(alloc).with_type(alloc, name, Direction::In, number, at)?;
        self.with_call(carried, false, raises, Role::Setting, entry, at)
    }

    /// An attribute that is got by the request is set too, if it may be.
    fn with_access(
        self,
        alloc: Global,
        request: u32,
        name: &str,
        number: u32,
        is_set: bool,
        raises: Vec<usize>,
        entry: usize,
        at: At,
    ) -> Result<OperationTable, BuildFault>
        ensures { Tells result (λ table. table)
            (with_access (requested self request) name.now number is_set raises.items entry at) }
    {
        if !is_set {
            return self.with_place(entry, Place::Got { request });
        }
        let (table, _) = self.with_set(alloc, name, number, raises, entry, at)?;
        table.with_place(entry, Place::GotAndSet { request })
    }

    /// One of the attributes that are declared together, of the type that has the number.
    fn with_one<'a>(
        self,
        alloc: Global,
        names: &Names<'a>,
        scope: Scope,
        number: u32,
        declared: &Attributes<'a>,
        identifier: Leaf<'a>,
    ) -> Result<OperationTable, BuildFault>
        requires { scope.0 ≤ length names.now.entries }
        ensures { Tells result (λ table. table)
            (with_attribute names.now.entries scope.0 number declared.now self identifier.entry) }
    {
        let at = identifier.at();
        let get = find_get_raised(names, &self.types, alloc, scope, declared)?;
        let set = find_set_raised(names, &self.types, alloc, scope, declared)?;
        let entry = declared_entry(names, scope, identifier)?;
        let (table, request) = self.with_get(alloc, number, get, entry, at)?;
        let name = identifier.name();
        table.with_access(
            alloc,
            request,
            name,
            number,
            is_set(declared),
            set,
            entry,
            at,
        )
    }

    /// Attributes that raise nothing.
    fn with_silent<'a>(
        self,
        alloc: Global,
        names: &Names<'a>,
        scope: Scope,
        number: u32,
        declared: &Attributes<'a>,
        identifiers: &Listed<Leaf<'a>>,
    ) -> Result<OperationTable, BuildFault>
        requires { scope.0 ≤ length names.now.entries }
        ensures { Tells result (λ table. table)
            (each (with_attribute names.now.entries scope.0 number declared.now) self (parts identifiers.now)) }
    {
        let mut table = self;
        for identifier in identifiers.iter() {
            table = table.with_one(alloc, names, scope, number, declared, *identifier)?;
        }
        Ok(table)
    }

    /// The attributes that are declared together, of the type that has the number.
    fn with_attributes<'a>(
        self,
        alloc: Global,
        names: &Names<'a>,
        scope: Scope,
        number: u32,
        declared: &Attributes<'a>,
    ) -> Result<OperationTable, BuildFault>
        requires { scope.0 ≤ length names.now.entries }
        ensures { Tells result (λ table. table)
            (each (with_attribute names.now.entries scope.0 number declared.now) self
            (attribute_identifiers declared.now)) }
    {
        match declared {
            Attributes::Silent { identifiers, .. } => {
                self.with_silent(alloc, names, scope, number, declared, identifiers)
            }
            Attributes::Readonly { identifier, .. }
            | Attributes::Get { identifier, .. }
            | Attributes::Set { identifier, .. } => {
                self.with_one(alloc, names, scope, number, declared, *identifier)
            }
        }
    }

    /// What is lowered behind attributes of one type.
    ///
    /// # Errors
    /// The first fault in the order of reading; want of memory.
    pub(crate) fn with_attribute<'a>(
        self,
        alloc: Global,
        names: &Names<'a>,
        scope: Scope,
        a: &Attribute<'a>,
    ) -> Result<OperationTable, BuildFault>
        requires { scope.0 ≤ length names.now.entries }
        ensures { Tells result (λ table. table) (attribute names.now.entries scope.0 self a.now) }
    {
        let OperationTable {
            types,
            operations,
            interfaces,
        } = self;
        let (types, number) = types.with_param_type(alloc, names, scope, &a.attribute_type)?;
        let table = OperationTable {
            types,
            operations,
            interfaces,
        };
        table.with_attributes(alloc, names, scope, number, &a.declared)
    }
}
