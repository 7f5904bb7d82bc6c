//! Interfaces.

ghost use Rattle.std.specs.Prelude.{◌≡◌, ◌≤◌, ◌<◌, ◌^◌, suc, length, option_copied, slice_get, Ok};
ghost use Rattle.name_table.specs.Entry.{bases_in};
ghost use Rattle.lowered_types.specs.Faults.{Tells, each};
ghost use Rattle.lowered_operations.specs.Interfaces.{all_bases, all_bases_of, as_reference, export as exported, exports_of as its_exports, identifier_of as its_identifier, inherited, interface as interface_after, interface_of, offering, operations_of, with_interface};

use crate::places::{insert_each, list_of, push_from};
use crate::signature::Offered;
use crate::table::OperationTable;
use idl_tree::definitions::{Export, Interface};
use idl_tree::names::Leaf;
use indexmap::IndexSet;
use lowered_types::{BuildFault, Place, declared_entry};
use scoped_names::{Names, Scope};
use std::alloc::Global;
use type_graph::{Items, basic_types};

/// The identifier of an interface.
fn identifier_of<'a>(interface: &Interface<'a>) -> Leaf<'a>
    ensures { result ≡ its_identifier interface.now }
{
    match interface {
        Interface::Ahead(identifier) => *identifier,
        Interface::Defined { identifier, .. } => *identifier,
    }
}

/// What stands in an interface that isn't only declared ahead.
fn exports_of<'i, 'a>(interface: &'i Interface<'a>) -> Option<&'i [Export<'a>]>
    ensures { option_copied result ≡ its_exports interface.now }
{
    match interface {
        Interface::Ahead(_) => None,
        Interface::Defined { exports, .. } => Some(exports.as_slice()),
    }
}

impl OperationTable {
    /// The places of the operations of an entry that is a defined interface, else none.
    fn operations_of(&self, entry: usize) -> &[usize]
        ensures { result.now ≡ operations_of self.now entry }
    {
        match self.interfaces.get(entry) {
            Some(Some(offered)) => offered.operations.as_slice(),
            _ => &[],
        }
    }

    /// The entries of all interfaces that an entry inherits from that is a defined interface.
    fn all_bases_of(&self, entry: usize) -> &[usize]
        ensures { result.now ≡ all_bases_of self.now entry }
    {
        match self.interfaces.get(entry) {
            Some(Some(offered)) => offered.bases.as_slice(),
            _ => &[],
        }
    }
}

/// The places of the operations that an interface inherits.
fn inherited<'a>(
    names: &Names<'a>,
    table: &OperationTable,
    alloc: Global,
    entry: usize,
) -> Result<Vec<usize>, BuildFault>
    requires { entry < length names.now.entries }
    ensures { Tells result (λ places. places.items)
        (Ok (inherited table.now (bases_in (slice_get names.now.entries entry)))) }
{
    let mut places = IndexSet::new(alloc);
    for k in 0..names.base_count(entry) {
        if let Some(base) = names.base(entry, k) {
            insert_each(&mut places, table.operations_of(base.entry))?;
        }
    }
    list_of(alloc, &places)
}

/// The entries of all interfaces that an interface inherits from.
fn all_bases<'a>(
    names: &Names<'a>,
    table: &OperationTable,
    alloc: Global,
    entry: usize,
) -> Result<Vec<usize>, BuildFault>
    requires { entry < length names.now.entries }
    ensures { Tells result (λ bases. bases.items)
        (Ok (all_bases table.now (bases_in (slice_get names.now.entries entry)))) }
{
    let mut all = IndexSet::new(alloc);
    for place in 0..names.base_count(entry) {
        if let Some(base) = names.base(entry, place) {
            all.insert(base.entry)?;
            insert_each(&mut all, table.all_bases_of(base.entry))?;
        }
    }
    list_of(alloc, &all)
}

/// What an interface has, whose first operation has the place.
fn offering<'a>(
    names: &Names<'a>,
    table: &OperationTable,
    alloc: Global,
    entry: usize,
    first: usize,
) -> Result<Offered, BuildFault>
    requires { entry < length names.now.entries }
    ensures { Tells result (λ offered. offered)
        (Ok (offering table.now first (bases_in (slice_get names.now.entries entry)))) }
{
    let mut places = inherited(names, table, alloc, entry)?;
    push_from(&mut places, first, table.operations.len())?;
    let bases = all_bases(names, table, alloc, entry)?;
    Ok(Offered {
        operations: Items::new(places),
        bases: Items::new(bases),
    })
}

impl OperationTable {
    fn with_export<'a>(
        self,
        alloc: Global,
        names: &Names<'a>,
        scope: Scope,
        export: &Export<'a>,
    ) -> Result<OperationTable, BuildFault>
        requires { scope.0 ≤ length names.now.entries }
        ensures { Tells result (λ table. table) (exported names.now.entries scope.0 self export.now) }
    {
        match export {
            Export::Pragma(_) => Ok(self),
            Export::Declaration(d) => self.with_declaration(alloc, names, scope, d),
            Export::Attribute(a) => self.with_attribute(alloc, names, scope, a),
            Export::Operation(o) => self.with_operation(alloc, names, scope, o),
        }
    }

    fn with_exports<'a>(
        self,
        alloc: Global,
        names: &Names<'a>,
        scope: Scope,
        exports: &[Export<'a>],
    ) -> Result<OperationTable, BuildFault>
        requires { scope.0 ≤ length names.now.entries }
        ensures { Tells result (λ table. table) (each (exported names.now.entries scope.0) self exports.now) }
    {
        let mut table = self;
        for export in exports {
            table = table.with_export(alloc, names, scope, export)?;
        }
        Ok(table)
    }

    /// An entry is an interface that has this.
    fn with_offered(self, entry: usize, offered: Offered) -> Result<OperationTable, BuildFault>
        ensures { Tells result (λ table. table) (with_interface self entry offered) }
    {
        let mut table = self;
        if entry >= table.interfaces.len() {
            return Err(BuildFault::OtherNames);
        }
        table.interfaces[entry] = Some(offered);
        Ok(table)
    }

    /// An entry is the name of object references from now on, or is it already. Takes no memory.
    ///
    /// # Errors
    /// `OtherNames` where there is no such entry, or one that has something else.
    fn with_reference(self, entry: usize) -> Result<OperationTable, BuildFault>
        ensures { Tells result (λ table. table) (as_reference self entry) }
    {
        match self.types.place(entry) {
            None => self.with_place(entry, Place::Typed(basic_types::OBJECT)),
            Some(Place::Typed(basic_types::OBJECT)) => Ok(self),
            Some(_) => Err(BuildFault::OtherNames),
        }
    }

    /// The interface of an entry, with what stands in it.
    fn with_body<'a>(
        self,
        alloc: Global,
        names: &Names<'a>,
        entry: usize,
        exports: &[Export<'a>],
    ) -> Result<OperationTable, BuildFault>
        requires there { entry < length names.now.entries }
        requires small { suc entry < 2 ^ 64 }
        ensures { Tells result (λ table. table) (interface_of names.now.entries self entry exports.now) }
    {
        let first = self.operations.len();
        let table = self.with_reference(entry)?;
        let table = table.with_exports(alloc, names, Scope(entry + 1), exports)?;
        let offered = offering(names, &table, alloc, entry, first)?;
        table.with_offered(entry, offered)
    }

    /// What is lowered behind an interface, declared ahead or defined.
    ///
    /// # Errors
    /// The first fault in the order of reading; want of memory.
    pub(crate) fn with_interface<'a>(
        self,
        alloc: Global,
        names: &Names<'a>,
        scope: Scope,
        interface: &Interface<'a>,
    ) -> Result<OperationTable, BuildFault>
        requires { scope.0 ≤ length names.now.entries }
        ensures { Tells result (λ table. table) (interface_after names.now.entries scope.0 self interface.now) }
    {
        let entry = declared_entry(names, scope, identifier_of(interface))?;
        match exports_of(interface) {
            Some(exports) => self.with_body(alloc, names, entry, exports),
            None => self.with_reference(entry),
        }
    }
}
