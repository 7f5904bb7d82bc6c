//! What modules and interfaces declare.

ghost use Rattle.std.specs.Prelude.{◌≡◌, ◌≤◌, length, Ok};
ghost use Rattle.idl_tree.specs.Lists.{parts};
ghost use Rattle.lowered_types.specs.Declarations.{ahead, declaration, except, exception_added, id_member, type_dcl, with_typedef};
ghost use Rattle.lowered_types.specs.Faults.{Tells, each};
ghost use Rattle.lowered_types.specs.Types.{with_members_of};

use crate::fault::BuildFault;
use crate::members::MemberList;
use crate::place::Place;
use crate::readings::declared_entry;
use crate::simple::{lower_arrays, lower_const_type, lower_enum};
use crate::table::TypeTable;
use crate::types::{lower_member, lower_struct, lower_type, lower_union};
use idl_tree::definitions::{Declaration, Except, TypeDcl};
use idl_tree::names::{At, Leaf, Listed};
use idl_tree::types::Declarator;
use scoped_names::{Names, Scope};
use std::alloc::Global;
use type_graph::{Node, basic_types};
use type_paths::NodeSites;

/// The first member of an exception's frame, its repository id.
fn id_member(alloc: Global, at: At) -> Result<MemberList, BuildFault>
    ensures { Tells result (λ members. members) (Ok (id_member at)) }
{
    MemberList::new(alloc).with_member(alloc, "_id", basic_types::STRING, at)
}

impl TypeTable {
    /// The frame of an exception with these members.
    fn add_exception(&mut self, entry: usize, members: MemberList, at: At) -> Result<(), BuildFault>
        ensures { Tells result (λ u. self.new) (exception_added (with_members_of self.old members) entry at) }
    {
        self.count_members(members.len(), at)?;
        let (members, names, held) = members.into_parts();
        let frame = self.add(Node::Frame { members }, names, NodeSites::new(at, held))?;
        self.raise(entry, frame)
    }

    /// What is lowered behind a declaration of a module or an interface.
    ///
    /// # Errors
    /// The first fault in the order of reading; want of memory.
    pub fn with_declaration<'a>(
        self,
        alloc: Global,
        names: &Names<'a>,
        scope: Scope,
        d: &Declaration<'a>,
    ) -> Result<TypeTable, BuildFault>
        requires { scope.0 ≤ length names.now.entries }
        ensures { Tells result (λ table. table) (declaration names.now.entries self scope.0 d.now) }
    {
        let mut table = self;
        lower_declaration(names, &mut table, alloc, scope, d)?;
        Ok(table)
    }
}

/// A name for the type that has the number, or for an array of it.
fn lower_typedef<'a>(
    names: &Names<'a>,
    table: &mut TypeTable,
    alloc: Global,
    scope: Scope,
    number: u32,
    declarator: &Declarator<'a>,
) -> Result<(), BuildFault>
    requires { scope.0 ≤ length names.now.entries }
    ensures { Tells result (λ u. table.new) (with_typedef names.now.entries scope.0 number table.old declarator.now) }
{
    let number = lower_arrays(names, table, alloc, scope, number, declarator)?;
    let entry = declared_entry(names, scope, declarator.identifier)?;
    table.put(entry, Place::Typed(number))
}

fn lower_typedefs<'a>(
    names: &Names<'a>,
    table: &mut TypeTable,
    alloc: Global,
    scope: Scope,
    number: u32,
    declarators: &Listed<Declarator<'a>>,
) -> Result<(), BuildFault>
    requires { scope.0 ≤ length names.now.entries }
    ensures { Tells result (λ u. table.new)
        (each (with_typedef names.now.entries scope.0 number) table.old (parts declarators.now)) }
{
    for declarator in declarators.iter() {
        lower_typedef(names, table, alloc, scope, number, declarator)?;
    }
    Ok(())
}

/// A structure or a union that is declared ahead.
fn lower_ahead<'a>(
    names: &Names<'a>,
    table: &mut TypeTable,
    alloc: Global,
    scope: Scope,
    identifier: Leaf<'a>,
) -> Result<(), BuildFault>
    ensures { Tells result (λ u. table.new) (ahead names.now.entries table.old scope.0 identifier.entry) }
{
    let entry = declared_entry(names, scope, identifier)?;
    table.declare(alloc, entry, identifier.at())?;
    Ok(())
}

fn lower_type_dcl<'a>(
    names: &Names<'a>,
    table: &mut TypeTable,
    alloc: Global,
    scope: Scope,
    t: &TypeDcl<'a>,
) -> Result<(), BuildFault>
    requires { scope.0 ≤ length names.now.entries }
    ensures { Tells result (λ u. table.new) (type_dcl names.now.entries table.old scope.0 t.now) }
{
    match t {
        TypeDcl::Typedef {
            original,
            declarators,
        } => {
            let at = declarators.first.identifier.at();
            let number = lower_type(names, table, alloc, scope, at, original)?;
            lower_typedefs(names, table, alloc, scope, number, declarators)
        }
        TypeDcl::Struct(s) => {
            lower_struct(names, table, alloc, scope, s)?;
            Ok(())
        }
        TypeDcl::Union(u) => {
            lower_union(names, table, alloc, scope, u)?;
            Ok(())
        }
        TypeDcl::Enum(e) => {
            lower_enum(names, table, alloc, scope, e)?;
            Ok(())
        }
        TypeDcl::StructAhead(identifier) => lower_ahead(names, table, alloc, scope, *identifier),
        TypeDcl::UnionAhead(identifier) => lower_ahead(names, table, alloc, scope, *identifier),
    }
}

fn lower_except<'a>(
    names: &Names<'a>,
    table: &mut TypeTable,
    alloc: Global,
    scope: Scope,
    e: &Except<'a>,
) -> Result<(), BuildFault>
    requires { scope.0 ≤ length names.now.entries }
    ensures { Tells result (λ u. table.new) (except names.now.entries table.old scope.0 e.now) }
{
    let at = e.identifier.at();
    let entry = declared_entry(names, scope, e.identifier)?;
    let inside = Scope(entry + 1);
    let mut members = id_member(alloc, at)?;
    for member in &e.members {
        lower_member(names, table, alloc, inside, member, &mut members)?;
    }
    table.add_exception(entry, members, at)
}

/// A declaration of a module or an interface.
fn lower_declaration<'a>(
    names: &Names<'a>,
    table: &mut TypeTable,
    alloc: Global,
    scope: Scope,
    d: &Declaration<'a>,
) -> Result<(), BuildFault>
    requires { scope.0 ≤ length names.now.entries }
    ensures { Tells result (λ u. table.new) (declaration names.now.entries table.old scope.0 d.now) }
{
    match d {
        Declaration::TypeDcl(t) => lower_type_dcl(names, table, alloc, scope, t),
        Declaration::Const(c) => {
            lower_const_type(names, table, alloc, scope, &c.const_type)?;
            Ok(())
        }
        Declaration::Except(e) => lower_except(names, table, alloc, scope, e),
    }
}
