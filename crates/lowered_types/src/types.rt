//! Structures, unions and their members.

ghost use Rattle.std.specs.Prelude.{◌≡◌, ◌≤◌, length};
ghost use Rattle.lowered_types.specs.Faults.{Tells};
ghost use Rattle.lowered_types.specs.Types.{cases_of, struct_defined, struct_type, type_spec, union_defined, union_type, with_case_of, with_declarator, with_declarators, with_member, with_members_of};
ghost use Rattle.lowered_types.specs.Lowered.{already};

use crate::arms::ArmList;
use crate::fault::BuildFault;
use crate::labels::{Switch, lower_switch, read_labels};
use crate::members::MemberList;
use crate::readings::declared_entry;
use crate::simple::{lower_arrays, lower_enum, lower_simple};
use crate::table::TypeTable;
use idl_tree::names::{At, Listed};
use idl_tree::types::{Case, Declarator, Member, StructType, SwitchType, TypeSpec, UnionType};
use scoped_names::{Names, Scope};
use std::alloc::Global;
use type_graph::{Arms, Node};
use type_model::Name;

impl TypeTable {
    /// A structure has these members.
    fn define_struct(&mut self, number: u32, members: MemberList, at: At) -> Result<(), BuildFault>
        ensures { Tells result (λ u. self.new) (struct_defined (with_members_of self.old members) number at) }
    {
        self.count_members(members.len(), at)?;
        let (members, names, sites) = members.into_parts();
        self.define(number, Node::Struct { members }, names, sites)
    }

    /// A union has this discriminator and these arms.
    fn define_union(
        &mut self,
        alloc: Global,
        number: u32,
        switch: Switch,
        arms: ArmList,
        at: At,
    ) -> Result<(), BuildFault>
        ensures { Tells result (λ u. self.new) (union_defined switch (cases_of self.old arms) number at) }
    {
        arms.check_default(switch)?;
        self.count_members(arms.len(), at)?;
        let union = Node::Union {
            switch: switch.number,
            arms: Arms::new(arms.numbers(alloc)?),
            default: arms.default_number(),
        };
        let sites = arms.sites(alloc)?;
        self.define(number, union, arms.into_names(), sites)
    }
}

/// One member more, of the type that has the number.
fn lower_declarator<'a>(
    names: &Names<'a>,
    table: &mut TypeTable,
    alloc: Global,
    scope: Scope,
    number: u32,
    declarator: &Declarator<'a>,
    members: &mut MemberList,
) -> Result<(), BuildFault>
    requires { scope.0 ≤ length names.now.entries }
    ensures { Tells result (λ u. with_members_of table.new members.new)
        (with_declarator names.now.entries scope.0 number (with_members_of table.old members.old) declarator.now) }
{
    let at = declarator.identifier.at();
    let number = lower_arrays(names, table, alloc, scope, number, declarator)?;
    members.push(alloc, declarator.identifier.name(), number, at)
}

/// Members of the type that has the number.
fn lower_declarators<'a>(
    names: &Names<'a>,
    table: &mut TypeTable,
    alloc: Global,
    scope: Scope,
    number: u32,
    declarators: &Listed<Declarator<'a>>,
    members: &mut MemberList,
) -> Result<(), BuildFault>
    requires { scope.0 ≤ length names.now.entries }
    ensures { Tells result (λ u. with_members_of table.new members.new)
        (with_declarators names.now.entries scope.0 (already table.old number) members.old declarators.now) }
{
    for declarator in declarators.iter() {
        lower_declarator(names, table, alloc, scope, number, declarator, members)?;
    }
    Ok(())
}

/// A type of a declarator that stands there, and what it declares; gives its number.
///
/// # Errors
/// The first fault in the order of reading.
#[cycle(types)]
pub(crate) fn lower_type<'a>(
    names: &Names<'a>,
    table: &mut TypeTable,
    alloc: Global,
    scope: Scope,
    at: At,
    t: &TypeSpec<'a>,
) -> Result<u32, BuildFault>
    requires { scope.0 ≤ length names.now.entries }
    ensures { Tells result (already table.new) (type_spec names.now.entries table.old scope.0 at t.now) }
{
    match t {
        TypeSpec::Simple(simple) => lower_simple(names, table, alloc, scope, at, simple),
        TypeSpec::Struct(s) => lower_struct(names, table, alloc, scope, s),
        TypeSpec::Union(u) => lower_union(names, table, alloc, scope, u),
        TypeSpec::Enum(e) => lower_enum(names, table, alloc, scope, e),
    }
}

/// Members of one type.
#[cycle(types)]
pub(crate) fn lower_member<'a>(
    names: &Names<'a>,
    table: &mut TypeTable,
    alloc: Global,
    scope: Scope,
    member: &Member<'a>,
    members: &mut MemberList,
) -> Result<(), BuildFault>
    requires { scope.0 ≤ length names.now.entries }
    ensures { Tells result (λ u. with_members_of table.new members.new)
        (with_member names.now.entries scope.0 (with_members_of table.old members.old) member.now) }
{
    let at = member.declarators.first.identifier.at();
    let number = lower_type(names, table, alloc, scope, at, &member.member_type)?;
    lower_declarators(
        names,
        table,
        alloc,
        scope,
        number,
        &member.declarators,
        members,
    )
}

#[cycle(types)]
pub(crate) fn lower_struct<'a>(
    names: &Names<'a>,
    table: &mut TypeTable,
    alloc: Global,
    scope: Scope,
    s: &StructType<'a>,
) -> Result<u32, BuildFault>
    requires { scope.0 ≤ length names.now.entries }
    ensures { Tells result (already table.new) (struct_type names.now.entries table.old scope.0 s.now) }
{
    let at = s.identifier.at();
    let entry = declared_entry(names, scope, s.identifier)?;
    let number = table.declare(alloc, entry, at)?;
    let inside = Scope(entry + 1);
    let mut members = MemberList::with_room(alloc, s.rest.len().saturating_add(1))?;
    lower_member(names, table, alloc, inside, &s.first, &mut members)?;
    for member in &s.rest {
        lower_member(names, table, alloc, inside, member, &mut members)?;
    }
    table.define_struct(number, members, at)?;
    Ok(number)
}

/// A member of a union: first its labels are judged, then its type is read.
#[cycle(types)]
fn lower_case<'a>(
    names: &Names<'a>,
    table: &mut TypeTable,
    alloc: Global,
    scope: Scope,
    switch: Switch,
    case: &Case<'a>,
    arms: &mut ArmList,
) -> Result<(), BuildFault>
    requires { scope.0 ≤ length names.now.entries }
    ensures { Tells result (λ u. cases_of table.new arms.new)
        (with_case_of names.now.entries scope.0 switch (cases_of table.old arms.old) case.now) }
{
    let at = case.declarator.identifier.at();
    let labels = read_labels(alloc, names, scope, switch, arms, &case.labels)?;
    let element = lower_type(names, table, alloc, scope, at, &case.member_type)?;
    let number = lower_arrays(names, table, alloc, scope, element, &case.declarator)?;
    let name = Name::copied(alloc, case.declarator.identifier.name())?;
    arms.add_case(name, number, at, &labels)?;
    Ok(())
}

#[cycle(types)]
pub(crate) fn lower_union<'a>(
    names: &Names<'a>,
    table: &mut TypeTable,
    alloc: Global,
    scope: Scope,
    u: &UnionType<'a>,
) -> Result<u32, BuildFault>
    requires { scope.0 ≤ length names.now.entries }
    ensures { Tells result (already table.new) (union_type names.now.entries table.old scope.0 u.now) }
{
    let at = u.identifier.at();
    let entry = declared_entry(names, scope, u.identifier)?;
    let number = table.declare(alloc, entry, at)?;
    let inside = Scope(entry + 1);
    let chosen: &SwitchType<'a> = &u.switch;
    let switch = lower_switch(names, table, alloc, inside, at, chosen)?;
    let mut arms = ArmList::new(alloc);
    lower_case(names, table, alloc, inside, switch, &u.first, &mut arms)?;
    for case in &u.rest {
        lower_case(names, table, alloc, inside, switch, case, &mut arms)?;
    }
    table.define_union(alloc, number, switch, arms, at)?;
    Ok(number)
}
