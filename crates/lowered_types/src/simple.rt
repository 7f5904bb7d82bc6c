//! Types that declare nothing, arrays and enumerations.

ghost use Rattle.std.specs.Prelude.{◌≡◌, ◌≤◌, length, map, IfOk};
ghost use Rattle.idl_tree.specs.Lists.{parts};
ghost use Rattle.name_table.specs.Search.{word};
ghost use Rattle.lowered_types.specs.Faults.{Tells};
ghost use Rattle.lowered_types.specs.SimpleTypes.{array_type, arrays, const_type, enum_type, param_type, simple_type};
ghost use Rattle.lowered_types.specs.Lowered.{already};

use crate::fault::{BuildFault, at_most};
use crate::readings::{declared_entry, integer_number, read_bound, read_bound_or_none, read_sizes};
use crate::table::{TypeTable, find_type};
use idl_tree::names::{At, Leaf, Listed};
use idl_tree::types::{ConstType, Declarator, EnumType, ParamType, SimpleType};
use scoped_names::{Names, Scope};
use std::alloc::{AllocError, Global};
use type_graph::{GraphLimit, Items, Node, basic_types};
use type_model::Name;

const MAX_ENUMERATORS: u32 = 65536;

impl TypeTable {
    /// Arrays of a type that is lowered, for a declarator that stands there; gives the number of the
    /// outermost, or that of the type where there is none.
    fn add_arrays(
        &mut self,
        alloc: Global,
        elem: u32,
        at: At,
        counts: &[u32],
    ) -> Result<u32, BuildFault>
        ensures { Tells result (already self.new) (arrays (already self.old elem) at counts.now) }
    {
        let mut number = elem;
        let mut left = counts.len();
        while left > 0 {
            left -= 1;
            let array = Node::Array {
                elem: number,
                n: counts[left],
            };
            number = self.add_at(alloc, array, at)?;
        }
        Ok(number)
    }
}

/// The type of a constant, a parameter or a member; gives its number.
///
/// # Errors
/// Those of its name or its bound, of `add`.
pub(crate) fn lower_const_type<'a>(
    names: &Names<'a>,
    table: &mut TypeTable,
    alloc: Global,
    scope: Scope,
    t: &ConstType<'a>,
) -> Result<u32, BuildFault>
    requires { scope.0 ≤ length names.now.entries }
    ensures { Tells result (already table.new) (const_type names.now.entries table.old scope.0 t.now) }
{
    match t {
        ConstType::Integer(integer) => Ok(integer_number(*integer)),
        ConstType::Octet => Ok(basic_types::OCTET),
        ConstType::Char => Ok(basic_types::CHAR),
        ConstType::Boolean => Ok(basic_types::BOOLEAN),
        ConstType::String(None) => Ok(basic_types::STRING),
        ConstType::String(Some(bound)) => {
            let most = read_bound(alloc, names, scope, bound)?;
            let at = bound.expr.start().at();
            table.add_at(alloc, Node::Text { bound: most }, at)
        }
        ConstType::Name(name) => find_type(names, table, scope, name),
    }
}

/// The type of a parameter, a result or an attribute; gives its number.
///
/// # Errors
/// As `lower_const_type`.
pub(crate) fn lower_param_type<'a>(
    names: &Names<'a>,
    table: &mut TypeTable,
    alloc: Global,
    scope: Scope,
    t: &ParamType<'a>,
) -> Result<u32, BuildFault>
    requires { scope.0 ≤ length names.now.entries }
    ensures { Tells result (already table.new) (param_type names.now.entries table.old scope.0 t.now) }
{
    match t {
        ParamType::Plain(plain) => lower_const_type(names, table, alloc, scope, plain),
        ParamType::Object => Ok(basic_types::OBJECT),
    }
}

/// A type that declares nothing, of a declarator that stands there; gives its number.
pub(crate) fn lower_simple<'a>(
    names: &Names<'a>,
    table: &mut TypeTable,
    alloc: Global,
    scope: Scope,
    at: At,
    t: &SimpleType<'a>,
) -> Result<u32, BuildFault>
    requires { scope.0 ≤ length names.now.entries }
    ensures { Tells result (already table.new) (simple_type names.now.entries table.old scope.0 at t.now) }
{
    match t {
        SimpleType::Plain(plain) => lower_param_type(names, table, alloc, scope, plain),
        SimpleType::Sequence { element, bound } => {
            let elem = lower_simple(names, table, alloc, scope, at, element)?;
            let bound = read_bound_or_none(alloc, names, scope, bound)?;
            table.add_at(alloc, Node::Seq { elem, bound }, at)
        }
    }
}

/// The type of a declarator, where that before it has the number; gives its number.
pub(crate) fn lower_arrays<'a>(
    names: &Names<'a>,
    table: &mut TypeTable,
    alloc: Global,
    scope: Scope,
    elem: u32,
    declarator: &Declarator<'a>,
) -> Result<u32, BuildFault>
    requires { scope.0 ≤ length names.now.entries }
    ensures { Tells result (already table.new)
        (array_type names.now.entries scope.0 (already table.old elem) declarator.now) }
{
    let counts = read_sizes(alloc, names, scope, declarator.sizes.as_slice())?;
    let at = declarator.identifier.at();
    table.add_arrays(alloc, elem, at, counts.as_slice())
}

/// What identifiers are called.
fn names_of<'a>(alloc: Global, identifiers: &Listed<Leaf<'a>>) -> Result<Items<Name>, AllocError>
    ensures { IfOk result (λ names. names ≡ map word (parts identifiers.now)) }
{
    let mut names = Vec::new(alloc);
    for identifier in identifiers.iter() {
        names.push(Name::copied(alloc, identifier.name())?)?;
    }
    Ok(Items::new(names))
}

/// An enumeration; gives its number.
///
/// # Errors
/// `Limit` above 65,536 enumerators, as `add_named`.
pub(crate) fn lower_enum<'a>(
    names: &Names<'a>,
    table: &mut TypeTable,
    alloc: Global,
    scope: Scope,
    e: &EnumType<'a>,
) -> Result<u32, BuildFault>
    ensures { Tells result (already table.new) (enum_type names.now.entries table.old scope.0 e.now) }
{
    let at = e.identifier.at();
    let entry = declared_entry(names, scope, e.identifier)?;
    let count = e.enumerators.len() as u128;
    let n = at_most(MAX_ENUMERATORS, GraphLimit::Enumerators, at, count)?;
    let names = names_of(alloc, &e.enumerators)?;
    table.add_named(alloc, entry, Node::Enum { n }, names, at)
}
