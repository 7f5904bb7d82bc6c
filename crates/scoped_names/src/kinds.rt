//! The types of constants that types are in the end.

ghost use Rattle.std.specs.Prelude.{◌≡◌, ◌≤◌, length, IfOk};
ghost use Rattle.name_table.specs.Search.{finds};
ghost use Rattle.scoped_names.specs.Constants.{meant_found};
ghost use Rattle.scoped_names.specs.TypeKinds.{const_type_kind as const_kind_of, param_type_kind as param_kind_of, simple_type_kind as simple_kind_of, string_kind as string_kind_of};

use crate::evaluation::{resolve, size};
use crate::fault::NameFault;
use idl_tree::const_expr::Bound;
use idl_tree::names::ScopedName;
use idl_tree::types::{ConstType, ParamType, SimpleType};
use name_table::const_values::ConstKind;
use name_table::{Scope, Table};
use std::alloc::{AllocError, Global};

fn string_kind<'a>(
    table: &Table<'a>,
    alloc: Global,
    scope: Scope,
    bound: &Option<Bound<'a>>,
) -> Result<ConstKind, AllocError>
    requires { scope.0 ≤ length table.now }
    ensures { IfOk result (λ kind. kind ≡ string_kind_of table.now scope.0 bound.now) }
{
    let Some(bound) = bound else {
        return Ok(ConstKind::String(None));
    };
    match size(table, alloc, scope, &bound.expr) {
        Ok(most) => Ok(ConstKind::String(Some(most))),
        Err(NameFault::NoMemory) => Err(AllocError),
        Err(_) => Ok(ConstKind::String(None)),
    }
}

/// The type of constants that the name of a type stands for.
fn name_kind<'a>(table: &Table<'a>, scope: Scope, name: &ScopedName<'a>) -> Option<ConstKind>
    requires { scope.0 ≤ length table.now }
    ensures { result ≡ meant_found table.now (finds table.now scope.0 name.now) }
{
    match resolve(table, scope, name) {
        Ok(entry) => table.stands_for(entry),
        Err(_) => None,
    }
}

/// The type of constants that the type of a constant is in the end.
///
/// # Errors
///
/// `AllocError`.
pub(crate) fn const_type_kind<'a>(
    table: &Table<'a>,
    alloc: Global,
    scope: Scope,
    t: &ConstType<'a>,
) -> Result<Option<ConstKind>, AllocError>
    requires { scope.0 ≤ length table.now }
    ensures { IfOk result (λ kind. kind ≡ const_kind_of table.now scope.0 t.now) }
{
    Ok(match t {
        ConstType::Integer(integer) => Some(ConstKind::Integer(*integer)),
        ConstType::Char => Some(ConstKind::Char),
        ConstType::Boolean => Some(ConstKind::Boolean),
        ConstType::Octet => Some(ConstKind::Octet),
        ConstType::String(bound) => Some(string_kind(table, alloc, scope, bound)?),
        ConstType::Name(name) => name_kind(table, scope, name),
    })
}

fn param_type_kind<'a>(
    table: &Table<'a>,
    alloc: Global,
    scope: Scope,
    t: &ParamType<'a>,
) -> Result<Option<ConstKind>, AllocError>
    requires { scope.0 ≤ length table.now }
    ensures { IfOk result (λ kind. kind ≡ param_kind_of table.now scope.0 t.now) }
{
    match t {
        ParamType::Plain(plain) => const_type_kind(table, alloc, scope, plain),
        ParamType::Object => Ok(None),
    }
}

/// The same of a type that declares nothing.
///
/// # Errors
///
/// `AllocError`.
pub(crate) fn simple_type_kind<'a>(
    table: &Table<'a>,
    alloc: Global,
    scope: Scope,
    t: &SimpleType<'a>,
) -> Result<Option<ConstKind>, AllocError>
    requires { scope.0 ≤ length table.now }
    ensures { IfOk result (λ kind. kind ≡ simple_kind_of table.now scope.0 t.now) }
{
    match t {
        SimpleType::Plain(plain) => param_type_kind(table, alloc, scope, plain),
        SimpleType::Sequence { .. } => Ok(None),
    }
}
