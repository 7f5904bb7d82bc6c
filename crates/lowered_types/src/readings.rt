//! What names and expressions of the tree say.

ghost use Rattle.std.specs.Prelude.{◌≡◌, ◌≤◌, ◌<◌, ◌^◌, suc, length, IfOk};
ghost use Rattle.scoped_names.specs.Tests.{size_read, value_read};
ghost use Rattle.lowered_types.specs.Faults.{Tells, of_names};
ghost use Rattle.lowered_types.specs.SimpleTypes.{bound_of, bound_or_none, entry_found, entry_of, integer_number as number_of, size_of, sizes_read};

use crate::fault::{BuildFault, at_most};
use idl_tree::const_expr::{Bound, ConstExpr};
use idl_tree::expression::Expr;
use idl_tree::names::{Leaf, ScopedName};
use idl_tree::types::{Integer, IntegerSize};
use name_table::const_values::Constant;
use scoped_names::{NameFault, Names, Scope};
use std::alloc::Global;
use type_graph::{GraphLimit, basic_types};

const MAX_SIZE: u32 = 1_048_576;

const MAX_BOUND: u32 = 4_294_967_295;

/// The entry that an identifier was declared as in the scope. Takes no memory.
///
/// # Errors
/// `OtherNames` where it wasn't.
pub fn declared_entry<'a>(
    names: &Names<'a>,
    scope: Scope,
    identifier: Leaf<'a>,
) -> Result<usize, BuildFault>
    ensures told { result ≡ entry_of names.now.entries scope.0 identifier.entry }
    ensures there { IfOk result (λ e. e < length names.now.entries) }
    ensures small { IfOk result (λ e. suc e < 2 ^ 64) }
{
    let count = names.len();
    match names.declared(scope, identifier) {
        Some(entry) if entry < count => Ok(entry),
        _ => Err(BuildFault::OtherNames),
    }
}

/// The entry that a name finds. Takes no memory.
///
/// # Errors
/// `OtherNames` where it finds none.
pub fn resolved<'a>(
    names: &Names<'a>,
    scope: Scope,
    name: &ScopedName<'a>,
) -> Result<usize, BuildFault>
    requires { scope.0 ≤ length names.now.entries }
    ensures told { result ≡ entry_found names.now.entries scope.0 name.now }
    ensures there { IfOk result (λ e. e < length names.now.entries) }
{
    match names.resolve(scope, name) {
        Ok(entry) => Ok(entry),
        Err(_) => Err(BuildFault::OtherNames),
    }
}

/// The number of an integer type.
pub(crate) fn integer_number(integer: Integer) -> u32
    ensures { result ≡ number_of integer }
{
    match integer {
        Integer::Signed(IntegerSize::Short) => basic_types::SHORT,
        Integer::Unsigned(IntegerSize::Short) => basic_types::UNSIGNED_SHORT,
        Integer::Signed(IntegerSize::Long) => basic_types::LONG,
        Integer::Unsigned(IntegerSize::Long) => basic_types::UNSIGNED_LONG,
        Integer::Signed(IntegerSize::LongLong) => basic_types::LONG_LONG,
        Integer::Unsigned(IntegerSize::LongLong) => basic_types::UNSIGNED_LONG_LONG,
    }
}

/// What an expression is worth.
///
/// # Errors
/// `OtherNames` where it has no worth, want of memory.
pub(crate) fn read_value<'a>(
    alloc: Global,
    names: &Names<'a>,
    scope: Scope,
    expr: &Expr<'a>,
) -> Result<Constant, BuildFault>
    requires { scope.0 ≤ length names.now.entries }
    ensures { Tells result (λ c. c) (of_names (value_read names.now.entries scope.0 expr.now)) }
{
    match names.value(alloc, scope, expr) {
        Ok(constant) => Ok(constant),
        Err(NameFault::NoMemory) => Err(BuildFault::NoMemory),
        Err(_) => Err(BuildFault::OtherNames),
    }
}

/// What it is worth as a bound or a size, where it isn't more than the limit.
fn read_number<'a>(
    alloc: Global,
    names: &Names<'a>,
    scope: Scope,
    expr: &Expr<'a>,
) -> Result<u128, BuildFault>
    requires { scope.0 ≤ length names.now.entries }
    ensures { Tells result (λ n. n) (of_names (size_read names.now.entries scope.0 expr.now)) }
{
    match names.size(alloc, scope, expr) {
        Ok(n) => Ok(n),
        Err(NameFault::NoMemory) => Err(BuildFault::NoMemory),
        Err(_) => Err(BuildFault::OtherNames),
    }
}

/// A bound.
///
/// # Errors
/// `OtherNames`; `Limit` above 4,294,967,295; want of memory.
pub(crate) fn read_bound<'a>(
    alloc: Global,
    names: &Names<'a>,
    scope: Scope,
    bound: &Bound<'a>,
) -> Result<u32, BuildFault>
    requires { scope.0 ≤ length names.now.entries }
    ensures { Tells result (λ n. n) (bound_of names.now.entries scope.0 bound.now) }
{
    let most = read_number(alloc, names, scope, &bound.expr)?;
    let at = bound.expr.start().at();
    at_most(MAX_BOUND, GraphLimit::Bound, at, most)
}

/// A bound, or 0 for none.
pub(crate) fn read_bound_or_none<'a>(
    alloc: Global,
    names: &Names<'a>,
    scope: Scope,
    bound: &Option<Bound<'a>>,
) -> Result<u32, BuildFault>
    requires { scope.0 ≤ length names.now.entries }
    ensures { Tells result (λ n. n) (bound_or_none names.now.entries scope.0 bound.now) }
{
    match bound {
        Some(bound) => read_bound(alloc, names, scope, bound),
        None => Ok(0),
    }
}

/// The size of an array in one dimension.
///
/// # Errors
/// `OtherNames`; `Limit` above 1,048,576; want of memory.
fn read_size<'a>(
    alloc: Global,
    names: &Names<'a>,
    scope: Scope,
    size: &ConstExpr<'a>,
) -> Result<u32, BuildFault>
    requires { scope.0 ≤ length names.now.entries }
    ensures { Tells result (λ n. n) (size_of names.now.entries scope.0 size.now) }
{
    let count = read_number(alloc, names, scope, &size.expr)?;
    let at = size.expr.start().at();
    at_most(MAX_SIZE, GraphLimit::Size, at, count)
}

/// The sizes of an array, the first dimension first.
///
/// # Errors
/// Those of the first that has one.
pub(crate) fn read_sizes<'a>(
    alloc: Global,
    names: &Names<'a>,
    scope: Scope,
    sizes: &[ConstExpr<'a>],
) -> Result<Vec<u32>, BuildFault>
    requires { scope.0 ≤ length names.now.entries }
    ensures { Tells result (λ counts. counts.items) (sizes_read names.now.entries scope.0 sizes.now) }
{
    let mut counts = Vec::new(alloc);
    for size in sizes {
        let count = read_size(alloc, names, scope, size)?;
        counts.push(count)?;
    }
    Ok(counts)
}
