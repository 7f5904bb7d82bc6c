//! What constant expressions are worth where names are found by their scope.

ghost use Rattle.std.specs.Prelude.{◌≡◌, ◌≤◌, ◌<◌, length, slice_get, IfOk};
ghost use Rattle.name_table.specs.Worth.{operator_applied, sign_applied, whole_constant, whole_number, worth};
ghost use Rattle.scoped_names.specs.Constants.{named_worth};
ghost use Rattle.scoped_names.specs.Reading.{Checks, Gives};
ghost use Rattle.scoped_names.specs.Tests.{at_entry, constant_test, found_at as found_at_place, names_test, resolved, size_read, value_of_type, value_read};

use crate::fault::{Flaw, NameFault};
use idl_tree::expression::{Expr, Operator, Sign};
use idl_tree::names::{At, ScopedName};
use name_table::const_values::{
    ConstKind, Constant, applied, literal_constant, signed, text_constant,
};
use name_table::{Scope, Sight, Table};
use std::alloc::{AllocError, Global};

/// The number, if it is a whole one.
fn whole(constant: Option<Constant>) -> Option<i128>
    ensures { result ≡ whole_number constant }
{
    match &constant {
        Some(Constant::Integer(value)) => Some(*value),
        _ => None,
    }
}

fn whole_constant(value: Option<i128>) -> Option<Constant>
    ensures { result ≡ whole_constant value }
{
    match value {
        Some(value) => Some(Constant::Integer(value)),
        None => None,
    }
}

fn with_sign(sign: Sign, value: Option<i128>) -> Option<i128>
    ensures { result ≡ sign_applied sign value }
{
    signed(sign, value?)
}

/// An operator between two numbers.
fn joined(operator: Operator, left: Option<i128>, right: Option<i128>) -> Option<i128>
    ensures { result ≡ operator_applied operator left right }
{
    applied(operator, left?, right?)
}

/// Where an entry is declared first.
pub(crate) fn declared_at(table: &Table<'_>, entry: usize) -> Option<At>
    ensures { result ≡ at_entry (slice_get table.now entry) }
{
    if entry >= table.len() {
        return None;
    }
    Some(At {
        token: table.identifier(entry),
        line: table.line(entry),
    })
}

/// The entry that is seen, or why there is none for a name that stands there.
pub(crate) fn found_at(table: &Table<'_>, at: At, seen: Sight) -> Result<usize, NameFault>
    ensures { result ≡ found_at_place table.now at seen }
{
    match seen {
        Sight::Seen(entry) => Ok(entry),
        Sight::Unseen => Err(NameFault::Unknown { at }),
        Sight::OtherCase(entry) => Err(NameFault::CaseDiffers {
            at,
            other: declared_at(table, entry),
        }),
        Sight::Unclear(one, other) => Err(NameFault::Ambiguous {
            at,
            one: declared_at(table, one),
            other: declared_at(table, other),
        }),
    }
}

/// The entry that a name finds that stands in the scope. Takes no memory.
///
/// # Errors
///
/// `Unknown`, `CaseDiffers` or `Ambiguous`, at the name's first token.
pub(crate) fn resolve<'a>(
    table: &Table<'a>,
    scope: Scope,
    name: &ScopedName<'a>,
) -> Result<usize, NameFault>
    requires { scope.0 ≤ length table.now }
    ensures told { result ≡ resolved table.now scope.0 name.now }
    ensures placed { IfOk result (λ entry. entry < length table.now) }
{
    found_at(table, name.start().at(), table.look(scope, name))
}

/// That a name finds a constant or an enumerator.
fn test_constant<'a>(
    table: &Table<'a>,
    scope: Scope,
    name: &ScopedName<'a>,
) -> Result<(), NameFault>
    requires { scope.0 ≤ length table.now }
    ensures { Checks result (constant_test table.now scope.0 name.now) }
{
    let entry = got!(resolve(table, scope, name));
    match table.constant(entry) {
        Some(_) => Ok(()),
        None => Err(NameFault::BadConstant {
            at: name.start().at(),
            why: Flaw::NoConstant,
        }),
    }
}

/// That each name in an expression does, in the order of reading.
fn test_names<'a>(table: &Table<'a>, scope: Scope, expr: &Expr<'a>) -> Result<(), NameFault>
    requires { scope.0 ≤ length table.now }
    ensures { Checks result (names_test table.now scope.0 expr.now) }
{
    match expr {
        Expr::Name(name) => test_constant(table, scope, name),
        Expr::Number(_) | Expr::Character(_) | Expr::Text(_) | Expr::Boolean { .. } => Ok(()),
        Expr::Parenthesized { inner, .. } => test_names(table, scope, inner),
        Expr::Signed { operand, .. } => test_names(table, scope, operand),
        Expr::Chain { first, rest } => {
            test_names(table, scope, first)?;
            for part in rest {
                test_names(table, scope, &part.operand)?;
            }
            Ok(())
        }
    }
}

/// What a name is worth, if it stands for a constant.
fn name_worth<'a>(
    table: &Table<'a>,
    scope: Scope,
    name: &ScopedName<'a>,
) -> Result<Option<Constant>, AllocError>
    requires { scope.0 ≤ length table.now }
    ensures { IfOk result (λ c. c ≡ named_worth table.now scope.0 name.now) }
{
    match resolve(table, scope, name) {
        Ok(entry) => match table.constant(entry) {
            Some(constant) => Ok(Some(constant.shared()?)),
            None => Ok(None),
        },
        Err(_) => Ok(None),
    }
}

/// What an expression is worth, if it has a worth.
fn worth<'a>(
    table: &Table<'a>,
    alloc: Global,
    scope: Scope,
    expr: &Expr<'a>,
) -> Result<Option<Constant>, AllocError>
    requires { scope.0 ≤ length table.now }
    ensures { IfOk result (λ c. c ≡ worth (named_worth table.now scope.0) expr.now) }
{
    match expr {
        Expr::Name(name) => name_worth(table, scope, name),
        Expr::Number(leaf) | Expr::Character(leaf) => Ok(literal_constant(leaf)),
        Expr::Text(literals) => text_constant(alloc, literals),
        Expr::Boolean { value, .. } => Ok(Some(Constant::Boolean(*value))),
        Expr::Parenthesized { inner, .. } => worth(table, alloc, scope, inner),
        Expr::Signed { sign, operand, .. } => {
            let value = whole(worth(table, alloc, scope, operand)?);
            Ok(whole_constant(with_sign(*sign, value)))
        }
        Expr::Chain { first, rest } => {
            let mut value = whole(worth(table, alloc, scope, first)?);
            for part in rest {
                let operand = whole(worth(table, alloc, scope, &part.operand)?);
                value = joined(part.operator, value, operand);
            }
            Ok(whole_constant(value))
        }
    }
}

/// What an expression is worth that stands in the scope. Its names are judged first.
///
/// # Errors
///
/// The fault of a name in it, `BadConstant` where it has no worth, `NoMemory`.
pub(crate) fn value<'a>(
    table: &Table<'a>,
    alloc: Global,
    scope: Scope,
    expr: &Expr<'a>,
) -> Result<Constant, NameFault>
    requires { scope.0 ≤ length table.now }
    ensures { Gives result (value_read table.now scope.0 expr.now) }
{
    got!(test_names(table, scope, expr));
    match room!(worth(table, alloc, scope, expr)) {
        Some(constant) => Ok(constant),
        None => Err(NameFault::BadConstant {
            at: expr.start().at(),
            why: Flaw::NoWorth,
        }),
    }
}

/// What it is worth as a bound or a size, which is a whole number of at least 1.
///
/// # Errors
///
/// As `value`, and `BadConstant` where the worth is no such number.
pub(crate) fn size<'a>(
    table: &Table<'a>,
    alloc: Global,
    scope: Scope,
    expr: &Expr<'a>,
) -> Result<u128, NameFault>
    requires { scope.0 ≤ length table.now }
    ensures { Gives result (size_read table.now scope.0 expr.now) }
{
    match &got!(value(table, alloc, scope, expr)) {
        Constant::Integer(value) if *value > 0 => Ok(value.unsigned_abs()),
        _ => Err(NameFault::BadConstant {
            at: expr.start().at(),
            why: Flaw::NotPositive,
        }),
    }
}

/// What an expression is worth as a constant whose type is of the kind.
pub(crate) fn value_of_kind<'a>(
    table: &Table<'a>,
    alloc: Global,
    scope: Scope,
    kind: Option<ConstKind>,
    expr: &Expr<'a>,
) -> Result<Constant, NameFault>
    requires { scope.0 ≤ length table.now }
    ensures { Gives result (value_of_type kind table.now scope.0 expr.now) }
{
    let constant = got!(value(table, alloc, scope, expr));
    match kind {
        Some(kind) if kind.admits(&constant) => Ok(constant),
        _ => Err(NameFault::BadConstant {
            at: expr.start().at(),
            why: Flaw::NotOfType,
        }),
    }
}
