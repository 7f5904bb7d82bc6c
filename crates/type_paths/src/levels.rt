//! From which nodes paths of so many steps lead downwards.

ghost use Rattle.std.specs.Prelude.{◌≡◌, ◌<◌, ◌≤◌, ◌↔◌, ℕ, length, slice_index_or, IsSomeAnd, IfSome, IfNone, IfOk, OnOk, IsTrue, true, false};
ghost use Rattle.type_paths.specs.Levels.{IsIn, IsLevel, IsLevelAbove};
ghost use Rattle.type_paths.specs.Paths.{HoldsBy, HoldsOne, IsEndless};

use crate::sited::Sited;
use std::alloc::{AllocError, Global};
use std::mem;

/// Whether a number is in the table. Past its end it is where `past` says so.
fn is_in(table: &[bool], past: bool, number: u32) -> bool
    ensures { result ≡ slice_index_or table.now number past }
{
    table.get(number as usize).copied().unwrap_or(past)
}

fn is_some_in(table: &[bool], past: bool, part: Option<u32>) -> bool
    ensures { IsTrue result ↔ IsSomeAnd part (IsIn table.now past) }
{
    match part {
        None => false,
        Some(number) => is_in(table, past, number),
    }
}

/// Whether the node holds one that is in the table, by a member that stands at most at the token.
fn holds_one(types: &Sited<'_>, token: usize, table: &[bool], past: bool, number: usize) -> bool
    ensures { IsTrue result ↔ HoldsOne (HoldsBy types.now token) (IsIn table.now past) number }
{
    let Some(node) = types.nodes.get(number) else {
        return false;
    };
    for place in 0..node.held_count() {
        if types.token_at(number, place) <= token && is_some_in(table, past, node.held_at(place)) {
            return true;
        }
    }
    false
}

/// One step more: the nodes that hold one in the table.
fn level_above(
    types: &Sited<'_>,
    token: usize,
    table: &[bool],
    past: bool,
    next: &mut Vec<bool>,
) -> Result<(), AllocError>
    ensures { OnOk result (IsLevelAbove types.now token table.now past next.new.items) }
{
    next.clear();
    for number in 0..types.nodes.len() {
        next.push(holds_one(types, token, table, past, number))?;
    }
    Ok(())
}

/// The nodes from which paths of so many steps lead, by members that stand at most at the token. A
/// step that changes nothing is the last; each other one loses a node, so after more steps than
/// there are nodes a path that is left has no end.
pub fn paths_by(
    alloc: Global,
    types: &Sited<'_>,
    token: usize,
    steps: usize,
) -> Result<Vec<bool>, AllocError>
    requires { 1 ≤ steps }
    ensures level { IfOk result (λ table. IsLevel types.now token steps table.items) }
    ensures endless { length types.now.nodes < steps
        → IfOk result (λ table. (node : ℕ) → IsIn table.items false node → IsEndless (HoldsBy types.now token) node) }
{
    let mut table = Vec::new(alloc);
    let mut next = Vec::new(alloc);
    level_above(types, token, &table, true, &mut next)?;
    for _ in 1..steps {
        mem::swap(&mut table, &mut next);
        level_above(types, token, &table, false, &mut next)?;
        if next == table {
            return Ok(next);
        }
    }
    Ok(next)
}

/// The first number in a table.
pub fn first_in(table: &[bool]) -> Option<usize>
    ensures none { IfNone result ((number : ℕ) → IsIn table.now false number → ⊥) }
    ensures some { IfSome result (λ number. IsIn table.now false number) }
    ensures first { IfSome result (λ number. (less : ℕ) → less < number → IsIn table.now false less → ⊥) }
{
    for (number, is_there) in table.iter().enumerate() {
        if *is_there {
            return Some(number);
        }
    }
    None
}
