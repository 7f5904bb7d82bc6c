//! Constant expressions.
#![tactic(auto, using(crate::proofs::Reading::past_append, crate::proofs::Reading::past_none))]

ghost use Rattle.std.specs.Prelude.{◌≡◌, ◌++◌, ◌≤◌, ◌<◌, ◌-◌, Bool, true, false, Some, None, IfErr, IfOk, IfSome, IfNone, List, codes};
ghost use Rattle.std.specs.Bool.{OnTrue};
ghost use Rattle.std.specs.List.{AllByRecursion, flat_map};
ghost use Rattle.definition_reader.specs.inner.Reading.{Parsed, Continued};
ghost use Rattle.idl_tree.specs.Pieces.{kept_mark};
ghost use Rattle.idl_tree.specs.Grouping.{IsOfLevel, IsOperandOf};
ghost use Rattle.idl_tree.specs.Descent.{atom_way, behind_next, boolean_way, expr_way, if_seen, inside_way, level_way, operands_way, operator_at, operator_seen, operator_way, primary_way, sees_sign, text_way, texts_way, unary_way};
ghost use Rattle.definition_reader.specs.inner.Following.{Ends};
ghost use Rattle.idl_tree.specs.Levels.{highest, expr_levels, operand_levels, const_expr_levels, bound_levels};
ghost use Rattle.idl_tree.specs.Yields.{operator_yield, sign_text, expr_yield, const_expr_yield, bound_yield, operand_yield, text_yield, in_order};

use crate::cursor::{Cursor, inside};
use crate::read::lists::{add, boxed, made};
use crate::read::names::read_scoped_name;
use crate::stop::Stop;
use idl_lexer::Kind;
use idl_tree::const_expr::{Bound, ConstExpr};
use idl_tree::expression::{Expr, Operand, Operator, Sign};
use idl_tree::names::{Leaf, Listed};

/// How many levels of operators there are, the loosest of which is 0.
const LEVELS: usize = 6;

/// Whether an operator is next.
fn is_operator(cursor: &Cursor<'_, '_>, operator: Operator) -> bool
    ensures { result ≡ operator_seen operator cursor.now }
{
    match operator {
        Operator::ShiftRight => cursor.is_right_shift(),
        _ => cursor.is_mark(operator.text()),
    }
}

/// The operator, if it is next.
fn next_of(cursor: &Cursor<'_, '_>, operator: Operator) -> Option<Operator>
    ensures { result ≡ if_seen (operator_seen operator cursor.now) operator None }
{
    if is_operator(cursor, operator) {
        Some(operator)
    } else {
        None
    }
}

/// The shift that is next. Where no right shift may stand, it is none.
fn next_shift(cursor: &Cursor<'_, '_>, shifts: bool) -> Option<Operator>
    ensures { result ≡ operator_at shifts 3 cursor.now }
{
    if is_operator(cursor, Operator::ShiftLeft) {
        return Some(Operator::ShiftLeft);
    }
    if !shifts {
        return None;
    }
    next_of(cursor, Operator::ShiftRight)
}

/// The sign of a sum that is next.
fn next_sum(cursor: &Cursor<'_, '_>, shifts: bool) -> Option<Operator>
    ensures { result ≡ operator_at shifts 4 cursor.now }
{
    if is_operator(cursor, Operator::Add) {
        return Some(Operator::Add);
    }
    next_of(cursor, Operator::Subtract)
}

/// The sign of a product that is next.
fn next_product(cursor: &Cursor<'_, '_>, shifts: bool) -> Option<Operator>
    ensures { result ≡ operator_at shifts 5 cursor.now }
{
    if is_operator(cursor, Operator::Multiply) {
        return Some(Operator::Multiply);
    }
    if is_operator(cursor, Operator::Divide) {
        return Some(Operator::Divide);
    }
    next_of(cursor, Operator::Remainder)
}

/// The operator of the level that is next, if one is.
fn operator_of(cursor: &Cursor<'_, '_>, level: usize, shifts: bool) -> Option<Operator>
    requires { level < 6 }
    ensures { result ≡ operator_at shifts level cursor.now }
{
    match level {
        0 => next_of(cursor, Operator::Or),
        1 => next_of(cursor, Operator::Xor),
        2 => next_of(cursor, Operator::And),
        3 => next_shift(cursor, shifts),
        4 => next_sum(cursor, shifts),
        _ => next_product(cursor, shifts),
    }
}

fn read_operator(cursor: &mut Cursor<'_, '_>, operator: Operator) -> Result<(), Stop>
    ensures spells { IfOk result (λ _. Parsed cursor.old (operator_yield operator) cursor.new) }
    ensures way { IfOk result (λ _. operator_way operator cursor.old ≡ Some cursor.new) }
    ensures stops { IfErr result (Ends (operator_way operator cursor.old)) }
{
    match operator {
        Operator::ShiftRight => cursor.right_shift(),
        _ => cursor.mark(operator.text()),
    }
}

/// Reads further text literals.
fn read_texts<'a>(cursor: &mut Cursor<'a, '_>) -> Result<Vec<Leaf<'a>>, Stop>
    ensures spells { IfOk result (λ rest. Continued cursor.old (flat_map text_yield rest.items) cursor.new) }
    ensures way { IfOk result (λ _. texts_way cursor.old ≡ Some cursor.new) }
    ensures stops { IfErr result (Ends (texts_way cursor.old)) }
{
    let mut rest = Vec::new(cursor.alloc());
    'parts: while let Some(text) = cursor.take_leaf(Kind::TextLit) {
        got!(add(&mut rest, text));
    }
    rest.shrink_to_fit();
    Ok(rest)
}

fn read_text<'a>(cursor: &mut Cursor<'a, '_>) -> Result<Listed<Leaf<'a>>, Stop>
    ensures spells { IfOk result (λ texts. Parsed cursor.old (in_order text_yield texts) cursor.new) }
    ensures way { IfOk result (λ _. text_way cursor.old ≡ Some cursor.new) }
    ensures stops { IfErr result (Ends (text_way cursor.old)) }
{
    let first = got!(cursor.leaf(Kind::TextLit));
    let rest = got!(read_texts(cursor));
    Ok(Listed { first, rest })
}

fn read_boolean<'a>(cursor: &mut Cursor<'a, '_>) -> Result<Expr<'a>, Stop>
    ensures spells { IfOk result (λ e. Parsed cursor.old (expr_yield e) cursor.new) }
    ensures groups { IfOk result (λ e. (shifts : Bool) → IsOfLevel shifts 7 e) }
    ensures levels { IfOk result (λ e. expr_levels e ≡ 0) }
    ensures way { IfOk result (λ _. boolean_way cursor.old ≡ Some cursor.new) }
    ensures stops { IfErr result (Ends (boolean_way cursor.old)) }
{
    if let Some(word) = cursor.take(Kind::Keyword, "TRUE") {
        return Ok(Expr::Boolean { value: true, word });
    }
    match cursor.take(Kind::Keyword, "FALSE") {
        Some(word) => Ok(Expr::Boolean { value: false, word }),
        None => Err(Stop::Unexpected),
    }
}

/// A name or a literal.
fn read_atom<'a>(cursor: &mut Cursor<'a, '_>) -> Result<Expr<'a>, Stop>
    ensures spells { IfOk result (λ e. Parsed cursor.old (expr_yield e) cursor.new) }
    ensures groups { IfOk result (λ e. (shifts : Bool) → IsOfLevel shifts 7 e) }
    ensures levels { IfOk result (λ e. expr_levels e ≡ 0) }
    ensures way { IfOk result (λ _. atom_way cursor.old ≡ Some cursor.new) }
    ensures stops { IfErr result (Ends (atom_way cursor.old)) }
{
    if let Some(number) = cursor.take_leaf(Kind::Number) {
        return Ok(Expr::Number(number));
    }
    if let Some(character) = cursor.take_leaf(Kind::CharLit) {
        return Ok(Expr::Character(character));
    }
    if cursor.is_kind(Kind::TextLit) {
        let texts = got!(read_text(cursor));
        return Ok(Expr::Text(got!(boxed(cursor.alloc(), texts))));
    }
    if cursor.is_kind(Kind::Keyword) {
        return read_boolean(cursor);
    }
    Ok(Expr::Name(got!(read_scoped_name(cursor))))
}

/// Takes a sign, if one is next.
fn take_sign<'a>(cursor: &mut Cursor<'a, '_>) -> Option<(Sign, Leaf<'a>)>
    ensures missing { IfNone result (cursor.new ≡ cursor.old) }
    ensures unseen { IfNone result (sees_sign cursor.old ≡ false) }
    ensures seen { IfSome result (λ _. sees_sign cursor.old ≡ true) }
    ensures way { IfSome result (λ _. behind_next cursor.old ≡ Some cursor.new) }
    ensures read { IfSome result (λ r. Parsed cursor.old (kept_mark (sign_text r.0) r.1) cursor.new) }
{
    if let Some(mark) = cursor.take(Kind::Punct, "-") {
        return Some((Sign::Minus, mark));
    }
    match cursor.take(Kind::Punct, "+") {
        Some(mark) => Some((Sign::Plus, mark)),
        None => None,
    }
}

#[cycle(expressions)]
fn read_primary<'a>(cursor: &mut Cursor<'a, '_>, room: usize) -> Result<Expr<'a>, Stop>
    ensures spells { IfOk result (λ e. Parsed cursor.old (expr_yield e) cursor.new) }
    ensures groups { IfOk result (λ e. (shifts : Bool) → IsOfLevel shifts 7 e) }
    ensures levels { IfOk result (λ e. expr_levels e ≤ room) }
    ensures way { IfOk result (λ _. primary_way (inside_way room) cursor.old ≡ Some cursor.new) }
    ensures stops { IfErr result (Ends (primary_way (inside_way room) cursor.old)) }
{
    let Some(paren) = cursor.take(Kind::Punct, "(") else {
        return read_atom(cursor);
    };
    let left = got!(inside(room, &paren));
    let inner = got!(read_level(cursor, 0, true, left));
    got!(cursor.mark(")"));
    made(Expr::new_parenthesized(cursor.alloc(), paren, inner))
}

#[cycle(expressions)]
fn read_unary<'a>(cursor: &mut Cursor<'a, '_>, room: usize) -> Result<Expr<'a>, Stop>
    ensures spells { IfOk result (λ e. Parsed cursor.old (expr_yield e) cursor.new) }
    ensures groups { IfOk result (λ e. (shifts : Bool) → IsOfLevel shifts 6 e) }
    ensures levels { IfOk result (λ e. expr_levels e ≤ room) }
    ensures way { IfOk result (λ _. unary_way (inside_way room) cursor.old ≡ Some cursor.new) }
    ensures stops { IfErr result (Ends (unary_way (inside_way room) cursor.old)) }
{
    let Some((sign, mark)) = take_sign(cursor) else {
        return read_primary(cursor, room);
    };
    let operand = got!(read_primary(cursor, room));
    made(Expr::new_signed(cursor.alloc(), mark, sign, operand))
}

/// Reads operators of the level, each with an operand of the tighter levels behind it.
#[cycle(expressions)]
fn read_operands<'a>(
    cursor: &mut Cursor<'a, '_>,
    level: usize,
    shifts: bool,
    room: usize,
) -> Result<Vec<Operand<'a>>, Stop>
    requires { level < 6 }
    ensures spells { IfOk result (λ rest. Continued cursor.old (flat_map operand_yield rest.items) cursor.new) }
    ensures groups { IfOk result (λ rest. AllByRecursion (IsOperandOf shifts level) rest.items) }
    ensures levels { IfOk result (λ rest. highest operand_levels rest.items ≤ room) }
    ensures way { IfOk result (λ _.
        operands_way (level_way (inside_way room) shifts (5 - level)) shifts level cursor.old ≡ Some cursor.new) }
    ensures stops { IfErr result (Ends
        (operands_way (level_way (inside_way room) shifts (5 - level)) shifts level cursor.old)) }
{
    let mut rest = Vec::new(cursor.alloc());
    'parts: while let Some(operator) = operator_of(cursor, level, shifts) {
        got!(read_operator(cursor, operator));
        let operand = got!(read_level(cursor, level + 1, shifts, room));
        got!(add(&mut rest, Operand { operator, operand }));
    }
    rest.shrink_to_fit();
    Ok(rest)
}

/// Reads operands of the tighter levels, with operators of the level between them.
#[cycle(expressions)]
fn read_level<'a>(
    cursor: &mut Cursor<'a, '_>,
    level: usize,
    shifts: bool,
    room: usize,
) -> Result<Expr<'a>, Stop>
    ensures spells { IfOk result (λ e. Parsed cursor.old (expr_yield e) cursor.new) }
    ensures groups { IfOk result (λ e. level ≤ 6 → IsOfLevel shifts level e) }
    ensures levels { IfOk result (λ e. expr_levels e ≤ room) }
    ensures way { IfOk result (λ _. level_way (inside_way room) shifts (6 - level) cursor.old ≡ Some cursor.new) }
    ensures stops { IfErr result (Ends (level_way (inside_way room) shifts (6 - level) cursor.old)) }
{
    if level >= LEVELS {
        return read_unary(cursor, room);
    }
    let first = got!(read_level(cursor, level + 1, shifts, room));
    let rest = got!(read_operands(cursor, level, shifts, room));
    made(Expr::new_chain(cursor.alloc(), first, rest))
}

/// Reads a constant expression.
pub(crate) fn read_expr<'a>(cursor: &mut Cursor<'a, '_>, room: usize) -> Result<ConstExpr<'a>, Stop>
    ensures spells { IfOk result (λ e. Parsed cursor.old (const_expr_yield e) cursor.new) }
    ensures levels { IfOk result (λ e. const_expr_levels e ≤ room) }
    ensures way { IfOk result (λ _. expr_way true room cursor.old ≡ Some cursor.new) }
    ensures stops { IfErr result (Ends (expr_way true room cursor.old)) }
{
    let expr = got!(read_level(cursor, 0, true, room));
    Ok(ConstExpr { expr })
}

/// Reads a constant expression between `<` and `>`.
pub(crate) fn read_bound<'a>(cursor: &mut Cursor<'a, '_>, room: usize) -> Result<Bound<'a>, Stop>
    ensures spells { IfOk result (λ b. Parsed cursor.old (bound_yield b) cursor.new) }
    ensures levels { IfOk result (λ b. bound_levels b ≤ room) }
    ensures way { IfOk result (λ _. expr_way false room cursor.old ≡ Some cursor.new) }
    ensures stops { IfErr result (Ends (expr_way false room cursor.old)) }
{
    let expr = got!(read_level(cursor, 0, false, room));
    Ok(Bound {
        expr: got!(boxed(cursor.alloc(), expr)),
    })
}
