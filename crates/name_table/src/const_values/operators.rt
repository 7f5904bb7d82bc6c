//! Operators on whole numbers.

ghost use Rattle.std.specs.Prelude.{◌≡◌, Some, pos};
ghost use Rattle.name_table.specs.Arithmetic.{applied as applied_value, signed as signed_value, fitting, naturals as natural_pair};

use idl_tree::expression::{Operator, Sign};

/// A shift by more places has no value.
const MOST_PLACES: u128 = 63;

/// The numbers, where neither is negative.
fn naturals(left: i128, right: i128) -> Option<(u128, u128)>
    ensures { result ≡ natural_pair left right }
{
    match (u128::try_from(left), u128::try_from(right)) {
        (Ok(left), Ok(right)) => Some((left, right)),
        _ => None,
    }
}

fn whole(number: u128) -> Option<i128>
    ensures { result ≡ fitting (Some (pos number)) }
{
    i128::try_from(number).ok()
}

fn shifted_left(left: i128, count: i128) -> Option<i128>
    ensures { result ≡ applied_value Operator.ShiftLeft left count }
{
    let (left, count) = naturals(left, count)?;
    if count > MOST_PLACES {
        return None;
    }
    whole(left.checked_mul(1 << count)?)
}

fn shifted_right(left: i128, count: i128) -> Option<i128>
    ensures { result ≡ applied_value Operator.ShiftRight left count }
{
    let (left, count) = naturals(left, count)?;
    if count > MOST_PLACES {
        return None;
    }
    whole(left >> count)
}

fn or(left: i128, right: i128) -> Option<i128>
    ensures { result ≡ applied_value Operator.Or left right }
{
    let (left, right) = naturals(left, right)?;
    whole(left | right)
}

fn xor(left: i128, right: i128) -> Option<i128>
    ensures { result ≡ applied_value Operator.Xor left right }
{
    let (left, right) = naturals(left, right)?;
    whole(left ^ right)
}

fn and(left: i128, right: i128) -> Option<i128>
    ensures { result ≡ applied_value Operator.And left right }
{
    let (left, right) = naturals(left, right)?;
    whole(left & right)
}

/// The remainder has the sign of the left operand.
fn remainder(left: i128, right: i128) -> Option<i128>
    ensures { result ≡ applied_value Operator.Remainder left right }
{
    if right == 0 {
        return None;
    }
    Some(left.wrapping_rem(right))
}

/// The value of an operator between whole numbers; none where it has none, or none of 128 bits.
/// Takes no memory.
pub fn applied(operator: Operator, left: i128, right: i128) -> Option<i128>
    ensures { result ≡ applied_value operator left right }
{
    match operator {
        Operator::Or => or(left, right),
        Operator::Xor => xor(left, right),
        Operator::And => and(left, right),
        Operator::ShiftLeft => shifted_left(left, right),
        Operator::ShiftRight => shifted_right(left, right),
        Operator::Add => left.checked_add(right),
        Operator::Subtract => left.checked_sub(right),
        Operator::Multiply => left.checked_mul(right),
        Operator::Divide => left.checked_div(right),
        Operator::Remainder => remainder(left, right),
    }
}

/// A whole number with a sign before it; none where it has more than 128 bits. Takes no memory.
pub fn signed(sign: Sign, value: i128) -> Option<i128>
    ensures { result ≡ signed_value sign value }
{
    match sign {
        Sign::Plus => Some(value),
        Sign::Minus => value.checked_neg(),
    }
}
