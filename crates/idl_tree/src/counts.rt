//! How many tokens names and expressions are.

ghost use Rattle.std.specs.Prelude.{◌≡◌, ◌<◌, ◌^◌, length};
ghost use Rattle.idl_tree.specs.Yields.{operator_yield, name_yield, expr_yield};

use crate::expression::{Expr, Operator};
use crate::names::ScopedName;

/// How many tokens an operator is.
fn operator_tokens(operator: Operator) -> usize
    ensures { result ≡ length (operator_yield operator) }
{
    match operator {
        Operator::ShiftRight => 2,
        _ => 1,
    }
}

impl ScopedName<'_> {
    /// How many tokens the name is. Takes no memory.
    pub fn token_count(&self) -> usize
        requires { length (name_yield self.now) < 2 ^ 64 }
        ensures { result ≡ length (name_yield self.now) }
    {
        usize::from(self.is_rooted()) + 1 + 2 * self.rest().len()
    }
}

impl Expr<'_> {
    /// How many tokens the expression is. Takes no memory, and goes no deeper than the expression.
    pub fn token_count(&self) -> usize
        requires fits { length (expr_yield self.now) < 2 ^ 64 }
        ensures { result ≡ length (expr_yield self.now) }
    {
        match self {
            Expr::Name(name) => name.token_count(),
            Expr::Number(_) | Expr::Character(_) | Expr::Boolean { .. } => 1,
            Expr::Text(texts) => texts.len(),
            Expr::Parenthesized { inner, .. } => 2 + inner.token_count(),
            Expr::Signed { operand, .. } => 1 + operand.token_count(),
            Expr::Chain { first, rest } => {
                let mut count = first.token_count();
                for part in rest {
                    count += operator_tokens(part.operator) + part.operand.token_count();
                }
                count
            }
        }
    }
}
