//! Constant expressions.

ghost use Rattle.std.specs.Prelude.{◌≡◌, ◌++◌, ◌≤◌, ℕ, suc, Bool, true, max, IfOk, codes};
ghost use Rattle.std.specs.List.{AllByRecursion, flat_map};
ghost use Rattle.idl_tree.specs.Grouping.{IsOfLevel, IsOperandOf};
ghost use Rattle.idl_tree.specs.Pieces.{mark, kept_mark};
ghost use Rattle.idl_tree.specs.Yields.{operator_text, sign_text, expr_yield, operand_yield};
ghost use Rattle.idl_tree.specs.Levels.{highest, expr_levels, operand_levels};

use crate::names::{Leaf, Listed, ScopedName};
use std::alloc::{AllocError, Global};

/// The operators between two operands.
#[derive(Clone, Copy, PartialEq, Eq)]
pub enum Operator {
    Or,
    Xor,
    And,
    ShiftLeft,
    /// Two tokens `>` that touch.
    ShiftRight,
    Add,
    Subtract,
    Multiply,
    Divide,
    Remainder,
}

/// The operators before an operand.
#[derive(Clone, Copy, PartialEq, Eq)]
pub enum Sign {
    Plus,
    Minus,
}

/// A constant expression.
#[cycle(expression)]
pub enum Expr<'a> {
    Name(ScopedName<'a>),
    Number(Leaf<'a>),
    Character(Leaf<'a>),
    /// Text literals, one or more, which are one text together.
    Text(Box<Listed<Leaf<'a>>>),
    Boolean {
        value: bool,
        /// The keyword.
        word: Leaf<'a>,
    },
    Parenthesized {
        /// The opening parenthesis.
        paren: Leaf<'a>,
        inner: Box<Expr<'a>>,
    },
    Signed {
        mark: Leaf<'a>,
        sign: Sign,
        operand: Box<Expr<'a>>,
    },
    /// Operands with operators of one level between them, which group from the left.
    Chain {
        first: Box<Expr<'a>>,
        rest: Vec<Operand<'a>>,
    },
}

/// An operator and the operand behind it.
#[cycle(expression)]
pub struct Operand<'a> {
    pub operator: Operator,
    pub operand: Expr<'a>,
}

impl Operator {
    /// The mark of the operator; the right shift has it twice.
    pub fn text(self) -> &'static str
        ensures { result.now ≡ operator_text self }
    {
        match self {
            Operator::Or => "|",
            Operator::Xor => "^",
            Operator::And => "&",
            Operator::ShiftLeft => "<<",
            Operator::ShiftRight => ">",
            Operator::Add => "+",
            Operator::Subtract => "-",
            Operator::Multiply => "*",
            Operator::Divide => "/",
            Operator::Remainder => "%",
        }
    }
}

impl<'a> Expr<'a> {
    /// The first operand and the others behind it, or the first alone.
    pub fn new_chain(
        alloc: Global,
        first: Expr<'a>,
        rest: Vec<Operand<'a>>,
    ) -> Result<Expr<'a>, AllocError>
        ensures spells { IfOk result (λ e. expr_yield e ≡
            expr_yield first.entry ++ flat_map operand_yield rest.entry.items) }
        ensures groups { IfOk result (λ e. (shifts : Bool) (level : ℕ) → level ≤ 5 →
            IsOfLevel shifts (suc level) first.entry →
            AllByRecursion (IsOperandOf shifts level) rest.entry.items → IsOfLevel shifts level e) }
        ensures levels { IfOk result (λ e. expr_levels e ≡
            max (expr_levels first.entry) (highest operand_levels rest.entry.items)) }
    {
        if rest.is_empty() {
            return Ok(first);
        }
        Ok(Expr::Chain {
            first: Box::new(alloc, first)?,
            rest,
        })
    }

    /// An operand with a sign before it.
    pub fn new_signed(
        alloc: Global,
        mark: Leaf<'a>,
        sign: Sign,
        operand: Expr<'a>,
    ) -> Result<Expr<'a>, AllocError>
        ensures spells { IfOk result (λ e. expr_yield e ≡
            kept_mark (sign_text sign) mark.entry ++ expr_yield operand.entry) }
        ensures groups { IfOk result (λ e. (shifts : Bool) →
            IsOfLevel shifts 7 operand.entry → IsOfLevel shifts 6 e) }
        ensures levels { IfOk result (λ e. expr_levels e ≡ expr_levels operand.entry) }
    {
        Ok(Expr::Signed {
            mark,
            sign,
            operand: Box::new(alloc, operand)?,
        })
    }

    /// An expression in parentheses.
    pub fn new_parenthesized(
        alloc: Global,
        paren: Leaf<'a>,
        inner: Expr<'a>,
    ) -> Result<Expr<'a>, AllocError>
        ensures spells { IfOk result (λ e. expr_yield e ≡
            kept_mark (codes "(") paren.entry ++ expr_yield inner.entry ++ mark (codes ")")) }
        ensures groups { IfOk result (λ e. IsOfLevel true 0 inner.entry →
            (shifts : Bool) → IsOfLevel shifts 7 e) }
        ensures levels { IfOk result (λ e. expr_levels e ≡ suc (expr_levels inner.entry)) }
    {
        Ok(Expr::Parenthesized {
            paren,
            inner: Box::new(alloc, inner)?,
        })
    }
}

// A derived drop would be proved again in each crate that lets go of a tree.

impl<'a> Drop for Expr<'a> {
    #[cycle(drop_expression)]
    fn drop(self) {
        match self {
            Expr::Name(_) => {}
            Expr::Number(_) => {}
            Expr::Character(_) => {}
            Expr::Text(_) => {}
            Expr::Boolean { value: _, word: _ } => {}
            Expr::Parenthesized { paren: _, inner: _ } => {}
            Expr::Signed {
                mark: _,
                sign: _,
                operand: _,
            } => {}
            Expr::Chain { first: _, rest: _ } => {}
        }
    }
}

impl<'a> Drop for Operand<'a> {
    #[cycle(drop_expression)]
    fn drop(self) {
        let Operand {
            operator: _,
            operand: _,
        } = self;
    }
}
