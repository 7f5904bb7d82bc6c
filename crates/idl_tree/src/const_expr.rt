//! Constant expressions that group as the grammar says.

ghost use Rattle.std.specs.Prelude.{true, false};
ghost use Rattle.idl_tree.specs.Grouping.{IsOfLevel};

use crate::expression::Expr;

/// An expression whose operands and operators group by the levels of the IDL grammar, so that a
/// multiplication binds tighter than an addition.
pub struct ConstExpr<'a> {
    pub expr: Expr<'a>,
    ghost groups: { IsOfLevel true 0 expr },
}

/// The same between the `<` and the `>` of a sequence or a string, where a right shift stands in
/// parentheses only.
pub struct Bound<'a> {
    /// In a box, so that no type is as large as an expression.
    pub expr: Box<Expr<'a>>,
    ghost groups: { IsOfLevel false 0 expr.value },
}

// A derived drop would be proved again in each crate that lets go of a tree.

impl<'a> Drop for ConstExpr<'a> {
    fn drop(self) {
        let ConstExpr { expr: _ } = self;
    }
}

impl<'a> Drop for Bound<'a> {
    fn drop(self) {
        let Bound { expr: _ } = self;
    }
}
