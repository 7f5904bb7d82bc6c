//! Where tokens stand, the first tokens of names and expressions, and how many tokens they are.

ghost use Rattle.std.specs.Prelude.{◌≡◌};
ghost use Rattle.idl_tree.specs.Starts.{leaf_at, name_start, is_rooted, name_first, name_rest, expr_start};

use crate::expression::Expr;
use crate::names::{At, Leaf, ScopedName};

impl<'a> Leaf<'a> {
    /// Where it stands. Takes no memory.
    pub fn at(&self) -> At
        ensures { result ≡ leaf_at self.now }
    {
        At {
            token: self.number,
            line: self.token.line as usize,
        }
    }
}

impl<'a> ScopedName<'a> {
    /// The first token: the `::` that the name begins with, or its first identifier. Takes no memory.
    pub fn start(&self) -> Leaf<'a>
        ensures { result ≡ name_start self.now }
    {
        match self {
            ScopedName::Plain(identifier) => *identifier,
            ScopedName::Scoped(path) => match path.root {
                Some(root) => root,
                None => path.first,
            },
        }
    }

    /// Whether the name begins with `::`.
    pub fn is_rooted(&self) -> bool
        ensures { result ≡ is_rooted self.now }
    {
        match self {
            ScopedName::Plain(_) => false,
            ScopedName::Scoped(path) => path.root.is_some(),
        }
    }

    /// The first identifier. Takes no memory.
    pub fn first(&self) -> Leaf<'a>
        ensures { result ≡ name_first self.now }
    {
        match self {
            ScopedName::Plain(identifier) => *identifier,
            ScopedName::Scoped(path) => path.first,
        }
    }

    /// The identifiers behind the first. Takes no memory.
    pub fn rest(&self) -> &[Leaf<'a>]
        ensures { result.now ≡ name_rest self.now }
    {
        match self {
            ScopedName::Plain(_) => &[],
            ScopedName::Scoped(path) => path.rest.as_slice(),
        }
    }
}

impl<'a> Expr<'a> {
    /// The first token, which has the number and the line of the expression. Takes no memory.
    pub fn start(&self) -> Leaf<'a>
        ensures { result ≡ expr_start self.now }
    {
        match self {
            Expr::Name(name) => name.start(),
            Expr::Number(literal) | Expr::Character(literal) => *literal,
            Expr::Text(texts) => texts.first,
            Expr::Boolean { word, .. } => *word,
            Expr::Parenthesized { paren, .. } => *paren,
            Expr::Signed { mark, .. } => *mark,
            Expr::Chain { first, .. } => first.start(),
        }
    }
}
