//! What literals of expressions are worth.

ghost use Rattle.std.specs.Prelude.{◌≡◌, IfOk};
ghost use Rattle.idl_tree.specs.Lists.{parts};
ghost use Rattle.name_table.specs.Worth.{literal_worth, are_texts as all_texts, text_worth};

use crate::const_values::constant::{Constant, Text};
use idl_lexer::Kind;
use idl_tree::names::{Leaf, Listed};
use std::alloc::{AllocError, Global};

/// The constant of a number's or a character's literal; none of another token. Takes no memory.
pub fn literal_constant(leaf: &Leaf<'_>) -> Option<Constant>
    ensures { result ≡ literal_worth leaf.now }
{
    match leaf.token.kind {
        Kind::Number => Some(Constant::Integer(i128::from(leaf.number()))),
        Kind::CharLit => Some(Constant::Character(leaf.character())),
        _ => None,
    }
}

/// Whether the tokens of literals are texts.
fn are_texts(literals: &Listed<Leaf<'_>>) -> bool
    ensures { result ≡ all_texts (parts literals.now) }
{
    for leaf in literals.iter() {
        match leaf.token.kind {
            Kind::TextLit => {}
            _ => return false,
        }
    }
    true
}

/// The constant of text literals that stand one behind another; none of other tokens.
///
/// # Errors
///
/// `AllocError` where memory was refused.
pub fn text_constant(
    alloc: Global,
    literals: &Listed<Leaf<'_>>,
) -> Result<Option<Constant>, AllocError>
    ensures { IfOk result (λ c. c ≡ text_worth (parts literals.now)) }
{
    if are_texts(literals) {
        Ok(Some(Constant::Text(Text::new(alloc, literals)?)))
    } else {
        Ok(None)
    }
}
