//! Names as a file has them.

use idl_lexer::{Kind, Token};
use std::alloc::{AllocError, Global};

fn is_mark(tokens: &[Token<'_>], number: usize) -> bool {
    match tokens.get(number) {
        Some(token) => token.text == "::",
        None => false,
    }
}

fn is_name(tokens: &[Token<'_>], number: usize) -> bool {
    match tokens.get(number) {
        Some(token) => token.kind == Kind::Ident,
        None => false,
    }
}

/// The text of a token, and nothing where there is none.
pub(crate) fn text_at<'a>(tokens: &[Token<'a>], number: usize) -> &'a str {
    match tokens.get(number) {
        Some(token) => token.text,
        None => "",
    }
}

/// The scoped name that begins with a token, or the token's text.
pub(crate) fn name_at(
    alloc: Global,
    tokens: &[Token<'_>],
    number: usize,
) -> Result<String, AllocError> {
    let mut name = String::from_str(alloc, text_at(tokens, number))?;
    let mut last = number;
    for next in number.saturating_add(1)..tokens.len() {
        let goes_on = if is_mark(tokens, last) {
            is_name(tokens, next)
        } else {
            is_name(tokens, last) && is_mark(tokens, next)
        };
        if !goes_on {
            break;
        }
        name.push_str(text_at(tokens, next))?;
        last = next;
    }
    Ok(name)
}
