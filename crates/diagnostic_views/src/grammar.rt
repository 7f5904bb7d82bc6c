//! Faults of the grammar.

use crate::facts::Known;
use crate::words::text_at;
use idl_compiler::CompileFault;
use idl_lexer::Token;
use idl_parser::ParseFault;
use std::alloc::{AllocError, Global};

/// Where a token begins; the end of the last one where there is none of the number.
pub(crate) fn octet_at(tokens: &[Token<'_>], number: usize) -> usize {
    match tokens.get(number) {
        Some(token) => token.start,
        None => match tokens.last() {
            Some(token) => token.end().unwrap_or(token.start),
            None => 0,
        },
    }
}

/// What is known of the fault.
pub(crate) fn of_grammar(
    alloc: Global,
    tokens: &[Token<'_>],
    fault: ParseFault,
) -> Result<Option<Known>, AllocError> {
    let (at, sentence) = match fault {
        ParseFault::Unexpected { at, .. } => (
            at,
            format!(in alloc; "'{}' can't stand here", text_at(tokens, at))?,
        ),
        ParseFault::EndOfFile { .. } => (
            tokens.len().saturating_sub(1),
            String::from_str(alloc, "the file ends behind this, inside a definition")?,
        ),
        ParseFault::LeftOut { what, at, .. } => (
            at,
            format!(in alloc; "'{what}' isn't served by this profile")?,
        ),
        ParseFault::TooDeep { at, .. } => (
            at,
            String::from_str(
                alloc,
                "more than 64 modules, types and parentheses one inside another",
            )?,
        ),
        ParseFault::NoMemory => return Ok(None),
    };
    let fault = CompileFault::Grammar(fault);
    Ok(Known::alone(fault, octet_at(tokens, at), sentence))
}
