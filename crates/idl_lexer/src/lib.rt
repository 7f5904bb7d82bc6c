//! The tokens of an IDL source (ISO/IEC 19500-1, lexical conventions).
//!
//! The source is a preprocessor's output: line markers and the pragmas that don't concern repository
//! ids are skipped, and other directives are refused.
#![tactic(auto)]

mod comment;
mod directive;
pub mod fault;
pub mod identifiers;
pub mod laws;
mod lexeme;
mod lexer;
mod literal;
mod number;
mod octets;
pub mod pragmas;
mod punct;
pub mod token;
pub mod values;
mod word;

pub use fault::LexFault;
pub use identifiers::Identifiers;
pub use lexer::lex;
pub use pragmas::{Pragma, is_rooted};
pub use token::{Kind, Token};
pub use values::{character_value, number_value, push_octets};
