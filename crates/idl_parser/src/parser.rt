//! The tree of a whole specification.
#![tactic(auto)]

ghost use Rattle.std.specs.Prelude.{◌≡◌, ◌≤◌, ◌⊎◌, List, IfErr, IfOk};
ghost use Rattle.definition_reader.specs.declared.stop.Stop.TheVariants.{NoMemory as StopNoMemory};
ghost use Rattle.definition_reader.specs.Specification.{IsNext};
ghost use Rattle.idl_parser.specs.declared.fault.ParseFault.TheVariants.{NoMemory};
ghost use Rattle.idl_parser.specs.Told.{TellsOf};
ghost use Rattle.idl_tree.specs.declared.names.Leaf.{Leaf};
ghost use Rattle.idl_tree.specs.declared.definitions.Definition.{Definition};
ghost use Rattle.idl_tree.specs.Pieces.{Spell};
ghost use Rattle.idl_tree.specs.DefinitionYields.{definitions_spelled};
ghost use Rattle.idl_tree.specs.DefinitionLevels.{levels_of};

use crate::fault::ParseFault;
use crate::left_out::left_out;
use definition_reader::{Cursor, Stop, read_all};
use idl_lexer::Token;
use idl_tree::spec::Spec;
use std::alloc::Global;

/// How many modules, types and parentheses may stand one inside another.
const MAX_LEVELS: usize = 64;

/// The line of the last of all tokens.
fn last_line(tokens: &[Token<'_>]) -> usize {
    tokens.last().map_or(1, |token| token.line as usize)
}

/// Why the next token can't stand where it does.
fn unexpected(cursor: &Cursor<'_, '_>, tokens: &[Token<'_>]) -> ParseFault
    ensures { (next : Leaf) → IsNext next cursor.now → TellsOf next result }
{
    let Some(next) = cursor.next_token() else {
        return ParseFault::EndOfFile {
            line: last_line(tokens),
        };
    };
    let (at, line) = (next.number, next.token.line as usize);
    match left_out(&next.token) {
        Some(what) => ParseFault::LeftOut { what, at, line },
        None => ParseFault::Unexpected { at, line },
    }
}

/// What a reader's stop means at the place among all tokens where it stopped.
fn fault_of(cursor: &Cursor<'_, '_>, tokens: &[Token<'_>], stop: Stop) -> ParseFault
    ensures { stop ≡ StopNoMemory → result ≡ NoMemory }
{
    match stop {
        Stop::Unexpected => unexpected(cursor, tokens),
        Stop::TooDeep { at, line } => ParseFault::TooDeep { at, line },
        Stop::NoMemory => ParseFault::NoMemory,
    }
}

/// The tree of an IDL specification, given as its tokens (ISO/IEC 19500-1, IDL grammar).
///
/// The tree spells the tokens again, from the first to the last; what it keeps of a token is that token, with its
/// number and its line. At most 64 levels stand one inside another.
///
/// # Errors
///
/// The first fault in the order of reading, with its line, and `NoMemory` where memory was refused.
pub fn parse<'a>(alloc: Global, tokens: &[Token<'a>]) -> Result<Spec<'a>, ParseFault>
    ensures spells { IfOk result (λ spec. Spell (definitions_spelled spec.definitions.items) tokens.now) }
    ensures levels { IfOk result (λ spec. levels_of spec.definitions.items ≤ 64) }
    ensures refused { IfErr result (λ fault. (fault ≡ NoMemory) ⊎ ((definitions : List Definition)
        → Spell (definitions_spelled definitions) tokens.now → levels_of definitions ≤ 64 → ⊥)) }
{
    let mut cursor = Cursor::new(alloc, tokens);
    let definitions = match read_all(&mut cursor, MAX_LEVELS) {
        Ok(definitions) => definitions,
        Err(stop) => return Err(fault_of(&cursor, tokens, stop)),
    };
    Ok(Spec { definitions })
}
