//! Definitions up to the end of the tokens.
#![tactic(auto, using(crate::proofs::Reading::past_append, crate::proofs::Reading::past_none))]

ghost use Rattle.std.specs.Prelude.{◌≡◌, ◌⊎◌, IfErr, IfOk};
ghost use Rattle.definition_reader.specs.declared.stop.Stop.TheVariants.{NoMemory};
ghost use Rattle.definition_reader.specs.Specification.{Whole, IsNoSpec};

use crate::cursor::Cursor;
use crate::read::definitions::read_definitions;
use crate::stop::Stop;
use idl_tree::definitions::Definition;

/// Reads definitions to the end (ISO/IEC 19500-1, IDL grammar). At most so many levels, which are modules, types
/// and parentheses, stand one inside another.
///
/// # Errors
///
/// Where the next token can't stand, where a level too many is opened, and `NoMemory` where memory was refused. The
/// cursor stands then where reading stopped.
pub fn read_all<'a>(cursor: &mut Cursor<'a, '_>, levels: usize) -> Result<Vec<Definition<'a>>, Stop>
    ensures whole { IfOk result (λ d. Whole levels cursor.old d.items) }
    ensures refused { IfErr result (λ stop. (stop ≡ NoMemory) ⊎ IsNoSpec levels cursor.old) }
{
    let definitions = got!(read_definitions(cursor, levels));
    if !cursor.is_at_end() {
        return Err(Stop::Unexpected);
    }
    Ok(definitions)
}
