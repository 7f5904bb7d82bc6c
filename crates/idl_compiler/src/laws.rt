//! Laws over the definitions. The functions do nothing: each contract is the law.

ghost use Rattle.std.specs.Prelude.{◌≡◌, ◌≢◌, ℕ, List};
ghost use Rattle.idl_lexer.specs.declared.fault.LexFault.{LexFault};
ghost use Rattle.idl_parser.specs.declared.fault.ParseFault.{ParseFault};
ghost use Rattle.idl_tree.specs.declared.definitions.Definition.{Definition};
ghost use Rattle.idl_tree.specs.DefinitionShapes.{spec_shape};
ghost use Rattle.type_model.specs.ModelRules.{Parts};
ghost use Rattle.idl_compiler.specs.declared.fault.CompileFault.{CompileFault};
ghost use Rattle.idl_compiler.specs.declared.fault.CompileFault.TheVariants.{Grammar, NoMemory, Tokens};
ghost use Rattle.idl_compiler.specs.Compiled.{IsCompiled, IsModelOf, IsTextOf};
ghost use Rattle.idl_compiler.specs.declared.choice.Settled.{Settled};
ghost use Rattle.idl_compiler.specs.Refused.{IsFaultOf, IsRefused};

use idl_lexer::laws::tokens_are_one;
use idl_tree::tree_laws::laws::spec_is_one;
use model_builder::laws as models;
use scoped_names::laws::names_are_one;
use shape_laws::laws::{names_are_of_the_shape, types_are_of_the_shape};

/// Definitions have at most one model.
pub fn model_is_one()
    ensures { (definitions : List Definition) (one other : Parts)
        → IsModelOf definitions one → IsModelOf definitions other → one ≡ other }
{
    names_are_one();
    models::model_is_one()
}

/// Definitions that have a model have no fault.
pub fn modelled_or_refused()
    ensures { (definitions : List Definition) (model : Parts) (fault : CompileFault)
        → IsModelOf definitions model → IsFaultOf definitions fault → fault ≡ NoMemory }
{
    names_are_one();
    models::shown_or_refused()
}

/// A text whose tokens or whose grammar are refused is that of no definitions.
pub fn text_or_refused()
    ensures tokens { (source : List ℕ) (definitions : List Definition) (fault : LexFault)
        → IsRefused source (Tokens fault) → IsTextOf source definitions → ⊥ }
    ensures grammar { (source : List ℕ) (definitions : List Definition) (fault : ParseFault)
        → IsRefused source (Grammar fault) → IsTextOf source definitions → ⊥ }
{
    tokens_are_one();
}

/// The definitions of a text are one, but for where they lie in memory.
pub fn definitions_are_one()
    ensures { (source : List ℕ) (definitions others : List Definition)
        → IsTextOf source definitions → IsTextOf source others → spec_shape definitions ≡ spec_shape others }
{
    tokens_are_one();
    spec_is_one()
}

/// A text has at most one model.
pub fn model_of_text_is_one()
    ensures { (source : List ℕ) (definitions others : List Definition) (one other : Parts)
        → IsTextOf source definitions → IsModelOf definitions one
        → IsTextOf source others → IsModelOf others other → one ≡ other }
{
    definitions_are_one();
    names_are_of_the_shape();
    types_are_of_the_shape();
    model_is_one()
}

/// No table is that of a text that is refused, want of memory aside.
pub fn refused_has_no_table()
    ensures { (source : List ℕ) (fault : CompileFault) (settled : Settled)
        → IsRefused source fault → fault ≢ NoMemory → IsCompiled source settled → ⊥ }
{
    text_or_refused();
    definitions_are_one();
    names_are_of_the_shape();
    types_are_of_the_shape();
    modelled_or_refused()
}
