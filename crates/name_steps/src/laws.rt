//! Laws over the definitions. The functions do nothing: each contract is the law.

ghost use Rattle.std.specs.Prelude.{◌≡◌, List};
ghost use Rattle.idl_tree.specs.declared.definitions.Definition.{Definition};
ghost use Rattle.idl_tree.specs.DefinitionYields.{definitions_spelled};
ghost use Rattle.name_steps.specs.Asked.{asked, asked_by};
ghost use Rattle.name_steps.specs.Steps.{steps_of};

/// Each identifier, literal and pragma of a specification is asked for by one step, in the order of
/// the source.
pub fn all_is_asked()
    ensures { (definitions : List Definition) →
        asked (definitions_spelled definitions) ≡ asked_by (steps_of definitions) }
{}
