//! Laws over the definitions. The functions do nothing: each contract is the law.

ghost use Rattle.std.specs.Prelude.{◌≡◌, All, List, EachIndex, Ok};
ghost use Rattle.idl_tree.specs.declared.definitions.Definition.{Definition};
ghost use Rattle.idl_tree.specs.declared.spec.Spec.{Spec};
ghost use Rattle.type_graph.specs.GraphRules.{IsShallow};
ghost use Rattle.type_model.specs.ModelRules.{IsModel, Parts};
ghost use Rattle.scoped_names.specs.FileNames.{AreNames, FileNames};
ghost use Rattle.lowered_types.specs.declared.fault.TypeFault.{TypeFault};
ghost use Rattle.lowered_operations.specs.Definitions.{defined_by};
ghost use Rattle.lowered_operations.specs.Operations.{Defined};
ghost use Rattle.type_model.specs.PartNamesNames.{AreApart};
ghost use Rattle.model_builder.specs.Ascii.{HasAsciiTexts};
ghost use Rattle.model_builder.specs.Faults.{IsFault};
ghost use Rattle.model_builder.specs.PartNames.{AreOneForOne};
ghost use Rattle.model_builder.specs.Shown.{Shows, model_of};

use type_paths::laws::{fault_is_of_long_paths, path_fault_is_one};

/// A file shows at most one model under its names.
pub fn model_is_one()
    ensures { (definitions : List Definition) (names : FileNames) (one other : Parts)
        → Shows definitions names one → Shows definitions names other → one ≡ other }
{}

/// What shows a model has no fault.
pub fn shown_or_refused()
    ensures { (definitions : List Definition) (names : FileNames) (model : Parts) (fault : TypeFault)
        → Shows definitions names model → IsFault definitions names fault → ⊥ }
{
    fault_is_of_long_paths()
}

/// A file has at most one fault of its types.
pub fn fault_is_one()
    ensures { (definitions : List Definition) (names : FileNames) (one other : TypeFault)
        → IsFault definitions names one → IsFault definitions names other → one ≡ other }
{
    path_fault_is_one()
}

/// What a file is lowered to under its own names is a model, where its paths are short enough: no other
/// rule of graphs or models is left to be broken.
pub fn lowered_is_a_model()
    ensures { (spec : Spec) (names : FileNames) (d : Defined) → AreNames spec.definitions.items names
        → defined_by names.entries spec.definitions.items ≡ Ok d
        → EachIndex d.types.nodes (IsShallow 64 d.types.nodes) → IsModel (model_of names d) }
{}

/// Each text of a file's model is ASCII, as those of table files have to be.
pub fn texts_are_ascii()
    ensures { (spec : Spec) (names : FileNames) (model : Parts) → AreNames spec.definitions.items names
        → Shows spec.definitions.items names model → HasAsciiTexts model }
{}

/// The names of the parts of one node are apart: no two members, enumerators or parameters of a
/// file are equal but for case, and none is `_return` or `_id`.
pub fn names_are_apart()
    ensures { (spec : Spec) (names : FileNames) (d : Defined) → AreNames spec.definitions.items names
        → defined_by names.entries spec.definitions.items ≡ Ok d → All AreApart d.types.names }
{}

/// Names stand one for one for the parts of nodes: each node that a file is lowered to has a name for
/// each of its members, enumerators or parameters.
pub fn names_are_one_for_one()
    ensures { (spec : Spec) (names : FileNames) (d : Defined) → AreNames spec.definitions.items names
        → defined_by names.entries spec.definitions.items ≡ Ok d → AreOneForOne d.types.nodes d.types.names }
{}
