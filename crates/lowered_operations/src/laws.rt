//! Laws over the definitions. The functions do nothing: each contract is the law.

ghost use Rattle.std.specs.Prelude.{◌≡◌, List, length, Err, Ok};
ghost use Rattle.idl_tree.specs.declared.definitions.Definition.{Definition};
ghost use Rattle.idl_tree.specs.declared.spec.Spec.{Spec};
ghost use Rattle.name_table.specs.Entry.{Entry};
ghost use Rattle.scoped_names.specs.FileNames.{AreNames, FileNames};
ghost use Rattle.lowered_types.specs.Sound.{IsOfTypes};
ghost use Rattle.lowered_types.specs.declared.fault.BuildFault.{BuildFault};
ghost use Rattle.lowered_operations.specs.Definitions.{defined_by};
ghost use Rattle.lowered_operations.specs.Kept.{KeepRule};
ghost use Rattle.lowered_operations.specs.Operations.{Defined};
ghost use Rattle.lowered_operations.specs.Sound.{IsSoundFile};

/// Nothing comes back from the oneway operations of a file that is lowered.
pub fn oneway_gives_nothing_back()
    ensures { (es : List Entry) (definitions : List Definition) (d : Defined) →
        defined_by es definitions ≡ Ok d → KeepRule definitions }
{}

/// With the names of its own specification a file has no fault of names, only of types.
pub fn no_other_names()
    ensures { (spec : Spec) (names : FileNames) → AreNames spec.definitions.items names → (fault : BuildFault) →
        defined_by names.entries spec.definitions.items ≡ Err fault → IsOfTypes fault }
{}

/// What a file is lowered to under its own names is sound: types that keep the rules of graphs but that on
/// paths, places that speak of what is there, operations and exceptions with frames of their own.
pub fn lowered_is_sound()
    ensures { (spec : Spec) (names : FileNames) → AreNames spec.definitions.items names → (d : Defined) →
        defined_by names.entries spec.definitions.items ≡ Ok d → IsSoundFile (length names.entries) d }
{}
