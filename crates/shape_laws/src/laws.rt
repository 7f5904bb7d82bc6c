//! Laws over trees of one shape. The functions do nothing: each contract is the law.

ghost use Rattle.std.specs.Prelude.{◌≡◌, List};
ghost use Rattle.idl_tree.specs.declared.definitions.Definition.{Definition};
ghost use Rattle.lowered_operations.specs.Definitions.{defined_by};
ghost use Rattle.name_table.specs.Entry.{Entry};
ghost use Rattle.scoped_names.specs.FileNames.{names_of};
ghost use Rattle.idl_tree.specs.DefinitionShapes.{spec_shape};

/// The names of a file, and the fault of its names, are those of its shape.
pub fn names_are_of_the_shape()
    ensures { (definitions others : List Definition) → spec_shape definitions ≡ spec_shape others
        → names_of definitions ≡ names_of others }
{}

/// What the types and operations of a file are lowered to, or the first fault of its types, is that of its shape.
pub fn types_are_of_the_shape()
    ensures { (entries : List Entry) (definitions others : List Definition)
        → spec_shape definitions ≡ spec_shape others
        → defined_by entries definitions ≡ defined_by entries others }
{}
