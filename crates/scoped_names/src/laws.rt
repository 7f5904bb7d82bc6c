//! Laws over the definitions. The functions do nothing: each contract is the law.

ghost use Rattle.std.specs.Prelude.{◌≡◌, ◌<◌, ℕ, List, length};
ghost use Rattle.std.specs.List.{AllByRecursion, Any, IsDistinct};
ghost use Rattle.idl_tree.specs.declared.definitions.Definition.{Definition};
ghost use Rattle.idl_tree.specs.declared.spec.Spec.{Spec};
ghost use Rattle.scoped_names.specs.Following.{AllFollow};
ghost use Rattle.scoped_names.specs.Holding.{AllHold};
ghost use Rattle.scoped_names.specs.Introductions.{IsEntry, StandsFor, clashes, introduced};
ghost use Rattle.name_steps.specs.Steps.{steps_of};
ghost use Rattle.scoped_names.specs.AllFaults.{all_faults, fault_of, first_of};
ghost use Rattle.scoped_names.specs.FileNames.{FileNames, AreNames, names_of};

/// A specification has one list of entries, and what pragmas say of each is one thing.
pub fn names_are_one()
    ensures { (definitions : List Definition) (one other : FileNames) →
        AreNames definitions one → AreNames definitions other → one ≡ other }
{}

/// Where a specification has no fault of names, each identifier that it declares is the entry that
/// stands at its scope and name, of its kind and spelling.
pub fn identifiers_are_entries()
    ensures { (definitions : List Definition) (names : FileNames) → AreNames definitions names →
        AllByRecursion (IsEntry names.entries) (introduced names.entries 0 (steps_of definitions)) }
{}

/// Nothing else is an entry: for each there is an identifier that the specification declares.
pub fn entries_are_identifiers()
    ensures { (definitions : List Definition) (names : FileNames) → AreNames definitions names →
        (n : ℕ) → n < length names.entries →
        Any (StandsFor names.entries n) (introduced names.entries 0 (steps_of definitions)) }
{}

/// Where a specification has no fault of names, nothing that it introduces clashes with what stands
/// before it: each name, member, parameter and body stands once, but for what may appear again.
pub fn nothing_clashes()
    ensures { (definitions : List Definition) (names : FileNames) → AreNames definitions names →
        IsDistinct clashes (introduced names.entries 0 (steps_of definitions)) }
{}

/// Where a specification has no fault of names, each name finds over the entries of the whole what
/// it has to find, each expression has its worth, and each identifier is an entry.
pub fn names_hold()
    ensures { (spec : Spec) (names : FileNames) → AreNames spec.definitions.items names →
        AllHold names.entries 0 (steps_of spec.definitions.items) }
{}

/// Each name of a type, an exception or a base finds what is declared before it, by a step that is
/// read earlier.
pub fn names_follow()
    ensures { (spec : Spec) (names : FileNames) → AreNames spec.definitions.items names →
        AllFollow (λ e. ⊥) names.entries 0 (steps_of spec.definitions.items) }
{}

/// The first of all faults of a specification's names is the one that is told of it, and it has none
/// exactly where it has names.
#[tactic(auto, using(crate::proofs::Passed::first_is_told))]
pub fn first_fault_is_told()
    ensures { (definitions : List Definition) → first_of (all_faults definitions) ≡ fault_of (names_of definitions) }
{}
