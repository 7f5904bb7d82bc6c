//! Laws of references and profiles, over the definitions alone.

ghost use Rattle.std.specs.Prelude.{◌≡◌, ℕ, List};
ghost use Rattle.reference_texts.specs.Profiles.{HasKey, IsProfile};
ghost use Rattle.reference_texts.specs.References.{Reference};
ghost use Rattle.reference_texts.specs.Texts.{IsTextOf, Spells};

/// A text spells one reference.
pub fn text_spells_one_reference()
    ensures { (text : List ℕ) (a b : Reference) → Spells text a → Spells text b → a ≡ b }
{}

/// The text that is written of a reference spells it, and there is one.
pub fn written_text_is_read()
    ensures read { (reference : Reference) (text : List ℕ) → IsTextOf reference text → Spells text reference }
    ensures once { (reference : Reference) (a b : List ℕ) → IsTextOf reference a → IsTextOf reference b → a ≡ b }
{}

/// A profile tells the key that it was written with and no other, and is written in one way.
pub fn written_profile_has_its_key()
    ensures told { (host : List ℕ) (port : ℕ) (key octets : List ℕ) → IsProfile host port key octets
        → HasKey (0, octets) key }
    ensures alone { (host : List ℕ) (port : ℕ) (key other octets : List ℕ) → IsProfile host port key octets
        → HasKey (0, octets) other → other ≡ key }
    ensures once { (host : List ℕ) (port : ℕ) (key a b : List ℕ) → IsProfile host port key a
        → IsProfile host port key b → a ≡ b }
{}
