//! The types of GIOP at hand, and the calls on references.

ghost use Rattle.std.specs.Prelude.{◌≡◌, ℕ, List, IfOk, IfErr};
ghost use Rattle.std.specs.Bool.{OnFalse};
ghost use Rattle.std.specs.String.{string_bytes};
ghost use Rattle.reference_texts.specs.Profiles.{IsProfile};
ghost use Rattle.reference_texts.specs.References.{Reference, reference_of};
ghost use Rattle.reference_texts.specs.Refusal.{wants_memory};
ghost use Rattle.reference_texts.specs.Texts.{IsTextOf, Spells};
ghost use Rattle.giop_types.specs.GiopModel.{giop_table};

use giop_types::GiopTypes;
use position_checker::Accepted;
use reference_texts::{Ior, ReferenceFault};
use std::alloc::{AllocError, Global};
use std::marker::Model;

/// The types of GIOP at hand, by which messages are read and written. A contract sees their table.
#[derive(Drop)]
pub struct Giop {
    pub(crate) types: GiopTypes,
}

impl Model for Giop {
    ghost use Rattle.std.specs.Prelude.{◌≡◌};
    ghost use Rattle.table_file.specs.Table.{TableParts};
    ghost use Rattle.giop_types.specs.GiopModel.{giop_table};

    ghost Value = { TableParts };

    ghost view = { λ giop. giop.types };

    ghost invariant = { λ giop. giop.types ≡ giop_table };
}

impl Giop {
    /// Makes the types.
    ///
    /// # Errors
    /// Want of memory.
    pub fn new(alloc: Global) -> Result<Giop, AllocError>
        ensures { IfOk result (λ giop. giop ≡ giop_table) }
    {
        match GiopTypes::new(alloc) {
            Ok(types) => Ok(Giop { types }),
            Err(error) => Err(error),
        }
    }

    /// The types. Takes no memory.
    pub fn types(&self) -> &GiopTypes
        ensures { result.now ≡ giop_table }
    {
        &self.types
    }

    /// The table of the types. Takes no memory.
    pub fn table(&self) -> &Accepted
        ensures { result.now ≡ giop_table }
    {
        self.types.table()
    }

    /// The octets of a profile of IIOP, whose tag is 0: version 1.2, the host and port of an
    /// object's server, the object's key there, no components.
    ///
    /// # Errors
    /// `BadIor` where the host holds a zero, or the host or the key is too long for its count.
    /// Want of memory.
    pub fn profile(
        &self,
        alloc: Global,
        host: &[u8],
        port: u16,
        key: &[u8],
    ) -> Result<Vec<u8>, ReferenceFault>
        ensures written { IfOk result (λ octets. IsProfile host.now port key.now octets.items) }
        ensures refused { IfErr result (λ fault.
            OnFalse (wants_memory fault) ((octets : List ℕ) → IsProfile host.now port key.now octets → ⊥)) }
    {
        reference_texts::profile(&self.types, alloc, host, port, key)
    }

    /// The text of a reference: `IOR:` and the digits, in lower case, of its encapsulation in big
    /// order.
    ///
    /// # Errors
    /// `BadIor` where the id holds a zero, or a part is too long for its count. Want of memory.
    pub fn ior_to_text(&self, alloc: Global, ior: &Ior) -> Result<String, ReferenceFault>
        ensures text { IfOk result (λ text. IsTextOf (reference_of ior.now) (string_bytes text)) }
        ensures refused { IfErr result (λ fault.
            OnFalse (wants_memory fault) ((text : List ℕ) → IsTextOf (reference_of ior.now) text → ⊥)) }
    {
        reference_texts::ior_to_text(&self.types, alloc, ior)
    }

    /// The reference that a text spells: `IOR:`, in letters of either case, and the digits, of
    /// either case, of an encapsulation of the reference. Octets behind the reference are ignored.
    ///
    /// # Errors
    /// `BadIor` where the text spells no reference. Want of memory.
    pub fn ior_from_text(&self, alloc: Global, text: &str) -> Result<Ior, ReferenceFault>
        ensures found { IfOk result (λ ior. Spells text.now (reference_of ior)) }
        ensures refused { IfErr result (λ fault.
            OnFalse (wants_memory fault) ((reference : Reference) → Spells text.now reference → ⊥)) }
    {
        reference_texts::ior_from_text(&self.types, alloc, text)
    }
}
