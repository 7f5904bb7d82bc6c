//! What constants are worth.

ghost use Rattle.std.specs.Prelude.{◌≡◌, length, IfOk};
ghost use Rattle.std.specs.List.{AllByRecursion};
ghost use Rattle.idl_lexer.specs.declared.token.Kind.TheVariants.{TextLit};
ghost use Rattle.idl_tree.specs.Forms.{IsLeafOf};
ghost use Rattle.idl_tree.specs.Lists.{parts};
ghost use Rattle.name_table.specs.Texts.{joined_octets};

use idl_tree::names::{Leaf, Listed};
use std::alloc::{AllocError, Global};
use std::marker::Model;
use std::rc::RcSlice;

/// The octets of a text, which all constants that are worth it share. A contract sees the list of
/// the octets.
pub struct Text {
    octets: RcSlice<u8>,
}

impl Model for Text {
    ghost use Rattle.std.specs.Prelude.{List, ℕ};
    ghost use Rattle.std.specs.Rc.{rc_slice_items};

    ghost Value = { List ℕ };

    ghost view = { λ t. rc_slice_items t.octets };
}

impl Text {
    /// The octets of text literals, one literal behind another.
    ///
    /// # Errors
    ///
    /// `AllocError` where memory was refused.
    pub fn new(alloc: Global, literals: &Listed<Leaf<'_>>) -> Result<Self, AllocError>
        requires { AllByRecursion (IsLeafOf TextLit) (parts literals.now) }
        ensures { IfOk result (λ t. t ≡ joined_octets (parts literals.now)) }
    {
        let mut octets = Vec::new(alloc);
        literals.push_octets(&mut octets)?;
        Ok(Text {
            octets: RcSlice::from_vec(octets)?,
        })
    }

    /// How many octets there are.
    pub fn len(&self) -> usize
        ensures { result ≡ length self.now }
    {
        self.octets.len()
    }

    pub fn as_slice(&self) -> &[u8]
        ensures { result.now ≡ self.now }
    {
        self.octets.as_slice()
    }

    /// The same text once more, which shares the octets; an error where no more can be counted.
    fn shared(&self) -> Result<Self, AllocError>
        ensures { IfOk result (λ t. t ≡ self.now) }
    {
        Ok(Text {
            octets: self.octets.clone()?,
        })
    }
}

/// What a constant is worth.
pub enum Constant {
    /// A whole number.
    Integer(i128),
    Boolean(bool),
    /// The octet of a character.
    Character(u8),
    Text(Text),
    /// An enumerator, and the enum that has it: the numbers of their entries among the names.
    Enumerator { enumerator: usize, owner: usize },
}

// Derived drops would be proved again in each crate that lets go of a constant.

impl Drop for Text {
    fn drop(self) {
        let Text { octets: _ } = self;
    }
}

impl Drop for Constant {
    fn drop(self) {
        match self {
            Constant::Integer(_) => {}
            Constant::Boolean(_) => {}
            Constant::Character(_) => {}
            Constant::Text(_) => {}
            Constant::Enumerator {
                enumerator: _,
                owner: _,
            } => {}
        }
    }
}

impl Constant {
    /// The same constant once more. Takes no memory that grows with it.
    ///
    /// # Errors
    ///
    /// `AllocError` where as many share a text as can be counted.
    pub fn shared(&self) -> Result<Self, AllocError>
        ensures { IfOk result (λ c. c ≡ self.now) }
    {
        Ok(match self {
            Constant::Integer(value) => Constant::Integer(*value),
            Constant::Boolean(value) => Constant::Boolean(*value),
            Constant::Character(octet) => Constant::Character(*octet),
            Constant::Text(text) => Constant::Text(text.shared()?),
            Constant::Enumerator { enumerator, owner } => Constant::Enumerator {
                enumerator: *enumerator,
                owner: *owner,
            },
        })
    }
}
