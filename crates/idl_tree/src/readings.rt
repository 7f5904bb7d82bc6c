//! What numbers, literals and pragmas in a tree say.
//!
//! Each reader asks for a leaf of its kind: that the token is of the kind shows it, or, in a `Spec`,
//! the place in the tree.

ghost use Rattle.std.specs.Prelude.{◌≡◌, ◌++◌, OnOk, OnErr};
ghost use Rattle.std.specs.List.{AllByRecursion, flat_map};
ghost use Rattle.idl_lexer.specs.Numbers.{number_value as value_of};
ghost use Rattle.idl_lexer.specs.Readings.{character_octet, text_octets};
ghost use Rattle.idl_lexer.specs.Says.{Says};
ghost use Rattle.idl_tree.specs.Forms.{IsLeafOf};
ghost use Rattle.idl_tree.specs.Lists.{parts};

use crate::names::{Leaf, Listed};
use idl_lexer::{Kind, Pragma, character_value, number_value, push_octets};
use std::alloc::AllocError;

impl<'a> Leaf<'a> {
    /// The value of an integer literal. Takes no memory.
    pub fn number(&self) -> u64
        requires { IsLeafOf Kind.Number self.now }
        ensures { result ≡ value_of self.now.token.text.now }
    {
        number_value(self.token.text)
    }

    /// The octet for which a character literal stands. Takes no memory.
    pub fn character(&self) -> u8
        requires { IsLeafOf Kind.CharLit self.now }
        ensures { result ≡ character_octet self.now.token.text.now }
    {
        character_value(self.token.text)
    }

    /// What a pragma for repository ids says. Takes no memory.
    pub fn pragma(&self) -> Pragma<'a>
        requires { IsLeafOf Kind.Pragma self.now }
        ensures { Says self.now.token.text.now result }
    {
        Pragma::read(self.token.text)
    }

    /// Adds the octets for which a text literal stands.
    ///
    /// # Errors
    ///
    /// `AllocError` where memory was refused; then nothing was added.
    pub fn push_octets(&self, octets: &mut Vec<u8>) -> Result<(), AllocError>
        requires { IsLeafOf Kind.TextLit self.now }
        ensures ok { OnOk result (octets.new.items ≡ octets.old.items ++ text_octets self.now.token.text.now) }
        ensures err { OnErr result (octets.new.items ≡ octets.old.items) }
    {
        push_octets(self.token.text, octets)
    }
}

impl<'a> Listed<Leaf<'a>> {
    /// Adds the octets for which text literals stand, one behind another.
    ///
    /// # Errors
    ///
    /// `AllocError` where memory was refused; then nothing was added.
    pub fn push_octets(&self, octets: &mut Vec<u8>) -> Result<(), AllocError>
        requires { AllByRecursion (IsLeafOf Kind.TextLit) (parts self.now) }
        ensures ok { OnOk result (octets.new.items
            ≡ octets.old.items ++ flat_map (λ l. text_octets l.token.text.now) (parts self.now)) }
        ensures err { OnErr result (octets.new.items ≡ octets.old.items) }
    {
        let len = octets.len();
        for text in self.iter() {
            if let Err(fault) = text.push_octets(octets) {
                octets.truncate(len);
                return Err(fault);
            }
        }
        Ok(())
    }
}
