//! A text that is being read.

ghost use Rattle.std.specs.Prelude.{◌≡◌, ◌≢◌, ℕ, List, [], ◌∷◌, IfSome, IfNone, IfOk, OnOk, OnErr, MatchOption};
ghost use Rattle.json.specs.Token.{Token as SpecToken, end_array, end_object, key};
ghost use Rattle.json.specs.Reads.{token_of};
ghost use Rattle.type_graph.specs.Value.{Tree};
ghost use Rattle.idl_value.specs.View.{tree_of};
ghost use Rattle.value_text.specs.Stringified.{Stringifies, FitsObject};
ghost use Rattle.value_text.specs.inner.Reading.{Next};

use crate::fault::Wanted;
use crate::reference_values::reference_value;
use giop_types::GiopTypes;
use idl_value::Value;
use json::{Reader, Token};
use std::alloc::{AllocError, AllocFailed, Global};
use std::marker::Model;

/// Why reading stops.
#[derive(Clone, Copy, Debug, Drop)]
pub enum Stop {
    /// At the token that begins at this octet something else was wanted.
    Refused { wanted: Wanted, at: usize },
    NoMemory,
}

impl From<AllocError> for Stop {
    ghost use Rattle.std.specs.Prelude.{◌≡◌};
    ghost use Rattle.value_text.specs.declared.cursor.Stop.TheVariants.{NoMemory};

    ghost from_gives = { λ _ stop. stop ≡ NoMemory };

    fn from(_error: AllocError) -> Stop {
        Stop::NoMemory
    }
}

impl<T: Drop> From<AllocFailed<T>> for Stop {
    ghost use Rattle.std.specs.Prelude.{◌≡◌};
    ghost use Rattle.value_text.specs.declared.cursor.Stop.TheVariants.{NoMemory};

    ghost from_gives = { λ _ stop. stop ≡ NoMemory };

    fn from(_error: AllocFailed<T>) -> Stop {
        Stop::NoMemory
    }
}

/// The tokens that are still to come, and where the last one began.
#[derive(Drop)]
pub struct Cursor<'a> {
    reader: Reader<'a>,
    at: usize,
    /// Those by which object references are read, made for the first.
    types: Option<GiopTypes>,
}

impl<'a> Model for Cursor<'a> {
    ghost use Rattle.std.specs.Prelude.{List};
    ghost use Rattle.json.specs.Token.{Token as SpecToken, tokens_code};

    ghost Value = { List SpecToken };

    ghost coded = { tokens_code };

    ghost view = { λ c. c.reader };
}

impl<'a> Cursor<'a> {
    pub fn new(reader: Reader<'a>) -> Cursor<'a>
        ensures { result ≡ reader.entry }
    {
        Cursor {
            reader,
            at: 0,
            types: None,
        }
    }

    /// The next token; behind the last there is a bad one.
    pub fn next(&mut self) -> Token<'a>
        ensures { Next self.old (token_of result) self.new }
    {
        self.at = self.reader.offset();
        self.reader.next().unwrap_or(Token::Bad)
    }

    /// The refusal of the last token: something else was wanted.
    pub fn refuse(&self, token: Token<'_>, wanted: Wanted) -> Stop {
        let wanted = match token {
            Token::Bad => Wanted::Json,
            _ => wanted,
        };
        Stop::Refused {
            wanted,
            at: self.at,
        }
    }

    /// The first token of the next element of a list, None at the list's end.
    pub fn next_element(&mut self) -> Option<Token<'a>>
        ensures some { IfSome result (λ token. Next self.old (token_of token) self.new × (token_of token ≢ end_array)) }
        ensures none { IfNone result (self.old ≡ end_array ∷ self.new) }
    {
        match self.next() {
            Token::EndArray => None,
            token => Some(token),
        }
    }

    /// The first token of a part that a list has to have.
    pub fn next_part(&mut self) -> Result<Token<'a>, Stop>
        ensures some { IfOk result (λ token. Next self.old (token_of token) self.new) }
        ensures refused { OnErr result (self.old ≡ end_array ∷ self.new) }
    {
        match self.next() {
            Token::EndArray => Err(self.refuse(Token::EndArray, Wanted::Count)),
            token => Ok(token),
        }
    }

    /// The name of the next member of an object, None at the object's end.
    pub fn next_key(&mut self) -> Result<Option<&'a str>, Stop>
        ensures found { IfOk result (λ label. MatchOption label (self.old ≡ end_object ∷ self.new)
            (λ name. self.old ≡ key name.now ∷ self.new)) }
        ensures refused { OnErr result ((name : List ℕ) (more : List SpecToken) → self.old ≡ key name ∷ more → ⊥) }
        ensures endless { OnErr result ((more : List SpecToken) → self.old ≡ end_object ∷ more → ⊥) }
    {
        match self.next() {
            Token::Key(key) => Ok(Some(key)),
            Token::EndObject => Ok(None),
            token => Err(self.refuse(token, Wanted::Json)),
        }
    }

    /// Passes the end of a list.
    pub fn end_list(&mut self) -> Result<(), Stop>
        ensures ended { OnOk result (self.old ≡ end_array ∷ self.new) }
        ensures refused { OnErr result ((more : List SpecToken) → self.old ≡ end_array ∷ more → ⊥) }
    {
        match self.next() {
            Token::EndArray => Ok(()),
            token => Err(self.refuse(token, Wanted::Count)),
        }
    }

    /// The object reference that a string spells, with so many sequences still allowed one inside
    /// another.
    pub fn reference(
        &mut self,
        alloc: Global,
        text: &str,
        depth: u32,
    ) -> Result<Option<Value>, AllocError>
        ensures same { self.new ≡ self.old }
        ensures some { IfOk result (λ found. IfSome found (λ value. Stringifies text.now (tree_of value))) }
        ensures fits { IfOk result (λ found. IfSome found (λ value. FitsObject (tree_of value) depth)) }
        ensures none { IfOk result (λ found. IfNone found ((value : Tree) → Stringifies text.now value
            → FitsObject value depth → ⊥)) }
    {
        let types = match self.types.take() {
            Some(types) => types,
            None => GiopTypes::new(alloc)?,
        };
        let found = reference_value(&types, alloc, text, depth);
        self.types = Some(types);
        found
    }

    /// The text has to end here. Whatever stands behind is refused as such, also where it isn't JSON.
    pub fn end(&mut self) -> Result<(), Stop>
        ensures ended { OnOk result (self.old ≡ []) }
        ensures refused { OnErr result (self.old ≢ []) }
    {
        let at = self.reader.offset();
        match self.reader.next() {
            None => Ok(()),
            Some(_) => Err(Stop::Refused {
                wanted: Wanted::End,
                at,
            }),
        }
    }
}
