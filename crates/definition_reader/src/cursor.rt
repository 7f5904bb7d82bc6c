//! How far tokens are read.
//!
//! A contract sees a cursor as the list of the tokens that are left.
#![tactic(auto, using(crate::proofs::Reading::past_append))]

ghost use Rattle.std.specs.Prelude.{◌≡◌, ◌++◌, ◌&&◌, suc, [], true, false, nat_eq, Some, Ok, IfErr, IfOk, IfSome, IfNone, codes};
ghost use Rattle.std.specs.Bool.{OnTrue, OnFalse};
ghost use Rattle.std.specs.Str.{bytes_eq};
ghost use Rattle.idl_lexer.specs.declared.token.Kind.TheVariants.{Keyword, Punct};
ghost use Rattle.idl_tree.specs.declared.expression.Operator.TheVariants.{ShiftRight};
ghost use Rattle.idl_tree.specs.Descent.{sees, sees_kind, sees_touching, sees_shift, taken, taken_kind, taken_touching, identifier_way, operator_way, opened};
ghost use Rattle.idl_tree.specs.DefinitionDescent.{is_ahead, is_over};
ghost use Rattle.definition_reader.specs.inner.Following.{Ends};
ghost use Rattle.definition_reader.specs.inner.Reading.{Parsed};
ghost use Rattle.definition_reader.specs.Specification.{IsNext};
ghost use Rattle.definition_reader.specs.declared.stop.Stop.TheVariants.{TooDeep};
ghost use Rattle.idl_tree.specs.Pieces.{piece, keyword, kept, kind_code, mark, touching, leaf as leaf_yield, seen_from};
ghost use Rattle.idl_tree.specs.Yields.{identifier as identifier_yield};

use crate::stop::Stop;
use idl_lexer::{Kind, Token};
use idl_tree::names::Leaf;
use std::alloc::Global;
use std::marker::Model;

/// The tokens that are left, and where they stand among all.
#[derive(Drop)]
pub struct Cursor<'a, 't> {
    alloc: Global,
    rest: &'t [Token<'a>],
    /// The number of the first token that is left.
    number: usize,
}

impl<'a, 't> Model for Cursor<'a, 't> {
    ghost use Rattle.std.specs.Prelude.{List, ◌+◌, ◌^◌, ◌<◌, length};
    ghost use Rattle.idl_tree.specs.Pieces.{Seen, seen_from};

    ghost Value = { List Seen };

    ghost view = { λ c. seen_from c.number c.rest.now };

    ghost invariant = { λ c. c.number + length c.rest.now < 2 ^ 64 };
}

/// Whether a token is of this kind.
fn is_of(token: &Token<'_>, kind: Kind) -> bool
    ensures { result ≡ nat_eq (kind_code kind) (kind_code token.now.kind) }
{
    token.kind == kind
}

/// Whether a token has this text.
fn has_text(token: &Token<'_>, text: &str) -> bool
    ensures { result ≡ bytes_eq text.now token.now.text.now }
{
    token.text == text
}

/// Whether a token is this one.
fn is_this(token: &Token<'_>, kind: Kind, text: &str) -> bool
    ensures { result ≡ (nat_eq (kind_code kind) (kind_code token.now.kind) && bytes_eq text.now token.now.text.now) }
{
    is_of(token, kind) && has_text(token, text)
}

impl<'a, 't> Cursor<'a, 't> {
    /// A cursor before all of these tokens.
    pub fn new(alloc: Global, tokens: &'t [Token<'a>]) -> Self
        ensures { result ≡ seen_from 0 tokens.now }
    {
        Cursor {
            alloc,
            rest: tokens,
            number: 0,
        }
    }

    pub(crate) fn alloc(&self) -> Global {
        self.alloc
    }

    pub(crate) fn is_at_end(&self) -> bool
        ensures over { result ≡ is_over self.now }
        ensures end { OnTrue result (self.now ≡ []) }
    {
        self.rest.is_empty()
    }

    /// Whether the next token is this one.
    fn is_next(&self, kind: Kind, text: &str) -> bool
        ensures { result ≡ sees kind text.now self.now }
    {
        match self.rest.first() {
            Some(token) => is_this(token, kind, text),
            None => false,
        }
    }

    /// Whether the next token is of this kind.
    pub(crate) fn is_kind(&self, kind: Kind) -> bool
        ensures { result ≡ sees_kind kind self.now }
    {
        match self.rest.first() {
            Some(token) => is_of(token, kind),
            None => false,
        }
    }

    /// Whether a mark is the next token.
    pub(crate) fn is_mark(&self, text: &str) -> bool
        ensures { result ≡ sees Punct text.now self.now }
    {
        self.is_next(Kind::Punct, text)
    }

    /// Whether a keyword is the next token.
    pub(crate) fn is_keyword(&self, word: &str) -> bool
        ensures { result ≡ sees Keyword word.now self.now }
    {
        self.is_next(Kind::Keyword, word)
    }

    /// Whether a semicolon stands behind the next two tokens.
    pub(crate) fn is_ahead(&self) -> bool
        ensures { result ≡ is_ahead self.now }
    {
        match self.rest.get(2) {
            Some(third) => is_this(third, Kind::Punct, ";"),
            None => false,
        }
    }

    /// The next token with its number, which counts from 0; none at the end.
    pub fn next_token(&self) -> Option<Leaf<'a>>
        ensures end { IfNone result (self.now ≡ []) }
        ensures next { IfSome result (λ l. IsNext l self.now) }
    {
        match self.rest.first() {
            Some(token) => Some(Leaf {
                token: *token,
                number: self.number,
            }),
            None => None,
        }
    }

    /// Takes the next token, if it is this one.
    pub(crate) fn take(&mut self, kind: Kind, text: &str) -> Option<Leaf<'a>>
        ensures missing { IfNone result (self.new ≡ self.old) }
        ensures unseen { IfNone result (sees kind text.now self.old ≡ false) }
        ensures seen { IfSome result (λ l. sees kind text.now self.old ≡ true) }
        ensures way { IfSome result (λ l. taken kind text.now self.old ≡ Some self.new) }
        ensures plain { IfSome result (λ l. Parsed self.old (piece kind text.now) self.new) }
        ensures kept { IfSome result (λ l. Parsed self.old (kept kind text.now l) self.new) }
    {
        let tokens = self.rest;
        let Some(token) = tokens.first() else {
            return None;
        };
        if !is_this(token, kind, text) {
            return None;
        }
        let number = self.number;
        self.rest = &tokens[1..];
        self.number += 1;
        Some(Leaf {
            token: *token,
            number,
        })
    }

    /// Takes the next token, if it is of this kind.
    pub(crate) fn take_leaf(&mut self, kind: Kind) -> Option<Leaf<'a>>
        ensures missing { IfNone result (self.new ≡ self.old) }
        ensures unseen { IfNone result (sees_kind kind self.old ≡ false) }
        ensures seen { IfSome result (λ l. sees_kind kind self.old ≡ true) }
        ensures way { IfSome result (λ l. taken_kind kind self.old ≡ Some self.new) }
        ensures read { IfSome result (λ l. Parsed self.old (leaf_yield kind l) self.new) }
    {
        let tokens = self.rest;
        let Some(token) = tokens.first() else {
            return None;
        };
        if !is_of(token, kind) {
            return None;
        }
        let number = self.number;
        self.rest = &tokens[1..];
        self.number += 1;
        Some(Leaf {
            token: *token,
            number,
        })
    }

    /// Whether a `>` is next that the token behind it touches.
    fn is_touching(&self) -> bool
        ensures { result ≡ sees_touching (codes ">") self.now }
    {
        let Some(first) = self.rest.first() else {
            return false;
        };
        let Some(second) = self.rest.get(1) else {
            return false;
        };
        is_this(first, Kind::Punct, ">") && first.touches(second)
    }

    /// Whether two `>` that touch are next.
    pub(crate) fn is_right_shift(&self) -> bool
        ensures { result ≡ sees_shift self.now }
    {
        if !self.is_touching() {
            return false;
        }
        match self.rest.get(1) {
            Some(second) => is_this(second, Kind::Punct, ">"),
            None => false,
        }
    }

    /// Takes a `>` that the next token touches.
    fn take_touching(&mut self) -> bool
        ensures missing { OnFalse result (self.new ≡ self.old) }
        ensures unseen { OnFalse result (sees_touching (codes ">") self.old ≡ false) }
        ensures way { OnTrue result (taken_touching (codes ">") self.old ≡ Some self.new) }
        ensures read { OnTrue result (Parsed self.old (touching (codes ">")) self.new) }
    {
        if !self.is_touching() {
            return false;
        }
        let tokens = self.rest;
        if tokens.is_empty() {
            return false;
        }
        self.rest = &tokens[1..];
        self.number += 1;
        true
    }

    /// Takes the marks of a right shift.
    pub(crate) fn right_shift(&mut self) -> Result<(), Stop>
        ensures read { IfOk result (λ _. Parsed self.old (touching (codes ">") ++ mark (codes ">")) self.new) }
        ensures way { IfOk result (λ _. operator_way ShiftRight self.old ≡ Some self.new) }
        ensures stops { IfErr result (Ends (operator_way ShiftRight self.old)) }
    {
        if !self.take_touching() {
            return Err(Stop::Unexpected);
        }
        self.mark(">")
    }

    pub(crate) fn take_mark(&mut self, text: &str) -> bool
        ensures missing { OnFalse result (self.new ≡ self.old) }
        ensures unseen { OnFalse result (sees Punct text.now self.old ≡ false) }
        ensures seen { OnTrue result (sees Punct text.now self.old ≡ true) }
        ensures way { OnTrue result (taken Punct text.now self.old ≡ Some self.new) }
        ensures read { OnTrue result (Parsed self.old (mark text.now) self.new) }
    {
        self.take(Kind::Punct, text).is_some()
    }

    pub(crate) fn take_keyword(&mut self, word: &str) -> bool
        ensures missing { OnFalse result (self.new ≡ self.old) }
        ensures unseen { OnFalse result (sees Keyword word.now self.old ≡ false) }
        ensures seen { OnTrue result (sees Keyword word.now self.old ≡ true) }
        ensures way { OnTrue result (taken Keyword word.now self.old ≡ Some self.new) }
        ensures read { OnTrue result (Parsed self.old (keyword word.now) self.new) }
    {
        self.take(Kind::Keyword, word).is_some()
    }

    pub(crate) fn mark(&mut self, text: &str) -> Result<(), Stop>
        ensures read { IfOk result (λ _. Parsed self.old (mark text.now) self.new) }
        ensures way { IfOk result (λ _. taken Punct text.now self.old ≡ Some self.new) }
        ensures stops { IfErr result (Ends (taken Punct text.now self.old)) }
    {
        if self.take_mark(text) {
            Ok(())
        } else {
            Err(Stop::Unexpected)
        }
    }

    pub(crate) fn keyword(&mut self, word: &str) -> Result<(), Stop>
        ensures read { IfOk result (λ _. Parsed self.old (keyword word.now) self.new) }
        ensures way { IfOk result (λ _. taken Keyword word.now self.old ≡ Some self.new) }
        ensures stops { IfErr result (Ends (taken Keyword word.now self.old)) }
    {
        if self.take_keyword(word) {
            Ok(())
        } else {
            Err(Stop::Unexpected)
        }
    }

    /// Takes a token of a kind.
    pub(crate) fn leaf(&mut self, kind: Kind) -> Result<Leaf<'a>, Stop>
        ensures read { IfOk result (λ l. Parsed self.old (leaf_yield kind l) self.new) }
        ensures way { IfOk result (λ l. taken_kind kind self.old ≡ Some self.new) }
        ensures stops { IfErr result (Ends (taken_kind kind self.old)) }
    {
        match self.take_leaf(kind) {
            Some(leaf) => Ok(leaf),
            None => Err(Stop::Unexpected),
        }
    }

    pub(crate) fn identifier(&mut self) -> Result<Leaf<'a>, Stop>
        ensures read { IfOk result (λ l. Parsed self.old (identifier_yield l) self.new) }
        ensures way { IfOk result (λ l. identifier_way self.old ≡ Some self.new) }
        ensures stops { IfErr result (Ends (identifier_way self.old)) }
    {
        self.leaf(Kind::Ident)
    }

    /// Takes a mark that opens a level, and answers how many levels are left inside.
    pub(crate) fn open(&mut self, text: &str, room: usize) -> Result<usize, Stop>
        ensures read { IfOk result (λ left. Parsed self.old (mark text.now) self.new) }
        ensures levels { IfOk result (λ left. suc left ≡ room) }
        ensures way { IfOk result (λ left. taken Punct text.now self.old ≡ Some self.new) }
        ensures stops { IfErr result (Ends (opened room (λ left. taken Punct text.now self.old))) }
    {
        let Some(opening) = self.take(Kind::Punct, text) else {
            return Err(Stop::Unexpected);
        };
        inside(room, &opening)
    }
}

/// How many levels are left inside a level that a mark opens.
pub(crate) fn inside(room: usize, opening: &Leaf<'_>) -> Result<usize, Stop>
    ensures levels { IfOk result (λ left. suc left ≡ room) }
    ensures none { IfErr result (λ _. room ≡ 0) }
    ensures told { IfErr result (λ stop. stop ≡ TooDeep opening.now.number opening.now.token.line) }
{
    match room.checked_sub(1) {
        Some(left) => Ok(left),
        None => Err(Stop::TooDeep {
            at: opening.number,
            line: opening.token.line as usize,
        }),
    }
}
