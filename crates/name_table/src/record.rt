//! What is kept of each entry.

ghost use Rattle.std.specs.Prelude.{◌≡◌, IfOk, None, Some};
ghost use Rattle.std.specs.Map.{lookup};
ghost use Rattle.name_table.specs.Features.{bare_feature};
ghost use Rattle.name_table.specs.OwnNames.{is_named_so};
ghost use Rattle.name_table.specs.inner.Records.{entry_of, given_before, is_word, kind_known, worth_known};

use crate::const_values::{ConstKind, Constant};
use crate::entry::{Base, feature_token, keeps_its_name};
use crate::key::{Key, Word};
use crate::search::Found;
use idl_tree::kinds::EntryKind;
use std::alloc::{AllocError, Global};
use std::collections::BTreeMap;

/// What several bases give for a name.
#[derive(Clone, Copy)]
pub(crate) struct Given {
    /// What the first base that gives the name gives.
    pub entry: usize,
    /// The token of that base.
    pub token: usize,
    /// What the first base gives that gives another entry.
    pub clash: Option<Clash>,
}

/// Another entry that a base gives for a name.
#[derive(Clone, Copy)]
pub(crate) struct Clash {
    pub entry: usize,
    /// The token of that base.
    pub token: usize,
}

/// What an interface has from its bases. A name is sought as in the first base, but for those in
/// `others`, of which a later base says something else.
pub(crate) struct Heir<'a> {
    pub first: Base,
    pub later: Vec<Base>,
    pub others: BTreeMap<Word<'a>, Given>,
}

/// What few entries have.
#[derive(Drop)]
pub(crate) struct Known {
    /// What a constant or an enumerator is worth.
    pub worth: Option<Constant>,
    /// The type of constants for which the name of a type stands in the end.
    pub stands_for: Option<ConstKind>,
}

/// An entry.
#[derive(Drop)]
pub(crate) struct Record<'a> {
    pub key: Key<'a>,
    /// The token from which it is found.
    pub token: usize,
    /// The line of its identifier.
    pub line: usize,
    /// The number of its identifier.
    pub identifier: usize,
    pub kind: EntryKind,
    /// In a box, so that an entry that has none of it is small.
    pub known: Option<Box<Known>>,
    /// The prefix of repository ids at the declaration.
    pub prefix: &'a str,
    /// Of an interface that has bases.
    pub heir: Option<Box<Heir<'a>>>,
}

/// Keeps what is known of an entry.
pub(crate) fn known_of(
    alloc: Global,
    worth: Option<Constant>,
    stands_for: Option<ConstKind>,
) -> Result<Option<Box<Known>>, AllocError>
    ensures worth { IfOk result (λ known. worth_known known ≡ worth) }
    ensures kind { IfOk result (λ known. kind_known known ≡ stands_for) }
{
    if worth.is_none() && stands_for.is_none() {
        return Ok(None);
    }
    Ok(Some(Box::new(alloc, Known { worth, stands_for })?))
}

impl<'a> Drop for Heir<'a> {
    fn drop(self) {
        let Heir {
            first: _,
            later: _,
            others: _,
        } = self;
    }
}

impl Given {
    /// What the bases before the token give.
    pub fn before(self, token: usize) -> Found
        ensures { result ≡ given_before token self }
    {
        if token <= self.token {
            return Found::Nothing;
        }
        match self.clash {
            Some(clash) if clash.token < token => Found::Several(self.entry, clash.entry),
            _ => Found::One(self.entry),
        }
    }
}

impl<'a> Heir<'a> {
    /// What later bases say else of a name.
    pub fn other(&self, word: Word<'a>) -> Option<Given>
        ensures { result ≡ lookup (is_word word.entry.text.now) self.now.others.entries }
    {
        self.others.get(&word).copied()
    }
}

impl<'a> Record<'a> {
    /// The same of what is found among operations and attributes alone, and has no bases.
    pub fn as_feature(&self) -> Record<'a>
        ensures is { entry_of result ≡ bare_feature (entry_of self.now) }
        ensures bare { result.heir ≡ None }
    {
        Record {
            key: self.key,
            token: feature_token(self.kind, self.token),
            line: self.line,
            identifier: self.identifier,
            kind: self.kind,
            known: None,
            prefix: self.prefix,
            heir: None,
        }
    }

    /// Whether it has the name, which can't be declared in its scope.
    pub fn is_named_so(&self, word: &Word<'a>) -> bool
        ensures { result ≡ is_named_so word.now.text.now (Some (entry_of self.now)) }
    {
        keeps_its_name(self.kind) && self.key.word == *word
    }
}
