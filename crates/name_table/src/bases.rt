//! Interfaces with several bases.

ghost use Rattle.std.specs.Prelude.{◌≡◌, ◌<◌, ◌≤◌, ◌⊎◌, ℕ, suc, ◌++◌, ◌∷◌, [], List, None, Some, IfOk, IfErr, IfSome, OnOk, length, nat_eq};
ghost use Rattle.std.specs.List.{list_any};
ghost use Rattle.name_table.specs.Features.{differ, differ_in, is_one_other};
ghost use Rattle.std.specs.Map.{lookup};
ghost use Rattle.name_table.specs.declared.search.Found.{Found};
ghost use Rattle.name_table.specs.Entry.{bases_of};
ghost use Rattle.name_table.specs.Entries.{latest};
ghost use Rattle.name_table.specs.Search.{both as what_both_give, other_than, own as own_of, inherited as inherited_by, within as within_of};
ghost use Rattle.name_table.specs.inner.Records.{given_before, heir_of as heir_in_records, is_word, HasWord};
ghost use Rattle.name_table.specs.inner.SeveralBases.{given_then, HasNoneFrom, IsKept, Merges, SaysNothingNew, with_more, IsDone};

use crate::entry::Base;
use crate::key::Word;
use crate::record::{Clash, Given, Heir};
use crate::scope::Scope;
use crate::search::Found;
use crate::table::{Table, heir_of};
use std::alloc::{AllocError, Global};
use std::collections::BTreeMap;

/// Of two entries the first that isn't the entry.
fn other_than(entry: usize, one: usize, other: usize) -> usize
    ensures { result ≡ other_than entry one other }
{
    if entry == one { other } else { one }
}

/// What is kept of a name that the bases before give from the token `first` on, where a base that
/// is named at the token gives something else; nothing where it says nothing new.
fn merged(old: Found, new: Found, first: usize, token: usize) -> Option<Given>
    requires { (e : ℕ) → old ≡ Found.One e → first < token }
    ensures given { IfSome result (λ g. (t : ℕ) → given_before t g ≡ given_then first token old new t) }
    ensures told { IfSome result (λ g. (a b : ℕ) → old ≡ Found.Several a b → ⊥) }
    ensures same { result ≡ None → what_both_give old new ≡ old }
{
    match (old, new) {
        (Found::Several(..), _) | (_, Found::Nothing) => None,
        (Found::One(one), Found::One(same)) if one == same => None,
        (Found::Nothing, Found::One(entry)) => Some(Given {
            entry,
            token,
            clash: None,
        }),
        (Found::Nothing, Found::Several(entry, other)) => Some(Given {
            entry,
            token,
            clash: Some(Clash {
                entry: other,
                token,
            }),
        }),
        (Found::One(entry), Found::One(other)) => Some(Given {
            entry,
            token: first,
            clash: Some(Clash {
                entry: other,
                token,
            }),
        }),
        (Found::One(entry), Found::Several(one, other)) => Some(Given {
            entry,
            token: first,
            clash: Some(Clash {
                entry: other_than(entry, one, other),
                token,
            }),
        }),
    }
}

/// Adds the words of which something is kept.
pub(crate) fn list_given<'a>(words: &mut Vec<Word<'a>>, heir: &Heir<'a>) -> Result<(), AllocError>
    ensures kept { OnOk result ((name : List ℕ) → HasWord words.old.items name → HasWord words.new.items name) }
    ensures listed { OnOk result ((name : List ℕ) →
        (lookup (is_word name) heir.now.others.entries ≡ None) ⊎ HasWord words.new.items name) }
{
    for (word, _) in &heir.others {
        words.push(*word)?;
    }
    Ok(())
}

/// Whether an entry is one of the bases.
fn is_among(bases: &[Base], entry: usize) -> bool
    ensures { result ≡ list_any (λ b. nat_eq b.entry entry) bases.now }
{
    for base in bases {
        if base.entry == entry {
            return true;
        }
    }
    false
}

fn is_base_of(heir: &Heir<'_>, entry: usize) -> bool
    ensures { result ≡ list_any (λ b. nat_eq b.entry entry) (heir.now.first ∷ heir.now.later.items) }
{
    heir.first.entry == entry || is_among(heir.later.as_slice(), entry)
}

/// Whether two ways give two entries that differ.
fn is_one_other(old: Found, new: Found) -> bool
    ensures { result ≡ is_one_other old new }
{
    match (old, new) {
        (Found::One(one), Found::One(other)) => one != other,
        _ => false,
    }
}

/// What is kept of an interface that gets its first base.
fn first_heir<'a>(alloc: Global, base: Base) -> Result<Box<Heir<'a>>, AllocError>
    ensures first { IfOk result (λ h. h.value.first ≡ base) }
    ensures later { IfOk result (λ h. h.value.later.items ≡ []) }
    ensures others { IfOk result (λ h. h.value.others.entries ≡ []) }
{
    Ok(Box::new(
        alloc,
        Heir {
            first: base,
            later: Vec::new(alloc),
            others: BTreeMap::new(alloc),
        },
    )?)
}

impl<'a> Table<'a> {
    /// Adds the words that a scope declares.
    pub(crate) fn list_declared(
        &self,
        words: &mut Vec<Word<'a>>,
        scope: Scope,
    ) -> Result<(), AllocError>
        ensures kept { OnOk result ((name : List ℕ) → HasWord words.old.items name → HasWord words.new.items name) }
        ensures listed { OnOk result ((n : ℕ) (name : List ℕ) →
            (own_of self.now n scope.0 name ≡ Found.Nothing) ⊎ HasWord words.new.items name) }
    {
        if scope.0 < self.words.len() {
            words.extend_from_slice(self.words[scope.0].as_slice())?;
        }
        Ok(())
    }

    /// The words of which an interface may inherit something else where it gets one more base.
    fn words_to_merge(
        &self,
        alloc: Global,
        inner: Scope,
        heir: &Heir<'a>,
        base: Base,
    ) -> Result<Vec<Word<'a>>, AllocError>
        requires kept { IsKept self.now inner.0 heir.now }
        requires last { HasNoneFrom self.now inner.0 base.token }
        requires first { heir.now.first.entry < length self.now }
        requires earlier { heir.now.first.token < base.token }
        requires placed { base.entry < length self.now }
        ensures { IfOk result (λ words. (name : List ℕ) →
            SaysNothingNew self.now inner.0 base name ⊎ HasWord words.items name) }
    {
        let mut words = self.words_apart(alloc, heir.first, base)?;
        list_given(&mut words, heir)?;
        Ok(words)
    }

    /// What is kept of a word where an interface gets one more base; nothing where it says nothing
    /// new.
    fn given_with(&self, inner: Scope, heir: &Heir<'a>, base: Base, word: Word<'a>) -> Option<Given>
        requires kept { IsKept self.now inner.0 heir.now }
        requires placed { base.entry < length self.now }
        ensures given { IfSome result (λ g. (t : ℕ) →
            given_before t g ≡ with_more self.now inner.0 base t word.entry.text.now) }
        ensures same { result ≡ None → SaysNothingNew self.now inner.0 base word.entry.text.now }
    {
        let count = self.len();
        prove!(base.entry < count);
        let old = self.inherited(base.token, inner, word);
        let new = self.within(base.token, Scope(base.entry + 1), word);
        let first = match heir.other(word) {
            Some(given) => given.token,
            None => heir.first.token,
        };
        merged(old, new, first, base.token)
    }

    /// What is kept of all names where an interface gets one more base that has the words.
    fn others_with(
        &self,
        inner: Scope,
        heir: &Heir<'a>,
        base: Base,
        words: &[Word<'a>],
    ) -> Result<BTreeMap<Word<'a>, Given>, AllocError>
        requires kept { IsKept self.now inner.0 heir.now }
        requires placed { base.entry < length self.now }
        requires covers { (name : List ℕ) → SaysNothingNew self.now inner.0 base name ⊎ HasWord words.now name }
        ensures { IfOk result (λ others. IsDone self.now inner.0 base heir.now.others.entries others.entries []) }
    {
        let mut others = heir.others.clone()?;
        for word in words {
            if let Some(given) = self.given_with(inner, heir, base, *word) {
                others.insert(*word, given)?;
            }
        }
        Ok(others)
    }

    /// What is kept of an interface that gets one more base.
    fn heir_with(
        &self,
        alloc: Global,
        inner: Scope,
        heir: &Heir<'a>,
        base: Base,
        words: &[Word<'a>],
    ) -> Result<Box<Heir<'a>>, AllocError>
        requires kept { IsKept self.now inner.0 heir.now }
        requires last { HasNoneFrom self.now inner.0 base.token }
        requires placed { base.entry < length self.now }
        requires covers { (name : List ℕ) → SaysNothingNew self.now inner.0 base name ⊎ HasWord words.now name }
        ensures first { IfOk result (λ h. h.value.first ≡ heir.now.first) }
        ensures later { IfOk result (λ h. h.value.later.items ≡ heir.now.later.items ++ base ∷ []) }
        ensures merges { IfOk result (λ h. Merges self.now inner.0 base h.value) }
    {
        let others = self.others_with(inner, heir, base, words)?;
        let mut later = Vec::new(alloc);
        later.extend_from_slice(heir.later.as_slice())?;
        later.push(base)?;
        Ok(Box::new(
            alloc,
            Heir {
                first: heir.first,
                later,
                others,
            },
        )?)
    }

    /// Whether an entry is a base already.
    pub fn has_base(&self, inner: Scope, entry: usize) -> bool
        ensures { result ≡ list_any (λ b. nat_eq b.entry entry) (bases_of self.now inner.0) }
    {
        match heir_of(self.records.as_slice(), inner) {
            Some(heir) => is_base_of(heir, entry),
            None => false,
        }
    }

    /// Whether a base gives another entry of the name than those before.
    fn differ_in(&self, inner: Scope, base: Base, word: Word<'a>) -> bool
        requires { base.entry < length self.now }
        ensures { result ≡ differ_in self.now inner.0 base word.entry.text.now }
    {
        let count = self.len();
        prove!(base.entry < count);
        let old = self.inherited(base.token, inner, word);
        let new = self.within(base.token, Scope(base.entry + 1), word);
        is_one_other(old, new)
    }

    /// Of one of the words.
    fn differ_in_some(&self, inner: Scope, base: Base, words: &[Word<'a>]) -> bool
        requires { base.entry < length self.now }
        ensures { result ≡ list_any (λ w. differ_in self.now inner.0 base w.text.now) words.now }
    {
        for word in words {
            if self.differ_in(inner, base, *word) {
                return true;
            }
        }
        false
    }

    /// Whether a base, which is named behind all others, gives another entry of some name than those
    /// before.
    ///
    /// # Errors
    ///
    /// `AllocError`.
    pub fn differ(&self, alloc: Global, inner: Scope, base: Base) -> Result<bool, AllocError>
        requires placed { base.entry < length self.now }
        requires late { latest self.now < base.token }
        ensures { IfOk result (λ r. r ≡ differ self.now inner.0 base) }
    {
        match heir_of(self.records.as_slice(), inner) {
            Some(heir) => {
                let words = self.words_to_merge(alloc, inner, heir, base)?;
                Ok(self.differ_in_some(inner, base, words.as_slice()))
            }
            None => Ok(false),
        }
    }

    /// What is kept of an interface that gets one more base.
    fn next_heir(
        &self,
        alloc: Global,
        inner: Scope,
        heir: &Heir<'a>,
        base: Base,
    ) -> Result<Box<Heir<'a>>, AllocError>
        requires kept { IsKept self.now inner.0 heir.now }
        requires last { HasNoneFrom self.now inner.0 base.token }
        requires placed { base.entry < length self.now }
        requires first { heir.now.first.entry < length self.now }
        requires earlier { heir.now.first.token < base.token }
        ensures first { IfOk result (λ h. h.value.first ≡ heir.now.first) }
        ensures later { IfOk result (λ h. h.value.later.items ≡ heir.now.later.items ++ base ∷ []) }
        ensures merges { IfOk result (λ h. Merges self.now inner.0 base h.value) }
    {
        let words = self.words_to_merge(alloc, inner, heir, base)?;
        self.heir_with(alloc, inner, heir, base, words.as_slice())
    }

    /// What is kept of an interface that gets one more base.
    pub(crate) fn heir_for(
        &self,
        alloc: Global,
        inner: Scope,
        base: Base,
    ) -> Result<Box<Heir<'a>>, AllocError>
        requires last { HasNoneFrom self.now inner.0 base.token }
        requires placed { base.entry < length self.now }
        ensures with_it { IfOk result (λ h.
            h.value.first ∷ h.value.later.items ≡ bases_of self.now inner.0 ++ base ∷ []) }
        ensures low { IfOk result (λ h. h.value.first.token ≤ base.token) }
        ensures merges { IfOk result (λ h. Merges self.now inner.0 base h.value) }
    {
        match heir_of(self.records.as_slice(), inner) {
            Some(old) => self.next_heir(alloc, inner, old, base),
            None => Ok(first_heir(alloc, base)?),
        }
    }
}
