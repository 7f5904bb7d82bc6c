//! Ways over several bases at once, by which a search along a chain of interfaces takes few steps.

ghost use Rattle.std.specs.Prelude.{◌≡◌, ◌<◌, ◌≤◌, ◌⊎◌, ℕ, suc, List, IfOk, IfSome, OnOk, OnErr, IsTrue, IsFalse, None, Some, if◌then◌else◌, length, nat_eq, option_copied};
ghost use Rattle.name_table.specs.Entry.{Entry};
ghost use Rattle.name_table.specs.Entries.{latest};
ghost use Rattle.std.specs.List.{list_any};
ghost use Rattle.name_table.specs.inner.Records.{HasWord, is_word};
ghost use Rattle.name_table.specs.Search.{within as within_of};
ghost use Rattle.name_table.specs.inner.Shortcuts.{given_at, way_at as way_of_scope, IsShort, IsSearchStep, LeadsTo, Passes};

use crate::bases::list_given;
use crate::entry::Base;
use crate::key::Word;
use crate::scope::Scope;
use crate::search::Found;
use crate::table::{Table, heir_of};
use std::alloc::{AllocError, Global};
use std::collections::BTreeSet;

/// So many words of shortcuts are kept for each entry at most; a chain of any length needs fewer.
const WORDS_PER_ENTRY: usize = 64;

/// A place in a search: what the bases of the scope give that are named before the token. Before
/// the token 0 none is.
#[derive(Clone, Copy)]
pub(crate) struct Place {
    pub token: usize,
    pub scope: Scope,
}

/// A way from a scope to a place further down.
pub(crate) struct Shortcut<'a> {
    pub place: Place,
    /// It is for names behind this token.
    pub after: usize,
    /// So many bases are passed.
    pub span: usize,
    /// What is declared on the way.
    pub words: BTreeSet<Word<'a>>,
}

/// What a step of a search gives.
pub(crate) enum SearchStep {
    Done(Found),
    On(Place),
}

/// How far the longest step from a place goes.
#[derive(Clone, Copy)]
struct Reach {
    place: Place,
    span: usize,
    words: usize,
}

impl Place {
    /// The end of each chain.
    const END: Place = Place {
        token: 0,
        scope: Scope::FILE,
    };

    /// Whether two places are one.
    fn meets(self, other: Place) -> bool
        ensures met { IsTrue result → (es : List Entry) (name : List ℕ) →
            given_at es name self ≡ given_at es name other }
        ensures apart { IsFalse result → other.token ≤ self.token → 0 < self.token }
    {
        self.token == other.token && (self.scope == other.scope || self.token == 0)
    }
}

impl<'a> Drop for Shortcut<'a> {
    fn drop(self) {
        let Shortcut {
            place: _,
            after: _,
            span: _,
            words: _,
        } = self;
    }
}

impl<'a> Shortcut<'a> {
    /// Whether the name is declared on the way.
    fn declares(&self, word: Word<'a>) -> bool
        ensures { result ≡ list_any (is_word word.entry.text.now) self.now.words.keys }
    {
        self.words.contains(&word)
    }
}

/// The way that is kept from a scope.
fn way_at<'r, 'a>(ways: &'r [Option<Shortcut<'a>>], scope: Scope) -> Option<&'r Shortcut<'a>>
    ensures { option_copied result ≡ way_of_scope ways.now scope.0 }
{
    ways.get(scope.0)?.as_ref()
}

/// Keeps a way from a scope.
fn keep_way<'a>(
    ways: &mut Vec<Option<Shortcut<'a>>>,
    scope: Scope,
    way: Shortcut<'a>,
) -> Result<(), AllocError>
    ensures kept { OnOk result ((q : ℕ) →
        way_of_scope ways.new.items q ≡ (if nat_eq scope.0 q then Some way.entry else way_of_scope ways.old.items q)) }
    ensures err { OnErr result ((q : ℕ) → way_of_scope ways.new.items q ≡ way_of_scope ways.old.items q) }
{
    while ways.len() <= scope.0 {
        ways.push(None)?;
    }
    ways[scope.0] = Some(way);
    Ok(())
}

/// Drops the way that is kept from a scope.
pub(crate) fn drop_way(ways: &mut Vec<Option<Shortcut<'_>>>, scope: Scope)
    ensures { (q : ℕ) →
        way_of_scope ways.new.items q ≡ (if nat_eq scope.0 q then None else way_of_scope ways.old.items q) }
{
    if scope.0 >= ways.len() {
        return;
    }
    ways[scope.0] = None;
}

/// Adds the words of a set.
fn list_set<'a>(words: &mut Vec<Word<'a>>, set: &BTreeSet<Word<'a>>) -> Result<(), AllocError>
    ensures kept { OnOk result ((name : List ℕ) → HasWord words.old.items name → HasWord words.new.items name) }
    ensures listed { OnOk result ((name : List ℕ) → HasWord set.now.keys name → HasWord words.new.items name) }
{
    for word in set {
        words.push(*word)?;
    }
    Ok(())
}

/// The set of words.
fn set_of<'a>(alloc: Global, words: &[Word<'a>]) -> Result<BTreeSet<Word<'a>>, AllocError>
    ensures { IfOk result (λ set. (name : List ℕ) → HasWord words.now name → HasWord set.keys name) }
{
    words.iter().copied().collect(alloc)
}

impl<'a> Table<'a> {
    /// The way from a place, where there is one for the name.
    fn way_from(&self, place: Place, word: Word<'a>) -> Option<Place>
        ensures { IfSome result (λ next. (next.token < place.token)
            × (given_at self.now word.entry.text.now next ≡ given_at self.now word.entry.text.now place)) }
    {
        let short = way_at(self.shortcuts.as_slice(), place.scope)?;
        if short.after < place.token && !short.declares(word) {
            Some(short.place)
        } else {
            None
        }
    }

    /// A step of a search.
    pub(crate) fn step(&self, place: Place, word: Word<'a>) -> SearchStep
        ensures { IsSearchStep self.now word.entry.text.now place result }
    {
        if let Some(next) = self.way_from(place, word) {
            return SearchStep::On(next);
        }
        let Some(heir) = heir_of(self.records.as_slice(), place.scope) else {
            return SearchStep::Done(Found::Nothing);
        };
        if let Some(given) = heir.other(word) {
            return SearchStep::Done(given.before(place.token));
        }
        if place.token <= heir.first.token {
            return SearchStep::Done(Found::Nothing);
        }
        let token = heir.first.token;
        let scope = Scope(heir.first.entry + 1);
        match self.own(token, scope, word) {
            Found::Nothing => SearchStep::On(Place { token, scope }),
            found => SearchStep::Done(found),
        }
    }

    /// The place inside a base, with the words that the base declares.
    fn enter(&self, words: &mut Vec<Word<'a>>, base: Base) -> Result<Place, AllocError>
        requires { base.entry < length self.now }
        ensures kept { OnOk result ((name : List ℕ) → HasWord words.old.items name → HasWord words.new.items name) }
        ensures leads { IfOk result (LeadsTo self.now base words.new.items) }
        ensures there { IfOk result (λ place. place.token ≡ base.token) }
    {
        let count = self.len();
        prove!(base.entry < count);
        let scope = Scope(base.entry + 1);
        self.list_declared(words, scope)?;
        Ok(Place {
            token: base.token,
            scope,
        })
    }

    /// The place inside the first base of a place, with the words on the way.
    fn pass(&self, words: &mut Vec<Word<'a>>, place: Place) -> Result<Place, AllocError>
        ensures kept { OnOk result ((name : List ℕ) → HasWord words.old.items name → HasWord words.new.items name) }
        ensures passes { IfOk result (Passes self.now words.new.items place) }
        ensures earlier { IfOk result (λ next. 0 < place.token → next.token < place.token) }
        ensures low { IfOk result (λ next. next.token ≤ place.token) }
    {
        let Some(heir) = heir_of(self.records.as_slice(), place.scope) else {
            return Ok(Place::END);
        };
        list_given(words, heir)?;
        if place.token <= heir.first.token {
            return Ok(Place::END);
        }
        self.enter(words, heir.first)
    }

    /// The words of which two bases may say different things.
    pub(crate) fn words_apart(
        &self,
        alloc: Global,
        one: Base,
        other: Base,
    ) -> Result<Vec<Word<'a>>, AllocError>
        requires one { one.entry < length self.now }
        requires other { other.entry < length self.now }
        ensures { IfOk result (λ words. (name : List ℕ) →
            (within_of self.now one.token (suc one.entry) name
            ≡ within_of self.now other.token (suc other.entry) name) ⊎ HasWord words.items name) }
    {
        let mut words = Vec::new(alloc);
        let mut near = self.enter(&mut words, one)?;
        let mut far = self.enter(&mut words, other)?;
        while !near.meets(far) {
            if near.token < far.token {
                far = self.pass(&mut words, far)?;
            } else {
                near = self.pass(&mut words, near)?;
            }
        }
        Ok(words)
    }

    /// How far the longest step from a place goes.
    fn reach(&self, place: Place) -> Option<Reach> {
        if let Some(short) = way_at(self.shortcuts.as_slice(), place.scope) {
            return Some(Reach {
                place: short.place,
                span: short.span,
                words: short.words.len(),
            });
        }
        let first = heir_of(self.records.as_slice(), place.scope)?.first;
        Some(Reach {
            place: Place {
                token: first.token,
                scope: Scope(first.entry.saturating_add(1)),
            },
            span: 1,
            words: 0,
        })
    }

    /// The span of a way inside a base, where one is worth its words: two steps of one length.
    fn span_from(&self, base: Base) -> Option<usize> {
        let inside = Place {
            token: base.token,
            scope: Scope(base.entry.saturating_add(1)),
        };
        let one = self.reach(inside)?;
        let two = self.reach(one.place)?;
        let words = one.words.saturating_add(two.words);
        let room = self.len().saturating_mul(WORDS_PER_ENTRY);
        if one.span == two.span && self.noted.saturating_add(words) < room {
            Some(one.span.saturating_add(two.span).saturating_add(1))
        } else {
            None
        }
    }

    /// The longest step from a place, with the words on the way.
    fn stride(&self, words: &mut Vec<Word<'a>>, place: Place) -> Result<Place, AllocError>
        ensures kept { OnOk result ((name : List ℕ) → HasWord words.old.items name → HasWord words.new.items name) }
        ensures passes { IfOk result (Passes self.now words.new.items place) }
        ensures low { IfOk result (λ next. next.token ≤ place.token) }
    {
        match way_at(self.shortcuts.as_slice(), place.scope) {
            Some(short) if short.after < place.token => {
                list_set(words, &short.words)?;
                Ok(short.place)
            }
            _ => self.pass(words, place),
        }
    }

    /// A way from a scope over two steps of one length; none where there are no such.
    fn way_of(&self, alloc: Global, scope: Scope) -> Result<Option<Shortcut<'a>>, AllocError>
        ensures short { IfOk result (λ way. IfSome way (IsShort self.now scope.0)) }
        ensures low { IfOk result (λ way. IfSome way (λ w. w.after ≤ latest self.now)) }
    {
        let Some(heir) = heir_of(self.records.as_slice(), scope) else {
            return Ok(None);
        };
        let Some(span) = self.span_from(heir.first) else {
            return Ok(None);
        };
        let mut words = Vec::new(alloc);
        list_given(&mut words, heir)?;
        let inside = self.enter(&mut words, heir.first)?;
        let half = self.stride(&mut words, inside)?;
        let place = self.stride(&mut words, half)?;
        let words = set_of(alloc, words.as_slice())?;
        Ok(Some(Shortcut {
            place,
            after: heir.first.token,
            span,
            words,
        }))
    }

    /// Keeps a way from a scope that is a base from now on, where one is of use.
    pub fn shorten(&mut self, alloc: Global, scope: Scope) -> Result<(), AllocError>
        ensures { self.new ≡ self.old }
    {
        if way_at(self.shortcuts.as_slice(), scope).is_some() {
            return Ok(());
        }
        let Some(way) = self.way_of(alloc, scope)? else {
            return Ok(());
        };
        self.noted = self.noted.saturating_add(way.words.len());
        keep_way(&mut self.shortcuts, scope, way)?;
        Ok(())
    }
}
