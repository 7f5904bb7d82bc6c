//! What a specification declares, and what names find.

ghost use Rattle.std.specs.Prelude.{◌≡◌, ◌<◌, ◌≤◌, ◌^◌, ◌↔◌, ℕ, length, map, option_copied, IfOk, IfSome, OnOk, OnErr, IfErr, ◌≢◌, ◌+◌, ◌++◌, ◌∷◌, [], None, Some, List, true, slice_get};
ghost use Rattle.idl_tree.specs.Starts.{name_start, name_first, is_rooted};
ghost use Rattle.name_table.specs.Search.{own as own_of, inherited as inherited_by, within as within_of, within_first, outwards as outwards_from, sought_in, sight as sight_of, sees, word, begins_at_root, identifiers_see};
ghost use Rattle.name_table.specs.Entry.{AreDistinct, AreNested, bases_in, worth_in, meant_in, named, name_in, prefix_in};
ghost use Rattle.name_table.specs.Features.{features_of, HaveNoBases};
ghost use Rattle.name_table.specs.OwnNames.{is_own_name as own_name_of};
ghost use Rattle.idl_lexer.specs.Identifiers.{words};
ghost use Rattle.name_table.specs.Entries.{entry_declared, latest, scope_of, with_base};
ghost use Rattle.name_table.specs.inner.Records.{entry_of, heir_of as heir_in_records, words_at, HasWord, is_word};

use crate::const_values::{ConstKind, Constant};
use crate::entry::{Base, Meaning};
use crate::key::{Key, Word};
use crate::numbered::Numbered;
use crate::record::{Heir, Record, known_of};
use crate::scope::Scope;
use crate::search::{Found, Sight};
use crate::shortcuts::{Place, SearchStep, Shortcut, drop_way};
use idl_lexer::{Identifiers, is_rooted};
use idl_tree::kinds::EntryKind;
use idl_tree::names::{Leaf, ScopedName, unescaped};
use std::alloc::{AllocError, Global};
use std::marker::Model;

/// The names of a specification. A contract sees the entries in order of declaration.
pub struct Table<'a> {
    keys: Numbered<Key<'a>>,
    pub(crate) records: Vec<Record<'a>>,
    /// The words that each scope declares.
    pub(crate) words: Vec<Vec<Word<'a>>>,
    /// Ways from scopes over several bases at once, by the scopes' numbers.
    pub(crate) shortcuts: Vec<Option<Shortcut<'a>>>,
    /// How many words were kept of ways.
    pub(crate) noted: usize,
}

impl<'a> Model for Table<'a> {
    ghost use Rattle.std.specs.Prelude.{List};
    ghost use Rattle.name_table.specs.Entry.{Entry};
    ghost use Rattle.name_table.specs.inner.Records.{entries_in, AreTied};
    ghost use Rattle.name_table.specs.inner.Shortcuts.{AreShort};

    ghost Value = { List Entry };

    ghost view = { λ n. entries_in n.records.items };

    ghost invariant = { λ n. AreTied n.keys n.records.items n.words.items
        × AreShort (entries_in n.records.items) n.shortcuts.items };
}

/// What the interface has whose scope it is, if it has bases.
pub(crate) fn heir_of<'r, 'a>(records: &'r [Record<'a>], scope: Scope) -> Option<&'r Heir<'a>>
    ensures { option_copied result ≡ heir_in_records records.now scope.0 }
{
    let number = scope.entry()?;
    records.get(number)?.heir.as_deref()
}

/// Makes room for the words of a scope.
fn make_room(alloc: Global, words: &mut Vec<Vec<Word<'_>>>, scope: Scope) -> Result<(), AllocError>
    ensures same { (s : ℕ) → words_at words.new.items s ≡ words_at words.old.items s }
    ensures there { OnOk result (scope.0 < length words.new.items) }
{
    while words.len() <= scope.0 {
        words.push(Vec::new(alloc))?;
    }
    Ok(())
}

/// Lists a word of a scope.
fn list_word<'a>(
    alloc: Global,
    words: &mut Vec<Vec<Word<'a>>>,
    scope: Scope,
    word: Word<'a>,
) -> Result<(), AllocError>
    ensures kept { (s : ℕ) (name : List ℕ) →
        HasWord (words_at words.old.items s) name → HasWord (words_at words.new.items s) name }
    ensures listed { OnOk result ((name : List ℕ) →
        is_word name word.entry ≡ true → HasWord (words_at words.new.items scope.0) name) }
{
    make_room(alloc, words, scope)?;
    words[scope.0].push(word)?;
    Ok(())
}

// A derived drop would stand in each function that lets go of a table, field by field.

impl<'a> Drop for Table<'a> {
    fn drop(self) {
        let Table {
            keys: _,
            records: _,
            words: _,
            shortcuts: _,
            noted: _,
        } = self;
    }
}

impl<'a> Table<'a> {
    /// No names yet. Takes no memory.
    pub fn new(alloc: Global) -> Self
        ensures { result ≡ [] }
    {
        Table {
            keys: Numbered::new(alloc),
            records: Vec::new(alloc),
            words: Vec::new(alloc),
            shortcuts: Vec::new(alloc),
            noted: 0,
        }
    }

    /// Whether a scope declares nothing, as that of most structures.
    fn is_bare(&self, scope: Scope) -> bool
        ensures { result ≡ true → (name : List ℕ) → named self.now scope.0 name ≡ None }
    {
        if scope.0 < self.words.len() {
            self.words[scope.0].is_empty()
        } else {
            true
        }
    }

    /// The scope's own entry of the name that is declared before the token.
    pub(crate) fn own(&self, token: usize, scope: Scope, word: Word<'a>) -> Found
        ensures { result ≡ own_of self.now token scope.0 word.entry.text.now }
    {
        if self.is_bare(scope) {
            return Found::Nothing;
        }
        match self.keys.number_of(&Key { scope, word }) {
            Some(number) if self.records[number].token < token => Found::One(number),
            _ => Found::Nothing,
        }
    }

    /// What the bases that are named before the token give.
    pub fn inherited(&self, token: usize, scope: Scope, word: Word<'a>) -> Found
        ensures { result ≡ inherited_by self.now token scope.0 word.entry.text.now }
    {
        let mut place = Place { token, scope };
        loop {
            match self.step(place, word) {
                SearchStep::Done(found) => return found,
                SearchStep::On(next) => place = next,
            }
        }
    }

    /// What a name before the token finds in the scope and its bases.
    pub fn within(&self, token: usize, scope: Scope, word: Word<'a>) -> Found
        ensures { result ≡ within_of self.now token scope.0 word.entry.text.now }
    {
        match self.own(token, scope, word) {
            Found::Nothing => self.inherited(token, scope, word),
            found => found,
        }
    }

    /// What it finds in the scope, or else in those around.
    fn outwards(&self, token: usize, scope: Scope, word: Word<'a>) -> Found
        requires { scope.0 ≤ length self.now }
        ensures { result ≡
            within_first self.now token (outwards_from self.now scope.0 scope.0) word.entry.text.now }
    {
        let mut place = scope;
        loop {
            match self.within(token, place, word) {
                Found::Nothing => {}
                found => return found,
            }
            let Some(number) = place.entry() else {
                return Found::Nothing;
            };
            place = self.records[number].key.scope;
        }
    }

    /// What is seen of a name where it finds this.
    fn sight(&self, found: Found, text: &str) -> Sight
        ensures kept { result ≡ sight_of self.now text.now found }
        ensures placed { (e : ℕ) → result ≡ Sight.Seen e → e < length self.now }
        ensures small { (e : ℕ) → result ≡ Sight.Seen e → e < 2 ^ 63 }
    {
        match found {
            Found::Nothing => Sight::Unseen,
            Found::Several(one, other) => Sight::Unclear(one, other),
            Found::One(entry) => match self.records.get(entry) {
                Some(record) if text == record.key.word.text => Sight::Seen(entry),
                _ => Sight::OtherCase(entry),
            },
        }
    }

    /// What the first identifier of a name finds that stands in the scope, whatever its case.
    fn find_first(&self, scope: Scope, name: &ScopedName<'a>) -> Found
        requires { scope.0 ≤ length self.now }
        ensures { result ≡ within_first self.now (name_start name.now).number
            (sought_in self.now scope.0 (is_rooted name.now)) (word (name_first name.now)) }
    {
        let token = name.start().number;
        let first = Word::new(name.first().name());
        if name.is_rooted() {
            self.within(token, Scope::FILE, first)
        } else {
            self.outwards(token, scope, first)
        }
    }

    /// What is seen where a name is sought that stands in the scope.
    pub fn look(&self, scope: Scope, name: &ScopedName<'a>) -> Sight
        requires { scope.0 ≤ length self.now }
        ensures seen { result ≡ sees self.now scope.0 name.now }
        ensures placed { (e : ℕ) → result ≡ Sight.Seen e → e < length self.now }
    {
        let token = name.start().number;
        let mut seen = self.sight(self.find_first(scope, name), name.first().name());
        for identifier in name.rest() {
            match seen {
                Sight::Seen(entry) => {
                    let word = Word::new(identifier.name());
                    seen = self.sight(self.within(token, Scope(entry + 1), word), word.text);
                }
                _ => return seen,
            }
        }
        seen
    }

    /// What is kept of an entry.
    fn record(&self, entry: usize) -> &Record<'a>
        requires { entry < length self.now }
        ensures { slice_get self.now entry ≡ Some (entry_of result.now) }
    {
        &self.records[entry]
    }

    /// What an entry was declared as.
    pub fn kind(&self, entry: usize) -> EntryKind
        requires { entry < length self.now }
        ensures { IfSome (slice_get self.now entry) (λ e. result ≡ e.kind) }
    {
        self.record(entry).kind
    }

    /// What a constant or an enumerator is worth.
    pub fn constant(&self, entry: usize) -> Option<&Constant>
        requires { entry < length self.now }
        ensures { option_copied result ≡ worth_in (slice_get self.now entry) }
    {
        match &self.record(entry).known {
            Some(known) => known.worth.as_ref(),
            None => None,
        }
    }

    /// The type of constants for which the name of a type stands in the end, if it does.
    pub fn stands_for(&self, entry: usize) -> Option<ConstKind>
        requires { entry < length self.now }
        ensures { result ≡ meant_in (slice_get self.now entry) }
    {
        match &self.record(entry).known {
            Some(known) => known.stands_for,
            None => None,
        }
    }

    /// The prefix of repository ids at an entry's first declaration.
    pub fn prefix(&self, entry: usize) -> &'a str
        requires { entry < length self.now }
        ensures { result.now ≡ prefix_in (slice_get self.now entry) }
    {
        self.record(entry).prefix
    }

    /// Whether it is the name of the scope itself, which can't be declared in it. The scope of an
    /// operation has no name.
    pub fn is_own_name(&self, key: &Key<'a>) -> bool
        ensures { result ≡ own_name_of self.now key.now.scope.0 key.now.word.text.now }
    {
        let Some(number) = key.scope.entry() else {
            return false;
        };
        match self.records.get(number) {
            Some(record) => record.is_named_so(&key.word),
            None => false,
        }
    }

    /// The line of the identifier of an entry's first declaration.
    pub fn line(&self, entry: usize) -> usize
        requires { entry < length self.now }
        ensures { IfSome (slice_get self.now entry) (λ e. result ≡ e.line) }
    {
        self.record(entry).line
    }

    /// The number of the identifier of an entry's first declaration.
    pub fn identifier(&self, entry: usize) -> usize
        requires { entry < length self.now }
        ensures { IfSome (slice_get self.now entry) (λ e. result ≡ e.identifier) }
    {
        self.record(entry).identifier
    }

    /// An entry's name, without the underscore that escapes it.
    pub fn name(&self, entry: usize) -> &'a str
        requires { entry < length self.now }
        ensures { result.now ≡ name_in (slice_get self.now entry) }
    {
        self.record(entry).key.word.text
    }

    /// The scope that an entry is declared in.
    pub fn scope(&self, entry: usize) -> Scope
        requires { entry < length self.now }
        ensures { IfSome (slice_get self.now entry) (λ e. result.0 ≡ e.scope) }
    {
        self.record(entry).key.scope
    }

    /// The token from which an entry is found.
    pub fn token(&self, entry: usize) -> usize
        requires { entry < length self.now }
        ensures { IfSome (slice_get self.now entry) (λ e. result ≡ e.token) }
    {
        self.record(entry).token
    }

    /// How many bases an interface names.
    pub fn base_count(&self, entry: usize) -> usize
        requires { entry < length self.now }
        ensures { result ≡ length (bases_in (slice_get self.now entry)) }
    {
        match &self.record(entry).heir {
            Some(heir) => heir.later.len() + 1,
            None => 0,
        }
    }

    /// A base of an interface, by its place among them.
    pub fn base(&self, entry: usize, place: usize) -> Option<Base>
        requires { entry < length self.now }
        ensures { result ≡ slice_get (bases_in (slice_get self.now entry)) place }
    {
        let heir = self.record(entry).heir.as_deref()?;
        match place.checked_sub(1) {
            None => Some(heir.first),
            Some(behind) => heir.later.get(behind).copied(),
        }
    }

    /// Puts an entry behind the others: what an identifier is declared as in the scope, where the
    /// prefix is set. Its name is new in the scope, and it isn't found before the last base.
    ///
    /// # Errors
    ///
    /// `AllocError`, and then nothing has changed.
    pub fn add(
        &mut self,
        alloc: Global,
        prefix: &'a str,
        scope: Scope,
        identifier: Leaf<'a>,
        meaning: Meaning,
    ) -> Result<(), AllocError>
        requires scope { scope.0 ≤ length self.old }
        requires new { named self.old scope.0 (word identifier) ≡ None }
        requires late { latest self.old ≤ meaning.token }
        ensures added { OnOk result (self.new ≡
            self.old ++ entry_declared meaning prefix.entry.now scope.0 identifier.entry ∷ []) }
        ensures err { OnErr result (self.new ≡ self.old) }
    {
        let word = Word::new(identifier.name());
        let known = known_of(alloc, meaning.worth, meaning.stands_for)?;
        let record = Record {
            key: Key { scope, word },
            token: meaning.token,
            line: identifier.token.line as usize,
            identifier: identifier.number,
            kind: meaning.kind,
            known,
            prefix,
            heir: None,
        };
        self.push(alloc, record)
    }

    /// Puts an entry behind the others. Its name is new in its scope, it has no bases, and it isn't
    /// found before the last base.
    fn push(&mut self, alloc: Global, added: Record<'a>) -> Result<(), AllocError>
        requires scope { added.key.scope.0 ≤ length self.old }
        requires new { named self.old added.key.scope.0 added.key.word.text.now ≡ None }
        requires late { latest self.old ≤ added.token }
        requires bare { added.heir ≡ None }
        ensures added { OnOk result (self.new ≡ self.old ++ entry_of added.entry ∷ []) }
        ensures err { OnErr result (self.new ≡ self.old) }
    {
        let key = added.key;
        list_word(alloc, &mut self.words, key.scope, key.word)?;
        self.records.reserve(1)?;
        self.keys.push(key)?;
        self.records.push_reserved(added);
        Ok(())
    }

    /// The same entries, of which nothing but operations and attributes is found.
    ///
    /// # Errors
    ///
    /// `AllocError`.
    pub fn features(&self, alloc: Global) -> Result<Table<'a>, AllocError>
        requires { HaveNoBases self.now }
        ensures { IfOk result (λ features. features ≡ features_of self.now) }
    {
        let mut features = Table::new(alloc);
        for number in 0..self.len() {
            let feature = self.record(number).as_feature();
            features.push(alloc, feature)?;
        }
        Ok(features)
    }

    /// How many entries there are. Scopes stand inside earlier ones, and no two entries of one have
    /// names that differ in case at most.
    pub fn len(&self) -> usize
        ensures count { result ≡ length self.now }
        ensures distinct { AreDistinct self.now }
        ensures nested { AreNested self.now }
    {
        self.keys.len()
    }

    /// The scope of what an identifier was declared as; the file's where it was declared as nothing.
    pub fn scope_of(&self, scope: Scope, identifier: Leaf<'a>) -> Scope
        ensures is { result.0 ≡ scope_of self.now scope.0 identifier.entry }
        ensures there { result.0 ≤ length self.now }
    {
        match self.declared(scope, identifier) {
            Some(number) => Scope(number + 1),
            None => Scope::FILE,
        }
    }

    /// The entry that an identifier was declared as in the scope.
    pub fn declared(&self, scope: Scope, identifier: Leaf<'a>) -> Option<usize>
        ensures is { result ≡ named self.now scope.0 (word identifier.entry) }
        ensures there { IfSome result (λ e. e < length self.now) }
        ensures small { IfSome result (λ e. e < 2 ^ 63) }
    {
        if self.is_bare(scope) {
            return None;
        }
        let word = Word::new(identifier.name());
        self.keys.number_of(&Key { scope, word })
    }

    /// What is seen where the name of a pragma is sought that stands in a scope.
    pub fn look_for_words(&self, token: usize, scope: Scope, name: &'a str) -> Sight
        requires { scope.0 ≤ length self.now }
        ensures { result ≡ identifiers_see self.now token scope.0 (begins_at_root name.now) (words name.now) }
    {
        let mut words = Identifiers::new(name);
        let Some(first) = words.next() else {
            return Sight::Unseen;
        };
        let first = Word::new(unescaped(first));
        let found = if is_rooted(name) {
            self.within(token, Scope::FILE, first)
        } else {
            self.outwards(token, scope, first)
        };
        let mut seen = self.sight(found, first.text);
        for word in words {
            match seen {
                Sight::Seen(entry) => {
                    let word = Word::new(unescaped(word));
                    seen = self.sight(self.within(token, Scope(entry + 1), word), word.text);
                }
                _ => return seen,
            }
        }
        seen
    }

    /// Gives an interface one more base, which is named behind all others.
    ///
    /// # Errors
    ///
    /// `AllocError`, and then nothing has changed.
    pub fn add_base(&mut self, alloc: Global, inner: Scope, base: Base) -> Result<(), AllocError>
        requires inner { inner.0 ≤ length self.old }
        requires placed { base.entry < length self.old }
        requires late { latest self.old < base.token }
        ensures told { OnOk result (self.new ≡ with_base self.old inner.0 base) }
        ensures count { length self.new ≡ length self.old }
        ensures err { OnErr result (self.new ≡ self.old) }
    {
        let Some(number) = inner.entry() else {
            return Ok(());
        };
        let heir = self.heir_for(alloc, inner, base)?;
        self.records[number].heir = Some(heir);
        // the other ways lead past the interface as it was before the token
        drop_way(&mut self.shortcuts, inner);
        Ok(())
    }
}
