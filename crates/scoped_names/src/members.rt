//! Members and parameters, which no search finds.

ghost use Rattle.std.specs.Prelude.{◌≡◌, ◌<◌, ◌++◌, ◌∷◌, [], ℕ, length, None, OnErr, OnOk};
ghost use Rattle.std.specs.BTreeMap.{is_at};
ghost use Rattle.std.specs.Map.{lookup};
ghost use Rattle.name_table.specs.Search.{word};
ghost use Rattle.name_table.specs.inner.Keys.{word_cmp};
ghost use Rattle.scoped_names.specs.Faults.{member_named};
ghost use Rattle.scoped_names.specs.inner.StateKept.{leaves_at, leaves_with, member_of, places_at, places_with, sought, ServesAll, ServesMore};

use idl_tree::names::{At, Leaf};
use name_table::{Key, Scope, Word};
use std::alloc::{AllocError, Global};
use std::collections::BTreeMap;
use std::marker::Model;
use std::snapshot::Snapshot;

/// How many members of a scope are sought one by one.
const FEW: usize = 16;

/// A member or a parameter: its scope and its identifier.
#[derive(Clone, Copy)]
pub(crate) struct Placed<'a> {
    scope: Scope,
    identifier: Leaf<'a>,
}

/// The members and parameters so far. Those before the last are for contracts alone, and take no
/// memory.
#[cycle(past)]
pub(crate) enum Past<'a> {
    Nothing,
    More {
        before: Snapshot<Past<'a>>,
        last: Placed<'a>,
    },
}

/// The members and parameters that scopes have. A contract sees them in order of declaration.
///
/// Nearly all scopes have few, for which a map would take several times the memory of a list.
pub(crate) struct Members<'a> {
    alloc: Global,
    past: Past<'a>,
    /// The first members of each scope.
    few: Vec<Vec<Leaf<'a>>>,
    /// Where those behind the first of a scope are declared.
    many: Vec<BTreeMap<Word<'a>, At>>,
}

impl<'a> Model for Members<'a> {
    ghost use Rattle.std.specs.Prelude.{List};
    ghost use Rattle.scoped_names.specs.Reading.{Member};
    ghost use Rattle.scoped_names.specs.inner.StateKept.{members_in, AreFound};

    ghost Value = { List Member };

    ghost view = { λ m. members_in m.past };

    ghost invariant = { λ m. AreFound (members_in m.past) m.few.items m.many.items };
}

impl<'a> Drop for Past<'a> {
    #[cycle(drop_past)]
    fn drop(self) {
        match self {
            Past::Nothing => {}
            Past::More { before: _, last: _ } => {}
        }
    }
}

impl<'a> Drop for Members<'a> {
    fn drop(self) {
        let Members {
            alloc: _,
            past: _,
            few: _,
            many: _,
        } = self;
    }
}

/// Where the first of the identifiers stands that has the name, whatever its case.
fn seek(identifiers: &[Leaf<'_>], name: &str) -> Option<At>
    ensures { result ≡ sought identifiers.now name.now }
{
    for identifier in identifiers {
        if name.eq_ignore_ascii_case(identifier.name()) {
            return Some(identifier.at());
        }
    }
    None
}

/// Where the scope's member of the name is declared, among the first.
fn seek_first(few: &[Vec<Leaf<'_>>], scope: Scope, name: &str) -> Option<At>
    ensures { result ≡ sought (leaves_at few.now scope.0) name.now }
{
    if scope.0 < few.len() {
        seek(few[scope.0].as_slice(), name)
    } else {
        None
    }
}

/// Where the scope's member of the word is declared, among those behind the first.
fn seek_behind<'a>(many: &[BTreeMap<Word<'a>, At>], key: &Key<'a>) -> Option<At>
    ensures { result ≡ lookup (is_at (word_cmp key.now.word)) (places_at many.now key.now.scope.0) }
{
    if key.scope.0 < many.len() {
        many[key.scope.0].get(&key.word).copied()
    } else {
        None
    }
}

/// Makes room for the first members of a scope.
fn make_room(alloc: Global, few: &mut Vec<Vec<Leaf<'_>>>, scope: Scope) -> Result<(), AllocError>
    ensures same { (s : ℕ) → leaves_at few.new.items s ≡ leaves_at few.old.items s }
    ensures there { OnOk result (scope.0 < length few.new.items) }
{
    while few.len() <= scope.0 {
        few.push(Vec::new(alloc))?;
    }
    Ok(())
}

/// Makes room for the members of a scope behind the first.
fn make_more_room(
    alloc: Global,
    many: &mut Vec<BTreeMap<Word<'_>, At>>,
    scope: Scope,
) -> Result<(), AllocError>
    ensures same { (s : ℕ) → places_at many.new.items s ≡ places_at many.old.items s }
    ensures there { OnOk result (scope.0 < length many.new.items) }
{
    while many.len() <= scope.0 {
        many.push(BTreeMap::new(alloc))?;
    }
    Ok(())
}

/// Whether the scope has few members yet.
fn has_few(few: &[Vec<Leaf<'_>>], scope: Scope) -> bool {
    if scope.0 < few.len() {
        few[scope.0].len() < FEW
    } else {
        true
    }
}

/// Adds an identifier to a list, which grows by two, since there are many short ones.
fn add_leaf<'a>(list: &mut Vec<Leaf<'a>>, identifier: Leaf<'a>) -> Result<(), AllocError>
    ensures added { OnOk result (list.new.items ≡ list.old.items ++ identifier.entry ∷ []) }
    ensures err { OnErr result (list.new.items ≡ list.old.items) }
{
    if list.len() % 2 == 0 {
        list.reserve_exact(2)?;
    }
    list.push(identifier)?;
    Ok(())
}

/// One member more, among the first of its scope.
fn keep_first<'a>(
    alloc: Global,
    few: &mut Vec<Vec<Leaf<'a>>>,
    scope: Scope,
    identifier: Leaf<'a>,
) -> Result<(), AllocError>
    ensures kept { OnOk result ((s : ℕ) →
        leaves_at few.new.items s ≡ leaves_with scope.0 identifier.entry (leaves_at few.old.items s) s) }
    ensures err { OnErr result ((s : ℕ) → leaves_at few.new.items s ≡ leaves_at few.old.items s) }
{
    make_room(alloc, few, scope)?;
    add_leaf(&mut few[scope.0], identifier)?;
    Ok(())
}

/// One member more, behind the first of its scope.
fn keep_behind<'a>(
    alloc: Global,
    many: &mut Vec<BTreeMap<Word<'a>, At>>,
    key: Key<'a>,
    at: At,
) -> Result<(), AllocError>
    ensures kept { OnOk result ((s : ℕ) (q : Word) → lookup (is_at (word_cmp q)) (places_at many.new.items s)
        ≡ places_with key.entry at q (lookup (is_at (word_cmp q)) (places_at many.old.items s)) s) }
    ensures err { OnErr result ((s : ℕ) → places_at many.new.items s ≡ places_at many.old.items s) }
{
    make_more_room(alloc, many, key.scope)?;
    many[key.scope.0].insert(key.word, at)?;
    Ok(())
}

/// One member more, of a name that its scope hasn't yet.
fn keep<'a>(
    alloc: Global,
    few: &mut Vec<Vec<Leaf<'a>>>,
    many: &mut Vec<BTreeMap<Word<'a>, At>>,
    scope: Scope,
    identifier: Leaf<'a>,
) -> Result<(), AllocError>
    ensures kept { OnOk result
        (ServesMore scope.0 identifier.entry few.old.items many.old.items few.new.items many.new.items) }
    ensures err { OnErr result
        (ServesAll few.old.items many.old.items few.new.items many.new.items) }
{
    if has_few(few.as_slice(), scope) {
        return keep_first(alloc, few, scope, identifier);
    }
    let word = Word::new(identifier.name());
    keep_behind(alloc, many, Key { scope, word }, identifier.at())
}

impl<'a> Members<'a> {
    /// None yet. Takes no memory.
    pub fn new(alloc: Global) -> Self
        ensures { result ≡ [] }
    {
        Members {
            alloc,
            past: Past::Nothing,
            few: Vec::new(alloc),
            many: Vec::new(alloc),
        }
    }

    /// Where the scope's member of the word is declared.
    pub fn at(&self, key: &Key<'a>) -> Option<At>
        ensures { result ≡ member_named self.now key.now.scope.0 key.now.word.text.now }
    {
        match seek_first(self.few.as_slice(), key.scope, key.word.text) {
            Some(at) => Some(at),
            None => seek_behind(self.many.as_slice(), key),
        }
    }

    /// One member more, of a name that its scope hasn't yet.
    ///
    /// # Errors
    ///
    /// `AllocError`, and then nothing has changed.
    pub fn push(&mut self, scope: Scope, identifier: Leaf<'a>) -> Result<(), AllocError>
        requires { member_named self.old scope.0 (word identifier) ≡ None }
        ensures pushed { OnOk result (self.new ≡ self.old ++ member_of scope.0 identifier.entry ∷ []) }
        ensures err { OnErr result (self.new ≡ self.old) }
    {
        keep(self.alloc, &mut self.few, &mut self.many, scope, identifier)?;
        let before = Snapshot::of(&self.past);
        let last = Placed { scope, identifier };
        self.past = Past::More { before, last };
        Ok(())
    }
}
