//! What a specification declares, and apart from it the operations and attributes alone.

ghost use Rattle.std.specs.Prelude.{◌≡◌, ◌<◌, ◌≤◌, ◌++◌, ◌∷◌, [], None, true, length, IfOk, OnErr, OnOk};
ghost use Rattle.name_table.specs.Entry.{named};
ghost use Rattle.name_table.specs.Entries.{entry_declared, latest, with_base};
ghost use Rattle.name_table.specs.Features.{differ as differ_by, features_of};
ghost use Rattle.name_table.specs.Search.{inherited as inherited_by, word};
ghost use Rattle.scoped_names.specs.inner.StateKept.{AreFeatures};

use idl_tree::names::Leaf;
use name_table::{Base, Found, Meaning, Scope, Table, Word};
use std::alloc::{AllocError, Global};
use std::marker::Model;

/// The entries, and from the first base on the same entries once more, among which nothing but
/// operations and attributes is found, so that no type hides one. A contract sees the entries.
#[derive(Drop)]
pub(crate) struct Tables<'a> {
    all: Table<'a>,
    /// Whether they are kept, as they are where an interface has a base.
    are_apart: bool,
    features: Table<'a>,
}

impl<'a> Model for Tables<'a> {
    ghost use Rattle.std.specs.Prelude.{List};
    ghost use Rattle.name_table.specs.Entry.{Entry};
    ghost use Rattle.scoped_names.specs.inner.StateKept.{AreFeatures};

    ghost Value = { List Entry };

    ghost view = { λ t. t.all };

    ghost invariant = { λ t. AreFeatures t.all t.are_apart t.features };
}

/// Keeps the operations and attributes of all entries apart, unless they are.
fn keep_apart<'a>(
    alloc: Global,
    all: &Table<'a>,
    are_apart: &mut bool,
    features: &mut Table<'a>,
) -> Result<(), AllocError>
    requires { AreFeatures all.now are_apart.old features.old }
    ensures apart { OnOk result (are_apart.new ≡ true) }
    ensures kept { OnOk result (features.new ≡ features_of all.now) }
    ensures err { OnErr result (AreFeatures all.now are_apart.new features.new) }
{
    if *are_apart {
        return Ok(());
    }
    *features = all.features(alloc)?;
    *are_apart = true;
    Ok(())
}

impl<'a> Tables<'a> {
    /// No entries yet. Takes no memory.
    pub fn new(alloc: Global) -> Self
        ensures { result ≡ [] }
    {
        Tables {
            all: Table::new(alloc),
            are_apart: false,
            features: Table::new(alloc),
        }
    }

    /// All entries.
    pub fn all(&self) -> &Table<'a>
        ensures { result.now ≡ self.now }
    {
        &self.all
    }

    /// Gives all entries. Takes no memory.
    pub fn into_all(self) -> Table<'a>
        ensures { result ≡ self.entry }
    {
        self.all
    }

    /// One entry more, of a name that is new in its scope. Where memory is refused between the two
    /// tables, both are left without entries.
    pub fn add(
        &mut self,
        alloc: Global,
        prefix: &'a str,
        scope: Scope,
        identifier: Leaf<'a>,
        meaning: Meaning,
    ) -> Result<(), AllocError>
        requires scope { scope.0 ≤ length self.old }
        requires new { named self.old scope.0 (word identifier) ≡ None }
        requires late { latest self.old ≤ meaning.token }
        ensures added { OnOk result (self.new ≡
            self.old ++ entry_declared meaning prefix.entry.now scope.0 identifier.entry ∷ []) }
    {
        if self.are_apart {
            let feature = meaning.as_feature();
            self.features
                .add(alloc, prefix, scope, identifier, feature)?;
        }
        match self.all.add(alloc, prefix, scope, identifier, meaning) {
            Ok(()) => Ok(()),
            Err(refused) => {
                *self = Tables::new(alloc);
                Err(refused)
            }
        }
    }

    /// Puts a base behind those that an interface has. A refusal leaves what it leaves of `add`.
    pub fn add_base(&mut self, alloc: Global, inner: Scope, base: Base) -> Result<(), AllocError>
        requires inner { inner.0 ≤ length self.old }
        requires placed { base.entry < length self.old }
        requires late { latest self.old < base.token }
        ensures told { OnOk result (self.new ≡ with_base self.old inner.0 base) }
        ensures count { OnOk result (length self.new ≡ length self.old) }
    {
        keep_apart(alloc, &self.all, &mut self.are_apart, &mut self.features)?;
        let scope = Scope(base.entry.saturating_add(1));
        self.features.shorten(alloc, scope)?;
        self.all.shorten(alloc, scope)?;
        self.features.add_base(alloc, inner, base)?;
        match self.all.add_base(alloc, inner, base) {
            Ok(()) => Ok(()),
            Err(refused) => {
                *self = Tables::new(alloc);
                Err(refused)
            }
        }
    }

    /// Which operation or attribute of the word a scope inherits.
    pub fn inherited(&self, token: usize, scope: Scope, word: Word<'a>) -> Found
        ensures { result ≡ inherited_by (features_of self.now) token scope.0 word.entry.text.now }
    {
        if !self.are_apart {
            return Found::Nothing;
        }
        self.features.inherited(token, scope, word)
    }

    /// Whether a base that is named behind all others has another operation or attribute of some name
    /// than those before.
    pub fn differ(&self, alloc: Global, inner: Scope, base: Base) -> Result<bool, AllocError>
        requires placed { base.entry < length self.now }
        requires late { latest self.now < base.token }
        ensures { IfOk result (λ r. r ≡ differ_by (features_of self.now) inner.0 base) }
    {
        if !self.are_apart {
            return Ok(false);
        }
        self.features.differ(alloc, inner, base)
    }
}
