//! What is known at a place of a specification.

ghost use Rattle.std.specs.Prelude.{◌≡◌, ◌<◌, ◌≤◌, length, IfErr, IfOk, IfSome, slice_get};
ghost use Rattle.name_table.specs.Entries.{latest, scope_of};
ghost use Rattle.scoped_names.specs.Faults.{base_test, declared as declared_by, declared_as, defined_here, free_of, free_test, has_body, is_defined, is_defined_interface, is_interface, is_left_open, keeps_prefix, left_open, may_reappear, member_added, never_defined as never_defined_test, new_test, nothing_yet, prefix_set, reappears, scope_at as scope_at_entry, taken_by as taken_by_name, undefined_test, with_base_at};
ghost use Rattle.scoped_names.specs.Reading.{Checks, Keeps, Tells};
ghost use Rattle.scoped_names.specs.FileNames.{file_names};
ghost use Rattle.scoped_names.specs.declared.fault.NameFault.TheVariants.{NoMemory};
ghost use Rattle.name_table.specs.Entry.{AreDistinct, around as around_of};
ghost use Rattle.name_table.specs.Features.{features_of};
ghost use Rattle.name_table.specs.Search.{inherited, word};

use crate::evaluation::declared_at;
use crate::fault::{NameFault, Unfit};
use crate::members::Members;
use crate::names::Names;
use crate::repository_ids::IdPragmas;
use crate::tables::Tables;
use idl_tree::kinds::EntryKind;
use idl_tree::names::{At, Leaf};
use name_table::{Base, Found, Key, Meaning, Numbered, Scope, Table, Word};
use std::alloc::Global;
use std::marker::Model;

/// What is known at a place of a specification, which is read from its first step to its last.
pub(crate) struct Reader<'a> {
    tables: Tables<'a>,
    members: Members<'a>,
    /// The scopes of which a definition was read.
    defined: Numbered<usize>,
    /// The prefix of repository ids that is set.
    prefix: &'a str,
    pub(crate) ids: IdPragmas<'a>,
    /// The scope that was entered last and not left yet.
    scope: Scope,
    /// The entry of the last enumeration.
    pub(crate) enumeration: usize,
}

impl<'a> Model for Reader<'a> {
    ghost use Rattle.std.specs.Prelude.{◌≤◌, length};
    ghost use Rattle.scoped_names.specs.Reading.{State};

    ghost Value = { State };

    ghost view = { λ r. record {
      entries = r.tables;
      members = r.members;
      defined = r.defined;
      prefix =
          r.prefix.now;
      given = r.ids;
      scope = r.scope.0;
      enumeration = r.enumeration;
    } };

    ghost invariant = { λ r. r.scope.0 ≤ length r.tables };
}

/// Whether what was declared as this may be declared again as that.
fn may_reappear(kind: EntryKind, other: EntryKind) -> bool
    ensures { result ≡ may_reappear kind other }
{
    match (kind, other) {
        (EntryKind::Module, EntryKind::Module)
        | (EntryKind::Interface, EntryKind::Interface)
        | (EntryKind::Struct, EntryKind::Struct)
        | (EntryKind::Union, EntryKind::Union) => true,
        _ => false,
    }
}

/// Whether its prefix is that of its first declaration.
fn keeps_prefix(kind: EntryKind) -> bool
    ensures { result ≡ keeps_prefix kind }
{
    match kind {
        EntryKind::Module => false,
        _ => true,
    }
}

/// A structure or a union.
fn has_body(kind: EntryKind) -> bool
    ensures { result ≡ has_body kind }
{
    match kind {
        EntryKind::Struct | EntryKind::Union => true,
        _ => false,
    }
}

fn is_interface(kind: EntryKind) -> bool
    ensures { result ≡ is_interface kind }
{
    match kind {
        EntryKind::Interface => true,
        _ => false,
    }
}

/// That nothing has the name of the identifier.
fn free(identifier: Leaf<'_>, other: Option<At>) -> Result<(), NameFault>
    ensures { Checks result (free_test identifier.entry other) }
{
    match other {
        Some(_) => Err(NameFault::Collides {
            at: identifier.at(),
            other,
        }),
        None => Ok(()),
    }
}

/// What is told of what is never defined.
fn never_defined(at: Option<At>) -> Result<(), NameFault>
    ensures { Checks result (never_defined_test at) }
{
    match at {
        Some(at) => Err(NameFault::Unknown { at }),
        None => Ok(()),
    }
}

impl<'a> Drop for Reader<'a> {
    fn drop(self) {
        let Reader {
            tables: _,
            members: _,
            defined: _,
            prefix: _,
            ids: _,
            scope: _,
            enumeration: _,
        } = self;
    }
}

impl<'a> Reader<'a> {
    /// Nothing yet. Takes no memory.
    pub fn new(alloc: Global) -> Self
        ensures { result ≡ nothing_yet }
    {
        Reader {
            tables: Tables::new(alloc),
            members: Members::new(alloc),
            defined: Numbered::new(alloc),
            prefix: "",
            ids: IdPragmas::new(alloc),
            scope: Scope::FILE,
            enumeration: 0,
        }
    }

    /// What is declared so far.
    pub fn table(&self) -> &Table<'a>
        ensures { result.now ≡ self.now.entries }
    {
        self.tables.all()
    }

    /// The scope that was entered last and not left yet.
    pub fn scope(&self) -> Scope
        ensures is { result.0 ≡ self.now.scope }
        ensures there { result.0 ≤ length self.now.entries }
    {
        self.scope
    }

    /// What the scope itself has of the name: its own, or a member's. An operation's name may be that
    /// of a parameter.
    fn taken_by(&self, word: Word<'a>) -> Option<At>
        ensures { result ≡ taken_by_name self.now word.entry.text.now }
    {
        let key = Key {
            scope: self.scope,
            word,
        };
        if self.table().is_own_name(&key) {
            return self.scope_at(self.scope);
        }
        self.members.at(&key)
    }

    /// Where what has the scope is declared first.
    fn scope_at(&self, scope: Scope) -> Option<At>
        ensures { result ≡ scope_at_entry self.now.entries scope.0 }
    {
        match scope.entry() {
            Some(number) => declared_at(self.table(), number),
            None => None,
        }
    }

    /// That an entry may appear again as what it appears here.
    fn appears_again(
        &self,
        number: usize,
        identifier: Leaf<'a>,
        kind: EntryKind,
    ) -> Result<(), NameFault>
        requires { number < length self.now.entries }
        ensures { IfSome (slice_get self.now.entries number)
            (λ e. Tells result self.now (reappears kind self.now identifier.entry e)) }
    {
        let table = self.table();
        let (at, other) = (identifier.at(), declared_at(table, number));
        let is_same = identifier.name().as_bytes() == table.name(number).as_bytes();
        if !(may_reappear(kind, table.kind(number)) && is_same) {
            return Err(NameFault::Collides { at, other });
        }
        let has_prefix = self.prefix.as_bytes() == table.prefix(number).as_bytes();
        if keeps_prefix(kind) && !has_prefix {
            return Err(NameFault::PrefixDiffers { at, other });
        }
        Ok(())
    }

    /// Declares an identifier as what is meant.
    ///
    /// # Errors
    ///
    /// `Collides` or `PrefixDiffers`, at the identifier, or `NoMemory`.
    pub fn declare_as(
        &mut self,
        alloc: Global,
        identifier: Leaf<'a>,
        meaning: Meaning,
    ) -> Result<(), NameFault>
        requires { latest self.old.entries ≤ meaning.token }
        ensures told { Tells result self.new (declared_as meaning self.old identifier.entry) }
        ensures kept { Keeps result self.old self.new }
    {
        free(identifier, self.taken_by(Word::new(identifier.name())))?;
        let scope = self.scope;
        match self.table().declared(scope, identifier) {
            Some(number) => self.appears_again(number, identifier, meaning.kind),
            None => {
                let prefix = self.prefix;
                match self.tables.add(alloc, prefix, scope, identifier, meaning) {
                    Ok(()) => Ok(()),
                    Err(_) => {
                        self.scope = Scope::FILE;
                        Err(NameFault::NoMemory)
                    }
                }
            }
        }
    }

    /// Declares an identifier as something that is found behind it.
    ///
    /// # Errors
    ///
    /// As `declare_as`.
    pub fn declare(
        &mut self,
        alloc: Global,
        identifier: Leaf<'a>,
        kind: EntryKind,
    ) -> Result<(), NameFault>
        requires { latest self.old.entries ≤ identifier.number }
        ensures told { Tells result self.new (declared_by kind self.old identifier.entry) }
        ensures kept { Keeps result self.old self.new }
    {
        self.declare_as(alloc, identifier, Meaning::plain(identifier.number, kind))
    }

    /// That the scope has no such name yet.
    ///
    /// # Errors
    ///
    /// `Collides`, at the identifier.
    pub fn is_new(&self, identifier: Leaf<'a>) -> Result<(), NameFault>
        ensures { Checks result (new_test self.now identifier.entry) }
    {
        got!(free(identifier, self.taken_by(Word::new(identifier.name()))));
        match self.table().declared(self.scope, identifier) {
            Some(number) => free(identifier, declared_at(self.table(), number)),
            None => Ok(()),
        }
    }

    /// The scope of what an identifier was declared as.
    pub fn scope_of(&self, identifier: Leaf<'a>) -> Scope
        ensures is { result.0 ≡ scope_of self.now.entries self.now.scope identifier.entry }
        ensures there { result.0 ≤ length self.now.entries }
    {
        self.table().scope_of(self.scope, identifier)
    }

    /// Enters the scope of what an identifier was declared as.
    pub fn enter(&mut self, identifier: Leaf<'a>)
        ensures { self.new ≡ record self.old { scope = scope_of self.old.entries self.old.scope identifier.entry } }
    {
        self.scope = self.scope_of(identifier);
    }

    /// Leaves the scope for the one around it.
    pub fn leave(&mut self)
        ensures { self.new ≡ record self.old { scope = around_of self.old.entries self.old.scope } }
    {
        self.scope = self.scope_around();
    }

    fn scope_around(&self) -> Scope
        ensures is { result.0 ≡ around_of self.now.entries self.now.scope }
        ensures there { result.0 ≤ length self.now.entries }
    {
        let _count = self.table().len();
        match self.scope.entry() {
            Some(number) => self.table().scope(number),
            None => Scope::FILE,
        }
    }

    /// That a scope has no definition yet.
    ///
    /// # Errors
    ///
    /// `Collides`, at the identifier of the definition.
    pub fn is_undefined(&self, scope: Scope, identifier: Leaf<'a>) -> Result<(), NameFault>
        ensures { Checks result (undefined_test self.now scope.0 identifier.entry) }
    {
        if self.defined.contains(&scope.0) {
            return Err(NameFault::Collides {
                at: identifier.at(),
                other: self.scope_at(scope),
            });
        }
        Ok(())
    }

    /// Notes the definition of the scope.
    ///
    /// # Errors
    ///
    /// `Collides` where it was defined before, or `NoMemory`.
    pub fn define(&mut self, identifier: Leaf<'a>) -> Result<(), NameFault>
        ensures told { Tells result self.new (defined_here self.old identifier.entry) }
        ensures kept { Keeps result self.old self.new }
    {
        let scope = self.scope;
        self.is_undefined(scope, identifier)?;
        room!(self.defined.insert(scope.0));
        Ok(())
    }

    /// Notes a member of the scope, which no search finds.
    ///
    /// # Errors
    ///
    /// `Collides` where the scope has the name already, or `NoMemory`.
    pub fn add_member(&mut self, identifier: Leaf<'a>) -> Result<(), NameFault>
        ensures told { Tells result self.new (member_added self.old identifier.entry) }
        ensures kept { Keeps result self.old self.new }
    {
        self.is_new(identifier)?;
        room!(self.members.push(self.scope, identifier));
        Ok(())
    }

    /// That the scope inherits no operation or attribute of the name.
    ///
    /// # Errors
    ///
    /// `Collides`, at the identifier, or `NoMemory`.
    pub fn inherits_none(&self, identifier: Leaf<'a>) -> Result<(), NameFault>
        ensures { Checks result (free_of self.now.entries identifier.entry
            (inherited (features_of self.now.entries) identifier.entry.number self.now.scope (word identifier.entry))) }
    {
        let word = Word::new(identifier.name());
        let at = identifier.at();
        match self.tables.inherited(identifier.number, self.scope, word) {
            Found::Nothing => Ok(()),
            Found::One(entry) | Found::Several(entry, _) => Err(NameFault::Collides {
                at,
                other: declared_at(self.table(), entry),
            }),
        }
    }

    /// A prefix that holds from here on, in the file's scope.
    ///
    /// # Errors
    ///
    /// `PrefixInScope`, at the pragma, in another scope.
    pub fn set_prefix(&mut self, text: &'a str, at: At) -> Result<(), NameFault>
        ensures told { Tells result self.new (prefix_set self.old self.old.scope text.entry.now at) }
        ensures kept { Keeps result self.old self.new }
    {
        if self.scope.0 > 0 {
            return Err(NameFault::PrefixInScope { at });
        }
        self.prefix = text;
        Ok(())
    }

    fn is_defined_interface(&self, entry: usize) -> bool
        requires { entry < length self.now.entries }
        ensures { result ≡ is_defined_interface self.now entry }
    {
        let _count = self.table().len();
        is_interface(self.table().kind(entry)) && self.defined.contains(&(entry + 1))
    }

    /// That an entry is an interface that is defined, is no base yet, and has no other operation or
    /// attribute of a name of those before.
    fn may_be_base(&self, alloc: Global, inner: Scope, base: Base, at: At) -> Result<(), NameFault>
        requires placed { base.entry < length self.now.entries }
        requires late { latest self.now.entries < base.token }
        ensures { Checks result (base_test self.now inner.0 base at) }
    {
        if !self.is_defined_interface(base.entry) {
            let why = Unfit::NotDefined;
            return Err(NameFault::BadBase { at, why });
        }
        if self.table().has_base(inner, base.entry) {
            let why = Unfit::NamedTwice;
            return Err(NameFault::BadBase { at, why });
        }
        if self.tables.differ(alloc, inner, base)? {
            let why = Unfit::FeatureTwice;
            return Err(NameFault::BadBase { at, why });
        }
        Ok(())
    }

    /// Gives an interface one more base.
    ///
    /// # Errors
    ///
    /// `BadBase` at the base's name, or `NoMemory`.
    pub fn add_base(
        &mut self,
        alloc: Global,
        inner: Scope,
        base: Base,
        at: At,
    ) -> Result<(), NameFault>
        requires inner { inner.0 ≤ length self.old.entries }
        requires placed { base.entry < length self.old.entries }
        requires late { latest self.old.entries < base.token }
        ensures told { Tells result self.new (with_base_at self.old inner.0 base at) }
        ensures kept { Keeps result self.old self.new }
    {
        got!(self.may_be_base(alloc, inner, base, at));
        match self.tables.add_base(alloc, inner, base) {
            Ok(()) => Ok(()),
            Err(_) => {
                self.scope = Scope::FILE;
                Err(NameFault::NoMemory)
            }
        }
    }

    /// Whether it is a structure or a union that was declared ahead and isn't defined.
    pub(crate) fn is_left_open(&self, number: usize) -> bool
        requires { number < length self.now.entries }
        ensures { IfSome (slice_get self.now.entries number) (λ e. result ≡ is_left_open self.now number e) }
    {
        let _count = self.table().len();
        has_body(self.table().kind(number)) && !self.defined.contains(&(number + 1))
    }

    /// That each structure and union that is declared ahead is defined.
    ///
    /// # Errors
    ///
    /// `Unknown` at the first declaration.
    pub fn all_defined(&self) -> Result<(), NameFault>
        ensures { Checks result (never_defined_test (left_open self.now 0 self.now.entries)) }
    {
        for number in 0..self.table().len() {
            if self.is_left_open(number) {
                return never_defined(declared_at(self.table(), number));
            }
        }
        Ok(())
    }

    /// The names that were read.
    pub fn names(self) -> Names<'a>
        ensures is { result ≡ file_names self.entry }
        ensures distinct { AreDistinct result.entries }
    {
        let Reader {
            tables,
            members: _,
            defined: _,
            prefix: _,
            ids,
            scope: _,
            enumeration: _,
        } = self;
        let table = tables.into_all();
        let _count = table.len();
        Names { table, ids }
    }
}
