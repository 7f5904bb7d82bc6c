//! The names of a whole specification.

ghost use Rattle.std.specs.Prelude.{◌≡◌, ◌<◌, ◌≤◌, ◌↔◌, ℕ, length, map, option_copied, slice_get, Ok, Some, IfOk, IfSome};
ghost use Rattle.std.specs.String.{string_bytes};
ghost use Rattle.scoped_names.specs.Constants.{size_in_scope, worth_in_scope};
ghost use Rattle.scoped_names.specs.Reading.{Gives};
ghost use Rattle.scoped_names.specs.Tests.{resolved, size_read, value_read};
ghost use Rattle.name_table.specs.Entry.{AreDistinct, bases_in, meant_in, name_in, named, worth_in};
ghost use Rattle.scoped_names.specs.RepositoryIds.{path as path_of, repository_id};
ghost use Rattle.name_table.specs.Search.{Finds, word};

use crate::evaluation::{resolve, size, value};
use crate::fault::NameFault;
use crate::repository_ids::{IdPragmas, path_to};
use idl_tree::expression::Expr;
use idl_tree::kinds::EntryKind;
use idl_tree::names::{Leaf, ScopedName};
use name_table::const_values::{ConstKind, Constant};
use name_table::{Base, Scope, Table};
use std::alloc::{AllocError, Global};
use std::marker::Model;

/// The names of a specification. A contract sees the entries in order of declaration, and what
/// pragmas say of repository ids.
pub struct Names<'a> {
    pub(crate) table: Table<'a>,
    pub(crate) ids: IdPragmas<'a>,
}

impl<'a> Model for Names<'a> {
    ghost use Rattle.scoped_names.specs.FileNames.{FileNames};

    ghost Value = { FileNames };

    ghost view = { λ n. record { entries = n.table; rules = n.ids } };
}

impl<'a> Drop for Names<'a> {
    fn drop(self) {
        let Names { table: _, ids: _ } = self;
    }
}

impl<'a> Names<'a> {
    /// The entry that a name finds that stands in the scope. Takes no memory.
    ///
    /// # Errors
    ///
    /// `Unknown`, `CaseDiffers` or `Ambiguous`, with the line of the name's first token.
    pub fn resolve(&self, scope: Scope, name: &ScopedName<'a>) -> Result<usize, NameFault>
        requires { scope.0 ≤ length self.now.entries }
        ensures told { result ≡ resolved self.now.entries scope.0 name.now }
        ensures finds { (entry : ℕ) → (result ≡ Ok entry) ↔ Finds self.now.entries scope.0 name.now entry }
        ensures placed { IfOk result (λ entry. entry < length self.now.entries) }
    {
        resolve(&self.table, scope, name)
    }

    /// How many entries there are. No two of one scope have names that differ in case at most.
    pub fn len(&self) -> usize
        ensures count { result ≡ length self.now.entries }
        ensures distinct { AreDistinct self.now.entries }
    {
        self.table.len()
    }

    /// The entry that an identifier was declared as in the scope. Takes no memory.
    pub fn declared(&self, scope: Scope, identifier: Leaf<'a>) -> Option<usize>
        ensures is { result ≡ named self.now.entries scope.0 (word identifier.entry) }
        ensures there { IfSome result (λ e. e < length self.now.entries) }
    {
        self.table.declared(scope, identifier)
    }

    /// What an entry was declared as.
    pub fn kind(&self, entry: usize) -> EntryKind
        requires { entry < length self.now.entries }
        ensures { IfSome (slice_get self.now.entries entry) (λ e. result ≡ e.kind) }
    {
        self.table.kind(entry)
    }

    /// An entry's name, without the underscore that escapes it.
    pub fn name(&self, entry: usize) -> &'a str
        requires { entry < length self.now.entries }
        ensures { result.now ≡ name_in (slice_get self.now.entries entry) }
    {
        self.table.name(entry)
    }

    /// The scope that an entry is declared in.
    pub fn scope(&self, entry: usize) -> Scope
        requires { entry < length self.now.entries }
        ensures { IfSome (slice_get self.now.entries entry) (λ e. result.0 ≡ e.scope) }
    {
        self.table.scope(entry)
    }

    /// Where an entry's first declaration stands in the tree: the number of its identifier's token,
    /// or, of a constant, which isn't found before its end, that of the token behind its value.
    pub fn token(&self, entry: usize) -> usize
        requires { entry < length self.now.entries }
        ensures { IfSome (slice_get self.now.entries entry) (λ e. result ≡ e.token) }
    {
        self.table.token(entry)
    }

    /// What a constant or an enumerator is worth.
    pub fn constant(&self, entry: usize) -> Option<&Constant>
        requires { entry < length self.now.entries }
        ensures { option_copied result ≡ worth_in (slice_get self.now.entries entry) }
    {
        self.table.constant(entry)
    }

    /// The type of constants for which the name of a type stands in the end, if it does.
    pub fn stands_for(&self, entry: usize) -> Option<ConstKind>
        requires { entry < length self.now.entries }
        ensures { result ≡ meant_in (slice_get self.now.entries entry) }
    {
        self.table.stands_for(entry)
    }

    /// How many bases an interface names.
    pub fn base_count(&self, entry: usize) -> usize
        requires { entry < length self.now.entries }
        ensures { result ≡ length (bases_in (slice_get self.now.entries entry)) }
    {
        self.table.base_count(entry)
    }

    /// A base of an interface, by its place among them, counted from 0.
    pub fn base(&self, entry: usize, place: usize) -> Option<Base>
        requires { entry < length self.now.entries }
        ensures { result ≡ slice_get (bases_in (slice_get self.now.entries entry)) place }
    {
        self.table.base(entry, place)
    }

    /// What an expression is worth that stands in the scope.
    ///
    /// # Errors
    ///
    /// The fault of a name in it, `BadConstant` where it has no worth, `NoMemory`.
    pub fn value(&self, alloc: Global, scope: Scope, expr: &Expr<'a>) -> Result<Constant, NameFault>
        requires { scope.0 ≤ length self.now.entries }
        ensures told { Gives result (value_read self.now.entries scope.0 expr.now) }
        ensures ok { IfOk result (λ c. worth_in_scope self.now.entries scope.0 expr.now ≡ Some c) }
    {
        value(&self.table, alloc, scope, expr)
    }

    /// What it is worth as a bound or a size, which is a whole number of at least 1.
    ///
    /// # Errors
    ///
    /// As `value`, and `BadConstant` where the worth is no such number.
    pub fn size(&self, alloc: Global, scope: Scope, expr: &Expr<'a>) -> Result<u128, NameFault>
        requires { scope.0 ≤ length self.now.entries }
        ensures told { Gives result (size_read self.now.entries scope.0 expr.now) }
        ensures ok { IfOk result (λ n. size_in_scope self.now.entries scope.0 expr.now ≡ Some n) }
    {
        size(&self.table, alloc, scope, expr)
    }

    /// The names from the outermost scope to an entry's, its own the last.
    ///
    /// # Errors
    ///
    /// `AllocError` where memory was refused.
    pub fn path(&self, alloc: Global, entry: usize) -> Result<Vec<&'a str>, AllocError>
        requires { entry < length self.now.entries }
        ensures { IfOk result (λ names. map (λ n. n.now) names.items ≡ path_of self.now.entries entry) }
    {
        path_to(alloc, &self.table, entry)
    }

    /// The repository id of an entry.
    ///
    /// # Errors
    ///
    /// `AllocError` where memory was refused.
    pub fn repository_id(&self, alloc: Global, entry: usize) -> Result<String, AllocError>
        requires { entry < length self.now.entries }
        ensures { IfOk result (λ id. string_bytes id ≡ repository_id self.now.entries self.now.rules entry) }
    {
        self.ids.repository_id(alloc, &self.table, entry)
    }
}
