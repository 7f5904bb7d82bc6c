//! Repository ids (ISO/IEC 19500-1, repository identifiers, and pragma directives for repository ids).

ghost use Rattle.std.specs.Prelude.{◌≡◌, ◌++◌, ◌<◌, ◌≤◌, ◌↔◌, ℕ, [], ◌∷◌, length, map, IfOk, OnOk};
ghost use Rattle.std.specs.Option.{option_map};
ghost use Rattle.std.specs.String.{string_bytes};
ghost use Rattle.scoped_names.specs.RepositoryIds.{given_to, pragma_for, path, with_slashes, idl_format, repository_id};
ghost use Rattle.scoped_names.specs.inner.IdsKept.{given_of};
ghost use Rattle.scoped_names.specs.Faults.{again_test, given_once};
ghost use Rattle.scoped_names.specs.Reading.{Checks, Keeps, Tells};
ghost use Rattle.scoped_names.specs.IdPragmas.{is_same_given};

use crate::fault::NameFault;
use idl_tree::names::At;
use name_table::{Numbered, Scope, Table};
use std::alloc::{AllocError, Global};
use std::marker::Model;

const SEPARATOR: &str = "/";

/// What a pragma gives to a name.
#[derive(Clone, Copy)]
pub(crate) enum PragmaId<'a> {
    /// The whole id.
    Whole(&'a str),
    /// The version, behind the last colon.
    Version(&'a str),
}

/// What is given to an entry, and where it is said first.
#[derive(Clone, Copy)]
pub(crate) struct PlacedId<'a> {
    pub id: PragmaId<'a>,
    pub at: At,
}

/// What the pragmas of a specification say of repository ids.
pub(crate) struct IdPragmas<'a> {
    entries: Numbered<usize>,
    /// What is given to each of them.
    ids: Vec<PlacedId<'a>>,
}

impl<'a> Model for IdPragmas<'a> {
    ghost use Rattle.std.specs.Prelude.{◌≡◌, List, length};
    ghost use Rattle.scoped_names.specs.RepositoryIds.{IdPragma};
    ghost use Rattle.scoped_names.specs.inner.IdsKept.{pragmas_of};

    ghost Value = { List IdPragma };

    ghost view = { λ p. pragmas_of p.entries p.ids.items };

    ghost invariant = { λ p. length p.entries ≡ length p.ids.items };
}

/// The names from the outermost scope to an entry's, its own the last.
pub(crate) fn path_to<'a>(
    alloc: Global,
    table: &Table<'a>,
    entry: usize,
) -> Result<Vec<&'a str>, AllocError>
    requires { entry < length table.now }
    ensures { IfOk result (λ v. map (λ n. n.now) v.items ≡ path table.now entry) }
{
    let _count = table.len();
    let mut names = Vec::new(alloc);
    let mut scope = Scope(entry + 1);
    while let Some(outer) = scope.entry() {
        names.push(table.name(outer))?;
        scope = table.scope(outer);
    }
    names.reverse();
    Ok(names)
}

/// Adds names with slashes between them.
fn push_path(out: &mut String, names: &[&str]) -> Result<(), AllocError>
    ensures { OnOk result (string_bytes out.new ≡
        string_bytes out.old ++ with_slashes (map (λ n. n.now) names.now)) }
{
    let Some((first, rest)) = names.split_first() else {
        return Ok(());
    };
    got!(out.push_str(first));
    for name in rest {
        got!(out.push_str(SEPARATOR));
        got!(out.push_str(name));
    }
    Ok(())
}

/// An id of the OMG IDL format.
fn id_text(alloc: Global, prefix: &str, names: &[&str], version: &str) -> Result<String, AllocError>
    ensures { IfOk result (λ t. string_bytes t ≡
        idl_format prefix.now (map (λ n. n.now) names.now) version.now) }
{
    let mut out = got!(String::from_str(alloc, "IDL:"));
    if !prefix.is_empty() {
        got!(out.push_str(prefix));
        got!(out.push_str(SEPARATOR));
    }
    got!(push_path(&mut out, names));
    got!(out.push_str(":"));
    got!(out.push_str(version));
    Ok(out)
}

/// Whether two pragmas give the same.
fn is_same(one: PragmaId<'_>, other: PragmaId<'_>) -> bool
    ensures { result ≡ is_same_given (given_of one.entry) (given_of other.entry) }
{
    match (one, other) {
        (PragmaId::Whole(one), PragmaId::Whole(other)) => one.as_bytes() == other.as_bytes(),
        (PragmaId::Version(one), PragmaId::Version(other)) => one.as_bytes() == other.as_bytes(),
        _ => false,
    }
}

impl PlacedId<'_> {
    /// That what is given once more is the same.
    fn given_again(self, given: PragmaId<'_>, at: At) -> Result<(), NameFault>
        ensures { Checks result (again_test (given_of self.entry.id) self.entry.at (given_of given.entry) at) }
    {
        if is_same(self.id, given) {
            return Ok(());
        }
        Err(NameFault::IdTwice { at, other: self.at })
    }
}

impl<'a> Drop for IdPragmas<'a> {
    fn drop(self) {
        let IdPragmas { entries: _, ids: _ } = self;
    }
}

impl<'a> IdPragmas<'a> {
    /// No pragmas. Takes no memory.
    pub fn new(alloc: Global) -> Self
        ensures { result ≡ [] }
    {
        IdPragmas {
            entries: Numbered::new(alloc),
            ids: Vec::new(alloc),
        }
    }

    /// Gives an id or a version to an entry. What it has already may be given again.
    ///
    /// # Errors
    ///
    /// `IdTwice` where the entry has another, `NoMemory`.
    pub fn give(&mut self, entry: usize, given: PragmaId<'a>, at: At) -> Result<(), NameFault>
        ensures told { Tells result self.new
            (given_once self.old entry (given_of given.entry) at (pragma_for self.old entry)) }
        ensures kept { Keeps result self.old self.new }
    {
        match self.entries.number_of(&entry) {
            Some(number) => self.ids[number].given_again(given, at),
            None => {
                self.ids.reserve(1)?;
                self.entries.push(entry)?;
                self.ids.push_reserved(PlacedId { id: given, at });
                Ok(())
            }
        }
    }

    /// What is given to an entry.
    fn given(&self, entry: usize) -> Option<PragmaId<'a>>
        ensures { option_map given_of result ≡ given_to self.now entry }
    {
        match self.entries.number_of(&entry) {
            Some(number) => Some(self.ids[number].id),
            None => None,
        }
    }

    /// The repository id of an entry.
    ///
    /// # Errors
    ///
    /// `AllocError` where memory was refused.
    pub fn repository_id(
        &self,
        alloc: Global,
        table: &Table<'_>,
        entry: usize,
    ) -> Result<String, AllocError>
        requires { entry < length table.now }
        ensures { IfOk result (λ id. string_bytes id ≡ repository_id table.now self.now entry) }
    {
        let version = match self.given(entry) {
            Some(PragmaId::Whole(text)) => return String::from_str(alloc, text),
            Some(PragmaId::Version(number)) => number,
            None => "1.0",
        };
        let path = path_to(alloc, table, entry)?;
        id_text(alloc, table.prefix(entry), path.as_slice(), version)
    }
}
