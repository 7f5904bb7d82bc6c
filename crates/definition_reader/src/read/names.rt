//! Identifiers and scoped names.
#![tactic(auto, using(crate::proofs::Reading::past_append, crate::proofs::Reading::past_none))]

ghost use Rattle.std.specs.Prelude.{◌≡◌, ◌++◌, ℕ, IfErr, IfOk, List, codes, Some};
ghost use Rattle.idl_tree.specs.Descent.{root_way, parts_way, name_way};
ghost use Rattle.definition_reader.specs.inner.Following.{Ends};
ghost use Rattle.definition_reader.specs.inner.Reading.{Parsed, Continued};
ghost use Rattle.std.specs.List.{flat_map};
ghost use Rattle.idl_tree.specs.Pieces.{mark};
ghost use Rattle.idl_tree.specs.Yields.{identifier, optional, root_yield, name_yield};

use crate::cursor::Cursor;
use crate::read::lists::{Part, add, boxed};
use crate::stop::Stop;
use idl_lexer::Kind;
use idl_tree::names::{Leaf, Path, ScopedName};

impl<'a> Part<'a> for Leaf<'a> {
    ghost use Rattle.idl_tree.specs.Yields.{identifier};
    ghost use Rattle.idl_tree.specs.Descent.{identifier_way};

    ghost yield_of = { identifier };

    ghost levels_of = { λ _. 0 };

    ghost way_of = { λ _. identifier_way };

    fn read(cursor: &mut Cursor<'a, '_>, _room: usize) -> Result<Self, Stop> {
        cursor.identifier()
    }
}

impl<'a> Part<'a> for ScopedName<'a> {
    ghost use Rattle.idl_tree.specs.Yields.{name_yield};
    ghost use Rattle.idl_tree.specs.Descent.{name_way};

    ghost yield_of = { name_yield };

    ghost levels_of = { λ _. 0 };

    ghost way_of = { λ _. name_way };

    fn read(cursor: &mut Cursor<'a, '_>, _room: usize) -> Result<Self, Stop> {
        read_scoped_name(cursor)
    }
}

/// Takes the `::` that a name begins with, if it does.
fn take_root<'a>(cursor: &mut Cursor<'a, '_>) -> Option<Leaf<'a>>
    ensures spells { Continued cursor.old (optional root_yield result) cursor.new }
    ensures way { root_way cursor.old ≡ Some cursor.new }
{
    cursor.take(Kind::Punct, "::")
}

/// Reads identifiers, each behind a `::`.
fn read_parts<'a>(cursor: &mut Cursor<'a, '_>) -> Result<Vec<Leaf<'a>>, Stop>
    ensures spells { IfOk result (λ parts. Continued cursor.old
        (flat_map (λ x. mark (codes "::") ++ identifier x) parts.items) cursor.new) }
    ensures way { IfOk result (λ _. parts_way cursor.old ≡ Some cursor.new) }
    ensures stops { IfErr result (Ends (parts_way cursor.old)) }
{
    let mut rest = Vec::new(cursor.alloc());
    'parts: while cursor.take_mark("::") {
        let part = got!(cursor.identifier());
        got!(add(&mut rest, part));
    }
    rest.shrink_to_fit();
    Ok(rest)
}

pub(crate) fn read_scoped_name<'a>(cursor: &mut Cursor<'a, '_>) -> Result<ScopedName<'a>, Stop>
    ensures spells { IfOk result (λ n. Parsed cursor.old (name_yield n) cursor.new) }
    ensures way { IfOk result (λ _. name_way cursor.old ≡ Some cursor.new) }
    ensures stops { IfErr result (Ends (name_way cursor.old)) }
{
    let root = take_root(cursor);
    let first = got!(cursor.identifier());
    let rest = got!(read_parts(cursor));
    if root.is_none() && rest.is_empty() {
        return Ok(ScopedName::Plain(first));
    }
    let path = Path { root, first, rest };
    Ok(ScopedName::Scoped(got!(boxed(cursor.alloc(), path))))
}
