//! Lists with commas, and parts one behind another.
#![tactic(auto, using(crate::proofs::Reading::past_append, crate::proofs::Reading::past_none))]

ghost use Rattle.std.specs.Prelude.{◌≡◌, ◌++◌, ◌≤◌, ◌<◌, ◌∷◌, [], ℕ, suc, length, List, Ok, IfErr, IfOk, IsOkAnd, codes, Some};
ghost use Rattle.std.specs.List.{flat_map};
ghost use Rattle.idl_tree.specs.Descent.{Way, and_then, listed_way, mark_taken, named_way, opened_way, rest_way};
ghost use Rattle.definition_reader.specs.inner.Following.{Ends};
ghost use Rattle.definition_reader.specs.declared.stop.Stop.TheVariants.{NoMemory};
ghost use Rattle.definition_reader.specs.inner.Reading.{Parsed, Continued};
ghost use Rattle.idl_tree.specs.Pieces.{Piece, Seen, keyword, mark};
ghost use Rattle.idl_tree.specs.Yields.{identifier, listed};
ghost use Rattle.idl_tree.specs.Levels.{highest, highest_listed};

use crate::cursor::Cursor;
use crate::stop::Stop;
use idl_tree::names::{Leaf, Listed};
use std::alloc::{AllocError, Global};

/// What stands between commas.
pub(crate) trait Part<'a>: Sized + Drop {
    ghost yield_of: { Self → List Piece };

    ghost levels_of: { Self → ℕ };

    ghost way_of: { ℕ → List Seen → Way };

    fn read(cursor: &mut Cursor<'a, '_>, room: usize) -> Result<Self, Stop>
        ensures spells { IfOk result (λ x. Parsed cursor.old (yield_of x) cursor.new) }
        ensures levels { IfOk result (λ x. levels_of x ≤ room) }
        ensures way { IfOk result (λ _. way_of room cursor.old ≡ Some cursor.new) }
        ensures stops { IfErr result (Ends (way_of room cursor.old)) };
}

/// Adds a part to a list.
pub(crate) fn add<T: Drop>(list: &mut Vec<T>, part: T) -> Result<(), Stop>
    ensures spells { IfOk result (λ _. list.new.items ≡ list.old.items ++ part ∷ []) }
    ensures full { IfErr result (λ stop. stop ≡ NoMemory) }
{
    match list.push(part) {
        Ok(()) => Ok(()),
        Err(_) => Err(Stop::NoMemory),
    }
}

/// A part in a box.
pub(crate) fn boxed<T: Drop>(alloc: Global, part: T) -> Result<Box<T>, Stop>
    ensures spells { IfOk result (λ b. b.value ≡ part) }
    ensures full { IfErr result (λ stop. stop ≡ NoMemory) }
{
    match Box::new(alloc, part) {
        Ok(part) => Ok(part),
        Err(_) => Err(Stop::NoMemory),
    }
}

/// A node that was made.
pub(crate) fn made<T: Drop>(node: Result<T, AllocError>) -> Result<T, Stop>
    ensures spells { IfOk result (λ n. node ≡ Ok n) }
    ensures full { IfErr result (λ stop. stop ≡ NoMemory) }
{
    match node {
        Ok(node) => Ok(node),
        Err(_) => Err(Stop::NoMemory),
    }
}

/// Reads a word and an identifier.
pub(crate) fn read_named<'a>(cursor: &mut Cursor<'a, '_>, word: &str) -> Result<Leaf<'a>, Stop>
    ensures spells { IfOk result (λ l. Parsed cursor.old (keyword word.now ++ identifier l) cursor.new) }
    ensures way { IfOk result (λ _. named_way word.now cursor.old ≡ Some cursor.new) }
    ensures stops { IfErr result (Ends (named_way word.now cursor.old)) }
{
    got!(cursor.keyword(word));
    cursor.identifier()
}

/// Reads a word, an identifier and a brace that opens a level, and how many levels are left inside.
pub(crate) fn read_opened<'a>(
    cursor: &mut Cursor<'a, '_>,
    word: &str,
    room: usize,
) -> Result<(Leaf<'a>, usize), Stop>
    ensures spells { IfOk result (λ o. Parsed cursor.old
        (keyword word.now ++ identifier o.0 ++ mark (codes "{")) cursor.new) }
    ensures levels { IfOk result (λ o. suc o.1 ≡ room) }
    ensures way { IfOk result (λ o.
        and_then (named_way word.now cursor.old) (mark_taken (codes "{")) ≡ Some cursor.new) }
    ensures stops { IfErr result (Ends (opened_way word.now room cursor.old)) }
{
    let name = got!(read_named(cursor, word));
    let left = got!(cursor.open("{", room));
    Ok((name, left))
}

/// Takes the first part of a list, in a box.
pub(crate) fn first_boxed<T: Drop>(alloc: Global, list: &mut Vec<T>) -> Result<Box<T>, Stop>
    requires { 0 < length list.old.items }
    ensures spells { IfOk result (λ first. list.old.items ≡ first.value ∷ list.new.items) }
    ensures full { IfErr result (λ stop. stop ≡ NoMemory) }
{
    let first = list.remove(0);
    list.shrink_to_fit();
    boxed(alloc, first)
}

/// Reads further parts, each behind a comma.
pub(crate) fn read_rest<'a, T: Part<'a>>(
    cursor: &mut Cursor<'a, '_>,
    room: usize,
) -> Result<Vec<T>, Stop>
    ensures spells { IfOk result (λ parts. Continued cursor.old
        (flat_map (λ x. mark (codes ",") ++ T.yield_of x) parts.items) cursor.new) }
    ensures levels { IfOk result (λ parts. highest T.levels_of parts.items ≤ room) }
    ensures way { IfOk result (λ _. rest_way (T.way_of room) cursor.old ≡ Some cursor.new) }
    ensures stops { IfErr result (Ends (rest_way (T.way_of room) cursor.old)) }
{
    let mut rest = Vec::new(cursor.alloc());
    'parts: while cursor.take_mark(",") {
        let part = got!(T::read(cursor, room));
        got!(add(&mut rest, part));
    }
    rest.shrink_to_fit();
    Ok(rest)
}

/// Reads one part or more.
pub(crate) fn read_listed<'a, T: Part<'a>>(
    cursor: &mut Cursor<'a, '_>,
    room: usize,
) -> Result<Listed<T>, Stop>
    ensures spells { IfOk result (λ l. Parsed cursor.old (listed T.yield_of l) cursor.new) }
    ensures levels { IfOk result (λ l. highest_listed T.levels_of l ≤ room) }
    ensures way { IfOk result (λ _. listed_way (T.way_of room) cursor.old ≡ Some cursor.new) }
    ensures stops { IfErr result (Ends (listed_way (T.way_of room) cursor.old)) }
{
    let first = got!(T::read(cursor, room));
    let rest = got!(read_rest(cursor, room));
    Ok(Listed { first, rest })
}

impl<'a, T: Part<'a>> Part<'a> for Listed<T> {
    ghost use Rattle.idl_tree.specs.Yields.{listed};
    ghost use Rattle.idl_tree.specs.Levels.{highest_listed};
    ghost use Rattle.idl_tree.specs.Descent.{listed_way};

    ghost yield_of = { listed T.yield_of };

    ghost levels_of = { highest_listed T.levels_of };

    ghost way_of = { λ room. listed_way (T.way_of room) };

    fn read(cursor: &mut Cursor<'a, '_>, room: usize) -> Result<Self, Stop> {
        read_listed(cursor, room)
    }
}
