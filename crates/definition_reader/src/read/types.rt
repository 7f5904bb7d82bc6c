//! Types that declare nothing but enumerations, and declarators.
#![tactic(auto, using(crate::proofs::Reading::past_append, crate::proofs::Reading::past_none))]

ghost use Rattle.std.specs.Prelude.{◌≡◌, ◌++◌, ◌≤◌, suc, ℕ, IfErr, IfOk, List, codes, Some};
ghost use Rattle.std.specs.List.{flat_map};
ghost use Rattle.idl_tree.specs.Descent.{const_type_way, declarator_way, end_sequence_way, enum_way, integer_size_way, integer_way, open_sequence_way, opened, param_type_way, sees_integer, simple_type_way, size_way, sizes_way, string_bound_way, switch_way};
ghost use Rattle.definition_reader.specs.inner.Following.{Ends, sequence_way};
ghost use Rattle.definition_reader.specs.inner.Reading.{Parsed, Continued};
ghost use Rattle.idl_tree.specs.Pieces.{keyword, mark};
ghost use Rattle.idl_tree.specs.Yields.{optional};
ghost use Rattle.idl_tree.specs.TypeYields.{integer_size_yield, integer_yield, string_bound_yield, const_type_yield, param_type_yield, sequence_bound_yield, simple_type_yield, declarator_yield, size_yield, enum_yield, switch_yield};
ghost use Rattle.idl_tree.specs.Levels.{highest, optional_levels, const_expr_levels, bound_levels};
ghost use Rattle.idl_tree.specs.TypeLevels.{const_type_levels, param_type_levels, simple_type_levels, declarator_levels, switch_levels};

use crate::cursor::Cursor;
use crate::read::expressions::{read_bound, read_expr};
use crate::read::lists::{Part, add, boxed, made, read_listed, read_opened};
use crate::read::names::read_scoped_name;
use crate::stop::Stop;
use idl_tree::const_expr::{Bound, ConstExpr};
use idl_tree::types::{
    ConstType, Declarator, EnumType, Integer, IntegerSize, ParamType, SimpleType, SwitchType,
};

fn read_integer_size(cursor: &mut Cursor<'_, '_>) -> Result<IntegerSize, Stop>
    ensures spells { IfOk result (λ i. Parsed cursor.old (integer_size_yield i) cursor.new) }
    ensures way { IfOk result (λ _. integer_size_way cursor.old ≡ Some cursor.new) }
    ensures stops { IfErr result (Ends (integer_size_way cursor.old)) }
{
    if cursor.take_keyword("short") {
        return Ok(IntegerSize::Short);
    }
    got!(cursor.keyword("long"));
    if cursor.take_keyword("long") {
        Ok(IntegerSize::LongLong)
    } else {
        Ok(IntegerSize::Long)
    }
}

fn read_integer(cursor: &mut Cursor<'_, '_>) -> Result<Integer, Stop>
    ensures spells { IfOk result (λ i. Parsed cursor.old (integer_yield i) cursor.new) }
    ensures way { IfOk result (λ _. integer_way cursor.old ≡ Some cursor.new) }
    ensures stops { IfErr result (Ends (integer_way cursor.old)) }
{
    if cursor.take_keyword("unsigned") {
        return Ok(Integer::Unsigned(got!(read_integer_size(cursor))));
    }
    Ok(Integer::Signed(got!(read_integer_size(cursor))))
}

/// Reads the bound of a string, if it has one.
fn read_string_bound<'a>(
    cursor: &mut Cursor<'a, '_>,
    room: usize,
) -> Result<Option<Bound<'a>>, Stop>
    ensures spells { IfOk result (λ b. Continued cursor.old (optional string_bound_yield b) cursor.new) }
    ensures levels { IfOk result (λ b. optional_levels bound_levels b ≤ room) }
    ensures way { IfOk result (λ _. string_bound_way room cursor.old ≡ Some cursor.new) }
    ensures stops { IfErr result (Ends (string_bound_way room cursor.old)) }
{
    if !cursor.take_mark("<") {
        return Ok(None);
    }
    let bound = got!(read_bound(cursor, room));
    got!(cursor.mark(">"));
    Ok(Some(bound))
}

/// Whether an integer is next.
fn is_integer(cursor: &Cursor<'_, '_>) -> bool
    ensures { result ≡ sees_integer cursor.now }
{
    cursor.is_keyword("short") || cursor.is_keyword("long") || cursor.is_keyword("unsigned")
}

/// Reads a string, a name, or a type that is a word alone.
pub(crate) fn read_const_type<'a>(
    cursor: &mut Cursor<'a, '_>,
    room: usize,
) -> Result<ConstType<'a>, Stop>
    ensures spells { IfOk result (λ t. Parsed cursor.old (const_type_yield t) cursor.new) }
    ensures levels { IfOk result (λ t. const_type_levels t ≤ room) }
    ensures way { IfOk result (λ _. const_type_way room cursor.old ≡ Some cursor.new) }
    ensures stops { IfErr result (Ends (const_type_way room cursor.old)) }
{
    if is_integer(cursor) {
        return Ok(ConstType::Integer(got!(read_integer(cursor))));
    }
    if cursor.take_keyword("char") {
        return Ok(ConstType::Char);
    }
    if cursor.take_keyword("boolean") {
        return Ok(ConstType::Boolean);
    }
    if cursor.take_keyword("octet") {
        return Ok(ConstType::Octet);
    }
    if cursor.take_keyword("string") {
        return Ok(ConstType::String(got!(read_string_bound(cursor, room))));
    }
    Ok(ConstType::Name(got!(read_scoped_name(cursor))))
}

pub(crate) fn read_param_type<'a>(
    cursor: &mut Cursor<'a, '_>,
    room: usize,
) -> Result<ParamType<'a>, Stop>
    ensures spells { IfOk result (λ t. Parsed cursor.old (param_type_yield t) cursor.new) }
    ensures levels { IfOk result (λ t. param_type_levels t ≤ room) }
    ensures way { IfOk result (λ _. param_type_way room cursor.old ≡ Some cursor.new) }
    ensures stops { IfErr result (Ends (param_type_way room cursor.old)) }
{
    if cursor.take_keyword("Object") {
        return Ok(ParamType::Object);
    }
    Ok(ParamType::Plain(got!(read_const_type(cursor, room))))
}

/// Reads the word `sequence` and the mark behind it, and how many levels are left inside.
fn open_sequence(cursor: &mut Cursor<'_, '_>, room: usize) -> Result<usize, Stop>
    ensures spells { IfOk result (λ _. Parsed cursor.old (keyword (codes "sequence") ++ mark (codes "<")) cursor.new) }
    ensures levels { IfOk result (λ left. suc left ≡ room) }
    ensures way { IfOk result (λ left. open_sequence_way cursor.old ≡ Some cursor.new) }
    ensures stops { IfErr result (Ends (opened room (λ left. open_sequence_way cursor.old))) }
{
    got!(cursor.keyword("sequence"));
    cursor.open("<", room)
}

/// Reads the bound of a sequence, if it has one, and the mark that ends the sequence.
fn end_sequence<'a>(cursor: &mut Cursor<'a, '_>, room: usize) -> Result<Option<Bound<'a>>, Stop>
    ensures spells { IfOk result (λ b. Parsed cursor.old
        (optional sequence_bound_yield b ++ mark (codes ">")) cursor.new) }
    ensures levels { IfOk result (λ b. optional_levels bound_levels b ≤ room) }
    ensures way { IfOk result (λ _. end_sequence_way room cursor.old ≡ Some cursor.new) }
    ensures stops { IfErr result (Ends (end_sequence_way room cursor.old)) }
{
    if cursor.take_mark(">") {
        return Ok(None);
    }
    got!(cursor.mark(","));
    let bound = got!(read_bound(cursor, room));
    got!(cursor.mark(">"));
    Ok(Some(bound))
}

#[cycle(simple)]
pub(crate) fn read_simple_type<'a>(
    cursor: &mut Cursor<'a, '_>,
    room: usize,
) -> Result<SimpleType<'a>, Stop>
    ensures spells { IfOk result (λ t. Parsed cursor.old (simple_type_yield t) cursor.new) }
    ensures levels { IfOk result (λ t. simple_type_levels t ≤ room) }
    ensures way { IfOk result (λ _. simple_type_way room cursor.old ≡ Some cursor.new) }
    ensures stops { IfErr result (Ends (simple_type_way room cursor.old)) }
{
    if cursor.is_keyword("sequence") {
        return read_sequence(cursor, room);
    }
    Ok(SimpleType::Plain(got!(read_param_type(cursor, room))))
}

#[cycle(simple)]
fn read_sequence<'a>(cursor: &mut Cursor<'a, '_>, room: usize) -> Result<SimpleType<'a>, Stop>
    ensures spells { IfOk result (λ t. Parsed cursor.old (simple_type_yield t) cursor.new) }
    ensures levels { IfOk result (λ t. simple_type_levels t ≤ room) }
    ensures way { IfOk result (λ _. sequence_way room cursor.old ≡ Some cursor.new) }
    ensures stops { IfErr result (Ends (sequence_way room cursor.old)) }
{
    let left = got!(open_sequence(cursor, room));
    made(SimpleType::new_sequence(
        cursor.alloc(),
        got!(read_simple_type(cursor, left)),
        got!(end_sequence(cursor, left)),
    ))
}

fn read_size<'a>(cursor: &mut Cursor<'a, '_>, room: usize) -> Result<ConstExpr<'a>, Stop>
    ensures spells { IfOk result (λ size. Parsed cursor.old (size_yield size) cursor.new) }
    ensures levels { IfOk result (λ size. const_expr_levels size ≤ room) }
    ensures way { IfOk result (λ _. size_way room cursor.old ≡ Some cursor.new) }
    ensures stops { IfErr result (Ends (size_way room cursor.old)) }
{
    got!(cursor.mark("["));
    let size = got!(read_expr(cursor, room));
    got!(cursor.mark("]"));
    Ok(size)
}

/// Reads the sizes of an array, if there are any.
fn read_sizes<'a>(cursor: &mut Cursor<'a, '_>, room: usize) -> Result<Vec<ConstExpr<'a>>, Stop>
    ensures spells { IfOk result (λ sizes. Continued cursor.old (flat_map size_yield sizes.items) cursor.new) }
    ensures levels { IfOk result (λ sizes. highest const_expr_levels sizes.items ≤ room) }
    ensures way { IfOk result (λ _. sizes_way room cursor.old ≡ Some cursor.new) }
    ensures stops { IfErr result (Ends (sizes_way room cursor.old)) }
{
    let mut sizes = Vec::new(cursor.alloc());
    'parts: while cursor.is_mark("[") {
        let size = got!(read_size(cursor, room));
        got!(add(&mut sizes, size));
    }
    sizes.shrink_to_fit();
    Ok(sizes)
}

impl<'a> Part<'a> for Declarator<'a> {
    ghost use Rattle.idl_tree.specs.TypeYields.{declarator_yield};
    ghost use Rattle.idl_tree.specs.TypeLevels.{declarator_levels};
    ghost use Rattle.idl_tree.specs.Descent.{declarator_way};

    ghost yield_of = { declarator_yield };

    ghost levels_of = { declarator_levels };

    ghost way_of = { declarator_way };

    fn read(cursor: &mut Cursor<'a, '_>, room: usize) -> Result<Self, Stop> {
        read_declarator(cursor, room)
    }
}

pub(crate) fn read_declarator<'a>(
    cursor: &mut Cursor<'a, '_>,
    room: usize,
) -> Result<Declarator<'a>, Stop>
    ensures spells { IfOk result (λ d. Parsed cursor.old (declarator_yield d) cursor.new) }
    ensures levels { IfOk result (λ d. declarator_levels d ≤ room) }
    ensures way { IfOk result (λ _. declarator_way room cursor.old ≡ Some cursor.new) }
    ensures stops { IfErr result (Ends (declarator_way room cursor.old)) }
{
    Ok(Declarator {
        identifier: got!(cursor.identifier()),
        sizes: got!(read_sizes(cursor, room)),
    })
}

/// Reads an enumeration, which is a level.
pub(crate) fn read_enum<'a>(cursor: &mut Cursor<'a, '_>, room: usize) -> Result<EnumType<'a>, Stop>
    ensures spells { IfOk result (λ e. Parsed cursor.old (enum_yield e) cursor.new) }
    ensures levels { IfOk result (λ e. 1 ≤ room) }
    ensures way { IfOk result (λ _. enum_way room cursor.old ≡ Some cursor.new) }
    ensures stops { IfErr result (Ends (enum_way room cursor.old)) }
{
    let (identifier, left) = got!(read_opened(cursor, "enum", room));
    let enumerators = got!(read_listed(cursor, left));
    got!(cursor.mark("}"));
    Ok(EnumType {
        identifier,
        enumerators: got!(boxed(cursor.alloc(), enumerators)),
    })
}

/// Reads the type of a union's discriminator.
pub(crate) fn read_switch<'a>(
    cursor: &mut Cursor<'a, '_>,
    room: usize,
) -> Result<SwitchType<'a>, Stop>
    ensures spells { IfOk result (λ s. Parsed cursor.old (switch_yield s) cursor.new) }
    ensures levels { IfOk result (λ s. switch_levels s ≤ room) }
    ensures way { IfOk result (λ _. switch_way room cursor.old ≡ Some cursor.new) }
    ensures stops { IfErr result (Ends (switch_way room cursor.old)) }
{
    if cursor.is_keyword("enum") {
        return Ok(SwitchType::Enum(got!(read_enum(cursor, room))));
    }
    if is_integer(cursor) {
        return Ok(SwitchType::Integer(got!(read_integer(cursor))));
    }
    if cursor.take_keyword("char") {
        return Ok(SwitchType::Char);
    }
    if cursor.take_keyword("boolean") {
        return Ok(SwitchType::Boolean);
    }
    Ok(SwitchType::Name(got!(read_scoped_name(cursor))))
}
