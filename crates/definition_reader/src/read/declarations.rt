//! What both modules and interfaces declare: types, constants and exceptions.
#![tactic(auto, using(crate::proofs::Reading::past_append, crate::proofs::Reading::past_none))]

ghost use Rattle.std.specs.Prelude.{◌≡◌, ◌++◌, ◌≤◌, max, IfErr, IfOk, List, codes, Some};
ghost use Rattle.idl_tree.specs.DefinitionDescent.{const_way, declaration_way, except_members_way, except_way, sees_declaration, struct_dcl_way, type_dcl_way, typedef_way, union_dcl_way};
ghost use Rattle.definition_reader.specs.inner.Following.{Ends, except_name_way};
ghost use Rattle.definition_reader.specs.inner.Reading.{Parsed};
ghost use Rattle.idl_tree.specs.Pieces.{keyword, mark};
ghost use Rattle.idl_tree.specs.Yields.{identifier as identifier_yield, const_expr_yield};
ghost use Rattle.std.specs.List.{flat_map};
ghost use Rattle.idl_tree.specs.Levels.{highest, const_expr_levels};
ghost use Rattle.idl_tree.specs.TypeYields.{member_yield};
ghost use Rattle.idl_tree.specs.TypeLevels.{member_levels};
ghost use Rattle.idl_tree.specs.DefinitionYields.{type_dcl_yield, declaration_yield};
ghost use Rattle.idl_tree.specs.DefinitionLevels.{type_dcl_levels, declaration_levels};

use crate::cursor::Cursor;
use crate::read::constructed::{read_members, read_struct, read_type, read_union};
use crate::read::expressions::read_expr;
use crate::read::lists::{read_listed, read_named};
use crate::read::types::{read_const_type, read_enum};
use crate::stop::Stop;
use idl_tree::definitions::{Const, Declaration, Except, TypeDcl};
use idl_tree::names::Leaf;
use idl_tree::types::Member;

/// Whether a type, a constant or an exception is next.
pub(crate) fn is_declaration(cursor: &Cursor<'_, '_>) -> bool
    ensures { result ≡ sees_declaration cursor.now }
{
    cursor.is_keyword("typedef")
        || cursor.is_keyword("struct")
        || cursor.is_keyword("union")
        || cursor.is_keyword("enum")
        || cursor.is_keyword("const")
        || cursor.is_keyword("exception")
}

fn read_typedef<'a>(cursor: &mut Cursor<'a, '_>, room: usize) -> Result<TypeDcl<'a>, Stop>
    ensures spells { IfOk result (λ t. Parsed cursor.old (type_dcl_yield t) cursor.new) }
    ensures levels { IfOk result (λ t. type_dcl_levels t ≤ room) }
    ensures way { IfOk result (λ _. typedef_way room cursor.old ≡ Some cursor.new) }
    ensures stops { IfErr result (Ends (typedef_way room cursor.old)) }
{
    got!(cursor.keyword("typedef"));
    Ok(TypeDcl::Typedef {
        original: got!(read_type(cursor, room)),
        declarators: got!(read_listed(cursor, room)),
    })
}

/// Reads a structure, or one that is declared ahead, which a semicolon tells.
fn read_struct_dcl<'a>(cursor: &mut Cursor<'a, '_>, room: usize) -> Result<TypeDcl<'a>, Stop>
    ensures spells { IfOk result (λ t. Parsed cursor.old (type_dcl_yield t) cursor.new) }
    ensures levels { IfOk result (λ t. type_dcl_levels t ≤ room) }
    ensures way { IfOk result (λ _. struct_dcl_way room cursor.old ≡ Some cursor.new) }
    ensures stops { IfErr result (Ends (struct_dcl_way room cursor.old)) }
{
    if cursor.is_ahead() {
        return Ok(TypeDcl::StructAhead(got!(read_named(cursor, "struct"))));
    }
    Ok(TypeDcl::Struct(got!(read_struct(cursor, room))))
}

/// Reads a union, or one that is declared ahead, which a semicolon tells.
fn read_union_dcl<'a>(cursor: &mut Cursor<'a, '_>, room: usize) -> Result<TypeDcl<'a>, Stop>
    ensures spells { IfOk result (λ t. Parsed cursor.old (type_dcl_yield t) cursor.new) }
    ensures levels { IfOk result (λ t. type_dcl_levels t ≤ room) }
    ensures way { IfOk result (λ _. union_dcl_way room cursor.old ≡ Some cursor.new) }
    ensures stops { IfErr result (Ends (union_dcl_way room cursor.old)) }
{
    if cursor.is_ahead() {
        return Ok(TypeDcl::UnionAhead(got!(read_named(cursor, "union"))));
    }
    Ok(TypeDcl::Union(got!(read_union(cursor, room))))
}

fn read_type_dcl<'a>(cursor: &mut Cursor<'a, '_>, room: usize) -> Result<TypeDcl<'a>, Stop>
    ensures spells { IfOk result (λ t. Parsed cursor.old (type_dcl_yield t) cursor.new) }
    ensures levels { IfOk result (λ t. type_dcl_levels t ≤ room) }
    ensures way { IfOk result (λ _. type_dcl_way room cursor.old ≡ Some cursor.new) }
    ensures stops { IfErr result (Ends (type_dcl_way room cursor.old)) }
{
    if cursor.is_keyword("struct") {
        return read_struct_dcl(cursor, room);
    }
    if cursor.is_keyword("union") {
        return read_union_dcl(cursor, room);
    }
    if cursor.is_keyword("enum") {
        return Ok(TypeDcl::Enum(got!(read_enum(cursor, room))));
    }
    read_typedef(cursor, room)
}

fn read_const<'a>(cursor: &mut Cursor<'a, '_>, room: usize) -> Result<Declaration<'a>, Stop>
    ensures spells { IfOk result (λ d. Parsed cursor.old (declaration_yield d) cursor.new) }
    ensures levels { IfOk result (λ d. declaration_levels d ≤ room) }
    ensures way { IfOk result (λ _. const_way room cursor.old ≡ Some cursor.new) }
    ensures stops { IfErr result (Ends (const_way room cursor.old)) }
{
    got!(cursor.keyword("const"));
    let const_type = got!(read_const_type(cursor, room));
    let identifier = got!(cursor.identifier());
    got!(cursor.mark("="));
    Ok(Declaration::Const(Const {
        const_type,
        identifier,
        value: got!(read_expr(cursor, room)),
    }))
}

/// Reads what stands before the members of an exception.
fn read_except_name<'a>(cursor: &mut Cursor<'a, '_>) -> Result<Leaf<'a>, Stop>
    ensures spells { IfOk result (λ e. Parsed cursor.old
        (keyword (codes "exception") ++ identifier_yield e ++ mark (codes "{")) cursor.new) }
    ensures way { IfOk result (λ _. except_name_way cursor.old ≡ Some cursor.new) }
    ensures stops { IfErr result (Ends (except_name_way cursor.old)) }
{
    let identifier = got!(read_named(cursor, "exception"));
    got!(cursor.mark("{"));
    Ok(identifier)
}

/// Reads the members of an exception, if it has any, and the closing brace.
fn read_except_members<'a>(
    cursor: &mut Cursor<'a, '_>,
    room: usize,
) -> Result<Vec<Member<'a>>, Stop>
    ensures spells { IfOk result (λ m. Parsed cursor.old
        (flat_map member_yield m.items ++ mark (codes "}")) cursor.new) }
    ensures levels { IfOk result (λ m. highest member_levels m.items ≤ room) }
    ensures way { IfOk result (λ _. except_members_way room cursor.old ≡ Some cursor.new) }
    ensures stops { IfErr result (Ends (except_members_way room cursor.old)) }
{
    if cursor.take_mark("}") {
        return Ok(Vec::new(cursor.alloc()));
    }
    read_members(cursor, room)
}

fn read_except<'a>(cursor: &mut Cursor<'a, '_>, room: usize) -> Result<Declaration<'a>, Stop>
    ensures spells { IfOk result (λ d. Parsed cursor.old (declaration_yield d) cursor.new) }
    ensures levels { IfOk result (λ d. declaration_levels d ≤ room) }
    ensures way { IfOk result (λ _. except_way room cursor.old ≡ Some cursor.new) }
    ensures stops { IfErr result (Ends (except_way room cursor.old)) }
{
    let identifier = got!(read_except_name(cursor));
    Ok(Declaration::Except(Except {
        identifier,
        members: got!(read_except_members(cursor, room)),
    }))
}

/// Reads a type, a constant or an exception that is declared.
pub(crate) fn read_declaration<'a>(
    cursor: &mut Cursor<'a, '_>,
    room: usize,
) -> Result<Declaration<'a>, Stop>
    ensures spells { IfOk result (λ d. Parsed cursor.old (declaration_yield d) cursor.new) }
    ensures levels { IfOk result (λ d. declaration_levels d ≤ room) }
    ensures way { IfOk result (λ _. declaration_way room cursor.old ≡ Some cursor.new) }
    ensures stops { IfErr result (Ends (declaration_way room cursor.old)) }
{
    if cursor.is_keyword("const") {
        return read_const(cursor, room);
    }
    if cursor.is_keyword("exception") {
        return read_except(cursor, room);
    }
    Ok(Declaration::TypeDcl(got!(read_type_dcl(cursor, room))))
}
