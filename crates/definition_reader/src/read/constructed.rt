//! Structures and unions, whose members may declare further types.
#![tactic(auto, using(crate::proofs::Reading::past_append, crate::proofs::Reading::past_none))]

ghost use Rattle.std.specs.Prelude.{◌≡◌, ◌++◌, ◌∷◌, [], ◌≤◌, ◌<◌, max, suc, length, IfErr, IfOk, List, codes, Some};
ghost use Rattle.std.specs.List.{flat_map};
ghost use Rattle.idl_tree.specs.Descent.{braced_way, case_way, label_way, labels_way, member_way, opened, repeated, sees_label, struct_way, type_way, union_name_way, union_way};
ghost use Rattle.definition_reader.specs.inner.Following.{Ends, union_body_way};
ghost use Rattle.definition_reader.specs.declared.stop.Stop.TheVariants.{NoMemory};
ghost use Rattle.definition_reader.specs.inner.Reading.{Parsed, Continued, Added};
ghost use Rattle.idl_tree.specs.Pieces.{keyword, mark};
ghost use Rattle.idl_tree.specs.Yields.{identifier, in_order};
ghost use Rattle.idl_tree.specs.TypeYields.{label_yield, member_yield, case_yield, switch_yield, type_yield, struct_yield, union_yield};
ghost use Rattle.idl_tree.specs.Levels.{highest, highest_listed};
ghost use Rattle.idl_tree.specs.TypeLevels.{label_levels, member_levels, case_levels, switch_levels, type_levels, struct_levels, union_levels};

use crate::cursor::Cursor;
use crate::read::expressions::read_expr;
use crate::read::lists::{add, boxed, first_boxed, read_listed, read_named, read_opened};
use crate::read::types::{read_declarator, read_enum, read_simple_type, read_switch};
use crate::stop::Stop;
use idl_lexer::Kind;
use idl_tree::names::{Leaf, Listed};
use idl_tree::types::{Case, Label, Member, StructType, SwitchType, TypeSpec, UnionType};
use std::alloc::Global;

fn read_label<'a>(cursor: &mut Cursor<'a, '_>, room: usize) -> Result<Label<'a>, Stop>
    ensures spells { IfOk result (λ l. Parsed cursor.old (label_yield l) cursor.new) }
    ensures levels { IfOk result (λ l. label_levels l ≤ room) }
    ensures way { IfOk result (λ _. label_way room cursor.old ≡ Some cursor.new) }
    ensures stops { IfErr result (Ends (label_way room cursor.old)) }
{
    if cursor.take_keyword("case") {
        let value = got!(read_expr(cursor, room));
        got!(cursor.mark(":"));
        return Ok(Label::Case(value));
    }
    let Some(word) = cursor.take(Kind::Keyword, "default") else {
        return Err(Stop::Unexpected);
    };
    got!(cursor.mark(":"));
    Ok(Label::Default(word))
}

/// Whether a label is next.
fn is_label(cursor: &Cursor<'_, '_>) -> bool
    ensures { result ≡ sees_label cursor.now }
{
    cursor.is_keyword("case") || cursor.is_keyword("default")
}

/// Reads further labels.
fn read_more_labels<'a>(cursor: &mut Cursor<'a, '_>, room: usize) -> Result<Vec<Label<'a>>, Stop>
    ensures spells { IfOk result (λ l. Continued cursor.old (flat_map label_yield l.items) cursor.new) }
    ensures levels { IfOk result (λ l. highest label_levels l.items ≤ room) }
    ensures way { IfOk result (λ _. repeated sees_label (label_way room) cursor.old cursor.old ≡ Some cursor.new) }
    ensures stops { IfErr result (Ends (repeated sees_label (label_way room) cursor.old cursor.old)) }
{
    let mut labels = Vec::new(cursor.alloc());
    'parts: while is_label(cursor) {
        let label = got!(read_label(cursor, room));
        got!(add(&mut labels, label));
    }
    labels.shrink_to_fit();
    Ok(labels)
}

/// Reads labels, one or more.
fn read_labels<'a>(cursor: &mut Cursor<'a, '_>, room: usize) -> Result<Listed<Label<'a>>, Stop>
    ensures spells { IfOk result (λ l. Parsed cursor.old (in_order label_yield l) cursor.new) }
    ensures levels { IfOk result (λ l. highest_listed label_levels l ≤ room) }
    ensures way { IfOk result (λ _. labels_way room cursor.old ≡ Some cursor.new) }
    ensures stops { IfErr result (Ends (labels_way room cursor.old)) }
{
    let first = got!(read_label(cursor, room));
    let rest = got!(read_more_labels(cursor, room));
    Ok(Listed { first, rest })
}

#[cycle(constructed)]
pub(crate) fn read_type<'a>(cursor: &mut Cursor<'a, '_>, room: usize) -> Result<TypeSpec<'a>, Stop>
    ensures spells { IfOk result (λ t. Parsed cursor.old (type_yield t) cursor.new) }
    ensures levels { IfOk result (λ t. type_levels t ≤ room) }
    ensures way { IfOk result (λ _. type_way room cursor.old ≡ Some cursor.new) }
    ensures stops { IfErr result (Ends (type_way room cursor.old)) }
{
    if cursor.is_keyword("struct") {
        return Ok(TypeSpec::Struct(got!(read_struct(cursor, room))));
    }
    if cursor.is_keyword("union") {
        return Ok(TypeSpec::Union(got!(read_union(cursor, room))));
    }
    if cursor.is_keyword("enum") {
        return Ok(TypeSpec::Enum(got!(read_enum(cursor, room))));
    }
    Ok(TypeSpec::Simple(got!(read_simple_type(cursor, room))))
}

/// Reads a member and adds it.
#[cycle(constructed)]
fn read_member<'a>(
    cursor: &mut Cursor<'a, '_>,
    room: usize,
    members: &mut Vec<Member<'a>>,
) -> Result<(), Stop>
    ensures spells { IfOk result (λ _. Added member_yield member_levels room
        members.old.items members.new.items cursor.old cursor.new) }
    ensures way { IfOk result (λ _. member_way (type_way room) room cursor.old ≡ Some cursor.new) }
    ensures stops { IfErr result (Ends (member_way (type_way room) room cursor.old)) }
{
    let member = Member {
        member_type: got!(read_type(cursor, room)),
        declarators: got!(read_listed(cursor, room)),
    };
    got!(add(members, member));
    cursor.mark(";")
}

/// Reads members, one or more, and the closing brace behind them.
#[cycle(constructed)]
pub(crate) fn read_members<'a>(
    cursor: &mut Cursor<'a, '_>,
    room: usize,
) -> Result<Vec<Member<'a>>, Stop>
    ensures spells { IfOk result (λ m. Parsed cursor.old
        (flat_map member_yield m.items ++ mark (codes "}")) cursor.new) }
    ensures levels { IfOk result (λ m. highest member_levels m.items ≤ room) }
    ensures some { IfOk result (λ m. 0 < length m.items) }
    ensures way { IfOk result (λ _. braced_way (member_way (type_way room) room) cursor.old ≡ Some cursor.new) }
    ensures stops { IfErr result (Ends (braced_way (member_way (type_way room) room) cursor.old)) }
{
    let mut members = Vec::new(cursor.alloc());
    'parts: loop {
        got!(read_member(cursor, room, &mut members));
        if cursor.take_mark("}") {
            members.shrink_to_fit();
            return Ok(members);
        }
    }
}

/// The structure of a name and members.
fn structure<'a>(
    cursor: &Cursor<'a, '_>,
    name: Leaf<'a>,
    members: Vec<Member<'a>>,
) -> Result<StructType<'a>, Stop>
    requires { 0 < length members.items }
    ensures spells { IfOk result (λ s. struct_yield s ≡ keyword (codes "struct") ++ identifier name.entry
        ++ mark (codes "{") ++ (flat_map member_yield members.entry.items ++ mark (codes "}"))) }
    ensures levels { IfOk result (λ s. struct_levels s ≡ suc (highest member_levels members.entry.items)) }
    ensures full { IfErr result (λ stop. stop ≡ NoMemory) }
{
    let mut rest = members;
    let first = got!(first_boxed(cursor.alloc(), &mut rest));
    Ok(StructType {
        identifier: name,
        first,
        rest,
    })
}

#[cycle(constructed)]
pub(crate) fn read_struct<'a>(
    cursor: &mut Cursor<'a, '_>,
    room: usize,
) -> Result<StructType<'a>, Stop>
    ensures spells { IfOk result (λ s. Parsed cursor.old (struct_yield s) cursor.new) }
    ensures levels { IfOk result (λ s. struct_levels s ≤ room) }
    ensures way { IfOk result (λ _.
        opened room (λ left. struct_way (type_way left) left cursor.old) ≡ Some cursor.new) }
    ensures stops { IfErr result (Ends (opened room (λ left. struct_way (type_way left) left cursor.old))) }
{
    let (name, left) = got!(read_opened(cursor, "struct", room));
    let members = got!(read_members(cursor, left));
    structure(cursor, name, members)
}

/// Reads a case and adds it.
#[cycle(constructed)]
fn read_case<'a>(
    cursor: &mut Cursor<'a, '_>,
    room: usize,
    cases: &mut Vec<Case<'a>>,
) -> Result<(), Stop>
    ensures spells { IfOk result (λ _. Added case_yield case_levels room
        cases.old.items cases.new.items cursor.old cursor.new) }
    ensures way { IfOk result (λ _. case_way (type_way room) room cursor.old ≡ Some cursor.new) }
    ensures stops { IfErr result (Ends (case_way (type_way room) room cursor.old)) }
{
    let case = Case {
        labels: got!(read_labels(cursor, room)),
        member_type: got!(read_type(cursor, room)),
        declarator: got!(read_declarator(cursor, room)),
    };
    got!(add(cases, case));
    cursor.mark(";")
}

/// Reads cases, one or more, and the closing brace behind them.
#[cycle(constructed)]
fn read_cases<'a>(cursor: &mut Cursor<'a, '_>, room: usize) -> Result<Vec<Case<'a>>, Stop>
    ensures spells { IfOk result (λ c. Parsed cursor.old
        (flat_map case_yield c.items ++ mark (codes "}")) cursor.new) }
    ensures levels { IfOk result (λ c. highest case_levels c.items ≤ room) }
    ensures some { IfOk result (λ c. 0 < length c.items) }
    ensures way { IfOk result (λ _. braced_way (case_way (type_way room) room) cursor.old ≡ Some cursor.new) }
    ensures stops { IfErr result (Ends (braced_way (case_way (type_way room) room) cursor.old)) }
{
    let mut cases = Vec::new(cursor.alloc());
    'parts: loop {
        got!(read_case(cursor, room, &mut cases));
        if cursor.take_mark("}") {
            cases.shrink_to_fit();
            return Ok(cases);
        }
    }
}

/// Reads what stands behind the type of a union's discriminator.
#[cycle(constructed)]
fn read_union_body<'a>(cursor: &mut Cursor<'a, '_>, room: usize) -> Result<Vec<Case<'a>>, Stop>
    ensures spells { IfOk result (λ c. Parsed cursor.old (mark (codes ")") ++ mark (codes "{")
        ++ (flat_map case_yield c.items ++ mark (codes "}"))) cursor.new) }
    ensures levels { IfOk result (λ c. highest case_levels c.items < room) }
    ensures some { IfOk result (λ c. 0 < length c.items) }
    ensures way { IfOk result (λ _. opened room (λ left. union_body_way left cursor.old) ≡ Some cursor.new) }
    ensures stops { IfErr result (Ends (opened room (λ left. union_body_way left cursor.old))) }
{
    got!(cursor.mark(")"));
    let left = got!(cursor.open("{", room));
    read_cases(cursor, left)
}

/// Reads what stands before the type of a union's discriminator.
fn read_union_name<'a>(cursor: &mut Cursor<'a, '_>) -> Result<Leaf<'a>, Stop>
    ensures spells { IfOk result (λ u. Parsed cursor.old
        (keyword (codes "union") ++ identifier u ++ keyword (codes "switch") ++ mark (codes "(")) cursor.new) }
    ensures way { IfOk result (λ _. union_name_way cursor.old ≡ Some cursor.new) }
    ensures stops { IfErr result (Ends (union_name_way cursor.old)) }
{
    let name = got!(read_named(cursor, "union"));
    got!(cursor.keyword("switch"));
    got!(cursor.mark("("));
    Ok(name)
}

/// The union of a name, the type of its discriminator and cases.
fn union_of<'a>(
    cursor: &Cursor<'a, '_>,
    name: Leaf<'a>,
    switch: SwitchType<'a>,
    cases: Vec<Case<'a>>,
) -> Result<UnionType<'a>, Stop>
    requires { 0 < length cases.items }
    ensures spells { IfOk result (λ u. union_yield u ≡ keyword (codes "union") ++ identifier name.entry
        ++ keyword (codes "switch") ++ mark (codes "(") ++ switch_yield switch.entry ++ mark (codes ")")
        ++ mark (codes "{") ++ (flat_map case_yield cases.entry.items ++ mark (codes "}"))) }
    ensures levels { IfOk result (λ u. union_levels u ≡
        suc (max (switch_levels switch.entry) (highest case_levels cases.entry.items))) }
    ensures full { IfErr result (λ stop. stop ≡ NoMemory) }
{
    let mut rest = cases;
    let first = got!(first_boxed(cursor.alloc(), &mut rest));
    let chosen = got!(boxed(cursor.alloc(), switch));
    Ok(UnionType {
        identifier: name,
        switch: chosen,
        first,
        rest,
    })
}

#[cycle(constructed)]
pub(crate) fn read_union<'a>(
    cursor: &mut Cursor<'a, '_>,
    room: usize,
) -> Result<UnionType<'a>, Stop>
    ensures spells { IfOk result (λ u. Parsed cursor.old (union_yield u) cursor.new) }
    ensures levels { IfOk result (λ u. union_levels u ≤ room) }
    ensures way { IfOk result (λ _. opened room (λ left. union_way (type_way left) left cursor.old) ≡ Some cursor.new) }
    ensures stops { IfErr result (Ends (opened room (λ left. union_way (type_way left) left cursor.old))) }
{
    let name = got!(read_union_name(cursor));
    // an enumeration here is declared inside the union
    let switch = got!(read_switch(cursor, room.saturating_sub(1)));
    let cases = got!(read_union_body(cursor, room));
    union_of(cursor, name, switch, cases)
}
