//! Interfaces, their operations and attributes.
#![tactic(auto, using(crate::proofs::Reading::past_append, crate::proofs::Reading::past_none))]

ghost use Rattle.std.specs.Prelude.{◌≡◌, ◌++◌, ◌||◌, ◌≤◌, ◌∷◌, [], ℕ, Bool, true, false, max, IfErr, IfOk, List, codes, Some};
ghost use Rattle.std.specs.List.{flat_map};
ghost use Rattle.idl_tree.specs.Descent.{sees_word};
ghost use Rattle.idl_tree.specs.DefinitionDescent.{attribute_way, attributes_way, bases_way, declaration_way, direction_way, ended_way, export_way, exports_way, oneway_way, operation_way, params_way, raises_way, readonly_way, result_way};
ghost use Rattle.definition_reader.specs.inner.Following.{Ends, settable_way};
ghost use Rattle.definition_reader.specs.declared.stop.Stop.TheVariants.{NoMemory};
ghost use Rattle.definition_reader.specs.inner.Reading.{Parsed, Continued, Added};
ghost use Rattle.idl_tree.specs.Pieces.{Seen, mark};
ghost use Rattle.idl_tree.specs.Yields.{identifier as identifier_yield, optional, listed};
ghost use Rattle.idl_tree.specs.Levels.{highest, highest_listed, optional_levels};
ghost use Rattle.idl_tree.specs.TypeLevels.{param_type_levels};
ghost use Rattle.idl_tree.specs.DefinitionYields.{raises_yield, readonly_yield, is_readonly as attributes_are_readonly, attributes_yield, attribute_yield, direction_yield, param_yield, oneway_yield, result_yield, operation_yield, export_yield, bases_yield};
ghost use Rattle.idl_tree.specs.declared.definitions.Attributes.TheVariants.{Silent};
ghost use Rattle.idl_tree.specs.DefinitionLevels.{attribute_levels, param_levels, operation_levels, export_levels};

use crate::cursor::Cursor;
use crate::read::declarations::{is_declaration, read_declaration};
use crate::read::lists::{Part, add, read_listed, read_rest};
use crate::read::types::read_param_type;
use crate::stop::Stop;
use idl_lexer::Kind;
use idl_tree::definitions::{Attribute, Attributes, Direction, Export, Operation, Param};
use idl_tree::names::{Leaf, Listed, ScopedName};
use idl_tree::types::ParamType;

/// Reads a word and the exceptions behind it, if the word is there.
fn read_raises<'a>(
    cursor: &mut Cursor<'a, '_>,
    word: &str,
) -> Result<Option<Listed<ScopedName<'a>>>, Stop>
    ensures spells { IfOk result (λ r. Continued cursor.old (optional (raises_yield word.now) r) cursor.new) }
    ensures way { IfOk result (λ _. raises_way word.now cursor.old ≡ Some cursor.new) }
    ensures stops { IfErr result (Ends (raises_way word.now cursor.old)) }
{
    if !cursor.take_keyword(word) {
        return Ok(None);
    }
    got!(cursor.mark("("));
    let names = got!(read_listed(cursor, 0));
    got!(cursor.mark(")"));
    Ok(Some(names))
}

/// Takes `readonly`, if it is next.
fn take_readonly(cursor: &mut Cursor<'_, '_>) -> bool
    ensures spells { Continued cursor.old (readonly_yield result) cursor.new }
    ensures seen { result ≡ sees_word (codes "readonly") cursor.old }
    ensures way { readonly_way cursor.old ≡ Some cursor.new }
{
    cursor.take_keyword("readonly")
}

/// Attributes that raise nothing.
fn silent<'a>(is_readonly: bool, first: Leaf<'a>, rest: Vec<Leaf<'a>>) -> Attributes<'a>
    ensures { result ≡ Silent is_readonly (record { first = first.entry; rest = rest.entry }) }
{
    Attributes::Silent {
        is_readonly,
        identifiers: Listed { first, rest },
    }
}

/// Reads what a readonly attribute raises whose identifier stands before.
fn read_readonly<'a>(
    cursor: &mut Cursor<'a, '_>,
    identifier: Leaf<'a>,
) -> Result<Attributes<'a>, Stop>
    ensures spells { IfOk result (λ a. (front : List Seen)
        → Parsed front (identifier_yield identifier.entry) cursor.old → Parsed front (attributes_yield a) cursor.new) }
    ensures kind { IfOk result (λ a. attributes_are_readonly a ≡ true) }
    ensures way { IfOk result (λ _. raises_way (codes "raises") cursor.old ≡ Some cursor.new) }
    ensures stops { IfErr result (Ends (raises_way (codes "raises") cursor.old)) }
{
    match got!(read_raises(cursor, "raises")) {
        Some(raises) => Ok(Attributes::Readonly { identifier, raises }),
        None => Ok(silent(true, identifier, Vec::new(cursor.alloc()))),
    }
}

/// Reads what an attribute raises that can be set, whose identifier stands before.
fn read_settable<'a>(
    cursor: &mut Cursor<'a, '_>,
    identifier: Leaf<'a>,
) -> Result<Attributes<'a>, Stop>
    ensures spells { IfOk result (λ a. (front : List Seen)
        → Parsed front (identifier_yield identifier.entry) cursor.old → Parsed front (attributes_yield a) cursor.new) }
    ensures kind { IfOk result (λ a. attributes_are_readonly a ≡ false) }
    ensures way { IfOk result (λ _. settable_way cursor.old ≡ Some cursor.new) }
    ensures stops { IfErr result (Ends (settable_way cursor.old)) }
{
    let get = got!(read_raises(cursor, "getraises"));
    let set = got!(read_raises(cursor, "setraises"));
    match (get, set) {
        (Some(get), set) => Ok(Attributes::Get {
            identifier,
            get,
            set,
        }),
        (None, Some(set)) => Ok(Attributes::Set { identifier, set }),
        (None, None) => Ok(silent(false, identifier, Vec::new(cursor.alloc()))),
    }
}

/// Reads the identifiers of attributes, and what one that stands alone raises.
fn read_attributes<'a>(
    cursor: &mut Cursor<'a, '_>,
    is_readonly: bool,
) -> Result<Attributes<'a>, Stop>
    ensures spells { IfOk result (λ a. Parsed cursor.old (attributes_yield a) cursor.new) }
    ensures kind { IfOk result (λ a. attributes_are_readonly a ≡ is_readonly) }
    ensures way { IfOk result (λ _. attributes_way is_readonly cursor.old ≡ Some cursor.new) }
    ensures stops { IfErr result (Ends (attributes_way is_readonly cursor.old)) }
{
    let identifier = got!(cursor.identifier());
    if cursor.is_mark(",") {
        let rest = got!(read_rest(cursor, 0));
        return Ok(silent(is_readonly, identifier, rest));
    }
    if is_readonly {
        return read_readonly(cursor, identifier);
    }
    read_settable(cursor, identifier)
}

fn read_attribute<'a>(cursor: &mut Cursor<'a, '_>, room: usize) -> Result<Attribute<'a>, Stop>
    ensures spells { IfOk result (λ a. Parsed cursor.old (attribute_yield a) cursor.new) }
    ensures levels { IfOk result (λ a. attribute_levels a ≤ room) }
    ensures way { IfOk result (λ _. attribute_way room cursor.old ≡ Some cursor.new) }
    ensures stops { IfErr result (Ends (attribute_way room cursor.old)) }
{
    let is_readonly = take_readonly(cursor);
    got!(cursor.keyword("attribute"));
    Ok(Attribute {
        attribute_type: got!(read_param_type(cursor, room)),
        declared: got!(read_attributes(cursor, is_readonly)),
    })
}

fn read_direction(cursor: &mut Cursor<'_, '_>) -> Result<Direction, Stop>
    ensures spells { IfOk result (λ d. Parsed cursor.old (direction_yield d) cursor.new) }
    ensures way { IfOk result (λ _. direction_way cursor.old ≡ Some cursor.new) }
    ensures stops { IfErr result (Ends (direction_way cursor.old)) }
{
    if cursor.take_keyword("inout") {
        return Ok(Direction::InOut);
    }
    if cursor.take_keyword("out") {
        return Ok(Direction::Out);
    }
    got!(cursor.keyword("in"));
    Ok(Direction::In)
}

impl<'a> Part<'a> for Param<'a> {
    ghost use Rattle.idl_tree.specs.DefinitionYields.{param_yield};
    ghost use Rattle.idl_tree.specs.DefinitionLevels.{param_levels};
    ghost use Rattle.idl_tree.specs.DefinitionDescent.{param_way};

    ghost yield_of = { param_yield };

    ghost levels_of = { param_levels };

    ghost way_of = { param_way };

    fn read(cursor: &mut Cursor<'a, '_>, room: usize) -> Result<Self, Stop> {
        Ok(Param {
            direction: got!(read_direction(cursor)),
            param_type: got!(read_param_type(cursor, room)),
            identifier: got!(cursor.identifier()),
        })
    }
}

/// Reads the parameters up to a closing parenthesis, if there are any.
fn read_params<'a>(
    cursor: &mut Cursor<'a, '_>,
    room: usize,
) -> Result<Option<Listed<Param<'a>>>, Stop>
    ensures spells { IfOk result (λ p. Continued cursor.old (optional (listed param_yield) p) cursor.new) }
    ensures levels { IfOk result (λ p. optional_levels (highest_listed param_levels) p ≤ room) }
    ensures way { IfOk result (λ _. params_way room cursor.old ≡ Some cursor.new) }
    ensures stops { IfErr result (Ends (params_way room cursor.old)) }
{
    if cursor.is_mark(")") {
        return Ok(None);
    }
    Ok(Some(got!(read_listed(cursor, room))))
}

/// Takes `oneway`, if it is next.
fn take_oneway(cursor: &mut Cursor<'_, '_>) -> bool
    ensures spells { Continued cursor.old (oneway_yield result) cursor.new }
    ensures way { oneway_way cursor.old ≡ Some cursor.new }
{
    cursor.take_keyword("oneway")
}

/// Reads the type of a result, or `void`.
fn read_result<'a>(cursor: &mut Cursor<'a, '_>, room: usize) -> Result<Option<ParamType<'a>>, Stop>
    ensures spells { IfOk result (λ t. Parsed cursor.old (result_yield t) cursor.new) }
    ensures levels { IfOk result (λ t. optional_levels param_type_levels t ≤ room) }
    ensures way { IfOk result (λ _. result_way room cursor.old ≡ Some cursor.new) }
    ensures stops { IfErr result (Ends (result_way room cursor.old)) }
{
    if cursor.take_keyword("void") {
        return Ok(None);
    }
    Ok(Some(got!(read_param_type(cursor, room))))
}

fn read_operation<'a>(cursor: &mut Cursor<'a, '_>, room: usize) -> Result<Operation<'a>, Stop>
    ensures spells { IfOk result (λ o. Parsed cursor.old (operation_yield o) cursor.new) }
    ensures levels { IfOk result (λ o. operation_levels o ≤ room) }
    ensures way { IfOk result (λ _. operation_way room cursor.old ≡ Some cursor.new) }
    ensures stops { IfErr result (Ends (operation_way room cursor.old)) }
{
    let is_oneway = take_oneway(cursor);
    let result_type = got!(read_result(cursor, room));
    let identifier = got!(cursor.identifier());
    got!(cursor.mark("("));
    let params = got!(read_params(cursor, room));
    got!(cursor.mark(")"));
    Ok(Operation {
        is_oneway,
        result_type,
        identifier,
        params,
        raises: got!(read_raises(cursor, "raises")),
    })
}

/// Adds what stands in an interface. What holds an export goes through this function, so that few functions do.
fn add_export<'a>(exports: &mut Vec<Export<'a>>, export: Export<'a>) -> Result<(), Stop>
    ensures spells { IfOk result (λ _. exports.new.items ≡ exports.old.items ++ export.entry ∷ []) }
    ensures full { IfErr result (λ stop. stop ≡ NoMemory) }
{
    add(exports, export)
}

/// Reads a type, a constant or an exception and adds it.
fn read_declared<'a>(
    cursor: &mut Cursor<'a, '_>,
    room: usize,
    exports: &mut Vec<Export<'a>>,
) -> Result<(), Stop>
    ensures spells { IfOk result (λ _. Added export_yield export_levels room
        exports.old.items exports.new.items cursor.old cursor.new) }
    ensures way { IfOk result (λ _. ended_way (declaration_way room) cursor.old ≡ Some cursor.new) }
    ensures stops { IfErr result (Ends (ended_way (declaration_way room) cursor.old)) }
{
    got!(add_export(
        exports,
        Export::Declaration(got!(read_declaration(cursor, room)))
    ));
    cursor.mark(";")
}

/// Reads an attribute or several and adds it.
fn read_attribute_dcl<'a>(
    cursor: &mut Cursor<'a, '_>,
    room: usize,
    exports: &mut Vec<Export<'a>>,
) -> Result<(), Stop>
    ensures spells { IfOk result (λ _. Added export_yield export_levels room
        exports.old.items exports.new.items cursor.old cursor.new) }
    ensures way { IfOk result (λ _. ended_way (attribute_way room) cursor.old ≡ Some cursor.new) }
    ensures stops { IfErr result (Ends (ended_way (attribute_way room) cursor.old)) }
{
    got!(add_export(
        exports,
        Export::Attribute(got!(read_attribute(cursor, room)))
    ));
    cursor.mark(";")
}

/// Reads an operation and adds it.
fn read_operation_dcl<'a>(
    cursor: &mut Cursor<'a, '_>,
    room: usize,
    exports: &mut Vec<Export<'a>>,
) -> Result<(), Stop>
    ensures spells { IfOk result (λ _. Added export_yield export_levels room
        exports.old.items exports.new.items cursor.old cursor.new) }
    ensures way { IfOk result (λ _. ended_way (operation_way room) cursor.old ≡ Some cursor.new) }
    ensures stops { IfErr result (Ends (ended_way (operation_way room) cursor.old)) }
{
    got!(add_export(
        exports,
        Export::Operation(got!(read_operation(cursor, room)))
    ));
    cursor.mark(";")
}

/// Whether an attribute is next.
fn is_attribute(cursor: &Cursor<'_, '_>) -> bool
    ensures { result ≡ (sees_word (codes "readonly") cursor.now || sees_word (codes "attribute") cursor.now) }
{
    cursor.is_keyword("readonly") || cursor.is_keyword("attribute")
}

/// Reads what stands in an interface, and adds it.
fn read_export<'a>(
    cursor: &mut Cursor<'a, '_>,
    room: usize,
    exports: &mut Vec<Export<'a>>,
) -> Result<(), Stop>
    ensures spells { IfOk result (λ _. Added export_yield export_levels room
        exports.old.items exports.new.items cursor.old cursor.new) }
    ensures way { IfOk result (λ _. export_way room cursor.old ≡ Some cursor.new) }
    ensures stops { IfErr result (Ends (export_way room cursor.old)) }
{
    if cursor.is_kind(Kind::Pragma) {
        let pragma = got!(cursor.leaf(Kind::Pragma));
        return add_export(exports, Export::Pragma(pragma));
    }
    if is_declaration(cursor) {
        return read_declared(cursor, room, exports);
    }
    if is_attribute(cursor) {
        return read_attribute_dcl(cursor, room, exports);
    }
    read_operation_dcl(cursor, room, exports)
}

/// Reads exports between braces.
pub(crate) fn read_exports<'a>(
    cursor: &mut Cursor<'a, '_>,
    room: usize,
) -> Result<Vec<Export<'a>>, Stop>
    ensures spells { IfOk result (λ e. Parsed cursor.old
        (mark (codes "{") ++ flat_map export_yield e.items ++ mark (codes "}")) cursor.new) }
    ensures levels { IfOk result (λ e. highest export_levels e.items ≤ room) }
    ensures way { IfOk result (λ _. exports_way room cursor.old ≡ Some cursor.new) }
    ensures stops { IfErr result (Ends (exports_way room cursor.old)) }
{
    got!(cursor.mark("{"));
    let mut exports = Vec::new(cursor.alloc());
    'parts: while !cursor.is_mark("}") {
        got!(read_export(cursor, room, &mut exports));
    }
    got!(cursor.mark("}"));
    exports.shrink_to_fit();
    Ok(exports)
}

/// Reads the bases of an interface, if it has any.
pub(crate) fn read_bases<'a>(
    cursor: &mut Cursor<'a, '_>,
) -> Result<Option<Listed<ScopedName<'a>>>, Stop>
    ensures spells { IfOk result (λ b. Continued cursor.old (optional bases_yield b) cursor.new) }
    ensures way { IfOk result (λ _. bases_way cursor.old ≡ Some cursor.new) }
    ensures stops { IfErr result (Ends (bases_way cursor.old)) }
{
    if !cursor.take_mark(":") {
        return Ok(None);
    }
    Ok(Some(got!(read_listed(cursor, 0))))
}
