//! Definitions and modules.
#![tactic(auto, using(crate::proofs::Reading::past_append, crate::proofs::Reading::past_none))]

ghost use Rattle.std.specs.Prelude.{◌≡◌, ◌++◌, ◌≤◌, ◌∷◌, [], suc, max, Ok, IfErr, IfOk, List, codes, Some};
ghost use Rattle.std.specs.List.{flat_map};
ghost use Rattle.idl_tree.specs.Descent.{taken_kind};
ghost use Rattle.idl_tree.specs.DefinitionDescent.{declaration_way, definition_way, definitions_way, ended_way, goes_on, interface_way, single_way};
ghost use Rattle.definition_reader.specs.inner.Following.{Ends};
ghost use Rattle.definition_reader.specs.declared.stop.Stop.TheVariants.{NoMemory};
ghost use Rattle.idl_lexer.specs.declared.token.Kind.TheVariants.{Pragma};
ghost use Rattle.definition_reader.specs.inner.Reading.{Parsed, Continued, Added};
ghost use Rattle.definition_reader.specs.inner.Makings.{HasModule};
ghost use Rattle.idl_tree.specs.declared.definitions.Definition.{Interface as Interfaces};
ghost use Rattle.idl_tree.specs.Pieces.{keyword, mark};
ghost use Rattle.idl_tree.specs.Yields.{identifier};
ghost use Rattle.idl_tree.specs.DefinitionYields.{definition_yield};
ghost use Rattle.idl_tree.specs.Levels.{highest};
ghost use Rattle.idl_tree.specs.DefinitionLevels.{definition_levels};

use crate::cursor::Cursor;
use crate::read::declarations::{is_declaration, read_declaration};
use crate::read::interfaces::{read_bases, read_exports};
use crate::read::lists::{add, read_named, read_opened};
use crate::stop::Stop;
use idl_lexer::Kind;
use idl_tree::definitions::{Definition, Interface, Module};
use idl_tree::names::Leaf;

/// Adds a definition. What holds one goes through this function, so that few functions do.
fn add_definition<'a>(
    definitions: &mut Vec<Definition<'a>>,
    definition: Definition<'a>,
) -> Result<(), Stop>
    ensures spells { IfOk result (λ _. definitions.new.items ≡ definitions.old.items ++ definition.entry ∷ []) }
    ensures full { IfErr result (λ stop. stop ≡ NoMemory) }
{
    add(definitions, definition)
}

/// Adds an interface.
fn add_interface<'a>(
    definitions: &mut Vec<Definition<'a>>,
    interface: Interface<'a>,
) -> Result<(), Stop>
    ensures spells { IfOk result (λ _. definitions.new.items
        ≡ definitions.old.items ++ Interfaces interface.entry ∷ []) }
    ensures full { IfErr result (λ stop. stop ≡ NoMemory) }
{
    add_definition(definitions, Definition::Interface(interface))
}

/// Reads a pragma and adds it.
fn read_pragma<'a>(
    cursor: &mut Cursor<'a, '_>,
    room: usize,
    definitions: &mut Vec<Definition<'a>>,
) -> Result<(), Stop>
    ensures spells { IfOk result (λ _. Added definition_yield definition_levels room
        definitions.old.items definitions.new.items cursor.old cursor.new) }
    ensures way { IfOk result (λ _. taken_kind Pragma cursor.old ≡ Some cursor.new) }
    ensures stops { IfErr result (Ends (taken_kind Pragma cursor.old)) }
{
    let pragma = got!(cursor.leaf(Kind::Pragma));
    add_definition(definitions, Definition::Pragma(pragma))
}

/// Reads an interface, or one that is declared ahead, which a semicolon tells, and adds it.
fn read_interface<'a>(
    cursor: &mut Cursor<'a, '_>,
    room: usize,
    definitions: &mut Vec<Definition<'a>>,
) -> Result<(), Stop>
    ensures spells { IfOk result (λ _. Added definition_yield definition_levels room
        definitions.old.items definitions.new.items cursor.old cursor.new) }
    ensures way { IfOk result (λ _. interface_way room cursor.old ≡ Some cursor.new) }
    ensures stops { IfErr result (Ends (interface_way room cursor.old)) }
{
    let identifier = got!(read_named(cursor, "interface"));
    if cursor.is_mark(";") {
        got!(add_interface(definitions, Interface::Ahead(identifier)));
        return cursor.mark(";");
    }
    let interface = Interface::Defined {
        identifier,
        bases: got!(read_bases(cursor)),
        exports: got!(read_exports(cursor, room)),
    };
    got!(add_interface(definitions, interface));
    cursor.mark(";")
}

/// Reads a type, a constant or an exception and adds it.
fn read_declared<'a>(
    cursor: &mut Cursor<'a, '_>,
    room: usize,
    definitions: &mut Vec<Definition<'a>>,
) -> Result<(), Stop>
    ensures spells { IfOk result (λ _. Added definition_yield definition_levels room
        definitions.old.items definitions.new.items cursor.old cursor.new) }
    ensures way { IfOk result (λ _. ended_way (declaration_way room) cursor.old ≡ Some cursor.new) }
    ensures stops { IfErr result (Ends (ended_way (declaration_way room) cursor.old)) }
{
    got!(add_definition(
        definitions,
        Definition::Declaration(got!(read_declaration(cursor, room)))
    ));
    cursor.mark(";")
}

/// Reads a pragma, or a definition that holds no others, and adds it.
fn read_single<'a>(
    cursor: &mut Cursor<'a, '_>,
    room: usize,
    definitions: &mut Vec<Definition<'a>>,
) -> Result<(), Stop>
    ensures spells { IfOk result (λ _. Added definition_yield definition_levels room
        definitions.old.items definitions.new.items cursor.old cursor.new) }
    ensures way { IfOk result (λ _. single_way room cursor.old ≡ Some cursor.new) }
    ensures stops { IfErr result (Ends (single_way room cursor.old)) }
{
    if cursor.is_kind(Kind::Pragma) {
        return read_pragma(cursor, room, definitions);
    }
    if cursor.is_keyword("interface") {
        return read_interface(cursor, room, definitions);
    }
    if is_declaration(cursor) {
        return read_declared(cursor, room, definitions);
    }
    Err(Stop::Unexpected)
}

/// Adds the module of a name and definitions.
fn add_module<'a>(
    definitions: &mut Vec<Definition<'a>>,
    name: Leaf<'a>,
    inside: Vec<Definition<'a>>,
) -> Result<(), Stop>
    ensures spells { IfOk result (λ _. HasModule name.entry inside.entry.items
        definitions.old.items definitions.new.items) }
    ensures full { IfErr result (λ stop. stop ≡ NoMemory) }
{
    add_definition(
        definitions,
        Definition::Module(Module {
            identifier: name,
            definitions: inside,
        }),
    )
}

/// Reads a definition and adds it.
#[cycle(definitions)]
fn read_definition<'a>(
    cursor: &mut Cursor<'a, '_>,
    room: usize,
    definitions: &mut Vec<Definition<'a>>,
) -> Result<(), Stop>
    ensures spells { IfOk result (λ _. Added definition_yield definition_levels room
        definitions.old.items definitions.new.items cursor.old cursor.new) }
    ensures way { IfOk result (λ _. definition_way room cursor.old ≡ Some cursor.new) }
    ensures stops { IfErr result (Ends (definition_way room cursor.old)) }
{
    if !cursor.is_keyword("module") {
        return read_single(cursor, room, definitions);
    }
    let (name, left) = got!(read_opened(cursor, "module", room));
    let inside = got!(read_definitions(cursor, left));
    got!(add_module(definitions, name, inside));
    got!(cursor.mark("}"));
    cursor.mark(";")
}

/// Whether something stands before a closing brace and the end.
fn goes_on(cursor: &Cursor<'_, '_>) -> bool
    ensures { result ≡ goes_on cursor.now }
{
    !cursor.is_at_end() && !cursor.is_mark("}")
}

/// Reads definitions up to a closing brace or the end.
#[cycle(definitions)]
pub(crate) fn read_definitions<'a>(
    cursor: &mut Cursor<'a, '_>,
    room: usize,
) -> Result<Vec<Definition<'a>>, Stop>
    ensures spells { IfOk result (λ d. Continued cursor.old (flat_map definition_yield d.items) cursor.new) }
    ensures levels { IfOk result (λ d. highest definition_levels d.items ≤ room) }
    ensures way { IfOk result (λ _. definitions_way room cursor.old ≡ Some cursor.new) }
    ensures stops { IfErr result (Ends (definitions_way room cursor.old)) }
{
    let mut definitions = Vec::new(cursor.alloc());
    'parts: while goes_on(cursor) {
        got!(read_definition(cursor, room, &mut definitions));
    }
    definitions.shrink_to_fit();
    Ok(definitions)
}
