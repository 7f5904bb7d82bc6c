//! Reading a specification step by step.

ghost use Rattle.std.specs.Prelude.{◌≡◌, ◌<◌, ◌≤◌, ◌^◌, [], length, map, IfOk, Some, Ok};
ghost use Rattle.name_table.specs.Entries.{latest};
ghost use Rattle.scoped_names.specs.Faults.{base_added, const_declared, enum_declared, enumerator_declared, feature_declared, nothing_yet, said_read, specification_read, step_read, steps_read, test_of, type_kind, typedef_declared};
ghost use Rattle.scoped_names.specs.IdPragmas.{Gives as GivesTo, said_by};
ghost use Rattle.scoped_names.specs.inner.IdsKept.{given_of};
ghost use Rattle.scoped_names.specs.Meanings.{const_end};
ghost use Rattle.scoped_names.specs.Reading.{Checks, Keeps, Tells};
ghost use Rattle.scoped_names.specs.inner.Rising.{Follows, Rises};
ghost use Rattle.name_steps.specs.Steps.{definition_steps, module_body, steps_of};
ghost use Rattle.name_steps.specs.StepsKept.{flat_steps, step_of, steps_in};
ghost use Rattle.scoped_names.specs.Tests.{is_exception, is_type, raised_test, type_name_test};
ghost use Rattle.idl_tree.specs.Starts.{name_start};

use crate::evaluation::{found_at, resolve, size, value, value_of_kind};
use crate::fault::NameFault;
use crate::kinds::{const_type_kind, simple_type_kind};
use crate::reader::Reader;
use crate::repository_ids::PragmaId;
use idl_lexer::{Kind, Pragma};
use idl_tree::definitions::{Const, Definition, Module};
use idl_tree::kinds::EntryKind;
use idl_tree::names::{Leaf, ScopedName};
use idl_tree::spec::Spec;
use idl_tree::types::{Declarator, TypeSpec};
use name_steps::{Step, Steps};
use name_table::const_values::{ConstKind, Constant};
use name_table::{Base, Meaning, Scope};
use std::alloc::{AllocError, Global};

/// What may stand for a type.
fn is_type(kind: EntryKind) -> bool
    ensures { result ≡ is_type kind }
{
    match kind {
        EntryKind::Interface
        | EntryKind::Struct
        | EntryKind::Union
        | EntryKind::Enum
        | EntryKind::Typedef => true,
        _ => false,
    }
}

fn is_exception(kind: EntryKind) -> bool
    ensures { result ≡ is_exception kind }
{
    match kind {
        EntryKind::Exception => true,
        _ => false,
    }
}

impl<'a> Reader<'a> {
    fn declare_enum(&mut self, alloc: Global, identifier: Leaf<'a>) -> Result<(), NameFault>
        requires { latest self.old.entries ≤ identifier.number }
        ensures told { Tells result self.new (enum_declared self.old identifier.entry) }
        ensures kept { Keeps result self.old self.new }
    {
        let number = self.table().len();
        let meaning = Meaning {
            token: identifier.number,
            kind: EntryKind::Enum,
            worth: None,
            stands_for: Some(ConstKind::Enum(number)),
        };
        got!(self.declare_as(alloc, identifier, meaning));
        self.enumeration = number;
        Ok(())
    }

    fn declare_enumerator(&mut self, alloc: Global, identifier: Leaf<'a>) -> Result<(), NameFault>
        requires { latest self.old.entries ≤ identifier.number }
        ensures told { Tells result self.new (enumerator_declared self.old identifier.entry) }
        ensures kept { Keeps result self.old self.new }
    {
        let meaning = Meaning {
            token: identifier.number,
            kind: EntryKind::Enumerator,
            worth: Some(Constant::Enumerator {
                enumerator: self.table().len(),
                owner: self.enumeration,
            }),
            stands_for: None,
        };
        self.declare_as(alloc, identifier, meaning)
    }

    /// The type of constants that a type is in the end that was read, if it is one.
    fn type_kind(&self, alloc: Global, t: &TypeSpec<'a>) -> Result<Option<ConstKind>, AllocError>
        ensures { IfOk result (λ kind. kind ≡ type_kind self.now t.now) }
    {
        match t {
            TypeSpec::Simple(simple) => simple_type_kind(self.table(), alloc, self.scope(), simple),
            TypeSpec::Struct(_) | TypeSpec::Union(_) => Ok(None),
            TypeSpec::Enum(_) => Ok(Some(ConstKind::Enum(self.enumeration))),
        }
    }

    fn declare_typedef(
        &mut self,
        alloc: Global,
        original: &TypeSpec<'a>,
        declarator: &Declarator<'a>,
    ) -> Result<(), NameFault>
        requires { latest self.old.entries ≤ declarator.now.identifier.number }
        ensures told { Tells result self.new (typedef_declared self.old original.now declarator.now) }
        ensures kept { Keeps result self.old self.new }
    {
        let kind = room!(self.type_kind(alloc, original));
        let is_array = declarator.sizes.len() > 0;
        let meaning = Meaning {
            token: declarator.identifier.number,
            kind: EntryKind::Typedef,
            worth: None,
            stands_for: if is_array { None } else { kind },
        };
        self.declare_as(alloc, declarator.identifier, meaning)
    }

    /// A constant, which is found from its end on.
    fn declare_const(&mut self, alloc: Global, c: &Const<'a>) -> Result<(), NameFault>
        requires late { latest self.old.entries ≤ c.now.identifier.number }
        requires small { const_end c.now < 2 ^ 64 }
        ensures told { Tells result self.new (const_declared self.old c.now) }
        ensures kept { Keeps result self.old self.new }
    {
        let kind = room!(const_type_kind(self.table(), alloc, self.scope(), &c.const_type));
        let worth = got!(value_of_kind(self.table(), alloc, self.scope(), kind, &c.value.expr));
        let meaning = Meaning {
            token: c.identifier.number + 2 + c.value.expr.token_count(),
            kind: EntryKind::Const,
            worth: Some(worth),
            stands_for: None,
        };
        self.declare_as(alloc, c.identifier, meaning)
    }

    /// An operation or attribute, which may not repeat an inherited one.
    fn declare_feature(
        &mut self,
        alloc: Global,
        identifier: Leaf<'a>,
        kind: EntryKind,
    ) -> Result<(), NameFault>
        requires { latest self.old.entries ≤ identifier.number }
        ensures told { Tells result self.new (feature_declared kind self.old identifier.entry) }
        ensures kept { Keeps result self.old self.new }
    {
        got!(self.inherits_none(identifier));
        self.declare(alloc, identifier, kind)
    }

    /// A base of the interface that has the scope.
    fn read_base(
        &mut self,
        alloc: Global,
        inner: Scope,
        name: &ScopedName<'a>,
    ) -> Result<(), NameFault>
        requires inner { inner.0 ≤ length self.old.entries }
        requires late { latest self.old.entries < (name_start name.now).number }
        ensures told { Tells result self.new (base_added self.old inner.0 name.now) }
        ensures kept { Keeps result self.old self.new }
    {
        let entry = got!(resolve(self.table(), self.scope(), name));
        let start = name.start();
        let base = Base {
            token: start.number,
            entry,
        };
        self.add_base(alloc, inner, base, start.at())
    }

    /// That a name is one of a type.
    fn names_type(&self, name: &ScopedName<'a>) -> Result<(), NameFault>
        ensures { Checks result (type_name_test self.now.entries self.now.scope name.now) }
    {
        let entry = got!(resolve(self.table(), self.scope(), name));
        let kind = self.table().kind(entry);
        if is_type(kind) {
            return Ok(());
        }
        Err(NameFault::NotAType {
            at: name.start().at(),
            found: Some(kind),
        })
    }

    /// That a name is one of an exception.
    fn names_exception(&self, name: &ScopedName<'a>) -> Result<(), NameFault>
        ensures { Checks result (raised_test self.now.entries self.now.scope name.now) }
    {
        let entry = got!(resolve(self.table(), self.scope(), name));
        let kind = self.table().kind(entry);
        if is_exception(kind) {
            return Ok(());
        }
        Err(NameFault::NotAType {
            at: name.start().at(),
            found: Some(kind),
        })
    }

    /// Gives an id or a version to what a name finds in the pragma of the leaf.
    fn give_name(
        &mut self,
        leaf: &Leaf<'a>,
        name: &'a str,
        given: PragmaId<'a>,
    ) -> Result<(), NameFault>
        ensures told { Tells result self.new
            (said_read self.old leaf.now (Some (GivesTo name.entry.now (given_of given.entry)))) }
        ensures kept { Keeps result self.old self.new }
    {
        let at = leaf.at();
        let seen = self.table().look_for_words(leaf.number, self.scope(), name);
        let entry = found_at(self.table(), at, seen)?;
        self.ids.give(entry, given, at)
    }

    /// A pragma. A prefix is set in the file's scope alone.
    fn read_pragma(&mut self, leaf: &Leaf<'a>) -> Result<(), NameFault>
        ensures told { Tells result self.new (said_read self.old leaf.now (said_by leaf.now)) }
        ensures kept { Keeps result self.old self.new }
    {
        match leaf.token.kind {
            Kind::Pragma => match leaf.pragma() {
                Pragma::Prefix { text } => self.set_prefix(text, leaf.at()),
                Pragma::Id { name, text } => self.give_name(leaf, name, PragmaId::Whole(text)),
                Pragma::Version { name, number } => {
                    self.give_name(leaf, name, PragmaId::Version(number))
                }
            },
            _ => Ok(()),
        }
    }

    /// A step that asks something of what is known.
    fn read_test(&self, alloc: Global, step: &Step<'a, '_>) -> Result<(), NameFault>
        ensures { Checks result (test_of self.now (step_of step.now)) }
    {
        let (table, scope) = (self.table(), self.scope());
        match *step {
            Step::IsNew(identifier) => self.is_new(identifier),
            Step::IsUndefined(identifier) => {
                self.is_undefined(self.scope_of(identifier), identifier)
            }
            Step::NamesType(name) => self.names_type(name),
            Step::NamesException(name) => self.names_exception(name),
            Step::HasWorth(expr) => {
                got!(value(table, alloc, scope, expr));
                Ok(())
            }
            Step::IsSize(expr) => {
                got!(size(table, alloc, scope, expr));
                Ok(())
            }
            _ => Ok(()),
        }
    }

    /// One step.
    pub(crate) fn read_step(&mut self, alloc: Global, step: &Step<'a, '_>) -> Result<(), NameFault>
        requires { Follows (latest self.old.entries) (step_of step.now) }
        ensures told { Tells result self.new (step_read self.old (step_of step.now)) }
        ensures kept { Keeps result self.old self.new }
    {
        match *step {
            Step::Declares(kind, identifier) => self.declare(alloc, identifier, kind),
            Step::DeclaresEnum(identifier) => self.declare_enum(alloc, identifier),
            Step::DeclaresEnumerator(identifier) => self.declare_enumerator(alloc, identifier),
            Step::DeclaresTypedef(original, d) => self.declare_typedef(alloc, original, d),
            Step::DeclaresConst(c) => self.declare_const(alloc, c),
            Step::DeclaresFeature(kind, id) => self.declare_feature(alloc, id, kind),
            Step::HasMember(identifier) => self.add_member(identifier),
            Step::HasBase(identifier, name) => {
                let inner = self.scope_of(identifier);
                self.read_base(alloc, inner, name)
            }
            Step::Defines(identifier) => self.define(identifier),
            Step::Says(leaf) => self.read_pragma(&leaf),
            Step::Enters(identifier) => {
                self.enter(identifier);
                Ok(())
            }
            Step::Leaves => {
                self.leave();
                Ok(())
            }
            _ => self.read_test(alloc, step),
        }
    }

    /// Steps one behind another.
    pub fn read_steps(&mut self, alloc: Global, steps: &[Step<'a, '_>]) -> Result<(), NameFault>
        requires { Rises (latest self.old.entries) (map step_of steps.now) }
        ensures { Tells result self.new (steps_read self.old (map step_of steps.now)) }
    {
        for step in steps {
            self.read_step(alloc, step)?;
        }
        Ok(())
    }

    /// A definition but for a module, of which nothing is read, where its steps are listed.
    fn read_listed<'t>(
        &mut self,
        alloc: Global,
        steps: &mut Steps<'a, 't>,
        d: &'t Definition<'a>,
    ) -> Result<(), NameFault>
        requires none { steps_in steps.old ≡ [] }
        requires rises { Rises (latest self.old.entries) (flat_steps d.now) }
        ensures { Tells result self.new (steps_read self.old (flat_steps d.now)) }
    {
        steps.add_flat(d)?;
        self.read_steps(alloc, steps.as_slice())
    }

    /// The same.
    fn read_flat(&mut self, alloc: Global, d: &Definition<'a>) -> Result<(), NameFault>
        requires { Rises (latest self.old.entries) (flat_steps d.now) }
        ensures { Tells result self.new (steps_read self.old (flat_steps d.now)) }
    {
        let mut steps = Steps::new(alloc);
        self.read_listed(alloc, &mut steps, d)
    }

    #[cycle(definitions)]
    fn read_module(&mut self, alloc: Global, m: &Module<'a>) -> Result<(), NameFault>
        requires { Rises (latest self.old.entries) (module_body m.now.identifier (steps_of m.now.definitions.items)) }
        ensures { Tells result self.new
            (steps_read self.old (module_body m.now.identifier (steps_of m.now.definitions.items))) }
    {
        self.declare(alloc, m.identifier, EntryKind::Module)?;
        self.enter(m.identifier);
        self.read_definitions(alloc, m.definitions.as_slice())?;
        self.leave();
        Ok(())
    }

    #[cycle(definitions)]
    fn read_definition(&mut self, alloc: Global, d: &Definition<'a>) -> Result<(), NameFault>
        requires { Rises (latest self.old.entries) (definition_steps d.now) }
        ensures { Tells result self.new (steps_read self.old (definition_steps d.now)) }
    {
        match d {
            Definition::Module(m) => self.read_module(alloc, m),
            Definition::Pragma(_) | Definition::Declaration(_) | Definition::Interface(_) => {
                self.read_flat(alloc, d)
            }
        }
    }

    /// A whole specification, before which nothing was read.
    pub fn read_whole(&mut self, alloc: Global, spec: &Spec<'a>) -> Result<(), NameFault>
        requires { self.old ≡ nothing_yet }
        ensures { Tells result self.new (specification_read spec.now.definitions.items) }
    {
        self.read_definitions(alloc, spec.definitions.as_slice())?;
        self.all_defined()
    }

    /// Definitions one behind another.
    #[cycle(definitions)]
    fn read_definitions(
        &mut self,
        alloc: Global,
        definitions: &[Definition<'a>],
    ) -> Result<(), NameFault>
        requires { Rises (latest self.old.entries) (steps_of definitions.now) }
        ensures { Tells result self.new (steps_read self.old (steps_of definitions.now)) }
    {
        for definition in definitions {
            self.read_definition(alloc, definition)?;
        }
        Ok(())
    }
}
