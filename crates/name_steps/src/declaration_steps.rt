//! The steps of declarations, operations, interfaces and modules.

ghost use Rattle.std.specs.Prelude.{◌≡◌, ◌++◌, ◌∷◌, [], map, OnOk};
ghost use Rattle.std.specs.List.{flat_map};
ghost use Rattle.idl_tree.specs.Lists.{parts};
ghost use Rattle.name_steps.specs.StepsKept.{flat_steps, steps_in};
ghost use Rattle.name_steps.specs.Steps.{attribute_steps, attributes_steps, const_steps, declaration_steps, except_steps, export_steps, interface_steps, operation_steps, optional_parts, param_steps, raises_steps, result_steps, type_dcl_steps, typedef_steps, Declares as DeclaresStep, DeclaresFeature as FeatureStep, IsUndefined as UndefinedStep, HasBase as BaseStep, Enters as EntersStep, Defines as DefinesStep, Leaves as LeavesStep};

use crate::step::{LeafStep, NameStep, Steps};
use idl_tree::definitions::{
    Attribute, Attributes, Const, Declaration, Definition, Except, Export, Interface, Operation,
    Param, TypeDcl,
};
use idl_tree::kinds::EntryKind;
use idl_tree::names::{Leaf, Listed, ScopedName};
use idl_tree::types::{Declarator, ParamType, TypeSpec};
use std::alloc::AllocError;

impl<'a, 't> Steps<'a, 't> {
    fn add_typedef(
        &mut self,
        original: &'t TypeSpec<'a>,
        declarator: &'t Declarator<'a>,
    ) -> Result<(), AllocError>
        ensures { OnOk result (steps_in self.new ≡ steps_in self.old ++ typedef_steps original.now declarator.now) }
    {
        done!(self.declares_typedef(original, declarator));
        self.add_sizes(declarator.sizes.as_slice())
    }

    fn add_typedefs(
        &mut self,
        original: &'t TypeSpec<'a>,
        declarators: &'t Listed<Declarator<'a>>,
    ) -> Result<(), AllocError>
        ensures { OnOk result (steps_in self.new ≡
            steps_in self.old ++ flat_map (typedef_steps original.now) (parts declarators.now)) }
    {
        done!(self.add_typedef(original, &declarators.first));
        let rest = declarators.rest.as_slice();
        for declarator in rest {
            done!(self.add_typedef(original, declarator));
        }
        Ok(())
    }

    fn add_type_dcl(&mut self, t: &'t TypeDcl<'a>) -> Result<(), AllocError>
        ensures { OnOk result (steps_in self.new ≡ steps_in self.old ++ type_dcl_steps t.now) }
    {
        match t {
            TypeDcl::Typedef {
                original,
                declarators,
            } => {
                done!(self.add_type(original));
                self.add_typedefs(original, declarators)
            }
            TypeDcl::Struct(s) => self.add_struct(s),
            TypeDcl::Union(u) => self.add_union(u),
            TypeDcl::Enum(e) => self.add_enum(e),
            TypeDcl::StructAhead(id) => self.asks(LeafStep::Declares(EntryKind::Struct), *id),
            TypeDcl::UnionAhead(id) => self.asks(LeafStep::Declares(EntryKind::Union), *id),
        }
    }

    fn add_const(&mut self, c: &'t Const<'a>) -> Result<(), AllocError>
        ensures { OnOk result (steps_in self.new ≡ steps_in self.old ++ const_steps c.now) }
    {
        done!(self.add_const_type(&c.const_type));
        done!(self.asks(LeafStep::IsNew, c.identifier));
        self.declares_const(c)
    }

    fn add_except(&mut self, e: &'t Except<'a>) -> Result<(), AllocError>
        ensures { OnOk result (steps_in self.new ≡ steps_in self.old ++ except_steps e.now) }
    {
        done!(self.asks(LeafStep::Declares(EntryKind::Exception), e.identifier));
        done!(self.asks(LeafStep::Enters, e.identifier));
        done!(self.add_members(e.members.as_slice()));
        self.leaves()
    }

    fn add_declaration(&mut self, d: &'t Declaration<'a>) -> Result<(), AllocError>
        ensures { OnOk result (steps_in self.new ≡ steps_in self.old ++ declaration_steps d.now) }
    {
        match d {
            Declaration::TypeDcl(t) => self.add_type_dcl(t),
            Declaration::Const(c) => self.add_const(c),
            Declaration::Except(e) => self.add_except(e),
        }
    }

    fn add_raises(&mut self, names: &'t Listed<ScopedName<'a>>) -> Result<(), AllocError>
        ensures { OnOk result (steps_in self.new ≡ steps_in self.old ++ raises_steps (parts names.now)) }
    {
        done!(self.asks_of_name(NameStep::IsException, &names.first));
        let rest = names.rest.as_slice();
        for name in rest {
            done!(self.asks_of_name(NameStep::IsException, name));
        }
        Ok(())
    }

    fn add_optional_raises(
        &mut self,
        names: &'t Option<Listed<ScopedName<'a>>>,
    ) -> Result<(), AllocError>
        ensures { OnOk result (steps_in self.new ≡ steps_in self.old ++ raises_steps (optional_parts names.now)) }
    {
        match names {
            Some(names) => self.add_raises(names),
            None => Ok(()),
        }
    }

    /// Attributes that raise nothing.
    fn add_silent(&mut self, identifiers: &'t Listed<Leaf<'a>>) -> Result<(), AllocError>
        ensures { OnOk result (steps_in self.new ≡
            steps_in self.old ++ map (FeatureStep EntryKind.Attribute) (parts identifiers.now)) }
    {
        done!(self.asks(
            LeafStep::DeclaresFeature(EntryKind::Attribute),
            identifiers.first
        ));
        let rest = identifiers.rest.as_slice();
        for identifier in rest {
            done!(self.asks(LeafStep::DeclaresFeature(EntryKind::Attribute), *identifier));
        }
        Ok(())
    }

    fn add_attributes(&mut self, attributes: &'t Attributes<'a>) -> Result<(), AllocError>
        ensures { OnOk result (steps_in self.new ≡ steps_in self.old ++ attributes_steps attributes.now) }
    {
        match attributes {
            Attributes::Silent { identifiers, .. } => self.add_silent(identifiers),
            Attributes::Readonly {
                identifier,
                raises: names,
            }
            | Attributes::Set {
                identifier,
                set: names,
            } => {
                done!(self.asks(LeafStep::DeclaresFeature(EntryKind::Attribute), *identifier));
                self.add_raises(names)
            }
            Attributes::Get {
                identifier,
                get,
                set,
            } => {
                done!(self.asks(LeafStep::DeclaresFeature(EntryKind::Attribute), *identifier));
                done!(self.add_raises(get));
                self.add_optional_raises(set)
            }
        }
    }

    fn add_attribute(&mut self, a: &'t Attribute<'a>) -> Result<(), AllocError>
        ensures { OnOk result (steps_in self.new ≡ steps_in self.old ++ attribute_steps a.now) }
    {
        done!(self.add_param_type(&a.attribute_type));
        self.add_attributes(&a.declared)
    }

    /// A parameter of the operation that has the identifier.
    fn add_param(&mut self, identifier: Leaf<'a>, param: &'t Param<'a>) -> Result<(), AllocError>
        ensures { OnOk result (steps_in self.new ≡ steps_in self.old ++ param_steps identifier.entry param.now) }
    {
        done!(self.add_param_type(&param.param_type));
        done!(self.asks(LeafStep::Enters, identifier));
        done!(self.asks(LeafStep::HasMember, param.identifier));
        self.leaves()
    }

    fn add_params(
        &mut self,
        identifier: Leaf<'a>,
        params: &'t Option<Listed<Param<'a>>>,
    ) -> Result<(), AllocError>
        ensures { OnOk result (steps_in self.new ≡
            steps_in self.old ++ flat_map (param_steps identifier.entry) (optional_parts params.now)) }
    {
        let Some(params) = params else {
            return Ok(());
        };
        done!(self.add_param(identifier, &params.first));
        let rest = params.rest.as_slice();
        for param in rest {
            done!(self.add_param(identifier, param));
        }
        Ok(())
    }

    fn add_result(&mut self, t: &'t Option<ParamType<'a>>) -> Result<(), AllocError>
        ensures { OnOk result (steps_in self.new ≡ steps_in self.old ++ result_steps t.now) }
    {
        match t {
            Some(t) => self.add_param_type(t),
            None => Ok(()),
        }
    }

    fn add_operation(&mut self, o: &'t Operation<'a>) -> Result<(), AllocError>
        ensures { OnOk result (steps_in self.new ≡ steps_in self.old ++ operation_steps o.now) }
    {
        done!(self.add_result(&o.result_type));
        done!(self.asks(
            LeafStep::DeclaresFeature(EntryKind::Operation),
            o.identifier,
        ));
        done!(self.add_params(o.identifier, &o.params));
        self.add_optional_raises(&o.raises)
    }

    fn add_export(&mut self, export: &'t Export<'a>) -> Result<(), AllocError>
        ensures { OnOk result (steps_in self.new ≡ steps_in self.old ++ export_steps export.now) }
    {
        match export {
            Export::Pragma(leaf) => self.asks(LeafStep::Says, *leaf),
            Export::Declaration(d) => self.add_declaration(d),
            Export::Attribute(a) => self.add_attribute(a),
            Export::Operation(o) => self.add_operation(o),
        }
    }

    /// The bases of the interface that has the identifier.
    fn add_bases(
        &mut self,
        identifier: Leaf<'a>,
        names: &'t Option<Listed<ScopedName<'a>>>,
    ) -> Result<(), AllocError>
        ensures { OnOk result (steps_in self.new ≡
            steps_in self.old ++ map (BaseStep identifier.entry) (optional_parts names.now)) }
    {
        let Some(names) = names else {
            return Ok(());
        };
        done!(self.has_base(identifier, &names.first));
        let rest = names.rest.as_slice();
        for name in rest {
            done!(self.has_base(identifier, name));
        }
        Ok(())
    }

    fn add_exports(&mut self, exports: &'t [Export<'a>]) -> Result<(), AllocError>
        ensures { OnOk result (steps_in self.new ≡ steps_in self.old ++ flat_map export_steps exports.now) }
    {
        for export in exports {
            done!(self.add_export(export));
        }
        Ok(())
    }

    /// What stands before the body of an interface.
    fn add_head(
        &mut self,
        identifier: Leaf<'a>,
        bases: &'t Option<Listed<ScopedName<'a>>>,
    ) -> Result<(), AllocError>
        ensures { OnOk result (steps_in self.new ≡
            steps_in self.old ++ DeclaresStep EntryKind.Interface identifier.entry
            ∷ UndefinedStep identifier.entry ∷ map (BaseStep identifier.entry) (optional_parts bases.now)) }
    {
        done!(self.asks(LeafStep::Declares(EntryKind::Interface), identifier));
        done!(self.asks(LeafStep::IsUndefined, identifier));
        self.add_bases(identifier, bases)
    }

    /// The body of an interface.
    fn add_body(
        &mut self,
        identifier: Leaf<'a>,
        exports: &'t [Export<'a>],
    ) -> Result<(), AllocError>
        ensures { OnOk result (steps_in self.new ≡ steps_in self.old ++ EntersStep identifier.entry
            ∷ DefinesStep identifier.entry ∷ flat_map export_steps exports.now ++ LeavesStep ∷ []) }
    {
        done!(self.asks(LeafStep::Enters, identifier));
        done!(self.asks(LeafStep::Defines, identifier));
        done!(self.add_exports(exports));
        self.leaves()
    }

    fn add_interface(&mut self, i: &'t Interface<'a>) -> Result<(), AllocError>
        ensures { OnOk result (steps_in self.new ≡ steps_in self.old ++ interface_steps i.now) }
    {
        match i {
            Interface::Ahead(id) => self.asks(LeafStep::Declares(EntryKind::Interface), *id),
            Interface::Defined {
                identifier,
                bases,
                exports,
            } => {
                done!(self.add_head(*identifier, bases));
                self.add_body(*identifier, exports.as_slice())
            }
        }
    }

    /// A definition but for a module, of which nothing is added.
    pub fn add_flat(&mut self, d: &'t Definition<'a>) -> Result<(), AllocError>
        ensures { OnOk result (steps_in self.new ≡ steps_in self.old ++ flat_steps d.now) }
    {
        match d {
            Definition::Pragma(leaf) => self.asks(LeafStep::Says, *leaf),
            Definition::Declaration(d) => self.add_declaration(d),
            Definition::Interface(i) => self.add_interface(i),
            Definition::Module(_) => Ok(()),
        }
    }
}
