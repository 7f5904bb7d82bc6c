//! The steps of types.

ghost use Rattle.std.specs.Prelude.{◌≡◌, ◌++◌, map, OnOk};
ghost use Rattle.std.specs.List.{flat_map};
ghost use Rattle.idl_tree.specs.Lists.{parts};
ghost use Rattle.name_steps.specs.StepsKept.{steps_in};
ghost use Rattle.name_steps.specs.Steps.{bound_steps, case_steps, const_type_steps, declarator_steps, enum_steps, label_steps, member_steps, opening, param_type_steps, simple_type_steps, size_step, struct_steps, switch_steps, type_steps, union_steps, DeclaresEnumerator as EnumeratorStep};

use crate::step::{ExprStep, LeafStep, NameStep, Steps};
use idl_tree::const_expr::{Bound, ConstExpr};
use idl_tree::kinds::EntryKind;
use idl_tree::names::{Leaf, Listed};
use idl_tree::types::{
    Case, ConstType, Declarator, EnumType, Label, Member, ParamType, SimpleType, StructType,
    SwitchType, TypeSpec, UnionType,
};
use std::alloc::AllocError;

impl<'a, 't> Steps<'a, 't> {
    fn add_bound(&mut self, bound: &'t Option<Bound<'a>>) -> Result<(), AllocError>
        ensures { OnOk result (steps_in self.new ≡ steps_in self.old ++ bound_steps bound.now) }
    {
        match bound {
            Some(bound) => self.asks_of_expr(ExprStep::IsSize, &bound.expr),
            None => Ok(()),
        }
    }

    /// The type of a constant.
    pub(crate) fn add_const_type(&mut self, t: &'t ConstType<'a>) -> Result<(), AllocError>
        ensures { OnOk result (steps_in self.new ≡ steps_in self.old ++ const_type_steps t.now) }
    {
        match t {
            ConstType::Integer(_) | ConstType::Char | ConstType::Boolean | ConstType::Octet => {
                Ok(())
            }
            ConstType::String(bound) => self.add_bound(bound),
            ConstType::Name(name) => self.asks_of_name(NameStep::IsType, name),
        }
    }

    /// The type of a parameter, a result or an attribute.
    pub(crate) fn add_param_type(&mut self, t: &'t ParamType<'a>) -> Result<(), AllocError>
        ensures { OnOk result (steps_in self.new ≡ steps_in self.old ++ param_type_steps t.now) }
    {
        match t {
            ParamType::Plain(plain) => self.add_const_type(plain),
            ParamType::Object => Ok(()),
        }
    }

    fn add_simple_type(&mut self, t: &'t SimpleType<'a>) -> Result<(), AllocError>
        ensures { OnOk result (steps_in self.new ≡ steps_in self.old ++ simple_type_steps t.now) }
    {
        match t {
            SimpleType::Plain(plain) => self.add_param_type(plain),
            SimpleType::Sequence { element, bound } => {
                done!(self.add_simple_type(element));
                self.add_bound(bound)
            }
        }
    }

    /// The sizes of an array.
    pub(crate) fn add_sizes(&mut self, sizes: &'t [ConstExpr<'a>]) -> Result<(), AllocError>
        ensures { OnOk result (steps_in self.new ≡ steps_in self.old ++ map size_step sizes.now) }
    {
        for size in sizes {
            done!(self.asks_of_expr(ExprStep::IsSize, &size.expr));
        }
        Ok(())
    }

    /// The declarator of a member.
    fn add_declarator(&mut self, d: &'t Declarator<'a>) -> Result<(), AllocError>
        ensures { OnOk result (steps_in self.new ≡ steps_in self.old ++ declarator_steps d.now) }
    {
        done!(self.asks(LeafStep::HasMember, d.identifier));
        self.add_sizes(d.sizes.as_slice())
    }

    fn add_declarators(&mut self, list: &'t Listed<Declarator<'a>>) -> Result<(), AllocError>
        ensures { OnOk result (steps_in self.new ≡ steps_in self.old ++ flat_map declarator_steps (parts list.now)) }
    {
        done!(self.add_declarator(&list.first));
        let rest = list.rest.as_slice();
        for declarator in rest {
            done!(self.add_declarator(declarator));
        }
        Ok(())
    }

    fn add_label(&mut self, label: &'t Label<'a>) -> Result<(), AllocError>
        ensures { OnOk result (steps_in self.new ≡ steps_in self.old ++ label_steps label.now) }
    {
        match label {
            Label::Case(value) => self.asks_of_expr(ExprStep::HasWorth, &value.expr),
            Label::Default(_) => Ok(()),
        }
    }

    fn add_labels(&mut self, labels: &'t Listed<Label<'a>>) -> Result<(), AllocError>
        ensures { OnOk result (steps_in self.new ≡ steps_in self.old ++ flat_map label_steps (parts labels.now)) }
    {
        done!(self.add_label(&labels.first));
        let rest = labels.rest.as_slice();
        for label in rest {
            done!(self.add_label(label));
        }
        Ok(())
    }

    fn add_enumerators(&mut self, list: &'t Listed<Leaf<'a>>) -> Result<(), AllocError>
        ensures { OnOk result (steps_in self.new ≡ steps_in self.old ++ map EnumeratorStep (parts list.now)) }
    {
        done!(self.asks(LeafStep::DeclaresEnumerator, list.first));
        let rest = list.rest.as_slice();
        for identifier in rest {
            done!(self.asks(LeafStep::DeclaresEnumerator, *identifier));
        }
        Ok(())
    }

    pub(crate) fn add_enum(&mut self, e: &'t EnumType<'a>) -> Result<(), AllocError>
        ensures { OnOk result (steps_in self.new ≡ steps_in self.old ++ enum_steps e.now) }
    {
        done!(self.asks(LeafStep::DeclaresEnum, e.identifier));
        self.add_enumerators(&e.enumerators)
    }

    fn add_switch(&mut self, switch: &'t SwitchType<'a>) -> Result<(), AllocError>
        ensures { OnOk result (steps_in self.new ≡ steps_in self.old ++ switch_steps switch.now) }
    {
        match switch {
            SwitchType::Enum(e) => self.add_enum(e),
            SwitchType::Integer(_) | SwitchType::Char | SwitchType::Boolean => Ok(()),
            SwitchType::Name(name) => self.asks_of_name(NameStep::IsType, name),
        }
    }

    /// The declaration of a structure or a union, and the beginning of its body.
    fn open(&mut self, kind: EntryKind, identifier: Leaf<'a>) -> Result<(), AllocError>
        ensures { OnOk result (steps_in self.new ≡ steps_in self.old ++ opening kind identifier.entry) }
    {
        done!(self.asks(LeafStep::Declares(kind), identifier));
        done!(self.asks(LeafStep::Enters, identifier));
        self.asks(LeafStep::Defines, identifier)
    }

    #[cycle(types)]
    pub(crate) fn add_type(&mut self, t: &'t TypeSpec<'a>) -> Result<(), AllocError>
        ensures { OnOk result (steps_in self.new ≡ steps_in self.old ++ type_steps t.now) }
    {
        match t {
            TypeSpec::Simple(simple) => self.add_simple_type(simple),
            TypeSpec::Struct(s) => self.add_struct(s),
            TypeSpec::Union(u) => self.add_union(u),
            TypeSpec::Enum(e) => self.add_enum(e),
        }
    }

    /// Members of one type.
    #[cycle(types)]
    pub(crate) fn add_member(&mut self, member: &'t Member<'a>) -> Result<(), AllocError>
        ensures { OnOk result (steps_in self.new ≡ steps_in self.old ++ member_steps member.now) }
    {
        done!(self.add_type(&member.member_type));
        self.add_declarators(&member.declarators)
    }

    #[cycle(types)]
    pub(crate) fn add_struct(&mut self, s: &'t StructType<'a>) -> Result<(), AllocError>
        ensures { OnOk result (steps_in self.new ≡ steps_in self.old ++ struct_steps s.now) }
    {
        done!(self.open(EntryKind::Struct, s.identifier));
        done!(self.add_member(&s.first));
        done!(self.add_members(s.rest.as_slice()));
        self.leaves()
    }

    /// Members one behind another.
    #[cycle(types)]
    pub(crate) fn add_members(&mut self, members: &'t [Member<'a>]) -> Result<(), AllocError>
        ensures { OnOk result (steps_in self.new ≡ steps_in self.old ++ flat_map member_steps members.now) }
    {
        for member in members {
            done!(self.add_member(member));
        }
        Ok(())
    }

    #[cycle(types)]
    fn add_case(&mut self, case: &'t Case<'a>) -> Result<(), AllocError>
        ensures { OnOk result (steps_in self.new ≡ steps_in self.old ++ case_steps case.now) }
    {
        done!(self.add_labels(&case.labels));
        done!(self.add_type(&case.member_type));
        self.add_declarator(&case.declarator)
    }

    #[cycle(types)]
    pub(crate) fn add_union(&mut self, u: &'t UnionType<'a>) -> Result<(), AllocError>
        ensures { OnOk result (steps_in self.new ≡ steps_in self.old ++ union_steps u.now) }
    {
        done!(self.open(EntryKind::Union, u.identifier));
        let chosen: &'t SwitchType<'a> = &u.switch;
        done!(self.add_switch(chosen));
        done!(self.add_case(&u.first));
        done!(self.add_cases(u.rest.as_slice()));
        self.leaves()
    }

    /// Cases one behind another.
    #[cycle(types)]
    fn add_cases(&mut self, cases: &'t [Case<'a>]) -> Result<(), AllocError>
        ensures { OnOk result (steps_in self.new ≡ steps_in self.old ++ flat_map case_steps cases.now) }
    {
        for case in cases {
            done!(self.add_case(case));
        }
        Ok(())
    }
}
