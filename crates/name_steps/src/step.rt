//! What a specification asks of its names, step by step.

ghost use Rattle.std.specs.Prelude.{◌≡◌, ◌++◌, ◌∷◌, [], OnOk};
ghost use Rattle.name_steps.specs.Steps.{DeclaresConst as ConstStep, DeclaresTypedef as TypedefStep, HasBase as BaseStep, Leaves as LeavesStep};
ghost use Rattle.name_steps.specs.StepsKept.{step_of, steps_in};
ghost use Rattle.name_steps.specs.inner.StepsAsked.{expr_step, leaf_step, name_step};

use idl_tree::definitions::Const;
use idl_tree::expression::Expr;
use idl_tree::kinds::EntryKind;
use idl_tree::names::{Leaf, ScopedName};
use idl_tree::types::{Declarator, TypeSpec};
use std::alloc::{AllocError, Global};

/// One thing that is asked, in the scope that was entered last and not left yet. `'t` is the tree's.
#[derive(Clone, Copy)]
pub enum Step<'a, 't> {
    Declares(EntryKind, Leaf<'a>),
    DeclaresEnum(Leaf<'a>),
    /// An enumerator of the last enumeration.
    DeclaresEnumerator(Leaf<'a>),
    DeclaresTypedef(&'t TypeSpec<'a>, &'t Declarator<'a>),
    /// The identifier is nothing yet.
    IsNew(Leaf<'a>),
    DeclaresConst(&'t Const<'a>),
    /// An operation or an attribute.
    DeclaresFeature(EntryKind, Leaf<'a>),
    /// The scope gets a member or a parameter.
    HasMember(Leaf<'a>),
    /// What has the identifier has no definition yet.
    IsUndefined(Leaf<'a>),
    /// The interface of the identifier gets a base.
    HasBase(Leaf<'a>, &'t ScopedName<'a>),
    /// The scope of what has the identifier.
    Enters(Leaf<'a>),
    /// The scope gets its definition, of which that is the identifier.
    Defines(Leaf<'a>),
    Leaves,
    NamesType(&'t ScopedName<'a>),
    NamesException(&'t ScopedName<'a>),
    HasWorth(&'t Expr<'a>),
    IsSize(&'t Expr<'a>),
    /// A pragma.
    Says(Leaf<'a>),
}

/// What an identifier or a pragma asks alone.
#[derive(Clone, Copy)]
pub(crate) enum LeafStep {
    Declares(EntryKind),
    DeclaresEnum,
    DeclaresEnumerator,
    IsNew,
    DeclaresFeature(EntryKind),
    HasMember,
    IsUndefined,
    Enters,
    Defines,
    Says,
}

/// What a name asks.
#[derive(Clone, Copy)]
pub(crate) enum NameStep {
    IsType,
    IsException,
}

/// What an expression asks.
#[derive(Clone, Copy)]
pub(crate) enum ExprStep {
    HasWorth,
    IsSize,
}

// Few functions hold a `Step`: each that does takes the check seconds, since what is generated for it
// lists the whole type at each of its places.

// `'a` stands before `'t`, so that it is the second lifetime in each method, as in functions over a
// part of the tree: a call whose sides count it differently takes the check up to twenty seconds.

/// Steps in order. A contract sees them as steps of the tree.
pub struct Steps<'a, 't> {
    pub list: Vec<Step<'a, 't>>,
}

impl<'a, 't> Drop for Steps<'a, 't> {
    fn drop(self) {
        let Steps { list: _ } = self;
    }
}

impl<'a, 't> Steps<'a, 't> {
    /// No steps. Takes no memory.
    pub fn new(alloc: Global) -> Self
        ensures { steps_in result ≡ [] }
    {
        Steps {
            list: Vec::new(alloc),
        }
    }

    /// The steps in order.
    pub fn as_slice(&self) -> &[Step<'a, 't>]
        ensures { result.now ≡ self.now.list.items }
    {
        self.list.as_slice()
    }

    /// One step more.
    fn push(&mut self, step: Step<'a, 't>) -> Result<(), AllocError>
        ensures { OnOk result (steps_in self.new ≡ steps_in self.old ++ step_of step.entry ∷ []) }
    {
        match self.list.push(step) {
            Ok(()) => Ok(()),
            Err(_) => Err(AllocError),
        }
    }

    /// What an identifier or a pragma asks.
    pub(crate) fn asks(&mut self, what: LeafStep, leaf: Leaf<'a>) -> Result<(), AllocError>
        ensures { OnOk result (steps_in self.new ≡ steps_in self.old ++ leaf_step what leaf.entry ∷ []) }
    {
        let step = match what {
            LeafStep::Declares(kind) => Step::Declares(kind, leaf),
            LeafStep::DeclaresEnum => Step::DeclaresEnum(leaf),
            LeafStep::DeclaresEnumerator => Step::DeclaresEnumerator(leaf),
            LeafStep::IsNew => Step::IsNew(leaf),
            LeafStep::DeclaresFeature(kind) => Step::DeclaresFeature(kind, leaf),
            LeafStep::HasMember => Step::HasMember(leaf),
            LeafStep::IsUndefined => Step::IsUndefined(leaf),
            LeafStep::Enters => Step::Enters(leaf),
            LeafStep::Defines => Step::Defines(leaf),
            LeafStep::Says => Step::Says(leaf),
        };
        self.push(step)
    }

    /// What a name asks.
    pub(crate) fn asks_of_name(
        &mut self,
        what: NameStep,
        name: &'t ScopedName<'a>,
    ) -> Result<(), AllocError>
        ensures { OnOk result (steps_in self.new ≡ steps_in self.old ++ name_step what name.now ∷ []) }
    {
        let step = match what {
            NameStep::IsType => Step::NamesType(name),
            NameStep::IsException => Step::NamesException(name),
        };
        self.push(step)
    }

    /// What an expression asks.
    pub(crate) fn asks_of_expr(
        &mut self,
        what: ExprStep,
        expr: &'t Expr<'a>,
    ) -> Result<(), AllocError>
        ensures { OnOk result (steps_in self.new ≡ steps_in self.old ++ expr_step what expr.now ∷ []) }
    {
        let step = match what {
            ExprStep::HasWorth => Step::HasWorth(expr),
            ExprStep::IsSize => Step::IsSize(expr),
        };
        self.push(step)
    }

    /// A name for a type, or for an array of it.
    pub(crate) fn declares_typedef(
        &mut self,
        original: &'t TypeSpec<'a>,
        declarator: &'t Declarator<'a>,
    ) -> Result<(), AllocError>
        ensures { OnOk result (steps_in self.new ≡
            steps_in self.old ++ TypedefStep original.now declarator.now ∷ []) }
    {
        self.push(Step::DeclaresTypedef(original, declarator))
    }

    pub(crate) fn declares_const(&mut self, c: &'t Const<'a>) -> Result<(), AllocError>
        ensures { OnOk result (steps_in self.new ≡ steps_in self.old ++ ConstStep c.now ∷ []) }
    {
        self.push(Step::DeclaresConst(c))
    }

    /// The interface of the identifier gets a base.
    pub(crate) fn has_base(
        &mut self,
        identifier: Leaf<'a>,
        name: &'t ScopedName<'a>,
    ) -> Result<(), AllocError>
        ensures { OnOk result (steps_in self.new ≡ steps_in self.old ++ BaseStep identifier.entry name.now ∷ []) }
    {
        self.push(Step::HasBase(identifier, name))
    }

    /// The scope is left.
    pub(crate) fn leaves(&mut self) -> Result<(), AllocError>
        ensures { OnOk result (steps_in self.new ≡ steps_in self.old ++ LeavesStep ∷ []) }
    {
        self.push(Step::Leaves)
    }
}
