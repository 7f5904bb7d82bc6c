//! Types and their declarators.

ghost use Rattle.std.specs.Prelude.{◌≡◌, ◌++◌, suc, max, IfOk, codes};
ghost use Rattle.idl_tree.specs.Pieces.{keyword, mark};
ghost use Rattle.idl_tree.specs.Yields.{optional};
ghost use Rattle.idl_tree.specs.TypeYields.{simple_type_yield, sequence_bound_yield};
ghost use Rattle.idl_tree.specs.Levels.{optional_levels, bound_levels};
ghost use Rattle.idl_tree.specs.TypeLevels.{simple_type_levels};

use crate::const_expr::{Bound, ConstExpr};
use crate::names::{Leaf, Listed, ScopedName};
use std::alloc::{AllocError, Global};

#[derive(Clone, Copy, PartialEq, Eq)]
pub enum IntegerSize {
    Short,
    Long,
    LongLong,
}

/// The integer types.
#[derive(Clone, Copy, PartialEq, Eq)]
pub enum Integer {
    Signed(IntegerSize),
    Unsigned(IntegerSize),
}

/// The types that a constant may have.
pub enum ConstType<'a> {
    Integer(Integer),
    Char,
    Boolean,
    Octet,
    /// A string, with its bound if it has one.
    String(Option<Bound<'a>>),
    Name(ScopedName<'a>),
}

/// The types that parameters, results and attributes may have.
pub enum ParamType<'a> {
    Plain(ConstType<'a>),
    Object,
}

/// A type that declares nothing.
pub enum SimpleType<'a> {
    Plain(ParamType<'a>),
    Sequence {
        element: Box<SimpleType<'a>>,
        bound: Option<Bound<'a>>,
    },
}

/// An identifier, and the sizes of an array of it.
pub struct Declarator<'a> {
    pub identifier: Leaf<'a>,
    pub sizes: Vec<ConstExpr<'a>>,
}

pub struct EnumType<'a> {
    pub identifier: Leaf<'a>,
    /// In a box, so that no other type is as large as an enumeration.
    pub enumerators: Box<Listed<Leaf<'a>>>,
}

/// The type of a union's discriminator.
pub enum SwitchType<'a> {
    Integer(Integer),
    Char,
    Boolean,
    Enum(EnumType<'a>),
    Name(ScopedName<'a>),
}

/// A label of a union's case.
pub enum Label<'a> {
    Case(ConstExpr<'a>),
    /// The keyword `default`.
    Default(Leaf<'a>),
}

#[cycle(types)]
pub enum TypeSpec<'a> {
    Simple(SimpleType<'a>),
    Struct(StructType<'a>),
    Union(UnionType<'a>),
    Enum(EnumType<'a>),
}

/// A structure, which has one member or more.
#[cycle(types)]
pub struct StructType<'a> {
    pub identifier: Leaf<'a>,
    pub first: Box<Member<'a>>,
    pub rest: Vec<Member<'a>>,
}

/// Members of one type: of a structure or an exception.
#[cycle(types)]
pub struct Member<'a> {
    pub member_type: TypeSpec<'a>,
    pub declarators: Listed<Declarator<'a>>,
}

/// A union, which has one case or more.
#[cycle(types)]
pub struct UnionType<'a> {
    pub identifier: Leaf<'a>,
    /// In a box, so that no member of a structure is as large as a union.
    pub switch: Box<SwitchType<'a>>,
    pub first: Box<Case<'a>>,
    pub rest: Vec<Case<'a>>,
}

/// A member of a union, with one label or more.
#[cycle(types)]
pub struct Case<'a> {
    pub labels: Listed<Label<'a>>,
    pub member_type: TypeSpec<'a>,
    pub declarator: Declarator<'a>,
}

impl<'a> SimpleType<'a> {
    pub fn new_sequence(
        alloc: Global,
        element: SimpleType<'a>,
        bound: Option<Bound<'a>>,
    ) -> Result<SimpleType<'a>, AllocError>
        ensures spells { IfOk result (λ t. simple_type_yield t ≡
            keyword (codes "sequence") ++ mark (codes "<") ++ simple_type_yield element.entry
            ++ optional sequence_bound_yield bound.entry ++ mark (codes ">")) }
        ensures levels { IfOk result (λ t. simple_type_levels t ≡
            suc (max (simple_type_levels element.entry) (optional_levels bound_levels bound.entry))) }
    {
        Ok(SimpleType::Sequence {
            element: Box::new(alloc, element)?,
            bound,
        })
    }
}

// A derived drop would be proved again in each crate that lets go of a tree.

impl<'a> Drop for ConstType<'a> {
    fn drop(self) {
        match self {
            ConstType::Integer(_) => {}
            ConstType::Char => {}
            ConstType::Boolean => {}
            ConstType::Octet => {}
            ConstType::String(_) => {}
            ConstType::Name(_) => {}
        }
    }
}

impl<'a> Drop for ParamType<'a> {
    fn drop(self) {
        match self {
            ParamType::Plain(_) => {}
            ParamType::Object => {}
        }
    }
}

impl<'a> Drop for SimpleType<'a> {
    fn drop(self) {
        match self {
            SimpleType::Plain(_) => {}
            SimpleType::Sequence {
                element: _,
                bound: _,
            } => {}
        }
    }
}

impl<'a> Drop for Declarator<'a> {
    fn drop(self) {
        let Declarator {
            identifier: _,
            sizes: _,
        } = self;
    }
}

impl<'a> Drop for EnumType<'a> {
    fn drop(self) {
        let EnumType {
            identifier: _,
            enumerators: _,
        } = self;
    }
}

impl<'a> Drop for SwitchType<'a> {
    fn drop(self) {
        match self {
            SwitchType::Integer(_) => {}
            SwitchType::Char => {}
            SwitchType::Boolean => {}
            SwitchType::Enum(_) => {}
            SwitchType::Name(_) => {}
        }
    }
}

impl<'a> Drop for Label<'a> {
    fn drop(self) {
        match self {
            Label::Case(_) => {}
            Label::Default(_) => {}
        }
    }
}

impl<'a> Drop for TypeSpec<'a> {
    #[cycle(drop_type)]
    fn drop(self) {
        match self {
            TypeSpec::Simple(_) => {}
            TypeSpec::Struct(_) => {}
            TypeSpec::Union(_) => {}
            TypeSpec::Enum(_) => {}
        }
    }
}

impl<'a> Drop for StructType<'a> {
    #[cycle(drop_type)]
    fn drop(self) {
        let StructType {
            identifier: _,
            first: _,
            rest: _,
        } = self;
    }
}

impl<'a> Drop for Member<'a> {
    #[cycle(drop_type)]
    fn drop(self) {
        let Member {
            member_type: _,
            declarators: _,
        } = self;
    }
}

impl<'a> Drop for UnionType<'a> {
    #[cycle(drop_type)]
    fn drop(self) {
        let UnionType {
            identifier: _,
            switch: _,
            first: _,
            rest: _,
        } = self;
    }
}

impl<'a> Drop for Case<'a> {
    #[cycle(drop_type)]
    fn drop(self) {
        let Case {
            labels: _,
            member_type: _,
            declarator: _,
        } = self;
    }
}
