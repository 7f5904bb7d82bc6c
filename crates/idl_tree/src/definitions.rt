//! What modules and interfaces define.

use crate::const_expr::ConstExpr;
use crate::names::{Leaf, Listed, ScopedName};
use crate::types::{
    ConstType, Declarator, EnumType, Member, ParamType, StructType, TypeSpec, UnionType,
};

/// A type that is declared.
pub enum TypeDcl<'a> {
    Typedef {
        original: TypeSpec<'a>,
        declarators: Listed<Declarator<'a>>,
    },
    Struct(StructType<'a>),
    Union(UnionType<'a>),
    Enum(EnumType<'a>),
    /// A structure that is declared ahead.
    StructAhead(Leaf<'a>),
    /// A union that is declared ahead.
    UnionAhead(Leaf<'a>),
}

pub struct Const<'a> {
    pub const_type: ConstType<'a>,
    pub identifier: Leaf<'a>,
    pub value: ConstExpr<'a>,
}

pub struct Except<'a> {
    pub identifier: Leaf<'a>,
    pub members: Vec<Member<'a>>,
}

/// What modules and interfaces both declare.
pub enum Declaration<'a> {
    TypeDcl(TypeDcl<'a>),
    Const(Const<'a>),
    Except(Except<'a>),
}

/// Attributes, and what they raise: only one that is declared alone raises something.
pub enum Attributes<'a> {
    /// One or more that raise nothing.
    Silent {
        is_readonly: bool,
        identifiers: Listed<Leaf<'a>>,
    },
    /// A readonly one and what it raises.
    Readonly {
        identifier: Leaf<'a>,
        raises: Listed<ScopedName<'a>>,
    },
    /// One and what it raises where it is got, and where it is set if that raises something.
    Get {
        identifier: Leaf<'a>,
        get: Listed<ScopedName<'a>>,
        set: Option<Listed<ScopedName<'a>>>,
    },
    /// One and what it raises where it is set, and only there.
    Set {
        identifier: Leaf<'a>,
        set: Listed<ScopedName<'a>>,
    },
}

/// Attributes of one type.
pub struct Attribute<'a> {
    pub attribute_type: ParamType<'a>,
    pub declared: Attributes<'a>,
}

#[derive(Clone, Copy, PartialEq, Eq)]
pub enum Direction {
    In,
    Out,
    InOut,
}

pub struct Param<'a> {
    pub direction: Direction,
    pub param_type: ParamType<'a>,
    pub identifier: Leaf<'a>,
}

pub struct Operation<'a> {
    pub is_oneway: bool,
    /// None is `void`.
    pub result_type: Option<ParamType<'a>>,
    pub identifier: Leaf<'a>,
    pub params: Option<Listed<Param<'a>>>,
    pub raises: Option<Listed<ScopedName<'a>>>,
}

/// What stands in an interface.
pub enum Export<'a> {
    Pragma(Leaf<'a>),
    Declaration(Declaration<'a>),
    Attribute(Attribute<'a>),
    Operation(Operation<'a>),
}

pub enum Interface<'a> {
    /// An interface that is declared ahead.
    Ahead(Leaf<'a>),
    Defined {
        identifier: Leaf<'a>,
        bases: Option<Listed<ScopedName<'a>>>,
        exports: Vec<Export<'a>>,
    },
}

/// What stands in a specification or a module.
#[cycle(definitions)]
pub enum Definition<'a> {
    Pragma(Leaf<'a>),
    Declaration(Declaration<'a>),
    Interface(Interface<'a>),
    Module(Module<'a>),
}

#[cycle(definitions)]
pub struct Module<'a> {
    pub identifier: Leaf<'a>,
    pub definitions: Vec<Definition<'a>>,
}

// A derived drop would be proved again in each crate that lets go of a tree.

impl<'a> Drop for TypeDcl<'a> {
    fn drop(self) {
        match self {
            TypeDcl::Typedef {
                original: _,
                declarators: _,
            } => {}
            TypeDcl::Struct(_) => {}
            TypeDcl::Union(_) => {}
            TypeDcl::Enum(_) => {}
            TypeDcl::StructAhead(_) => {}
            TypeDcl::UnionAhead(_) => {}
        }
    }
}

impl<'a> Drop for Const<'a> {
    fn drop(self) {
        let Const {
            const_type: _,
            identifier: _,
            value: _,
        } = self;
    }
}

impl<'a> Drop for Except<'a> {
    fn drop(self) {
        let Except {
            identifier: _,
            members: _,
        } = self;
    }
}

impl<'a> Drop for Declaration<'a> {
    fn drop(self) {
        match self {
            Declaration::TypeDcl(_) => {}
            Declaration::Const(_) => {}
            Declaration::Except(_) => {}
        }
    }
}

impl<'a> Drop for Attributes<'a> {
    fn drop(self) {
        match self {
            Attributes::Silent {
                is_readonly: _,
                identifiers: _,
            } => {}
            Attributes::Readonly {
                identifier: _,
                raises: _,
            } => {}
            Attributes::Get {
                identifier: _,
                get: _,
                set: _,
            } => {}
            Attributes::Set {
                identifier: _,
                set: _,
            } => {}
        }
    }
}

impl<'a> Drop for Attribute<'a> {
    fn drop(self) {
        let Attribute {
            attribute_type: _,
            declared: _,
        } = self;
    }
}

impl<'a> Drop for Param<'a> {
    fn drop(self) {
        let Param {
            direction: _,
            param_type: _,
            identifier: _,
        } = self;
    }
}

impl<'a> Drop for Operation<'a> {
    fn drop(self) {
        let Operation {
            is_oneway: _,
            result_type: _,
            identifier: _,
            params: _,
            raises: _,
        } = self;
    }
}

impl<'a> Drop for Export<'a> {
    fn drop(self) {
        match self {
            Export::Pragma(_) => {}
            Export::Declaration(_) => {}
            Export::Attribute(_) => {}
            Export::Operation(_) => {}
        }
    }
}

impl<'a> Drop for Interface<'a> {
    fn drop(self) {
        match self {
            Interface::Ahead(_) => {}
            Interface::Defined {
                identifier: _,
                bases: _,
                exports: _,
            } => {}
        }
    }
}

impl<'a> Drop for Definition<'a> {
    #[cycle(drop_definition)]
    fn drop(self) {
        match self {
            Definition::Pragma(_) => {}
            Definition::Declaration(_) => {}
            Definition::Interface(_) => {}
            Definition::Module(_) => {}
        }
    }
}

impl<'a> Drop for Module<'a> {
    #[cycle(drop_definition)]
    fn drop(self) {
        let Module {
            identifier: _,
            definitions: _,
        } = self;
    }
}
