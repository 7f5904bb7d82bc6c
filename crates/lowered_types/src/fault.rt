//! Why a specification has no model.

ghost use Rattle.std.specs.Prelude.{◌≡◌};
ghost use Rattle.lowered_types.specs.Faults.{at_most};
ghost use Rattle.lowered_types.specs.declared.fault.BuildFault.TheVariants.{NoMemory};

use idl_tree::names::At;
use std::alloc::{AllocError, AllocFailed};
use thiserror::Error;
use type_graph::{GraphLimit, Values};

/// Of which kind a type is.
#[derive(Clone, Copy, Debug, PartialEq, Eq)]
pub enum TypeKind {
    Integer,
    Char,
    Boolean,
    Octet,
    Enum,
    String,
    Sequence,
    Array,
    Struct,
    Union,
    Object,
}

/// What a label is worth, without the octets of a text.
#[derive(Clone, Copy, Debug, PartialEq, Eq)]
pub enum LabelWorth {
    Integer(i128),
    Boolean(bool),
    Character(u8),
    Text,
    /// The number of the enumerator among the names.
    Enumerator(usize),
}

/// What an operation answers first, in the order of reading.
#[derive(Clone, Copy, Debug, PartialEq, Eq)]
pub enum FirstAnswer {
    /// It has a result.
    Result,
    /// A parameter that isn't `in`; its identifier stands there.
    Parameter(At),
    /// It may raise exceptions.
    Exceptions,
}

/// A rule that the types of a specification break, with the place of what breaks it. What is printed
/// is the line. What else the rules of a graph refuse no specification gets, but for a type that is
/// declared ahead alone.
#[derive(Clone, Copy, Debug, PartialEq, Eq, Drop, Error)]
pub enum TypeFault {
    /// A type holds itself without a sequence between: the member that closes the circle stands
    /// there.
    #[error("30 SelfHeld line {at}")]
    SelfHeld {
        at: At,
    },
    /// A label stands twice in a union, or a second default. The first of the two is told too.
    #[error("31 LabelTwice line {at}")]
    LabelTwice {
        at: At,
        other: At,
    },
    /// A label is no value of the union's discriminator, which is of the kind and has the values.
    #[error("32 LabelRange line {at}")]
    LabelRange {
        at: At,
        found: LabelWorth,
        kind: TypeKind,
        values: Values,
    },
    /// A default where the labels are all values of the discriminator.
    #[error("33 DefaultNeedless line {at}")]
    DefaultNeedless {
        at: At,
    },
    /// The discriminator of a union is of a type that has no labels. Its kind is told; None where
    /// there is no such type, which a file's own names never give.
    #[error("34 BadSwitch line {at}")]
    BadSwitch {
        at: At,
        found: Option<TypeKind>,
    },
    /// More than the `most` that the limit of `which` allows.
    #[error("35 Limit line {at}")]
    Limit {
        which: GraphLimit,
        most: u32,
        at: At,
    },
    /// A oneway operation that answers something.
    #[error("36 BadOneway line {at}")]
    BadOneway {
        at: At,
        answer: FirstAnswer,
    },
}

/// The first fault in the order of reading; a type that holds itself and too long a path come last.
#[derive(Debug, Drop, Error)]
pub enum BuildFault {
    /// The types break a rule.
    #[error("{0}")]
    Types(TypeFault),
    /// The names are those of another specification.
    #[error("the names are those of another specification")]
    OtherNames,
    #[error("no memory")]
    NoMemory,
}

/// So many, where they aren't more than the limit.
///
/// # Errors
/// The limit.
pub(crate) fn at_most(most: u32, which: GraphLimit, at: At, n: u128) -> Result<u32, BuildFault>
    ensures { result ≡ at_most most which at n }
{
    if n > u128::from(most) {
        return Err(BuildFault::Types(TypeFault::Limit { which, most, at }));
    }
    Ok(n as u32)
}

impl From<AllocError> for BuildFault {
    ghost from_gives = { λ _ e. e ≡ NoMemory };

    fn from(_error: AllocError) -> BuildFault {
        BuildFault::NoMemory
    }
}

impl<T: Drop> From<AllocFailed<T>> for BuildFault {
    ghost from_gives = { λ _ e. e ≡ NoMemory };

    fn from(_error: AllocFailed<T>) -> BuildFault {
        BuildFault::NoMemory
    }
}
