//! Why a value has no text, or a text isn't read.

ghost use Rattle.std.specs.Prelude.{◌≡◌};

use std::alloc::{AllocError, AllocFailed};
use thiserror::Error;

/// A fault has its number and name as its text.
#[derive(Debug, Drop, Error)]
pub enum PrintFault {
    /// The value isn't one of the type.
    #[error("40 NotOfType")]
    NotOfType,
    #[error("no memory")]
    NoMemory,
}

impl From<AllocError> for PrintFault {
    ghost use Rattle.value_text.specs.declared.fault.PrintFault.TheVariants.{NoMemory};

    ghost from_gives = { λ _ fault. fault ≡ NoMemory };

    fn from(_error: AllocError) -> PrintFault {
        PrintFault::NoMemory
    }
}

/// What a text would have to have where it is refused. Each has a number and a name.
#[derive(Clone, Copy, Debug, Drop, PartialEq, Eq, Error)]
pub enum Wanted {
    /// JSON: a token, a comma, a colon or a closing bracket, and no number that has no end. What
    /// stands behind the value is `End`.
    #[error("110 NotJson")]
    Json,
    /// A whole number in range, without a fraction, an exponent or a sign before 0.
    #[error("111 NotWhole")]
    Whole,
    /// `true` or `false`.
    #[error("112 NotBoolean")]
    Boolean,
    /// A string of one character up to U+00FF.
    #[error("113 NotChar")]
    Char,
    /// A string of characters up to U+00FF, within the bound, and none U+0000 where it is a string of IDL.
    #[error("114 NotText")]
    Text,
    /// The name of an enumerator, or its number.
    #[error("115 NotEnumerator")]
    Enumerator,
    /// Two hexadecimal digits for each octet.
    #[error("116 NotDigits")]
    Digits,
    /// A list.
    #[error("117 NotAList")]
    List,
    /// An object or a list.
    #[error("118 NotMembers")]
    Members,
    /// The name of a member.
    #[error("119 NoSuchMember")]
    Member,
    /// A member that wasn't there before.
    #[error("120 MemberTwice")]
    OtherMember,
    /// The members that are missing.
    #[error("121 MemberMissing")]
    AllMembers,
    /// As many parts as the type has, or as its bound allows.
    #[error("122 WrongCount")]
    Count,
    /// At most 64 sequences one inside another.
    #[error("123 TooDeep")]
    Depth,
    /// The end of the text.
    #[error("124 TextBehind")]
    End,
}

/// Where a text is refused: lines and columns count from 1, columns in octets.
#[derive(Clone, Copy, Debug, Drop, PartialEq, Eq)]
pub struct TextPlace {
    pub line: usize,
    pub column: usize,
}

#[derive(Clone, Copy, Debug, Drop, PartialEq, Eq)]
pub struct Refusal {
    pub wanted: Wanted,
    pub place: TextPlace,
}

/// A refusal has as its text the number and name of what was wanted.
#[derive(Debug, Drop, Error)]
pub enum ReadFault {
    #[error("{}", .0.wanted)]
    Refused(Refusal),
    #[error("no memory")]
    NoMemory,
}

impl From<AllocError> for ReadFault {
    ghost use Rattle.value_text.specs.declared.fault.ReadFault.TheVariants.{NoMemory};

    ghost from_gives = { λ _ fault. fault ≡ NoMemory };

    fn from(_error: AllocError) -> ReadFault {
        ReadFault::NoMemory
    }
}
