//! Why the names of a specification mean nothing.

ghost use Rattle.std.specs.Prelude.{◌≡◌};
ghost use Rattle.scoped_names.specs.declared.fault.NameFault.TheVariants.{NoMemory};

use idl_tree::kinds::EntryKind;
use idl_tree::names::At;
use std::alloc::{AllocError, AllocFailed};
use std::error::Error;
use std::fmt::{Debug, Display, Error as FmtError, Formatter, Write};

/// Why an expression isn't what has to stand in its place.
#[derive(Clone, Copy)]
pub enum Flaw {
    /// A name in it is that of no constant and no enumerator.
    NoConstant,
    /// It has no worth: a division by zero, a number that is too large, an operator between what
    /// are no whole numbers.
    NoWorth,
    /// Its worth is none of the constant's type.
    NotOfType,
    /// A bound or a size has to be a whole number of at least 1.
    NotPositive,
}

/// Why an entry can't be a base.
#[derive(Clone, Copy)]
pub enum Unfit {
    /// It is no interface that was defined before.
    NotDefined,
    /// It is a base already.
    NamedTwice,
    /// It has an operation or attribute of the name of another base's.
    FeatureTwice,
}

/// The first fault in the order of reading. It is told where a name begins, or an expression, or at
/// the identifier that is declared.
#[derive(Clone, Copy, Drop)]
pub enum NameFault {
    /// Nothing of the name is declared before it, or a type that was declared ahead is never
    /// defined.
    Unknown {
        at: At,
    },
    /// The scope has another declaration of the name, or the name is that of the scope itself, or a
    /// second definition. The other declaration is told where it is one.
    Collides {
        at: At,
        other: Option<At>,
    },
    /// The name is declared in another case.
    CaseDiffers {
        at: At,
        other: Option<At>,
    },
    /// Two bases of an interface give different entries, of which these are the first two.
    Ambiguous {
        at: At,
        one: Option<At>,
        other: Option<At>,
    },
    /// The name is that of no type, or of no exception where one has to stand.
    NotAType {
        at: At,
        found: Option<EntryKind>,
    },
    /// Two pragmas give a name different ids or versions. The first of them is told too.
    IdTwice {
        at: At,
        other: At,
    },
    /// A constant expression has no value, or none that its place allows.
    BadConstant {
        at: At,
        why: Flaw,
    },
    /// A base is no interface that was defined before, or is listed twice, or has an operation or
    /// attribute of the name of another base's.
    BadBase {
        at: At,
        why: Unfit,
    },
    /// A prefix stands in a scope other than the file's.
    PrefixInScope {
        at: At,
    },
    /// A type that was declared ahead appears again under another prefix.
    PrefixDiffers {
        at: At,
        other: Option<At>,
    },
    /// Memory was refused.
    NoMemory,
}

impl NameFault {
    /// Where the fault is told, unless memory was refused.
    pub fn at(self) -> Option<At> {
        match self {
            NameFault::Unknown { at }
            | NameFault::Collides { at, .. }
            | NameFault::CaseDiffers { at, .. }
            | NameFault::Ambiguous { at, .. }
            | NameFault::NotAType { at, .. }
            | NameFault::IdTwice { at, .. }
            | NameFault::BadConstant { at, .. }
            | NameFault::BadBase { at, .. }
            | NameFault::PrefixInScope { at }
            | NameFault::PrefixDiffers { at, .. } => Some(at),
            NameFault::NoMemory => None,
        }
    }

    /// The line of the fault, 0 where memory was refused.
    pub fn line(self) -> usize {
        match self.at() {
            Some(at) => at.line,
            None => 0,
        }
    }

    /// Its number and its name.
    fn title(self) -> &'static str {
        match self {
            NameFault::Unknown { .. } => "20 Unknown",
            NameFault::Collides { .. } => "21 Collides",
            NameFault::CaseDiffers { .. } => "22 CaseDiffers",
            NameFault::Ambiguous { .. } => "23 Ambiguous",
            NameFault::NotAType { .. } => "24 NotAType",
            NameFault::IdTwice { .. } => "25 IdTwice",
            NameFault::BadConstant { .. } => "26 BadConstant",
            NameFault::BadBase { .. } => "27 BadBase",
            NameFault::PrefixInScope { .. } => "28 PrefixInScope",
            NameFault::PrefixDiffers { .. } => "29 PrefixDiffers",
            NameFault::NoMemory => "no memory",
        }
    }
}

// Derived, the two would write each fault apart, and take longer to prove than anything else here.

impl Display for NameFault {
    fn fmt<W: Write>(&self, f: &mut Formatter<W>) -> Result<(), FmtError> {
        match self.at() {
            Some(at) => write!(f, "{} line {at}", self.title()),
            None => f.write_str(self.title()),
        }
    }
}

impl Debug for NameFault {
    fn fmt<W: Write>(&self, f: &mut Formatter<W>) -> Result<(), FmtError> {
        Display::fmt(self, f)
    }
}

impl Error for NameFault {}

impl From<AllocError> for NameFault {
    ghost from_gives = { λ _ e. e ≡ NoMemory };

    fn from(_: AllocError) -> Self {
        NameFault::NoMemory
    }
}

impl<T: Drop> From<AllocFailed<T>> for NameFault {
    ghost from_gives = { λ _ e. e ≡ NoMemory };

    fn from(_: AllocFailed<T>) -> Self {
        NameFault::NoMemory
    }
}
