//! The types that a constant may be declared with.

ghost use Rattle.std.specs.Prelude.{◌≡◌};
ghost use Rattle.name_table.specs.Kinds.{fits, is_of_integer};

use crate::const_values::constant::Constant;
use idl_tree::types::{Integer, IntegerSize};

/// What the declared type of a constant is in the end, where its name was followed.
#[derive(Clone, Copy, PartialEq, Eq)]
pub enum ConstKind {
    Integer(Integer),
    Char,
    Boolean,
    Octet,
    /// A string, with its bound in octets if it has one.
    String(Option<u128>),
    /// An enum: the number of its entry among the names.
    Enum(usize),
}

fn is_of_integer_type(value: i128, integer: Integer) -> bool
    ensures { result ≡ is_of_integer integer value }
{
    match integer {
        Integer::Signed(IntegerSize::Short) => i16::try_from(value).is_ok(),
        Integer::Signed(IntegerSize::Long) => i32::try_from(value).is_ok(),
        Integer::Signed(IntegerSize::LongLong) => i64::try_from(value).is_ok(),
        Integer::Unsigned(IntegerSize::Short) => u16::try_from(value).is_ok(),
        Integer::Unsigned(IntegerSize::Long) => u32::try_from(value).is_ok(),
        Integer::Unsigned(IntegerSize::LongLong) => u64::try_from(value).is_ok(),
    }
}

impl ConstKind {
    /// Whether a constant is of the type: a whole number in its range, a text within its bound, an
    /// enumerator of the enum. Takes no memory.
    pub fn admits(self, constant: &Constant) -> bool
        ensures { result ≡ fits self constant.now }
    {
        match (self, constant) {
            (ConstKind::Integer(integer), Constant::Integer(value)) => {
                is_of_integer_type(*value, integer)
            }
            (ConstKind::Octet, Constant::Integer(value)) => u8::try_from(*value).is_ok(),
            (ConstKind::Char, Constant::Character(_)) => true,
            (ConstKind::Boolean, Constant::Boolean(_)) => true,
            (ConstKind::String(None), Constant::Text(_)) => true,
            (ConstKind::String(Some(bound)), Constant::Text(text)) => text.len() as u128 <= bound,
            (ConstKind::Enum(wanted), Constant::Enumerator { owner, .. }) => *owner == wanted,
            _ => false,
        }
    }
}
