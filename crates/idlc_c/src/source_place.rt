//! Where a text is refused.

ghost use Rattle.std.specs.Prelude.{◌≡◌, unwrap_or};
ghost use Rattle.idl_compiler.specs.Numbers.{spot_of};
ghost use Rattle.idlc_c.specs.Numbers.{number_of_text};

use idl_compiler::CompileFault;
use value_text::{Refusal as Unsaid, Wanted};

/// The number of a refusal, and where in a text it is: lines and columns count from 1, columns in
/// octets. What isn't known is 0.
#[repr(C)]
#[derive(Drop)]
pub struct SourcePlace {
    pub number: u32,
    pub line: usize,
    pub column: usize,
}

pub(crate) fn text_number(wanted: Wanted) -> u32
    ensures { result ≡ number_of_text wanted }
{
    match wanted {
        Wanted::Json => 110,
        Wanted::Whole => 111,
        Wanted::Boolean => 112,
        Wanted::Char => 113,
        Wanted::Text => 114,
        Wanted::Enumerator => 115,
        Wanted::Digits => 116,
        Wanted::List => 117,
        Wanted::Members => 118,
        Wanted::Member => 119,
        Wanted::OtherMember => 120,
        Wanted::AllMembers => 121,
        Wanted::Count => 122,
        Wanted::Depth => 123,
        Wanted::End => 124,
    }
}

impl SourcePlace {
    /// The number of the fault of an IDL text, and its line.
    pub(crate) fn of_source(fault: &CompileFault) -> SourcePlace
        ensures number { result.number ≡ (unwrap_or (spot_of fault.now) (0, 0)).0 }
        ensures line { result.line ≡ (unwrap_or (spot_of fault.now) (0, 0)).1 }
    {
        let (number, line) = fault.number_and_line().unwrap_or((0, 0));
        SourcePlace {
            number: u32::from(number),
            line,
            column: 0,
        }
    }

    pub(crate) fn of_text(unsaid: Unsaid) -> SourcePlace
        ensures number { result.number ≡ number_of_text unsaid.wanted }
        ensures line { result.line ≡ unsaid.place.line }
        ensures column { result.column ≡ unsaid.place.column }
    {
        SourcePlace {
            number: text_number(unsaid.wanted),
            line: unsaid.place.line,
            column: unsaid.place.column,
        }
    }
}
