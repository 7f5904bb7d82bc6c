//! The number of the fault of an IDL file, and its line.

ghost use Rattle.std.specs.Prelude.{◌≡◌};
ghost use Rattle.idl_compiler.specs.Numbers.{spot_of, spot_of_grammar, spot_of_names, spot_of_tokens, spot_of_types};

use crate::fault::CompileFault;
use idl_lexer::LexFault;
use idl_parser::ParseFault;
use model_builder::TypeFault;
use scoped_names::NameFault;

/// A number and a line.
type Spot = (u8, usize);

fn tokens_spot(fault: &LexFault) -> Option<Spot>
    ensures { result ≡ spot_of_tokens fault.now }
{
    match *fault {
        LexFault::BadChar { line, .. } => Some((1, line)),
        LexFault::OpenComment { line, .. } => Some((2, line)),
        LexFault::OpenLiteral { line, .. } => Some((3, line)),
        LexFault::BadNumber { line, .. } => Some((4, line)),
        LexFault::BadEscape { line, .. } => Some((5, line)),
        LexFault::BadDirective { line, .. } => Some((6, line)),
        LexFault::KeywordCase { line, .. } => Some((7, line)),
        LexFault::NoMemory => None,
    }
}

fn grammar_spot(fault: &ParseFault) -> Option<Spot>
    ensures { result ≡ spot_of_grammar fault.now }
{
    match *fault {
        ParseFault::Unexpected { line, .. } => Some((10, line)),
        ParseFault::EndOfFile { line } => Some((11, line)),
        ParseFault::LeftOut { line, .. } => Some((12, line)),
        ParseFault::TooDeep { line, .. } => Some((13, line)),
        ParseFault::NoMemory => None,
    }
}

fn names_spot(fault: &NameFault) -> Option<Spot>
    ensures { result ≡ spot_of_names fault.now }
{
    match *fault {
        NameFault::Unknown { at } => Some((20, at.line)),
        NameFault::Collides { at, .. } => Some((21, at.line)),
        NameFault::CaseDiffers { at, .. } => Some((22, at.line)),
        NameFault::Ambiguous { at, .. } => Some((23, at.line)),
        NameFault::NotAType { at, .. } => Some((24, at.line)),
        NameFault::IdTwice { at, .. } => Some((25, at.line)),
        NameFault::BadConstant { at, .. } => Some((26, at.line)),
        NameFault::BadBase { at, .. } => Some((27, at.line)),
        NameFault::PrefixInScope { at } => Some((28, at.line)),
        NameFault::PrefixDiffers { at, .. } => Some((29, at.line)),
        NameFault::NoMemory => None,
    }
}

fn types_spot(fault: &TypeFault) -> Option<Spot>
    ensures { result ≡ spot_of_types fault.now }
{
    match *fault {
        TypeFault::SelfHeld { at } => Some((30, at.line)),
        TypeFault::LabelTwice { at, .. } => Some((31, at.line)),
        TypeFault::LabelRange { at, .. } => Some((32, at.line)),
        TypeFault::DefaultNeedless { at } => Some((33, at.line)),
        TypeFault::BadSwitch { at, .. } => Some((34, at.line)),
        TypeFault::Limit { at, .. } => Some((35, at.line)),
        TypeFault::BadOneway { at, .. } => Some((36, at.line)),
    }
}

impl CompileFault {
    /// The number of the fault, and its line, 0 where the file isn't UTF-8; none of what has no number.
    pub fn number_and_line(&self) -> Option<(u8, usize)>
        ensures { result ≡ spot_of self.now }
    {
        match self {
            CompileFault::Tokens(fault) => tokens_spot(fault),
            CompileFault::Grammar(fault) => grammar_spot(fault),
            CompileFault::Names(fault) => names_spot(fault),
            CompileFault::Types(fault) => types_spot(fault),
            CompileFault::TooLong | CompileFault::NoMemory => None,
        }
    }

    /// The number alone.
    pub fn number(&self) -> Option<u8> {
        let (number, _line) = self.number_and_line()?;
        Some(number)
    }
}
