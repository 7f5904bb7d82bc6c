//! Why an IDL file has no table.

ghost use Rattle.std.specs.Prelude.{◌≡◌};
ghost use Rattle.idl_compiler.specs.Files.{RefusesTable};
ghost use Rattle.idl_compiler.specs.Refused.{of_grammar, of_names, of_tokens, of_types};
ghost use Rattle.idl_compiler.specs.declared.fault.CompileFault.TheVariants.{NoMemory};
ghost use Rattle.position_checker.specs.File.{HasNoFile};
ghost use Rattle.table_file.specs.Table.{TableParts};

use idl_lexer::LexFault;
use idl_parser::ParseFault;
use marshal_program::GenFault;
use model_builder::{ModelFault, TypeFault};
use position_checker::FileFault;
use scoped_names::NameFault;
use std::alloc::AllocError;
use thiserror::Error;

/// The first fault of a file in the order of the steps: tokens, grammar, names, types. Its text is
/// its number and name, with its line. Octets that aren't UTF-8 are told as a character of line 0.
#[derive(Debug, Drop, Error)]
pub enum CompileFault {
    #[error(transparent)]
    Tokens(LexFault),
    #[error(transparent)]
    Grammar(ParseFault),
    #[error(transparent)]
    Names(NameFault),
    #[error(transparent)]
    Types(TypeFault),
    /// The table has more octets than a file may have.
    #[error("too long")]
    TooLong,
    #[error("no memory")]
    NoMemory,
}

impl From<AllocError> for CompileFault {
    ghost from_gives = { λ _ e. e ≡ NoMemory };

    fn from(_error: AllocError) -> CompileFault {
        CompileFault::NoMemory
    }
}

impl From<LexFault> for CompileFault {
    ghost from_gives = { λ fault e. e ≡ of_tokens fault };

    fn from(fault: LexFault) -> CompileFault {
        match fault {
            LexFault::NoMemory => CompileFault::NoMemory,
            fault => CompileFault::Tokens(fault),
        }
    }
}

impl From<ParseFault> for CompileFault {
    ghost from_gives = { λ fault e. e ≡ of_grammar fault };

    fn from(fault: ParseFault) -> CompileFault {
        match fault {
            ParseFault::NoMemory => CompileFault::NoMemory,
            fault => CompileFault::Grammar(fault),
        }
    }
}

impl From<NameFault> for CompileFault {
    ghost from_gives = { λ fault e. e ≡ of_names fault };

    fn from(fault: NameFault) -> CompileFault {
        match fault {
            NameFault::NoMemory => CompileFault::NoMemory,
            fault => CompileFault::Names(fault),
        }
    }
}

impl From<ModelFault> for CompileFault {
    ghost from_gives = { λ fault e. e ≡ of_types fault };

    fn from(fault: ModelFault) -> CompileFault {
        match fault {
            ModelFault::NoMemory => CompileFault::NoMemory,
            ModelFault::Types(fault) => CompileFault::Types(fault),
        }
    }
}

impl From<GenFault> for CompileFault {
    ghost from_gives = { λ _ e. e ≡ NoMemory };

    /// The plain program is refused for want of memory alone.
    fn from(_fault: GenFault) -> CompileFault {
        CompileFault::NoMemory
    }
}

/// Of a table that no octets spell there is too much of something.
impl From<FileFault> for CompileFault {
    ghost from_gives = { λ fault refusal. (table : TableParts) → HasNoFile table fault → RefusesTable table refusal };

    fn from(fault: FileFault) -> CompileFault {
        match fault {
            FileFault::Unspelled(_) | FileFault::TooLong => CompileFault::TooLong,
            FileFault::NoMemory => CompileFault::NoMemory,
        }
    }
}
