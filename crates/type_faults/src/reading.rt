//! What tokens are lowered to.

ghost use Rattle.std.specs.Prelude.{◌≡◌, length, map, IfOk};
ghost use Rattle.idl_lexer.specs.Tokens.{parts_of};
ghost use Rattle.type_faults.specs.AllFaults.{Reads};
ghost use Rattle.type_faults.specs.Parts.{left};
ghost use Rattle.type_faults.specs.inner.Searched.{IsUnread};

use crate::parts::left_of;
use idl_lexer::Token;
use idl_parser::{ParseFault, parse};
use idl_tree::spec::Spec;
use lowered_operations::lower_file;
use lowered_types::BuildFault;
use scoped_names::{NameFault, bind};
use std::alloc::{AllocError, Global};

/// What there is to read.
#[derive(Drop)]
pub enum Reading {
    /// The types and operations have no fault.
    Lowered,
    /// Their first fault.
    Refused(BuildFault),
    /// There are no names, or no tree.
    Nothing,
}

/// What may be lowered under the names of another. A tree is so. (A borrow of a tree that a function
/// has itself costs the borrow checker more steps than it may take; one of a value of any type
/// doesn't. Names aren't lent for less than they were made for, so they are made here.)
trait Lowers {
    ghost use Rattle.type_faults.specs.declared.reading.Reading.{Reading};

    ghost reads: { Self → Self → Reading → Type 0 };

    fn lowered(&self, alloc: Global, own: &Self) -> Result<Reading, AllocError>
        ensures { IfOk result (reads own.now self.now) };
}

impl<'a> Lowers for Spec<'a> {
    ghost use Rattle.type_faults.specs.inner.Searched.{ReadAs};

    ghost reads = { λ own left. ReadAs own.definitions.items left.definitions.items };

    fn lowered(&self, alloc: Global, own: &Self) -> Result<Reading, AllocError> {
        let names = match bind(alloc, own) {
            Ok(names) => names,
            Err(NameFault::NoMemory) => return Err(AllocError),
            Err(_) => return Ok(Reading::Nothing),
        };
        match lower_file(alloc, &names, self) {
            Ok(_) => Ok(Reading::Lowered),
            Err(BuildFault::NoMemory) => Err(AllocError),
            Err(fault) => Ok(Reading::Refused(fault)),
        }
    }
}

/// What is lowered under the names of another; both are let go of.
fn lowered_of<T: Lowers + Drop>(alloc: Global, own: T, left: T) -> Result<Reading, AllocError>
    ensures { IfOk result (T.reads own left) }
{
    left.lowered(alloc, &own)
}

/// Nothing, where it isn't memory that is wanted.
fn unread(fault: ParseFault) -> Result<Reading, AllocError>
    ensures { IfOk result (IsUnread fault) }
{
    match fault {
        ParseFault::NoMemory => Err(AllocError),
        ParseFault::Unexpected { .. }
        | ParseFault::EndOfFile { .. }
        | ParseFault::LeftOut { .. }
        | ParseFault::TooDeep { .. } => Ok(Reading::Nothing),
    }
}

/// What there is to read of tokens under the names that others declare.
fn read_all<'a>(
    alloc: Global,
    tokens: &[Token<'a>],
    left: &[Token<'a>],
) -> Result<Reading, AllocError>
    ensures { IfOk result (Reads tokens.now (map parts_of left.now)) }
{
    let own = match parse(alloc, tokens) {
        Ok(own) => own,
        Err(fault) => return unread(fault),
    };
    match parse(alloc, left) {
        Ok(spec) => lowered_of(alloc, own, spec),
        Err(fault) => unread(fault),
    }
}

/// What there is to read without the parts from the number on, and without these.
pub(crate) fn read_left(
    alloc: Global,
    tokens: &[Token<'_>],
    kept: usize,
    refused: &[usize],
) -> Result<Reading, AllocError>
    ensures { IfOk result (Reads tokens.now (left kept refused.now tokens.now)) }
{
    let left = left_of(alloc, tokens, kept, refused)?;
    read_all(alloc, tokens, left.as_slice())
}
