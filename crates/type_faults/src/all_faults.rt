//! The faults of a specification's types.

ghost use Rattle.std.specs.Prelude.{◌≡◌, ◌<◌, ◌+◌, ◌++◌, length, false, IfOk};
ghost use Rattle.type_faults.specs.AllFaults.{AreFirst, HasFault, IsLowered, told_of};
ghost use Rattle.type_faults.specs.Parts.{left};
ghost use Rattle.type_faults.specs.inner.Searched.{Finds, IsFaulty, Narrows};

use crate::parts::part_at;
use crate::reading::{Reading, read_left};
use idl_lexer::Token;
use lowered_types::{BuildFault, TypeFault};
use std::alloc::{AllocError, Global};

/// How many parts are left out.
const MOST_PARTS: usize = 64;

/// The faults of a specification's types.
#[derive(Drop)]
pub struct TypeFaults {
    /// The first of them.
    pub first: Vec<TypeFault>,
    /// Whether there are no more.
    pub is_all: bool,
}

/// What there is beside the parts that are left out.
#[derive(Drop)]
pub enum Found {
    /// The rest is lowered.
    Nothing,
    /// The number of the next part that is refused, and the fault.
    Part(usize, BuildFault),
    /// It isn't lowered, and no part is why.
    Stuck,
}

fn token_of(fault: &TypeFault) -> usize {
    match *fault {
        TypeFault::SelfHeld { at } => at.token,
        TypeFault::LabelTwice { at, .. } => at.token,
        TypeFault::LabelRange { at, .. } => at.token,
        TypeFault::DefaultNeedless { at } => at.token,
        TypeFault::BadSwitch { at, .. } => at.token,
        TypeFault::Limit { at, .. } => at.token,
        TypeFault::BadOneway { at, .. } => at.token,
    }
}

/// The part in which a fault is told; where it has no place, what no part is.
fn guess_part(tokens: &[Token<'_>], fault: &BuildFault) -> usize {
    match fault {
        BuildFault::Types(fault) => part_at(tokens, token_of(fault)),
        BuildFault::OtherNames | BuildFault::NoMemory => tokens.len(),
    }
}

/// A number between two: first the guess and the next one, then the middle.
fn between(low: usize, high: usize, guess: usize) -> usize
    requires { low + 1 < high }
    ensures above { low < result }
    ensures below { result < high }
{
    if low < guess && guess < high {
        guess
    } else if guess == low {
        low + 1
    } else {
        low + (high - low) / 2
    }
}

/// The part with which the tokens aren't lowered any more, maybe the one that is guessed.
fn narrow(
    alloc: Global,
    tokens: &[Token<'_>],
    refused: &[usize],
    guess: usize,
) -> Result<Option<usize>, AllocError>
    requires before { IsLowered tokens.now (left 0 refused.now tokens.now) }
    requires behind { IsFaulty tokens.now (left (length tokens.now) refused.now tokens.now) }
    ensures { IfOk result (Narrows tokens.now refused.now) }
{
    let mut low = 0;
    let mut high = tokens.len();
    while low + 1 < high {
        let middle = between(low, high, guess);
        match read_left(alloc, tokens, middle, refused)? {
            Reading::Lowered => low = middle,
            Reading::Refused(_) => high = middle,
            Reading::Nothing => return Ok(None),
        }
    }
    if low + 1 == high {
        Ok(Some(low))
    } else {
        Ok(None)
    }
}

/// The part that is refused, where the fault is the first.
fn find_part(
    alloc: Global,
    tokens: &[Token<'_>],
    refused: &[usize],
    fault: BuildFault,
) -> Result<Found, AllocError>
    requires { HasFault tokens.now (left (length tokens.now) refused.now tokens.now) fault }
    ensures { IfOk result (Finds tokens.now refused.now) }
{
    let guess = guess_part(tokens, &fault);
    match read_left(alloc, tokens, 0, refused)? {
        Reading::Lowered => match narrow(alloc, tokens, refused, guess)? {
            Some(part) => Ok(Found::Part(part, fault)),
            None => Ok(Found::Stuck),
        },
        Reading::Refused(_) | Reading::Nothing => Ok(Found::Stuck),
    }
}

/// The next part that is refused.
fn next_refused(alloc: Global, tokens: &[Token<'_>], refused: &[usize]) -> Result<Found, AllocError>
    ensures { IfOk result (Finds tokens.now refused.now) }
{
    match read_left(alloc, tokens, tokens.len(), refused)? {
        Reading::Lowered => Ok(Found::Nothing),
        Reading::Refused(fault) => find_part(alloc, tokens, refused, fault),
        Reading::Nothing => Ok(Found::Stuck),
    }
}

/// What a part tells. One that needs what a refused one would have declared tells nothing.
fn tell(first: &mut Vec<TypeFault>, fault: BuildFault) -> Result<(), AllocError>
    ensures { IfOk result (λ done. first.new.items ≡ first.old.items ++ told_of fault) }
{
    match fault {
        BuildFault::Types(fault) => first.push(fault)?,
        BuildFault::OtherNames | BuildFault::NoMemory => {}
    }
    Ok(())
}

/// Faults beside which there may be more.
fn cut(first: Vec<TypeFault>) -> TypeFaults
    ensures first { result.first ≡ first }
    ensures more { result.is_all ≡ false }
{
    TypeFaults {
        first,
        is_all: false,
    }
}

/// The first faults of a specification's types, so many at most, of 64 parts at most that are
/// refused: each is the first one where the parts that were refused before are left out. Of tokens
/// that are no specification, or one whose names have a fault, nothing is told. A type that holds
/// itself, and too long a path, are none of these.
///
/// # Errors
/// Want of memory.
pub fn type_faults(
    alloc: Global,
    tokens: &[Token<'_>],
    most: usize,
) -> Result<TypeFaults, AllocError>
    ensures { IfOk result (AreFirst tokens.now most) }
{
    let mut refused = Vec::new(alloc);
    let mut first = Vec::new(alloc);
    for _ in 0..MOST_PARTS {
        if first.len() >= most {
            return Ok(cut(first));
        }
        match next_refused(alloc, tokens, refused.as_slice())? {
            Found::Nothing => {
                return Ok(TypeFaults {
                    first,
                    is_all: true,
                });
            }
            Found::Part(part, fault) => {
                refused.push(part)?;
                tell(&mut first, fault)?;
            }
            Found::Stuck => return Ok(cut(first)),
        }
    }
    Ok(cut(first))
}
