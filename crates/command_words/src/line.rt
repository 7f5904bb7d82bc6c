//! The words of a command line.

ghost use Rattle.std.specs.Prelude.{◌≡◌, ◌≢◌, Bool, IsErr, IsErrAnd, IfErr, IfOk, MatchResult, Err, Some, true};
ghost use Rattle.clap.specs.Words.{kind_of};
ghost use Rattle.command_words.specs.Ask.{Asked, asked_of};
ghost use Rattle.command_words.specs.Mistake.{IsOfWords};
ghost use Rattle.command_words.specs.Words.{AreReadAs, AreRefused, AskToExplain, AsksFor, HaveExplain, IsMistaken, texts};

use crate::commands::program;
use crate::matches::line_in;
use crate::mistake::Mistake;
use crate::spoken::spoken;
use crate::task::{Line, Said};
use clap::error::ErrorKind;
use std::alloc::Global;

const ORDERS: [&str; 2] = ["big", "little"];

/// Whether the words name a command that takes a byte order, the only word of it that has to be one
/// of a few.
fn has_order(words: &[&str]) -> bool {
    match words.get(1) {
        Some(name) => *name == "encode" || *name == "decode",
        None => false,
    }
}

/// The text of asked-for help, or the fault.
fn help_or_fault<'a>(
    alloc: Global,
    has_order: bool,
    error: clap::Error,
) -> Result<Line<'a>, Mistake>
    ensures memory { kind_of error ≡ ErrorKind.OutOfMemory → result ≡ Err Mistake.NoMemory }
    ensures order { has_order ≡ true → kind_of error ≡ ErrorKind.InvalidValue → result ≡ Err (Mistake.BadOrder error) }
    ensures help { kind_of error ≡ ErrorKind.DisplayHelp
        → IfErr result (λ fault. fault ≡ Mistake.NoMemory) }
    ensures usage { kind_of error ≢ ErrorKind.DisplayHelp
        → kind_of error ≢ ErrorKind.DisplayVersion → IsErr result }
    ensures err { IfErr result IsOfWords }
{
    match error.kind() {
        ErrorKind::OutOfMemory => Err(Mistake::NoMemory),
        ErrorKind::InvalidValue if has_order => Err(Mistake::BadOrder(error)),
        _ if error.use_stderr() => Err(Mistake::Usage(error)),
        _ => Ok(Line {
            said: Said::Help(format!(in alloc; "{error}")?),
            explains: false,
        }),
    }
}

/// What words say, as `clap` reads them.
fn read<'a>(alloc: Global, words: &'a [&'a str]) -> Result<Line<'a>, Mistake>
    ensures asked { (asked : Asked) → AreReadAs (texts words.now) asked → MatchResult result
        (λ line. asked_of line.said ≡ Some asked) (λ fault. fault ≡ Mistake.NoMemory) }
    ensures explains { (explains : Bool) → HaveExplain (texts words.now) explains
        → IfOk result (λ line. line.explains ≡ explains) }
    ensures mistaken { AreRefused (texts words.now) → IsErrAnd result IsOfWords }
{
    match program(alloc, ORDERS.as_slice())?.try_get_matches_from(words) {
        Err(error) => help_or_fault(alloc, has_order(words), error),
        Ok(matches) => line_in(&matches),
    }
}

/// What the words of a run say. A text that begins with a minus is a value to encode too.
///
/// # Errors
/// What `clap` says of words that aren't those of a command; `HexOrText`. Want of memory.
pub fn parse<'a>(alloc: Global, words: &'a [&'a str]) -> Result<Line<'a>, Mistake>
    ensures asked { (asked : Asked) → AsksFor (texts words.now) asked → MatchResult result
        (λ line. asked_of line.said ≡ Some asked) (λ fault. fault ≡ Mistake.NoMemory) }
    ensures explains { (explains : Bool) → AskToExplain (texts words.now) explains
        → IfOk result (λ line. line.explains ≡ explains) }
    ensures mistaken { IsMistaken (texts words.now) → IsErrAnd result IsOfWords }
{
    let said = spoken(alloc, words)?;
    read(alloc, said)
}
