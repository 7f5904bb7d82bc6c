//! Faults of names, constants and repository ids.

use crate::facts::{Known, Note};
use crate::grammar::octet_at;
use crate::words::{name_at, text_at};
use idl_compiler::CompileFault;
use idl_lexer::Token;
use idl_tree::names::At;
use scoped_names::{EntryKind, Flaw, NameFault, Unfit};
use std::alloc::{AllocError, Global};

fn kind_words(kind: EntryKind) -> &'static str {
    match kind {
        EntryKind::Module => "a module",
        EntryKind::Interface => "an interface",
        EntryKind::Struct => "a structure",
        EntryKind::Union => "a union",
        EntryKind::Enum => "an enumeration",
        EntryKind::Enumerator => "an enumerator",
        EntryKind::Typedef => "a typedef",
        EntryKind::Const => "a constant",
        EntryKind::Exception => "an exception",
        EntryKind::Operation => "an operation",
        EntryKind::Attribute => "an attribute",
    }
}

fn flaw_words(why: Flaw) -> &'static str {
    match why {
        Flaw::NoConstant => "a name in the expression is that of no constant and no enumerator",
        Flaw::NoWorth => {
            "the expression has no value: it divides by zero, leaves 128 bits, shifts by more than \
             63, or joins what are no whole numbers"
        }
        Flaw::NotOfType => "the value is none of the constant's type",
        Flaw::NotPositive => "a bound or a size has to be a whole number of at least 1",
    }
}

fn unfit_words(why: Unfit) -> &'static str {
    match why {
        Unfit::NotDefined => "is no interface that is defined before",
        Unfit::NamedTwice => "is a base already",
        Unfit::FeatureTwice => "has an operation or an attribute of the name of another base's",
    }
}

/// The sentence of a fault behind the name.
fn behind_name(fault: NameFault) -> &'static str {
    match fault {
        NameFault::Unknown { .. } => "isn't declared before it",
        NameFault::Collides { .. } => "is the name of the scope itself",
        NameFault::CaseDiffers { .. } => "is declared in letters of another case",
        NameFault::Ambiguous { .. } => "is declared by two bases, each as something else",
        NameFault::BadBase { why, .. } => unfit_words(why),
        NameFault::PrefixDiffers { .. } => "was declared ahead under another prefix",
        _ => "can't stand here",
    }
}

/// Whether the identifier is that of a structure or a union that is declared ahead there: nothing else
/// has a name behind one of these keywords.
fn is_ahead(tokens: &[Token<'_>], at: At) -> bool {
    let before = text_at(tokens, at.token.wrapping_sub(1));
    before == "struct" || before == "union"
}

/// The sentences for names that are declared in other words too.
fn known_twice(
    alloc: Global,
    tokens: &[Token<'_>],
    fault: NameFault,
    name: &str,
) -> Result<Option<String>, AllocError> {
    let said = match fault {
        NameFault::Unknown { at } if is_ahead(tokens, at) => {
            format!(in alloc; "'{name}' is declared ahead and never defined")?
        }
        NameFault::Collides {
            other: Some(other),
            ..
        } => {
            let other = text_at(tokens, other.token);
            format!(in alloc; "'{name}' is declared already, as '{other}'")?
        }
        NameFault::CaseDiffers {
            other: Some(other),
            ..
        } => {
            let other = text_at(tokens, other.token);
            format!(in alloc; "'{name}' is declared as '{other}'")?
        }
        NameFault::NotAType {
            found: Some(kind),
            ..
        } => {
            let kind = kind_words(kind);
            format!(in alloc; "'{name}' is {kind}, which can't stand here")?
        }
        _ => return Ok(None),
    };
    Ok(Some(said))
}

/// The sentences that don't begin with a name.
fn own_words(fault: NameFault) -> Option<&'static str> {
    match fault {
        NameFault::IdTwice { .. } => Some("another pragma gives the name another id or version"),
        NameFault::BadConstant { why, .. } => Some(flaw_words(why)),
        NameFault::PrefixInScope { .. } => {
            Some("a pragma prefix can't stand inside a module or an interface")
        }
        _ => None,
    }
}

fn sentence_of(
    alloc: Global,
    tokens: &[Token<'_>],
    at: At,
    fault: NameFault,
) -> Result<String, AllocError> {
    if let Some(words) = own_words(fault) {
        return String::from_str(alloc, words);
    }
    let name = name_at(alloc, tokens, at.token)?;
    if let Some(said) = known_twice(alloc, tokens, fault, name.as_str())? {
        return Ok(said);
    }
    let words = behind_name(fault);
    format!(in alloc; "'{name}' {words}")
}

fn note(tokens: &[Token<'_>], at: Option<At>, what: &'static str) -> Option<Note> {
    match at {
        Some(at) => Some(Note {
            octet: octet_at(tokens, at.token),
            what,
        }),
        None => None,
    }
}

/// What else stands somewhere.
fn notes(tokens: &[Token<'_>], fault: NameFault) -> (Option<Note>, Option<Note>) {
    match fault {
        NameFault::Collides { other, .. } => (note(tokens, other, "the first declaration"), None),
        NameFault::CaseDiffers { other, .. } => (note(tokens, other, "the declaration"), None),
        NameFault::Ambiguous { one, other, .. } => (
            note(tokens, one, "one declaration"),
            note(tokens, other, "the other declaration"),
        ),
        NameFault::IdTwice { other, .. } => (note(tokens, Some(other), "the first pragma"), None),
        NameFault::PrefixDiffers { other, .. } => {
            (note(tokens, other, "the first declaration"), None)
        }
        _ => (None, None),
    }
}

/// What is known of the fault.
pub(crate) fn of_names(
    alloc: Global,
    tokens: &[Token<'_>],
    fault: NameFault,
) -> Result<Option<Known>, AllocError> {
    let Some(at) = fault.at() else {
        return Ok(None);
    };
    let sentence = sentence_of(alloc, tokens, at, fault)?;
    let octet = octet_at(tokens, at.token);
    let notes = notes(tokens, fault);
    Ok(Known::new(CompileFault::Names(fault), octet, sentence, notes))
}
