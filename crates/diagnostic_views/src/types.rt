//! Faults of types.

use crate::facts::{Known, Note};
use crate::grammar::octet_at;
use crate::words::text_at;
use idl_compiler::CompileFault;
use idl_lexer::Token;
use model_builder::{FirstAnswer, LabelWorth, TypeFault, TypeKind};
use std::alloc::{AllocError, Global};
use type_graph::{GraphLimit, Values};

fn kind_words(kind: TypeKind) -> &'static str {
    match kind {
        TypeKind::Integer => "an integer",
        TypeKind::Char => "a character",
        TypeKind::Boolean => "a boolean",
        TypeKind::Octet => "an octet",
        TypeKind::Enum => "an enumeration",
        TypeKind::String => "a string",
        TypeKind::Sequence => "a sequence",
        TypeKind::Array => "an array",
        TypeKind::Struct => "a structure",
        TypeKind::Union => "a union",
        TypeKind::Object => "a reference to an object",
    }
}

/// Of what a limit says how many there may be.
fn limit_words(which: GraphLimit) -> &'static str {
    match which {
        GraphLimit::Nodes => "types, those that each file has counted",
        GraphLimit::Members => "members or labels of one type",
        GraphLimit::AllMembers => "members and labels of all types together",
        GraphLimit::Enumerators => "enumerators of one enumeration",
        GraphLimit::Path => "types one inside another without a sequence between",
        GraphLimit::Bound => "elements or characters as a bound",
        GraphLimit::Size => "elements of an array",
    }
}

fn label_sentence(
    alloc: Global,
    found: LabelWorth,
    kind: TypeKind,
    values: Values,
) -> Result<String, AllocError> {
    let words = kind_words(kind);
    match found {
        LabelWorth::Integer(label) if kind == TypeKind::Integer => {
            let (least, most) = (values.least, values.end.saturating_sub(1));
            format!(in alloc; "the label is {label}, and the switch is of {least} to {most}")
        }
        LabelWorth::Integer(label) => {
            format!(in alloc; "the label is {label}, and the switch is of {words}")
        }
        LabelWorth::Boolean(_) => {
            format!(in alloc; "the label is a boolean, and the switch is of {words}")
        }
        LabelWorth::Character(_) => {
            format!(in alloc; "the label is a character, and the switch is of {words}")
        }
        LabelWorth::Text => format!(in alloc; "the label is a text, and the switch is of {words}"),
        LabelWorth::Enumerator(_) if kind == TypeKind::Enum => {
            String::from_str(alloc, "the label is an enumerator of another enumeration")
        }
        LabelWorth::Enumerator(_) => {
            format!(in alloc; "the label is an enumerator, and the switch is of {words}")
        }
    }
}

fn oneway_sentence(
    alloc: Global,
    tokens: &[Token<'_>],
    answer: FirstAnswer,
) -> Result<String, AllocError> {
    match answer {
        FirstAnswer::Result => String::from_str(alloc, "a oneway operation can't have a result"),
        FirstAnswer::Parameter(at) => {
            let name = text_at(tokens, at.token);
            format!(in alloc;
                "a oneway operation can't have the parameter '{name}', which isn't in"
            )
        }
        FirstAnswer::Exceptions => String::from_str(
            alloc,
            "a oneway operation can't raise exceptions",
        ),
    }
}

fn switch_sentence(alloc: Global, found: Option<TypeKind>) -> Result<String, AllocError> {
    match found {
        Some(kind) => format!(in alloc; "a union can't switch on {}", kind_words(kind)),
        None => String::from_str(alloc, "a union can't switch on this"),
    }
}

fn sentence_of(
    alloc: Global,
    tokens: &[Token<'_>],
    fault: TypeFault,
) -> Result<String, AllocError> {
    match fault {
        TypeFault::SelfHeld { at } => {
            let name = text_at(tokens, at.token);
            format!(in alloc; "by '{name}' the type holds itself without a sequence between")
        }
        TypeFault::LabelTwice { .. } => String::from_str(
            alloc,
            "the label stands twice in the union",
        ),
        TypeFault::LabelRange {
            found,
            kind,
            values,
            ..
        } => label_sentence(alloc, found, kind, values),
        TypeFault::DefaultNeedless { .. } => {
            String::from_str(
                alloc,
                "the labels are all values of the switch without default",
            )
        }
        TypeFault::BadSwitch { found, .. } => switch_sentence(alloc, found),
        TypeFault::Limit { which, most, .. } => {
            format!(in alloc; "there may be at most {most} {}", limit_words(which))
        }
        TypeFault::BadOneway { answer, .. } => oneway_sentence(alloc, tokens, answer),
    }
}

/// The number of the token at which the fault is told.
fn token_of(fault: TypeFault) -> usize {
    match fault {
        TypeFault::SelfHeld { at }
        | TypeFault::LabelTwice { at, .. }
        | TypeFault::LabelRange { at, .. }
        | TypeFault::DefaultNeedless { at }
        | TypeFault::BadSwitch { at, .. }
        | TypeFault::Limit { at, .. }
        | TypeFault::BadOneway { at, .. } => at.token,
    }
}

/// What is known of the fault.
pub(crate) fn of_types(
    alloc: Global,
    tokens: &[Token<'_>],
    fault: TypeFault,
) -> Result<Option<Known>, AllocError> {
    let sentence = sentence_of(alloc, tokens, fault)?;
    let octet = octet_at(tokens, token_of(fault));
    let first = match fault {
        TypeFault::LabelTwice { other, .. } => Some(Note {
            octet: octet_at(tokens, other.token),
            what: "the first of the two",
        }),
        _ => None,
    };
    let fault = CompileFault::Types(fault);
    Ok(Known::new(fault, octet, sentence, (first, None)))
}
