//! What is known of a fault.

use crate::all_names::name_faults_in;
use crate::grammar::of_grammar;
use crate::names::of_names;
use crate::tokens::of_tokens;
use crate::types::of_types;
use idl_compiler::CompileFault;
use idl_lexer::{Token, lex};
use model_builder::TypeFault;
use scoped_names::NameFaults;
use std::alloc::{AllocError, Global};
use std::str;
use type_faults::{TypeFaults, type_faults};

/// What else stands somewhere.
#[derive(Clone, Copy, Debug)]
pub struct Note {
    pub octet: usize,
    pub what: &'static str,
}

/// How many faults are told.
const MOST: usize = 20;

/// What is known of a fault.
#[derive(Drop)]
pub struct Known {
    /// The number of the refusal.
    pub number: u8,
    /// Where it stands in the source.
    pub octet: usize,
    /// A sentence without its full stop.
    pub sentence: String,
    /// The first of two things that clash.
    pub first: Option<Note>,
    /// The second of two, neither of which stands at the octet.
    pub second: Option<Note>,
}

impl Known {
    /// A fault at an octet, with the two things that clash, where they are known; None of what has no
    /// number.
    pub(crate) fn new(
        fault: CompileFault,
        octet: usize,
        sentence: String,
        (first, second): (Option<Note>, Option<Note>),
    ) -> Option<Known> {
        Some(Known {
            number: fault.number()?,
            octet,
            sentence,
            first,
            second,
        })
    }

    /// The same, of which no other place is known.
    pub(crate) fn alone(fault: CompileFault, octet: usize, sentence: String) -> Option<Known> {
        Known::new(fault, octet, sentence, (None, None))
    }
}

/// What is known of the faults of a file: of all that its names or its types have, or else of the
/// first.
#[derive(Drop)]
pub struct AllKnown {
    /// The first of them.
    pub known: Vec<Known>,
    /// How many were found.
    pub count: u64,
    /// Whether all were found.
    pub is_all: bool,
}

impl AllKnown {
    /// One fault more. What clashes is often told twice at its name, as a declaration and as a
    /// definition: once is enough.
    fn add(&mut self, known: Known) -> Result<(), AllocError> {
        let is_told = match self.known.last() {
            Some(last) => last.number == known.number && last.octet == known.octet,
            None => false,
        };
        if is_told {
            self.count = self.count.saturating_sub(1);
            return Ok(());
        }
        self.known.push(known)?;
        Ok(())
    }
}

/// A fault that is told alone, if something is known of it.
fn only(alloc: Global, known: Option<Known>) -> Result<AllKnown, AllocError> {
    let mut all = AllKnown {
        known: Vec::new(alloc),
        count: 1,
        is_all: true,
    };
    if let Some(known) = known {
        all.known.push(known)?;
    }
    Ok(all)
}

/// What is known of faults of names.
fn of_faults(
    alloc: Global,
    tokens: &[Token<'_>],
    faults: &NameFaults,
) -> Result<AllKnown, AllocError> {
    let mut all = AllKnown {
        known: Vec::new(alloc),
        count: faults.count,
        is_all: true,
    };
    for fault in faults.first.as_slice() {
        if let Some(known) = of_names(alloc, tokens, *fault)? {
            all.add(known)?;
        }
    }
    Ok(all)
}

/// What is known of the faults of the names of a file's tokens.
fn of_all_names(alloc: Global, tokens: &[Token<'_>]) -> Result<AllKnown, AllocError> {
    match name_faults_in(alloc, tokens, MOST) {
        Ok(faults) => of_faults(alloc, tokens, &faults),
        Err(_) => only(alloc, None),
    }
}

/// What is known of faults of types, of which so many at most are told.
fn of_each_type(
    alloc: Global,
    tokens: &[Token<'_>],
    faults: &TypeFaults,
) -> Result<AllKnown, AllocError> {
    let found = faults.first.as_slice();
    let mut all = AllKnown {
        known: Vec::new(alloc),
        count: found.len() as u64,
        is_all: faults.is_all,
    };
    for fault in found.iter().take(MOST) {
        if let Some(known) = of_types(alloc, tokens, *fault)? {
            all.add(known)?;
        }
    }
    Ok(all)
}

/// What is known of the faults of the types of a file's tokens. The first is told alone where no part
/// of the file is refused: one of a type that holds itself, or of a path.
fn of_all_types(
    alloc: Global,
    tokens: &[Token<'_>],
    first: TypeFault,
) -> Result<AllKnown, AllocError> {
    let faults = type_faults(alloc, tokens, MOST + 1)?;
    if faults.first.is_empty() {
        only(alloc, of_types(alloc, tokens, first)?)
    } else {
        of_each_type(alloc, tokens, &faults)
    }
}

/// The tokens of a file; None where it has none.
fn tokens_of(alloc: Global, source: &[u8]) -> Option<Vec<Token<'_>>> {
    let Ok(text) = str::from_utf8(source) else {
        return None;
    };
    lex(alloc, text).ok()
}

/// What is known of a fault of a file with these tokens.
fn of_tree(
    alloc: Global,
    tokens: &[Token<'_>],
    fault: &CompileFault,
) -> Result<AllKnown, AllocError> {
    match fault {
        CompileFault::Grammar(fault) => only(alloc, of_grammar(alloc, tokens, *fault)?),
        CompileFault::Names(_) => of_all_names(alloc, tokens),
        CompileFault::Types(fault) => of_all_types(alloc, tokens, *fault),
        _ => only(alloc, None),
    }
}

/// What is known of the faults of a file, of which this is the first: of all that its names or its
/// types have, or of it alone. Of what has no number nothing is known.
pub fn known_of(
    alloc: Global,
    source: &[u8],
    fault: &CompileFault,
) -> Result<AllKnown, AllocError> {
    match fault {
        CompileFault::Tokens(fault) => only(alloc, of_tokens(alloc, source, *fault)?),
        CompileFault::TooLong | CompileFault::NoMemory => only(alloc, None),
        fault => match tokens_of(alloc, source) {
            Some(tokens) => of_tree(alloc, &tokens, fault),
            None => only(alloc, None),
        },
    }
}
