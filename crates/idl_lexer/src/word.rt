//! Identifiers and keywords (ISO/IEC 19500-1, lexical conventions).

ghost use Rattle.std.specs.Prelude.{◌≡◌, ◌<◌, ◌≤◌, ◌==◌, ℕ, List, map, filter, length, IfErr, IfNone, IfOk, IfSome, IsTrue, slice_index};
ghost use Rattle.std.specs.Char.{is_ascii_alphabetic};
ghost use Rattle.std.specs.List.{list_any};
ghost use Rattle.std.specs.Str.{bytes_eq, str_eq_ignore_ascii_case};
ghost use Rattle.idl_lexer.specs.Words.{is_keyword as listed, is_keyword_in_some_case as listed_in_some_case};
ghost use Rattle.idl_lexer.specs.Words.{keywords, IsIdentifier};
ghost use Rattle.idl_lexer.specs.Forms.{Begins};
ghost use Rattle.idl_lexer.specs.inner.Steps.{HasNoWord};
ghost use Rattle.idl_lexer.specs.Faults.{IsWordFault};
ghost use Rattle.idl_lexer.specs.declared.fault.LexFault.TheVariants.{KeywordCase};

use crate::fault::{LexFault, NOWHERE, Start};
use crate::octets::word_len;
use crate::token::Kind;

/// The keywords, by how many letters they have.
const KEYWORDS: [&[&str]; 12] = [
    &[],
    &[],
    &["in"],
    &["any", "out"],
    &[
        "case", "char", "enum", "home", "long", "TRUE", "uses", "void",
    ],
    &[
        "const", "emits", "FALSE", "fixed", "float", "inout", "local", "octet", "short", "union",
        "wchar",
    ],
    &[
        "custom", "double", "finder", "import", "module", "native", "Object", "oneway", "public",
        "raises", "string", "struct", "switch", "typeid",
    ],
    &[
        "boolean", "context", "default", "factory", "private", "typedef", "wstring",
    ],
    &[
        "abstract", "consumes", "multiple", "provides", "readonly", "sequence", "supports",
        "unsigned",
    ],
    &[
        "attribute",
        "component",
        "eventtype",
        "exception",
        "getraises",
        "interface",
        "publishes",
        "setraises",
        "ValueBase",
        "valuetype",
    ],
    &["primarykey", "typeprefix"],
    &["truncatable"],
];

fn keywords_of_len(len: usize) -> &'static [&'static str]
    ensures { map (λ k. k.now) result.now ≡ filter (λ k. length k == len) keywords }
{
    if len < KEYWORDS.len() {
        KEYWORDS[len]
    } else {
        &[]
    }
}

fn begins_with_letter(octets: &[u8]) -> bool
    ensures { result ≡ is_ascii_alphabetic (slice_index octets.now 0) }
{
    octets
        .first()
        .is_some_and(|octet| octet.is_ascii_alphabetic())
}

/// The word at the front, which begins with a letter: a keyword or an identifier.
fn plain_word(octets: &[u8], start: Start) -> Result<(Kind, usize), LexFault>
    requires { IsTrue (is_ascii_alphabetic (slice_index octets.now 0)) }
    ensures form { IfOk result (λ w. (before : List ℕ) → Begins w.0 before octets.now w.1) }
    ensures within { IfOk result (λ w. w.1 ≤ length octets.now) }
    ensures long { IfOk result (λ w. 0 < w.1) }
    ensures refused { IfErr result (λ _. HasNoWord octets.now) }
    ensures told { IfErr result (λ fault. fault ≡ KeywordCase start.line start.octet) }
{
    let Start { line, octet } = start;
    let len = word_len(octets);
    let word = octets.split_at(len).0;
    if !is_keyword_in_some_case(word) {
        Ok((Kind::Ident, len))
    } else if is_keyword(word) {
        Ok((Kind::Keyword, len))
    } else {
        Err(LexFault::KeywordCase { line, octet })
    }
}

/// The word at the front: a keyword, or an identifier, which an underscore may escape.
///
/// # Errors
///
/// `KeywordCase` where it is a keyword but for the case of letters, and `BadChar` where no word is
/// there.
pub(crate) fn word(octets: &[u8], start: Start) -> Result<(Kind, usize), LexFault>
    ensures form { IfOk result (λ w. (before : List ℕ) → Begins w.0 before octets.now w.1) }
    ensures within { IfOk result (λ w. w.1 ≤ length octets.now) }
    ensures long { IfOk result (λ w. 0 < w.1) }
    ensures refused { IfErr result (λ _. HasNoWord octets.now) }
    ensures told { IfErr result (IsWordFault octets.now start) }
{
    let Start { line, octet } = start;
    match octets {
        [b'_', name @ ..] if begins_with_letter(name) => Ok((Kind::Ident, word_len(name) + 1)),
        _ if begins_with_letter(octets) => plain_word(octets, start),
        _ => Err(LexFault::BadChar { line, octet }),
    }
}

/// How long the identifier at the front is, if one is there.
pub(crate) fn identifier_len(octets: &[u8]) -> Option<usize>
    ensures form { IfSome result (λ n. IsIdentifier octets.now n) }
    ensures within { IfSome result (λ n. n ≤ length octets.now) }
    ensures none { IfNone result ((n : ℕ) → IsIdentifier octets.now n → ⊥) }
{
    match word(octets, NOWHERE) {
        Ok((kind, len)) => match kind {
            Kind::Ident => Some(len),
            _ => None,
        },
        Err(_) => None,
    }
}

fn is_keyword(word: &[u8]) -> bool
    ensures { result ≡ listed word.now }
{
    is_among(keywords_of_len(word.len()), word)
}

fn is_keyword_in_some_case(word: &[u8]) -> bool
    ensures { result ≡ listed_in_some_case word.now }
{
    is_among_but_for_case(keywords_of_len(word.len()), word)
}

fn is_among(texts: &[&str], word: &[u8]) -> bool
    ensures { result ≡ list_any (λ t. bytes_eq t.now word.now) texts.now }
{
    texts.iter().any(|text| text.as_bytes() == word)
}

fn is_among_but_for_case(texts: &[&str], word: &[u8]) -> bool
    ensures { result ≡ list_any (λ t. str_eq_ignore_ascii_case t.now word.now) texts.now }
{
    texts
        .iter()
        .any(|text| text.as_bytes().eq_ignore_ascii_case(word))
}
