//! The tokens of a whole source, one step after another.

ghost use Rattle.std.specs.Prelude.{◌≡◌, ◌<◌, ◌≤◌, ◌-◌, ◌++◌, ◌∷◌, [], ℕ, List, length, take, drop, slice_index, slice_range, false, IfErr, IfOk};
ghost use Rattle.std.specs.Bool.{OnFalse};
ghost use Rattle.idl_lexer.specs.declared.fault.LexFault.TheVariants.{NoMemory};
ghost use Rattle.idl_lexer.specs.declared.token.Token.{Token};
ghost use Rattle.idl_lexer.specs.Lexemes.{HasNoForm};
ghost use Rattle.idl_lexer.specs.inner.Steps.{HasNoWord, IsLexeme};
ghost use Rattle.idl_lexer.specs.Punctuation.{is_punctuation};
ghost use Rattle.idl_lexer.specs.Faults.{IsFault, IsFaultAt, IsWordFault};
ghost use Rattle.idl_lexer.specs.Refusal.{wants_memory};
ghost use Rattle.idl_lexer.specs.Forms.{Begins};
ghost use Rattle.idl_lexer.specs.Tokens.{HaveLines, Lexed, end_of};

use crate::comment::block_comment;
use crate::directive::directive;
use crate::fault::{LexFault, Start};
use crate::lexeme::Lexeme;
use crate::literal::{char_literal, text_literal};
use crate::number::integer;
use crate::octets::{blank_len, is_blank_octet, line_feeds, line_len};
use crate::punct::punct_len;
use crate::token::{Kind, Token};
use crate::word::word;
use std::alloc::Global;

/// The mark of punctuation or the word at the front.
fn mark_or_word(octets: &[u8], start: Start) -> Result<Lexeme, LexFault>
    ensures form { IfOk result (λ l. (before : List ℕ) → IsLexeme before octets.now l) }
    ensures no_mark { IfErr result (λ _. (n : ℕ) → is_punctuation octets.now n ≡ false) }
    ensures no_word { IfErr result (λ _. HasNoWord octets.now) }
    ensures told { IfErr result (IsWordFault octets.now start) }
{
    match punct_len(octets) {
        Some(len) => Ok(Lexeme::token(Kind::Punct, len)),
        None => match word(octets, start) {
            Ok((kind, len)) => Ok(Lexeme::token(kind, len)),
            Err(fault) => Err(fault),
        },
    }
}

/// The octet at a place; 0 past the end.
fn octet_at(octets: &[u8], at: usize) -> u8
    ensures { result ≡ slice_index octets.now at }
{
    match octets.get(at) {
        Some(octet) => *octet,
        None => 0,
    }
}

/// What the octets begin with, behind those before them.
fn lexeme(before: &[u8], octets: &[u8], start: Start) -> Result<Lexeme, LexFault>
    ensures form { IfOk result (λ l. IsLexeme before.now octets.now l) }
    ensures refused { IfErr result (λ _. HasNoForm before.now octets.now) }
    ensures told { IfErr result (IsFaultAt before.now octets.now start) }
{
    let (first, second) = (octet_at(octets, 0), octet_at(octets, 1));
    match first {
        b'#' => directive(before, octets, start),
        b'/' if second == b'/' => Ok(Lexeme::skipped(line_len(octets))),
        b'/' if second == b'*' => Ok(Lexeme::skipped(block_comment(octets, start)?)),
        b'\'' => Ok(Lexeme::token(Kind::CharLit, char_literal(octets, start)?)),
        b'"' => Ok(Lexeme::token(Kind::TextLit, text_literal(octets, start)?)),
        _ if first.is_ascii_digit() => Ok(Lexeme::token(Kind::Number, integer(octets, start)?)),
        _ if is_blank_octet(first) => Ok(Lexeme::skipped(blank_len(octets))),
        _ => mark_or_word(octets, start),
    }
}

/// The token that the source has from one place to another.
fn token(source: &str, kind: Kind, start: usize, end: usize, line: u32) -> Token<'_>
    requires rises { start < end }
    requires within { end ≤ length source.now }
    requires form { Begins kind (take start source.now) (drop start source.now) (end - start) }
    ensures kind { result.kind ≡ kind }
    ensures text { result.text.now ≡ slice_range source.now start end }
    ensures start { result.start ≡ start }
    ensures stop { end_of result ≡ end }
    ensures line { result.line ≡ line }
{
    Token {
        kind,
        line,
        text: &source[start..end],
        start,
    }
}

/// The line of a token. Want of memory is told where it has no place there.
fn line_of(line: usize) -> Result<u32, LexFault>
    ensures found { IfOk result (λ found. found ≡ line) }
    ensures memory { IfErr result (λ fault. fault ≡ NoMemory) }
{
    match u32::try_from(line) {
        Ok(line) => Ok(line),
        Err(_) => Err(LexFault::NoMemory),
    }
}

fn add<'a>(tokens: &mut Vec<Token<'a>>, token: Token<'a>) -> Result<(), LexFault>
    ensures added { IfOk result (λ _. tokens.new.items ≡ tokens.old.items ++ token.entry ∷ []) }
    ensures memory { IfErr result (λ fault. fault ≡ NoMemory) }
{
    tokens.push(token)?;
    Ok(())
}

/// The tokens of an IDL source in order, with the pragmas for repository ids among them
/// (ISO/IEC 19500-1, lexical conventions).
///
/// The source is a preprocessor's output in UTF-8, of ASCII outside comments. Together with what is
/// skipped (blanks, comments, markers of lines and other pragmas) the tokens make up the source.
///
/// # Errors
///
/// The first fault in the order of reading, with its line, and `NoMemory` where memory was refused or
/// a token stands past line 4,294,967,295.
pub fn lex(alloc: Global, source: &str) -> Result<Vec<Token<'_>>, LexFault>
    ensures lexed { IfOk result (λ tokens. Lexed source.now tokens.items) }
    ensures lines { IfOk result (λ tokens. HaveLines source.now tokens.items) }
    ensures refused { IfErr result (λ fault. OnFalse (wants_memory fault)
        ((tokens : List Token) → Lexed source.now tokens → ⊥)) }
    ensures told { IfErr result (λ fault. OnFalse (wants_memory fault) (IsFault source.now fault)) }
{
    let octets = source.as_bytes();
    let mut tokens = Vec::new(alloc);
    let mut at = 0;
    let mut line = 1;
    while at < octets.len() {
        let (before, rest) = octets.split_at(at);
        let found = lexeme(before, rest, Start { line, octet: at })?;
        let end = at + found.len;
        match found.kind {
            Some(kind) => {
                let line = line_of(line)?;
                add(&mut tokens, token(source, kind, at, end, line))?;
            }
            None => line += line_feeds(rest.split_at(found.len).0),
        }
        at = end;
    }
    Ok(tokens)
}
