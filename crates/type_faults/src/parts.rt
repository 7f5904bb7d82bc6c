//! The parts of a specification, as its tokens show them.

ghost use Rattle.std.specs.Prelude.{◌≡◌, ◌<◌, ◌^◌, ◌+◌, ◌≤◌, length, map, IfOk, codes};
ghost use Rattle.idl_lexer.specs.Tokens.{parts_of};
ghost use Rattle.type_faults.specs.Parts.{after, begins_head, begins_part, begun, depth_behind, ends_head, ends_part, is_in_part, is_left_out, is_pragma, is_text, left, mode_behind, seen_as};
ghost use Rattle.type_faults.specs.inner.Searched.{HasRoom};

use idl_lexer::{Kind, Token};
use std::alloc::{AllocError, Global};

/// Where a token stands.
#[derive(Clone, Copy)]
pub enum Mode {
    /// Where a part may begin.
    Between,
    /// In the head of a module or an interface.
    Head,
    /// In a part of which so many braces are open.
    Within(usize),
}

/// What is known before a token: where it stands, and how many parts have ended.
#[derive(Clone, Copy)]
pub struct Scan {
    pub mode: Mode,
    pub parts: usize,
}

/// What is written in the place of a token that is left out.
const PRAGMA: &str = "#pragma prefix \"\"";

fn has_text(token: &Token<'_>, text: &str) -> bool
    ensures { result ≡ is_text text.now (parts_of token.now) }
{
    token.text == text
}

fn begins_a_head(token: &Token<'_>) -> bool
    ensures { result ≡ begins_head (parts_of token.now) }
{
    has_text(token, "module") || has_text(token, "interface")
}

fn ends_a_head(token: &Token<'_>) -> bool
    ensures { result ≡ ends_head (parts_of token.now) }
{
    has_text(token, "{") || has_text(token, ";")
}

fn is_a_pragma(token: &Token<'_>) -> bool
    ensures { result ≡ is_pragma (parts_of token.now) }
{
    token.kind == Kind::Pragma
}

fn begins_a_part(token: &Token<'_>) -> bool
    ensures { result ≡ begins_part (parts_of token.now) }
{
    !(is_a_pragma(token) || has_text(token, "}") || has_text(token, ";") || begins_a_head(token))
}

fn ends_a_part(depth: usize, token: &Token<'_>) -> bool
    ensures { result ≡ ends_part depth (parts_of token.now) }
{
    has_text(token, ";") && depth == 0
}

fn depth_after(depth: usize, token: &Token<'_>) -> usize
    requires { depth + 1 < 2 ^ 64 }
    ensures { result ≡ depth_behind depth (parts_of token.now) }
{
    if has_text(token, "{") {
        depth + 1
    } else if has_text(token, "}") {
        depth.saturating_sub(1)
    } else {
        depth
    }
}

fn mode_between(token: &Token<'_>) -> Mode
    ensures { result ≡ mode_behind Mode.Between (parts_of token.now) }
{
    if begins_a_head(token) {
        Mode::Head
    } else if begins_a_part(token) {
        Mode::Within(0)
    } else {
        Mode::Between
    }
}

fn mode_in_head(token: &Token<'_>) -> Mode
    ensures { result ≡ mode_behind Mode.Head (parts_of token.now) }
{
    if ends_a_head(token) {
        Mode::Between
    } else {
        Mode::Head
    }
}

impl Scan {
    fn new() -> Scan
        ensures { result ≡ begun }
    {
        Scan {
            mode: Mode::Between,
            parts: 0,
        }
    }

    /// What is known behind the token, which stands in a part.
    fn after_within(self, depth: usize, token: &Token<'_>) -> Scan
        requires mode { self.mode ≡ Mode.Within depth }
        requires depth { depth + 1 < 2 ^ 64 }
        requires parts { self.parts + 1 < 2 ^ 64 }
        ensures { result ≡ after self (parts_of token.now) }
    {
        if ends_a_part(depth, token) {
            Scan {
                mode: Mode::Between,
                parts: self.parts + 1,
            }
        } else {
            Scan {
                mode: Mode::Within(depth_after(depth, token)),
                parts: self.parts,
            }
        }
    }

    /// What is known behind the token.
    fn after(self, token: &Token<'_>) -> Scan
        requires { HasRoom self }
        ensures { result ≡ after self (parts_of token.now) }
    {
        let parts = self.parts;
        match self.mode {
            Mode::Between => Scan {
                mode: mode_between(token),
                parts,
            },
            Mode::Head => Scan {
                mode: mode_in_head(token),
                parts,
            },
            Mode::Within(depth) => self.after_within(depth, token),
        }
    }

    /// Whether the token stands in a part.
    fn is_within(self, token: &Token<'_>) -> bool
        ensures { result ≡ is_in_part self.mode (parts_of token.now) }
    {
        match self.mode {
            Mode::Between => begins_a_part(token),
            Mode::Head => false,
            Mode::Within(_) => true,
        }
    }
}

/// Whether a part is left out: it is such a one or stands behind it, or is one of these.
fn is_out(kept: usize, refused: &[usize], part: usize) -> bool
    ensures { result ≡ is_left_out kept refused.now part }
{
    part >= kept || refused.contains(&part)
}

/// A token as it is, or a pragma at its place.
fn seen_or_pragma<'a>(is_left_out: bool, token: &Token<'a>) -> Token<'a>
    ensures { parts_of result ≡ seen_as is_left_out (parts_of token.now) }
{
    if !is_left_out {
        return *token;
    }
    Token {
        kind: Kind::Pragma,
        text: PRAGMA,
        start: token.start,
        line: token.line,
    }
}

/// The tokens without the parts from the number on, and without these.
pub(crate) fn left_of<'a>(
    alloc: Global,
    tokens: &[Token<'a>],
    kept: usize,
    refused: &[usize],
) -> Result<Vec<Token<'a>>, AllocError>
    ensures { IfOk result (λ tokens'. map parts_of tokens'.items ≡ left kept refused.now tokens.now) }
{
    let mut left = Vec::new(alloc);
    let mut scan = Scan::new();
    for token in tokens {
        let is_left_out = scan.is_within(token) && is_out(kept, refused, scan.parts);
        left.push(seen_or_pragma(is_left_out, token))?;
        scan = scan.after(token);
    }
    Ok(left)
}

/// In which part a token stands, by the numbers of both; it may stand before that part.
pub(crate) fn part_at(tokens: &[Token<'_>], number: usize) -> usize {
    let (before, _) = tokens.split_at(number.min(tokens.len()));
    let mut scan = Scan::new();
    for token in before {
        scan = scan.after(token);
    }
    scan.parts
}
