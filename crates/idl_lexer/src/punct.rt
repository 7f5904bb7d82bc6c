//! Punctuation (ISO/IEC 19500-1, lexical conventions).

ghost use Rattle.std.specs.Prelude.{◌≡◌, ◌≤◌, ◌<◌, ℕ, length, IfNone, IfSome, false, true};
ghost use Rattle.idl_lexer.specs.Punctuation.{is_punctuation};

const MARKS: &[u8] = b"{};:,()=<>[]|^&+-*/%";

/// How long the mark of punctuation at the front is, if one is there.
pub(crate) fn punct_len(octets: &[u8]) -> Option<usize>
    ensures form { IfSome result (λ n. is_punctuation octets.now n ≡ true) }
    ensures within { IfSome result (λ n. n ≤ length octets.now) }
    ensures long { IfSome result (λ n. 0 < n) }
    ensures none { IfNone result ((n : ℕ) → is_punctuation octets.now n ≡ false) }
{
    match octets {
        [b':', b':', ..] | [b'<', b'<', ..] => Some(2),
        [b'/', b'/' | b'*', ..] => None,
        [first, ..] if MARKS.contains(first) => Some(1),
        _ => None,
    }
}
