//! Comments (ISO/IEC 19500-1, lexical conventions, comments).

ghost use Rattle.std.specs.Prelude.{◌≡◌, ◌≤◌, ◌<◌, ℕ, length, slice_index, IfErr, IfOk};
ghost use Rattle.idl_lexer.specs.Gaps.{IsBlockComment};
ghost use Rattle.idl_lexer.specs.declared.fault.LexFault.TheVariants.{OpenComment};

use crate::fault::{LexFault, Start};
use memchr::memmem;

/// How long the comment is that the `/*` at the front begins.
///
/// # Errors
///
/// `OpenComment` where no `*/` follows.
pub(crate) fn block_comment(octets: &[u8], start: Start) -> Result<usize, LexFault>
    requires first { slice_index octets.now 0 ≡ 47 }
    requires second { slice_index octets.now 1 ≡ 42 }
    ensures form { IfOk result (λ n. IsBlockComment octets.now n) }
    ensures within { IfOk result (λ n. n ≤ length octets.now) }
    ensures long { IfOk result (λ n. 0 < n) }
    ensures refused { IfErr result (λ _. (n : ℕ) → IsBlockComment octets.now n → ⊥) }
    ensures told { IfErr result (λ fault. fault ≡ OpenComment start.line start.octet) }
{
    let Start { line, octet } = start;
    match memmem::find(octets.split_at(2).1, b"*/") {
        Some(inner) => Ok(inner + 4),
        None => Err(LexFault::OpenComment { line, octet }),
    }
}
