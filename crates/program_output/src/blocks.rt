//! Runs of octets that go to an output unless something in them is sought.

ghost use Rattle.std.specs.Prelude.{◌≡◌, ◌≤◌, ◌++◌, false, length, take, IfOk};
ghost use Rattle.std.specs.List.{list_any};

use crate::lanes::{LANES, Sought, has, is_in_first_chunk};
use crate::output::Output;
use std::alloc::AllocError;

/// So many octets are looked at and then copied, while they lie in the nearest cache; at the end up to twice as many.
const BLOCK: usize = 8192;

/// A block of a run at the end, unless one of its octets is sought: whether one is.
fn push_block<S: Sought>(out: &mut Output<'_>, block: &[u8]) -> Result<bool, AllocError>
    ensures found { IfOk result (λ found. found ≡ list_any S.is_sought block.now) }
    ensures pushed { IfOk result (λ found. found ≡ false → out.new ≡ out.old ++ block.now) }
{
    if has::<S>(block) {
        return Ok(true);
    }
    out.push_many(block)?;
    Ok(false)
}

/// A run at the end, block by block up to one where an octet is sought: whether there is one.
#[inline(never)]
fn push_blocks<S: Sought>(out: &mut Output<'_>, octets: &[u8]) -> Result<bool, AllocError>
    ensures found { IfOk result (λ found. found ≡ list_any S.is_sought octets.now) }
    ensures pushed { IfOk result (λ found. found ≡ false → out.new ≡ out.old ++ octets.now) }
{
    let mut rest = octets;
    while rest.len() > 2 * BLOCK {
        let (block, more) = rest.split_at(BLOCK);
        if push_block::<S>(out, block)? {
            return Ok(true);
        }
        rest = more;
    }
    push_block::<S>(out, rest)
}

/// A few octets at the end, one by one up to one that is sought: whether there is one.
#[inline(always)]
fn push_each<S: Sought>(out: &mut Output<'_>, octets: &[u8]) -> Result<bool, AllocError>
    ensures found { IfOk result (λ found. found ≡ list_any S.is_sought octets.now) }
    ensures pushed { IfOk result (λ found. found ≡ false → out.new ≡ out.old ++ octets.now) }
{
    let mut rest = octets;
    while let Some((octet, more)) = rest.split_first() {
        if S::is(*octet) {
            return Ok(true);
        }
        out.push_few::<1>(rest, 1)?;
        rest = more;
    }
    Ok(false)
}

/// So many octets of a front at the end, unless one of them is sought: whether one is.
#[inline(always)]
pub fn push_unless<S: Sought>(
    out: &mut Output<'_>,
    octets: &[u8],
    n: usize,
) -> Result<bool, AllocError>
    requires { n ≤ length octets.now }
    ensures found { IfOk result (λ found. found ≡ list_any S.is_sought (take n octets.now)) }
    ensures pushed { IfOk result (λ found. found ≡ false → out.new ≡ out.old ++ take n octets.now) }
{
    if n > LANES {
        return push_blocks::<S>(out, &octets[..n]);
    }
    if octets.len() < LANES {
        return push_each::<S>(out, &octets[..n]);
    }
    if is_in_first_chunk::<S>(octets, n) {
        return Ok(true);
    }
    out.push_few::<LANES>(octets, n)?;
    Ok(false)
}
