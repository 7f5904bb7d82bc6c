//! Tables from the octets of a file.

ghost use Rattle.std.specs.Prelude.{◌≡◌, ◌<◌, [], length, IfErr, IfOk, IsErrAnd};
ghost use Rattle.position_checker.specs.Acceptance.{IsRight};
ghost use Rattle.idlc_c.specs.Answers.{IsFile, RefusesFile};
ghost use Rattle.idlc_c.specs.declared.refusal.Refusal.TheVariants.{TooLong};

use crate::held::{Held, Loaded};
use crate::refusal::Refusal;
use position_checker::{Accepted, check};
use std::alloc::Global;
use table_file::decode_table;

/// So many octets a table file has at most.
const MAX_LEN: usize = 16_777_216;

fn accepted(alloc: Global, octets: &[u8]) -> Result<Accepted, Refusal>
    ensures file { IfOk result (IsFile octets.now) }
    ensures right { IfOk result IsRight }
    ensures long { 16777216 < length octets.now → IsErrAnd result (λ refusal. refusal ≡ TooLong) }
    ensures refused { IfErr result (RefusesFile octets.now) }
{
    if octets.len() > MAX_LEN {
        return Err(Refusal::TooLong);
    }
    let table = match decode_table(alloc, octets) {
        Ok(table) => table,
        Err(fault) => return Err(Refusal::NoTable(fault)),
    };
    match check(alloc, table) {
        Ok(accepted) => Ok(accepted),
        Err(refused) => Err(Refusal::NotRight(refused.fault)),
    }
}

/// The table of these octets, of version 1 or 2, which was found right.
pub(crate) fn load(alloc: Global, octets: &[u8]) -> Result<Box<Held>, Refusal>
    ensures file { IfOk result (λ held. IsFile octets.now held.value.table) }
    ensures right { IfOk result (λ held. IsRight held.value.table) }
    ensures nameless { IfOk result (λ held. held.value.names ≡ []) }
    ensures long { 16777216 < length octets.now → IsErrAnd result (λ refusal. refusal ≡ TooLong) }
    ensures refused { IfErr result (RefusesFile octets.now) }
{
    match accepted(alloc, octets) {
        Ok(table) => match Held::boxed(alloc, Loaded::nameless(alloc, table)) {
            Ok(held) => Ok(held),
            Err(_) => Err(Refusal::NoMemory),
        },
        Err(refusal) => Err(refusal),
    }
}
