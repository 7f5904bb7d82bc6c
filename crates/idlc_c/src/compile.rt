//! Tables from IDL texts.

ghost use Rattle.std.specs.Prelude.{◌≡◌, IfErr, IfOk};
ghost use Rattle.idl_compiler.specs.Files.{IsRefusedSource};
ghost use Rattle.position_checker.specs.Acceptance.{IsRight};
ghost use Rattle.idlc_c.specs.SourceAnswers.{IsIdlOf};

use crate::held::{Held, Loaded};
use idl_compiler::{CompileFault, compile_source};
use std::alloc::Global;

fn compiled(alloc: Global, source: &[u8]) -> Result<Loaded, CompileFault>
    ensures idl { IfOk result (λ loaded. IsIdlOf source.now loaded.names loaded.table) }
    ensures right { IfOk result (λ loaded. IsRight loaded.table) }
    ensures refused { IfErr result (IsRefusedSource source.now) }
{
    match compile_source(alloc, source) {
        Ok(whole) => Ok(Loaded {
            table: whole.settled.table,
            names: whole.names,
        }),
        Err(fault) => Err(fault),
    }
}

/// The table of an IDL text, with the names of the parts of its types.
pub(crate) fn compile(alloc: Global, source: &[u8]) -> Result<Box<Held>, CompileFault>
    ensures idl { IfOk result (λ held. IsIdlOf source.now held.value.names held.value.table) }
    ensures right { IfOk result (λ held. IsRight held.value.table) }
    ensures refused { IfErr result (IsRefusedSource source.now) }
{
    match compiled(alloc, source) {
        Ok(loaded) => match Held::boxed(alloc, loaded) {
            Ok(held) => Ok(held),
            Err(_) => Err(CompileFault::NoMemory),
        },
        Err(fault) => Err(fault),
    }
}
