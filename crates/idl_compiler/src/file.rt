//! From the octets of an IDL file to those of its table file.

ghost use Rattle.std.specs.Prelude.{◌≡◌, ◌≤◌, length, IfErr, IfOk};
ghost use Rattle.std.specs.Str.{IsUtf8};
ghost use Rattle.std.specs.String.{string_bytes};
ghost use Rattle.idl_compiler.specs.Files.{IsCompiledFile, IsNamedText, IsNoText, IsRefusedFile, IsRefusedSource, RefusesTable};
ghost use Rattle.position_checker.specs.Acceptance.{IsRight};
ghost use Rattle.position_checker.specs.Summary.{accepted};
ghost use Rattle.table_file.specs.TableSpelling.{Spells};

use crate::choice::Settled;
use crate::fault::CompileFault;
use crate::steps::{NamedTable, compile};
use idl_lexer::LexFault;
use position_checker::{accepted_line, file_octets};
use std::alloc::Global;
use std::str;

/// The table file of an IDL file, and what is told of it.
#[derive(Drop)]
pub struct CompiledFile {
    /// The octets of the table file, of the newest version.
    pub octets: Vec<u8>,
    /// The line that says how many routines were accepted.
    pub line: String,
    /// Whether the planned program serves the names of the table.
    pub is_planned: bool,
}

fn file_of(alloc: Global, settled: &Settled) -> Result<CompiledFile, CompileFault>
    ensures spelled { IfOk result (λ file. Spells settled.now.table file.octets.items) }
    ensures within { IfOk result (λ file. length file.octets.items ≤ 16777216) }
    ensures line { IfOk result (λ file. string_bytes file.line ≡ accepted settled.now.table) }
    ensures right { IsRight settled.now.table }
    ensures planned { IfOk result (λ file. file.is_planned ≡ settled.now.is_planned) }
    ensures refused { IfErr result (RefusesTable settled.now.table) }
{
    let octets = file_octets(alloc, &settled.table)?;
    let line = accepted_line(alloc, &settled.table)?;
    Ok(CompiledFile {
        octets,
        line,
        is_planned: settled.is_planned,
    })
}

/// The text that octets are.
fn text_of(source: &[u8]) -> Result<&str, CompileFault>
    ensures utf8 { IfOk result (λ _. IsUtf8 source.now) }
    ensures text { IfOk result (λ text. text.now ≡ source.now) }
    ensures refused { IfErr result (IsNoText source.now) }
{
    match str::from_utf8(source) {
        Ok(text) => Ok(text),
        Err(error) => Err(CompileFault::Tokens(LexFault::BadChar {
            line: 0,
            octet: error.valid_up_to(),
        })),
    }
}

/// The table of an IDL file (ISO/IEC 19500-1), as a preprocessor leaves it, with the names of the
/// parts of its types.
///
/// # Errors
/// Those of `compile`, and `BadChar` of line 0 where the file isn't UTF-8.
pub fn compile_source(alloc: Global, source: &[u8]) -> Result<NamedTable, CompileFault>
    ensures compiled { IfOk result (IsNamedText source.now) }
    ensures refused { IfErr result (IsRefusedSource source.now) }
{
    match text_of(source) {
        Ok(text) => compile(alloc, text),
        Err(fault) => Err(fault),
    }
}

/// The table file of an IDL file (ISO/IEC 19500-1), as a preprocessor leaves it.
///
/// # Errors
/// Those of `compile_source`, and `TooLong` where the table has more octets than a file may have.
pub fn compile_file(alloc: Global, source: &[u8]) -> Result<CompiledFile, CompileFault>
    ensures compiled { IfOk result (IsCompiledFile source.now) }
    ensures refused { IfErr result (IsRefusedFile source.now) }
{
    match compile_source(alloc, source) {
        Ok(whole) => file_of(alloc, &whole.settled),
        Err(fault) => Err(fault),
    }
}
