//! Texts: names and repository ids.

ghost use Rattle.std.specs.Prelude.{◌≡◌, length, true, false, nat_lt, IfOk, IfErr, OnOk};
ghost use Rattle.std.specs.Bool.{OnFalse};
ghost use Rattle.std.specs.List.{list_all};
ghost use Rattle.table_file.specs.Octets.{spelled_ascii, spelled_each, spelled_run, spelled_text};
ghost use Rattle.table_file.specs.inner.Passing.{Passes};
ghost use Rattle.table_file.specs.inner.Reading.{Reads, Writes};
ghost use Rattle.table_file.specs.inner.Skimming.{IsAtMost, Skims, no_weight};
ghost use Rattle.table_file.specs.Refusal.{wants_memory};

use crate::cursor::Cursor;
use crate::lists::write_count;
use crate::part::Part;
use crate::tail::Tail;
use marshal_program::TableFault;
use std::alloc::Global;
use std::str;
use type_model::Name;

fn is_ascii(octets: &[u8]) -> bool
    ensures { result ≡ list_all (λ n. nat_lt n 128) octets.now }
{
    octets.iter().all(|octet| *octet < 128)
}

/// The name of these octets, which have to be ASCII.
fn name_of(alloc: Global, octets: &[u8]) -> Result<Name, TableFault>
    ensures kept { IfOk result (λ name. name ≡ octets.now) }
    ensures ascii { OnOk result (list_all (λ n. nat_lt n 128) octets.now ≡ true) }
    ensures refused { IfErr result (λ fault. OnFalse (wants_memory fault)
        (list_all (λ n. nat_lt n 128) octets.now ≡ false)) }
{
    if !is_ascii(octets) {
        return Err(TableFault::NotATable);
    }
    match str::from_utf8(octets) {
        Ok(text) => Ok(Name::copied(alloc, text)?),
        Err(_) => Err(TableFault::NotATable),
    }
}

/// Reads a name of so many octets.
fn read_name(cursor: &mut Cursor<'_>, count: usize) -> Result<Name, TableFault>
    ensures { Reads (spelled_run count spelled_ascii) result cursor.old cursor.new }
{
    let octets = cursor.take(count)?;
    name_of(cursor.alloc(), octets)
}

/// Reads past a name of so many octets.
fn skim_name(cursor: &mut Cursor<'_>, count: usize) -> Result<usize, TableFault>
    ensures { Skims (spelled_run count spelled_ascii) (IsAtMost no_weight) result cursor.old cursor.new }
{
    let octets = cursor.take(count)?;
    if !is_ascii(octets) {
        return Err(TableFault::NotATable);
    }
    Ok(0)
}

/// Passes so many octets of ASCII.
fn pass_ascii(tail: &mut Tail<'_>, count: usize) -> bool
    ensures { Passes (spelled_run count spelled_ascii) result tail.old tail.new }
{
    'octets: for place in 0..count {
        if tail.below(128).is_none() {
            return false;
        }
    }
    true
}

/// Puts octets, which have to be ASCII, behind what was written before.
fn write_ascii(octets: &[u8], out: &mut Vec<u8>) -> Result<(), TableFault>
    ensures { Writes (spelled_each spelled_ascii octets.now) result out.old.items out.new.items }
{
    if !is_ascii(octets) {
        return Err(TableFault::BadNumber);
    }
    out.extend_from_slice(octets)?;
    Ok(())
}

/// Puts a text behind what was written before.
pub(crate) fn write_text(text: &str, out: &mut Vec<u8>) -> Result<(), TableFault>
    ensures { Writes (spelled_text text.now) result out.old.items out.new.items }
{
    write_count(text.len(), out)?;
    write_ascii(text.as_bytes(), out)
}

impl Part for Name {
    ghost use Rattle.table_file.specs.inner.ListCodes.{text_code};
    ghost use Rattle.table_file.specs.inner.Ones.{one_list};

    ghost spelled = { spelled_text };

    fn read(cursor: &mut Cursor<'_>) -> Result<Self, TableFault> {
        let count = u32::read(cursor)? as usize;
        read_name(cursor, count)
    }

    fn skim(cursor: &mut Cursor<'_>) -> Result<usize, TableFault> {
        let count = u32::read(cursor)? as usize;
        skim_name(cursor, count)
    }

    fn write(&self, out: &mut Vec<u8>) -> Result<(), TableFault> {
        write_text(self.as_str(), out)
    }

    fn pass(tail: &mut Tail<'_>) -> bool {
        match tail.word() {
            Some(count) => pass_ascii(tail, count as usize),
            None => false,
        }
    }

    ghost is_code = { text_code };

    ghost has_one = { one_list spelled_ascii };
}
