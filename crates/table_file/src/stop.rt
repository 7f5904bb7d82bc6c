//! Where octets stop being those of a table file.

ghost use Rattle.std.specs.Prelude.{◌≡◌, ◌≤◌, IfNone, IfSome};
ghost use Rattle.table_file.specs.Stops.{IsForm, StopsAt};
ghost use Rattle.table_file.specs.Spelling.{spelled_name};
ghost use Rattle.table_file.specs.inner.Forms.{spelled_behind, spelled_counted, spelled_file, spelled_form, spelled_letters, spelled_new_fields};
ghost use Rattle.table_file.specs.inner.Passing.{Passes};

use crate::draft::OldDraft;
use crate::lists::{pass_counted, pass_run};
use crate::part::Part;
use crate::table::Which;
use crate::tail::Tail;
use marshal_program::Routine;
use type_graph::{Items, Node};
use type_model::{Exception, Interface, Name, Operation};

/// Passes "IDLT".
fn pass_letters(tail: &mut Tail<'_>) -> bool
    ensures { Passes spelled_letters result tail.old tail.new }
{
    if tail.one_of(b"I").is_none() {
        return false;
    }
    if tail.one_of(b"D").is_none() {
        return false;
    }
    if tail.one_of(b"L").is_none() {
        return false;
    }
    tail.one_of(b"T").is_some()
}

/// Passes what stands behind so many names.
fn pass_behind(tail: &mut Tail<'_>, names: usize) -> bool
    ensures { Passes (spelled_behind names) result tail.old tail.new }
{
    if !<(Items<Interface>, (Items<Operation>, Items<Exception>))>::pass(tail) {
        return false;
    }
    if !<(Items<Routine>, Items<Routine>)>::pass(tail) {
        return false;
    }
    pass_run::<Which>(tail, names)
}

/// Passes the names, and what stands behind them.
fn pass_named(tail: &mut Tail<'_>) -> bool
    ensures { Passes (spelled_counted spelled_name spelled_behind) result tail.old tail.new }
{
    match pass_counted::<(Name, u32)>(tail) {
        Some(names) => pass_behind(tail, names),
        None => false,
    }
}

/// Passes what stands behind the start in version 2.
fn pass_new(tail: &mut Tail<'_>) -> bool
    ensures { Passes spelled_new_fields result tail.old tail.new }
{
    Items::<Node>::pass(tail) && pass_named(tail)
}

/// Passes the version, and what stands behind it.
fn pass_form(tail: &mut Tail<'_>) -> bool
    ensures { Passes spelled_form result tail.old tail.new }
{
    match tail.one_of(&[1, 2]) {
        Some(1) => OldDraft::pass(tail),
        Some(_) => pass_new(tail),
        None => false,
    }
}

fn pass_file(tail: &mut Tail<'_>) -> bool
    ensures { Passes spelled_file result tail.old tail.new }
{
    pass_letters(tail) && pass_form(tail)
}

/// How many octets begin a table file before the first with which none goes on; all of them, where
/// the file is cut. None where they are a whole file, whether or not its table keeps the rules.
/// Takes no memory, and time by the octets alone.
pub fn stop_of(octets: &[u8]) -> Option<usize>
    ensures stops { IfSome result (λ at. StopsAt octets.now at) }
    ensures whole { IfNone result (IsForm octets.now) }
{
    let mut tail = Tail::new(octets);
    let is_passed = pass_file(&mut tail);
    let left = tail.len();
    if is_passed && left == 0 {
        return None;
    }
    Some(octets.len() - left)
}
