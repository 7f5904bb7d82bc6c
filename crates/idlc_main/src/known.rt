//! What else is known of a fault.

use crate::fault::Fault;
use command_tables::{Refusal, WholeFiles, read_file};
use diagnostic_views::refusal_views::{number_in, refusal_view, table_known};
use diagnostic_views::{Look, view};
use std::alloc::AllocError;

/// What is known of the table of a name, which was refused. Its file is read once more.
fn known_of_table<R: WholeFiles + AllocGlobal>(
    rt: &R,
    refusal: &Refusal<'_>,
    name: &str,
) -> Result<Option<String>, AllocError> {
    match read_file(rt, name) {
        Ok(octets) => table_known(rt.alloc(), octets.as_slice(), refusal),
        Err(_) => Ok(None),
    }
}

fn known_in<R: WholeFiles + AllocGlobal>(
    rt: &R,
    fault: &Fault<'_>,
    file: Option<&str>,
) -> Result<Option<String>, AllocError> {
    match (fault, file) {
        (Fault::Refused(refusal), Some(name)) => known_of_table(rt, refusal, name),
        _ => Ok(None),
    }
}

/// What is known of a refusal by the number with which its line begins.
fn known_of_number<R: WholeFiles + AllocGlobal>(
    rt: &R,
    fault: &Fault<'_>,
    file: Option<&str>,
) -> Result<Option<String>, AllocError> {
    let line = format!(in rt.alloc(); "{fault}")?;
    let Some(number) = number_in(line.as_str()) else {
        return Ok(None);
    };
    match known_in(rt, fault, file)? {
        Some(known) => refusal_view(rt.alloc(), number, Some(known.as_str())),
        None => refusal_view(rt.alloc(), number, None),
    }
}

/// The lines of what else is known of a fault, of the table or the IDL file of a name; the last without
/// its end. None where nothing is.
pub fn known<R: WholeFiles + AllocGlobal>(
    rt: &R,
    fault: &Fault<'_>,
    look: Look,
    file: Option<&str>,
) -> Result<Option<String>, AllocError> {
    let seen = match (fault, file) {
        (Fault::Words(_), _) => return Ok(None),
        (Fault::NotCompiled { fault, source }, Some(name)) => {
            view(rt.alloc(), look, name, source.as_slice(), fault)?
        }
        _ => None,
    };
    match seen {
        Some(lines) => Ok(Some(lines)),
        None => known_of_number(rt, fault, file),
    }
}
