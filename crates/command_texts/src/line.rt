//! What is answered by a table that was loaded.

ghost use Rattle.std.specs.Prelude.{IfErr, IfOk};
ghost use Rattle.std.specs.String.{string_bytes};
ghost use Rattle.command_words.specs.Requests.{ask_of};
ghost use Rattle.command_texts.specs.Lines.{IsLineOf, IsRefusedIn};

use crate::loaded::Loaded;
use crate::marshal::marshal_text;
use crate::outline::outlines;
use command_tables::{Refusal, listing, marshal};
use command_words::requests::{Form, ValueRequest};
use std::alloc::{AllocError, Global};

/// The line that answers a request, in its form.
///
/// # Errors
/// Those of `marshal` or `marshal_text`.
pub fn value_line<'a>(
    alloc: Global,
    loaded: &Loaded,
    form: Form,
    request: &ValueRequest<'a>,
    input: &str,
) -> Result<String, Refusal<'a>>
    ensures line { IfOk result (λ line. IsLineOf form loaded.now.table loaded.now.names
        (ask_of request.now input.now) (string_bytes line)) }
    ensures refused { IfErr result (IsRefusedIn form loaded.now.table loaded.now.names (ask_of request.now input.now)) }
{
    match form {
        Form::Hex => marshal(alloc, &loaded.table, request, input),
        Form::Text => marshal_text(alloc, &loaded.table, &loaded.names, request, input),
    }
}

/// What is in a table, and where that is asked for what the texts of its values look like.
pub fn shown(alloc: Global, loaded: &Loaded, types: bool) -> Result<String, AllocError> {
    let mut text = listing(alloc, &loaded.table)?;
    if types {
        text.push_str(outlines(alloc, &loaded.table, &loaded.names)?.as_str())?;
    }
    Ok(text)
}
