//! Calls of the object that a reference names, in the form of address that its server asks for.

ghost use Rattle.std.specs.Prelude.{◌≡◌};
ghost use Rattle.std.specs.Option.{ForSome};
ghost use Rattle.type_model.specs.Names.{IsNamed};
ghost use Rattle.giop.specs.Made.{given_by};
ghost use Rattle.reference_texts.specs.References.{reference_of};
ghost use Rattle.call_client.specs.Talks.{asking};
ghost use Rattle.call_commands.specs.Heeded.{IsCalledHeeding, asked_in, form_of as form_of_number};
ghost use Rattle.call_commands.specs.Wanted.{called_of};

use crate::followed_calls::once::call_twice;
use crate::followed_calls::wanted::Wanted;
use call_client::object_calls::{Dial, Form};
use call_client::{CallFault, Request};
use command_texts::call_texts::Outcome;
use giop::{Body, Giop};
use reference_texts::Ior;
use std::alloc::Global;

/// The form of address with a number.
fn form_of(disposition: u16) -> Option<Form>
    ensures { result ≡ form_of_number disposition }
{
    match disposition {
        0 => Some(Form::Key),
        1 => Some(Form::Profile),
        2 => Some(Form::Reference),
        _ => None,
    }
}

/// The form of address that an answer asks for.
fn form_in(answered: &Result<Option<Outcome>, CallFault>) -> Option<Form>
    ensures { result ≡ asked_in answered.now }
{
    match answered {
        Ok(Some(Outcome::Readdressed(disposition))) => form_of(*disposition),
        _ => None,
    }
}

/// Calls the object that a reference names by its key; where the server asks for a form of address,
/// once more in this form.
pub(crate) fn call_heeding<D: Dial>(
    giop: &Giop,
    alloc: Global,
    dial: &mut D,
    ior: &Ior,
    wanted: &Wanted<'_>,
    request: &Request<'_>,
    body: Option<Body<'_>>,
    reads: u64,
) -> Result<Option<Outcome>, CallFault>
    requires body { ForSome body (λ b. IsNamed b.0.now.model.names b.1) }
    requires named { IsNamed wanted.now.table.now.model.names wanted.now.reply }
    ensures { IsCalledHeeding (D.went dial.old) (D.went dial.new) (asking request.now (given_by body.entry) reads)
        (called_of wanted.now) (reference_of ior.now) (D.lines dial.old) result (D.lines dial.new) }
{
    let key = Form::Key;
    let answered = call_twice(giop, alloc, dial, ior, key, wanted, request, body, reads);
    match form_in(&answered) {
        Some(form) => call_twice(giop, alloc, dial, ior, form, wanted, request, body, reads),
        None => answered,
    }
}
