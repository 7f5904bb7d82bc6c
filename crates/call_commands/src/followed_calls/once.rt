//! One call of the object that a reference names, and once more where its connection was closed.

ghost use Rattle.std.specs.Prelude.{◌≡◌};
ghost use Rattle.std.specs.Option.{ForSome};
ghost use Rattle.type_model.specs.Names.{IsNamed};
ghost use Rattle.giop.specs.Made.{given_by};
ghost use Rattle.call_client.specs.Answers.{answer_of};
ghost use Rattle.reference_texts.specs.References.{reference_of};
ghost use Rattle.call_client.specs.Talks.{asking};
ghost use Rattle.call_commands.specs.Hops.{IsCalledOnce, IsOutcomeIn, in_form};
ghost use Rattle.call_commands.specs.Tries.{IsCalledTwice, closes};
ghost use Rattle.call_commands.specs.Wanted.{called_of};

use crate::followed_calls::wanted::Wanted;
use call_client::object_calls::{Dial, Form, call_by};
use call_client::{CallFault, ReplyBody, Request};
use command_texts::call_texts::{Outcome, read_outcome};
use giop::{Body, Giop, Reply};
use giop_messages::GiopFault;
use reference_listing::list_reference;
use reference_texts::Ior;
use std::alloc::Global;

/// What an answer says.
fn outcome_of(
    giop: &Giop,
    alloc: Global,
    wanted: &Wanted<'_>,
    answer: &ReplyBody,
) -> Result<Option<Outcome>, CallFault>
    requires { IsNamed wanted.now.table.now.model.names wanted.now.reply }
    ensures { IsOutcomeIn (called_of wanted.now) (answer_of answer.now) result }
{
    let reply = Reply {
        id: answer.id,
        status: answer.status,
        order: answer.order,
        body_at: answer.body_at,
        octets: answer.body.as_slice(),
    };
    let (table, names) = (wanted.table, wanted.names);
    match read_outcome(
        giop.types(),
        alloc,
        table,
        names,
        wanted.reply,
        wanted.exceptions,
        &reply,
    ) {
        Ok(Some(outcome)) => Ok(Some(outcome)),
        Ok(None) => Err(CallFault::OtherBody),
        Err(_) => Err(CallFault::NoMemory),
    }
}

/// Calls the object that a reference names, in a form of address.
fn call_once<D: Dial>(
    giop: &Giop,
    alloc: Global,
    dial: &mut D,
    ior: &Ior,
    form: Form,
    wanted: &Wanted<'_>,
    request: &Request<'_>,
    body: Option<Body<'_>>,
    reads: u64,
) -> Result<Option<Outcome>, CallFault>
    requires body { ForSome body (λ b. IsNamed b.0.now.model.names b.1) }
    requires named { IsNamed wanted.now.table.now.model.names wanted.now.reply }
    ensures { IsCalledOnce (D.went dial.old) (D.went dial.new)
        (in_form form (asking request.now (given_by body.entry) reads)) (called_of wanted.now)
        (reference_of ior.now) (D.lines dial.old) result (D.lines dial.new) }
{
    let listing = match list_reference(giop.types(), alloc, ior) {
        Ok(listing) => listing,
        Err(_) => return Err(CallFault::NotARequest(GiopFault::NoMemory)),
    };
    let called = match call_by(
        giop,
        alloc,
        dial,
        ior,
        listing.profiles.as_slice(),
        form,
        request,
        body,
        reads,
    ) {
        Ok(called) => called,
        Err(fault) => return Err(fault),
    };
    match called {
        Some(answer) => outcome_of(giop, alloc, wanted, &answer),
        None => Ok(None),
    }
}

/// Whether the server closed the connection by CloseConnection before it answered.
fn is_closed(called: &Result<Option<Outcome>, CallFault>) -> bool
    ensures { result ≡ closes called.now }
{
    match called {
        Err(CallFault::CloseConnection) => true,
        _ => false,
    }
}

/// Calls the object that a reference names, in a form of address; where the server closed the
/// connection before it answered, and so made no call, once more (ISO/IEC 19500-2, Connection Management).
pub(crate) fn call_twice<D: Dial>(
    giop: &Giop,
    alloc: Global,
    dial: &mut D,
    ior: &Ior,
    form: Form,
    wanted: &Wanted<'_>,
    request: &Request<'_>,
    body: Option<Body<'_>>,
    reads: u64,
) -> Result<Option<Outcome>, CallFault>
    requires body { ForSome body (λ b. IsNamed b.0.now.model.names b.1) }
    requires named { IsNamed wanted.now.table.now.model.names wanted.now.reply }
    ensures { IsCalledTwice (D.went dial.old) (D.went dial.new)
        (in_form form (asking request.now (given_by body.entry) reads)) (called_of wanted.now)
        (reference_of ior.now) (D.lines dial.old) result (D.lines dial.new) }
{
    let called = call_once(giop, alloc, dial, ior, form, wanted, request, body, reads);
    if is_closed(&called) {
        return call_once(giop, alloc, dial, ior, form, wanted, request, body, reads);
    }
    called
}
