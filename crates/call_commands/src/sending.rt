//! The call of an operation, with its arguments.

ghost use Rattle.std.specs.Prelude.{◌≡◌};
ghost use Rattle.type_model.specs.Names.{IsNamed};
ghost use Rattle.reference_texts.specs.References.{reference_of};
ghost use Rattle.call_commands.specs.Calls.{IsCarriedOut, IsEnding, IsLastOutcome, IsSaid, flags};
ghost use Rattle.command_texts.specs.Bodies.{IsTapeOfText};
ghost use Rattle.call_commands.specs.Choices.{choice_of};

use crate::ask::{CallTypes, TextCall};
use crate::choice::Choice;
use crate::ending::Ending;
use crate::fault::CallRefusal;
use crate::followed_calls::{Wanted, call_object};
use call_client::object_calls::Dial;
use call_client::{CallFault, Request};
use command_texts::call_texts::{Outcome, argument_tape};
use giop::Addressed;
use giop_messages::GiopFault;
use reference_texts::Ior;
use std::alloc::Global;
use value_text::ReadFault;

/// Which answers are wanted (response_flags): none of a oneway operation, else all.
fn flags_of(oneway: bool) -> u8
    ensures { result ≡ flags oneway }
{
    if oneway { 0 } else { 3 }
}

/// How a call ends, by its outcome, which isn't that the object is elsewhere.
fn ending_of(outcome: Outcome) -> Result<Ending, CallRefusal>
    requires { IsLastOutcome outcome }
    ensures { IsEnding outcome result }
{
    match outcome {
        Outcome::Returned(text) => Ok(Ending::Returned(text)),
        Outcome::Raised(text) => Ok(Ending::Raised(text)),
        Outcome::Failed(exception) => Ok(Ending::Failed(exception)),
        Outcome::Readdressed(_) => Err(CallRefusal::Readdressed),
        Outcome::Forwarded(_) => unreachable!(),
    }
}

/// Calls an operation with the arguments of a tape.
fn said<D: Dial>(
    types: &CallTypes<'_>,
    alloc: Global,
    dial: &mut D,
    ior: Ior,
    choice: &Choice<'_>,
    ask: &TextCall<'_>,
    tape: &[u8],
) -> Result<Option<Outcome>, CallFault>
    requires request { IsNamed choice.now.table.now.model.names choice.now.request }
    requires reply { IsNamed choice.now.table.now.model.names choice.now.reply }
    requires arguments { IsTapeOfText choice.now.names.now choice.now.table.now.model.graph choice.now.request
        ask.now.value.now tape.now }
    ensures { IsSaid (D.went dial.old) (D.went dial.new) (choice_of choice.now) ask.now (reference_of ior)
        (D.lines dial.old) result (D.lines dial.new) }
{
    let request = Request {
        order: ask.order,
        id: ask.id,
        flags: flags_of(choice.oneway),
        target: Addressed::Key(b"".as_slice()),
        operation: choice.name,
    };
    let wanted = Wanted {
        table: choice.table,
        names: choice.names,
        reply: choice.reply,
        exceptions: choice.exceptions,
    };
    let body = Some((choice.table, choice.request, tape));
    call_object(
        types.giop, alloc, dial, ior, &wanted, &request, body, ask.reads,
    )
}

/// Calls an operation with the arguments that a text says.
pub(crate) fn called<D: Dial>(
    types: &CallTypes<'_>,
    alloc: Global,
    dial: &mut D,
    ior: Ior,
    choice: &Choice<'_>,
    ask: &TextCall<'_>,
) -> Result<Ending, CallRefusal>
    requires request { IsNamed choice.now.table.now.model.names choice.now.request }
    requires reply { IsNamed choice.now.table.now.model.names choice.now.reply }
    ensures { IsCarriedOut (D.went dial.old) (D.went dial.new) (choice_of choice.now) ask.now (reference_of ior)
        (D.lines dial.old) result (D.lines dial.new) }
{
    let tape = match argument_tape(alloc, choice.table, choice.names, choice.request, ask.value) {
        Ok(tape) => tape,
        Err(ReadFault::Refused(refusal)) => return Err(CallRefusal::Unsaid(refusal)),
        Err(ReadFault::NoMemory) => {
            return Err(CallRefusal::Unanswered(CallFault::NotARequest(GiopFault::NoMemory)));
        }
    };
    let end = match said(types, alloc, dial, ior, choice, ask, tape.as_slice()) {
        Ok(end) => end,
        Err(fault) => return Err(CallRefusal::Unanswered(fault)),
    };
    match end {
        Some(outcome) => ending_of(outcome),
        None => Ok(Ending::Sent),
    }
}
