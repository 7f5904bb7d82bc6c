//! Calls followed to where objects are.

ghost use Rattle.std.specs.Option.{ForSome};
ghost use Rattle.type_model.specs.Names.{IsNamed};
ghost use Rattle.giop.specs.Made.{given_by};
ghost use Rattle.reference_texts.specs.References.{reference_of};
ghost use Rattle.call_client.specs.Talks.{asking};
ghost use Rattle.call_commands.specs.Followed.{IsFollowed};
ghost use Rattle.call_commands.specs.Wanted.{called_of};

use crate::followed_calls::heeded::call_heeding;
use crate::followed_calls::wanted::Wanted;
use call_client::object_calls::Dial;
use call_client::{CallFault, Request};
use command_texts::call_texts::Outcome;
use giop::{Body, Giop};
use reference_texts::Ior;
use std::alloc::Global;

/// Calls the object that a reference names; where the reply says that it is elsewhere, there, at most
/// 8 times. Each time it is called once more where its server asks for a form of address, in this form, and
/// each of these calls is made once more where the server closed the connection before it answered.
/// None where no answer is wanted (flags 0), and the request was sent.
///
/// # Errors
/// As `call_by` of object_calls says; `OtherBody` where the body of a reply isn't what its status
/// says; `TooManyForwards`; want of memory.
pub fn call_object<D: Dial>(
    giop: &Giop,
    alloc: Global,
    dial: &mut D,
    ior: Ior,
    wanted: &Wanted<'_>,
    request: &Request<'_>,
    body: Option<Body<'_>>,
    reads: u64,
) -> Result<Option<Outcome>, CallFault>
    requires body { ForSome body (λ b. IsNamed b.0.now.model.names b.1) }
    requires named { IsNamed wanted.now.table.now.model.names wanted.now.reply }
    ensures { IsFollowed (D.went dial.old) (D.went dial.new) (asking request.now (given_by body.entry) reads)
        (called_of wanted.now) (reference_of ior) (D.lines dial.old) result (D.lines dial.new) }
{
    let mut at = ior;
    for _count in 0u32..9 {
        let called = match call_heeding(giop, alloc, dial, &at, wanted, request, body, reads) {
            Ok(called) => called,
            Err(fault) => return Err(fault),
        };
        let Some(outcome) = called else {
            return Ok(None);
        };
        match outcome {
            Outcome::Forwarded(next) => at = next,
            ended => return Ok(Some(ended)),
        }
    }
    Err(CallFault::TooManyForwards)
}
