//! Laws of calls, over the definitions alone.

ghost use Rattle.std.specs.Prelude.{◌≡◌, ℕ, Option, Some, Ok};
ghost use Rattle.giop_messages.specs.Written.{Given};
ghost use Rattle.iiop_broker.specs.Outcomes.{Ends};
ghost use Rattle.call_client.specs.declared.answer.ReplyBody.{ReplyBody};
ghost use Rattle.call_client.specs.declared.request.Request.{Request};
ghost use Rattle.call_client.specs.Calls.{IsCalled, AreNeighbours};

/// The octets that two calls read of one connection are one stream: the second reads on right behind the
/// answer to the first.
pub fn calls_read_one_stream()
    ensures { (first second : Request) (one other : Option Given) (reads more : ℕ) (from between to : Ends)
        (a b : ReplyBody) → IsCalled first one reads from (Ok (Some a)) between
        → IsCalled second other more between (Ok (Some b)) to
        → AreNeighbours first.id a second.id b from.left to.left }
{}
