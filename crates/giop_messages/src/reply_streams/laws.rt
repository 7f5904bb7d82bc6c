//! Laws of streams, over the definitions alone.

ghost use Rattle.std.specs.Prelude.{◌≡◌, ◌<◌, ℕ, List, Option, ◌++◌, length};
ghost use Rattle.giop_messages.specs.Heard.{Waits, heard, heard_more};
ghost use Rattle.giop_messages.specs.ReplyStreamsRoom.{wanted};

/// What a stream says doesn't depend on the pieces in which it comes.
pub fn pieces_say_the_same()
    ensures { (id : ℕ) (octets more : List ℕ) → heard id (octets ++ more) ≡ heard_more id (heard id octets) more }
{}

/// A stream that waits for a message says nothing before all that this wants has come.
pub fn less_than_is_wanted_says_nothing()
    ensures { (id : ℕ) (run : Option (List ℕ)) (rest more : List ℕ) → length more < wanted rest
        → heard_more id (Waits run rest) more ≡ Waits run (rest ++ more) }
{}
