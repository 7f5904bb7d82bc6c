//! The law of brokers, over the definitions alone.

ghost use Rattle.std.specs.Prelude.{ℕ, ◌≡◌, ◌≤◌, ◌↔◌, ◌++◌, List, [], Option, Some, length};
ghost use Rattle.giop_messages.specs.Framing.{More, front};
ghost use Rattle.broker_answers.specs.Connections.{max_connections};
ghost use Rattle.broker_answers.specs.Streams.{Open, Stream, cut};
ghost use Rattle.broker_answers.specs.Talk.{Event, Follows, Steps, Talk, World, rests, world};
ghost use Rattle.broker_answers.specs.Objects.{Served};
ghost use Rattle.broker_answers.specs.Servants.{acts};
ghost use Rattle.broker_answers.specs.Serving.{Moves, Serves};
ghost use Rattle.iiop_broker.specs.Rests.{IsTalked};
ghost use Rattle.iiop_broker.specs.Room.{room_of};

use broker_answers::Servant;

/// Steps that follow one another from a broker without connections, each as `Broker::step` tells
/// it, give just the answers and the servant's state of the talk: on each connection the messages of
/// its whole stream are answered in order, whatever happens on others meanwhile and however the
/// stream comes in pieces.
pub fn steps_are_the_talk<S: Servant>()
    ensures { (served : Served) (servant after : S) (said : List (Event × List ℕ))
        → Steps (Serves (acts S.says S.after) served) (Moves (acts S.says S.after) served) servant said after
        ↔ Talk (Serves (acts S.says S.after) served) (Moves (acts S.says S.after) served) servant said after }
{}

/// After such steps just those connections are there that the talk has, each closed or with the rest
/// of its whole stream, and the servant's state is that of the talk.
pub fn steps_keep_the_rests<S: Servant>()
    ensures { (served : Served) (servant : S) (said : List (Event × List ℕ)) (after : World S Stream)
        → Follows rests (Serves (acts S.says S.after) served) (Moves (acts S.says S.after) served)
        (world servant []) said after
        → IsTalked (Serves (acts S.says S.after) served) (Moves (acts S.says S.after) served) servant said after }
{}

/// No more connections than 64 are ever there.
pub fn connections_are_few<S: Servant>()
    ensures { (served : Served) (servant after : S) (there : List (ℕ × Stream)) (said : List (Event × List ℕ))
        → Follows rests (Serves (acts S.says S.after) served) (Moves (acts S.says S.after) served)
        (world servant []) said (world after there)
        → length there ≤ max_connections }
{}

/// Where what is kept of a connection has no whole message, as many octets behind it as
/// `Broker::room` tells complete one message at most: so one answer at most comes of them.
pub fn one_message_at_a_time()
    ensures { (run : Option (List ℕ)) (rest more : List ℕ) → front run rest ≡ More
        → length more ≤ room_of (Some (Open run rest)) → length (cut run (rest ++ more)).raws ≤ 1 }
{}
