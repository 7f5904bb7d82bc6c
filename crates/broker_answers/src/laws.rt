//! Laws of streams and of answers, over the definitions alone.

ghost use Rattle.std.specs.Prelude.{◌≡◌, ℕ, Bool, List, ◌++◌, Option};
ghost use Rattle.type_model.specs.ModelRules.{IsModel};
ghost use Rattle.broker_answers.specs.Streams.{Raw, cut, cut_behind, joined};
ghost use Rattle.broker_answers.specs.Objects.{Served};
ghost use Rattle.broker_answers.specs.OneAnswer.{IsSame};
ghost use Rattle.broker_answers.specs.Servants.{acts};
ghost use Rattle.broker_answers.specs.Serving.{Serves};

use crate::servant::Servant;

/// The messages of a stream are those of its beginning, and those that the other octets bring to
/// what is left of that.
pub fn stream_in_pieces()
    ensures { (run : Option (List ℕ)) (octets more : List ℕ)
        → cut run (octets ++ more) ≡ joined (cut run octets) (λ left. cut_behind left more) }
{}

/// Messages have one answer, and leave a servant in one state.
pub fn messages_have_one_answer<S: Servant>()
    ensures { (served : Served) → IsModel served.model
        → (raws : List Raw) (before one other : S) (octets more : List ℕ) (closed shut : Bool)
        → Serves (acts S.says S.after) served raws before octets closed one
        → Serves (acts S.says S.after) served raws before more shut other → IsSame octets more closed shut one other }
{}
