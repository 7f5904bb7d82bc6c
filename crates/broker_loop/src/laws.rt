//! The law of talks, over the definitions alone.

ghost use Rattle.std.specs.Prelude.{◌≡◌};
ghost use Rattle.type_model.specs.ModelRules.{IsModel};
ghost use Rattle.broker_answers.specs.Objects.{Served};
ghost use Rattle.broker_answers.specs.Servants.{acts};
ghost use Rattle.broker_answers.specs.Serving.{Moves, Serves};
ghost use Rattle.broker_answers.specs.Talk.{Talk};
ghost use Rattle.broker_loop.specs.Carried.{Log};
ghost use Rattle.broker_loop.specs.OneTalk.{IsSameTalk, events};

use iiop_broker::Servant;

/// The same events have one list of answers, and leave the same servant in one state.
pub fn talks_are_one<S: Servant>()
    ensures { (served : Served) → IsModel served.model → (before one other : S) (said more : Log)
        → events said ≡ events more
        → Talk (Serves (acts S.says S.after) served) (Moves (acts S.says S.after) served) before said one
        → Talk (Serves (acts S.says S.after) served) (Moves (acts S.says S.after) served) before more other
        → IsSameTalk said more one other }
{}
