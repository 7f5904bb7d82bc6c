//! What a keeper says after many calls, over the definitions alone.

ghost use Rattle.std.specs.Prelude.{◌≡◌, ◌++◌, ℕ, List, Some, codes};
ghost use Rattle.broker_answers.specs.Objects.{Served, first_named};
ghost use Rattle.broker_answers.specs.Servants.{Call, Done};
ghost use Rattle.broker_answers.specs.Attributes.{first_tape};
ghost use Rattle.broker_answers.specs.Keeping.{first_keeping, says};
ghost use Rattle.broker_answers.specs.History.{after_all, last_set, operations_served, sets};

/// Of the objects that are served, `_get_x` answers the argument of the last call that set `x` of
/// the object, whatever the calls were; where none did, the tape of zeros.
pub fn gets_answer_the_last_set()
    ensures { (s : Served) (x : List ℕ) (call : Call) (before : List Call)
        → first_named s.model (codes "_get_" ++ x) (operations_served s call.object) ≡ Some call.operation
        → says (after_all (first_keeping s.model s.objects) before) call
        ≡ Done (last_set (sets s call.object x) (first_tape s.model call.operation) before) }
{}
