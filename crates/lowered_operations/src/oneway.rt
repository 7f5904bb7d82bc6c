//! Which operations may be oneway.

ghost use Rattle.std.specs.Prelude.{◌≡◌};
ghost use Rattle.idl_tree.specs.Lists.{parts};
ghost use Rattle.lowered_operations.specs.Oneway.{answer_of, oneway_test, param_answer};

use idl_tree::definitions::{Direction, Operation, Param};
use idl_tree::names::Listed;
use lowered_types::{BuildFault, FirstAnswer, TypeFault};

/// The first parameter that isn't an `in` one.
fn param_answer(params: &Listed<Param<'_>>) -> Option<FirstAnswer>
    ensures { result ≡ param_answer (parts params.now) }
{
    for param in params.iter() {
        if param.direction != Direction::In {
            return Some(FirstAnswer::Parameter(param.identifier.at()));
        }
    }
    None
}

/// What an operation answers first, in the order of reading.
fn answer_of(o: &Operation<'_>) -> Option<FirstAnswer>
    ensures { result ≡ answer_of o.now }
{
    if o.result_type.is_some() {
        return Some(FirstAnswer::Result);
    }
    if let Some(params) = &o.params {
        if let Some(answer) = param_answer(params) {
            return Some(answer);
        }
    }
    match o.raises {
        Some(_) => Some(FirstAnswer::Exceptions),
        None => None,
    }
}

/// Judges that an operation is oneway only if it answers nothing.
///
/// # Errors
/// `BadOneway` where it answers something, at its identifier.
pub(crate) fn check_oneway(o: &Operation<'_>) -> Result<(), BuildFault>
    ensures { result ≡ oneway_test o.now }
{
    if !o.is_oneway {
        return Ok(());
    }
    match answer_of(o) {
        Some(answer) => {
            let at = o.identifier.at();
            Err(BuildFault::Types(TypeFault::BadOneway { at, answer }))
        }
        None => Ok(()),
    }
}
