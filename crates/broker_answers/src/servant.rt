//! What serves the operations of objects.

ghost use Rattle.std.specs.Prelude.{◌≡◌, IfOk, OnOk, OnErr};
ghost use Rattle.broker_answers.specs.Servants.{Call, Said, call_of, said_of};

use std::alloc::{AllocError, Global};

/// What a servant says to a call.
#[derive(Drop)]
pub enum Outcome {
    /// The tape of the reply frame: the result, then the `inout` and `out` parameters.
    Done(Vec<u8>),
    /// One of the operation's exceptions, counted from 0, with the tape of its members.
    Raised(usize, Vec<u8>),
    /// Nothing serves the operation.
    NoImplement,
}

/// Serves the operations of objects. What it says and its next state are functions of its state and
/// the call.
pub trait Servant {
    ghost says: { Self → Call → Said };

    ghost after: { Self → Call → Self };

    /// A call of an operation of an object: their places, among the objects that are served and
    /// among the operations of the model, and the tape of the request frame.
    ///
    /// # Errors
    /// Want of memory, and then the state is as it was.
    fn call(
        &mut self,
        alloc: Global,
        object: usize,
        operation: u32,
        arguments: &[u8],
    ) -> Result<Outcome, AllocError>
        ensures says { IfOk result (λ outcome.
            said_of outcome ≡ says self.old (call_of object operation arguments.now)) }
        ensures after { OnOk result (self.new ≡ after self.old (call_of object operation arguments.now)) }
        ensures kept { OnErr result (self.new ≡ self.old) };
}
