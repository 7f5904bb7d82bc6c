//! The system exceptions that are raised here.

ghost use Rattle.std.specs.Prelude.{◌≡◌, IfOk};
ghost use Rattle.broker_answers.specs.Exceptions.{completion as completion_of, exception_id, exception_tape};

use giop_types::push_u32;
use std::alloc::{AllocError, Global};

/// A standard system exception (ISO/IEC 19500-1) that a broker answers.
#[derive(Clone, Copy, Debug, PartialEq, Eq)]
pub enum BrokerException {
    /// No object has the key.
    ObjectNotExist,
    /// The interface has no such operation.
    BadOperation,
    /// The arguments can't be read.
    Marshal,
    /// Nothing serves the operation.
    NoImplement,
    /// The operation raised an exception that it doesn't list.
    Unknown,
    /// What the servant said isn't of its frame, or too long for a message.
    Internal,
}

impl BrokerException {
    /// Its repository id.
    pub fn id(self) -> &'static str
        ensures { result.now ≡ exception_id self }
    {
        match self {
            BrokerException::ObjectNotExist => "IDL:omg.org/CORBA/OBJECT_NOT_EXIST:1.0",
            BrokerException::BadOperation => "IDL:omg.org/CORBA/BAD_OPERATION:1.0",
            BrokerException::Marshal => "IDL:omg.org/CORBA/MARSHAL:1.0",
            BrokerException::NoImplement => "IDL:omg.org/CORBA/NO_IMPLEMENT:1.0",
            BrokerException::Unknown => "IDL:omg.org/CORBA/UNKNOWN:1.0",
            BrokerException::Internal => "IDL:omg.org/CORBA/INTERNAL:1.0",
        }
    }

    /// Whether the operation was called: 1 that it wasn't, 2 that it may have been.
    pub fn completion(self) -> u32
        ensures { result ≡ completion_of self }
    {
        match self {
            BrokerException::Unknown | BrokerException::Internal => 2,
            _ => 1,
        }
    }

    /// The tape of its body.
    #[tactic(auto, using(crate::proofs::ExceptionFacts::id_is_short))]
    pub(crate) fn tape(self, alloc: Global) -> Result<Vec<u8>, AllocError>
        ensures { IfOk result (λ tape. tape.items ≡ exception_tape self) }
    {
        let id = self.id();
        let mut tape = Vec::new(alloc);
        push_u32(&mut tape, id.len() as u32)?;
        tape.extend_from_slice(id.as_bytes())?;
        push_u32(&mut tape, 0)?;
        push_u32(&mut tape, self.completion())?;
        Ok(tape)
    }
}
