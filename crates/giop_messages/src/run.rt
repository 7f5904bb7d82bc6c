//! Requests that come in fragments.

ghost use Rattle.std.specs.Prelude.{◌≡◌, ◌≤◌, false, length, IfOk, OnOk, OnErr};
ghost use Rattle.giop_messages.specs.Framing.{added, begun, id_in};
ghost use Rattle.giop_messages.specs.Runs.{IsFirst, IsMessage, IsNext};

use crate::cancel::message_id;
use crate::head::Head;
use crate::joining::{add_piece, begin_run};
use std::alloc::{AllocError, Global};
use std::marker::Model;

/// The pieces of a request that have come. A contract sees the request that they would be if
/// nothing more came.
#[derive(Drop)]
pub struct Run {
    octets: Vec<u8>,
}

impl Model for Run {
    ghost use Rattle.std.specs.Prelude.{ℕ, List};
    ghost use Rattle.giop_messages.specs.Runs.{IsRun};

    ghost Value = { List ℕ };

    ghost view = { λ run. run.octets.items };

    ghost invariant = { λ run. IsRun run.octets.items };
}

impl Run {
    /// The run that a first piece begins.
    pub fn begin(alloc: Global, first: &[u8]) -> Result<Run, AllocError>
        requires { IsFirst first.now }
        ensures { IfOk result (λ run. run ≡ begun first.now) }
    {
        Ok(Run {
            octets: begin_run(alloc, first)?,
        })
    }

    /// Adds the next piece.
    ///
    /// # Errors
    /// Want of memory, and then the run is as it was.
    pub fn add(&mut self, fragment: &[u8]) -> Result<(), AllocError>
        requires { IsNext self.old fragment.now }
        ensures added { OnOk result (self.new ≡ added self.old fragment.now) }
        ensures kept { OnErr result (self.new ≡ self.old) }
    {
        add_piece(&mut self.octets, fragment)
    }

    /// The request as it would be if nothing more came.
    pub fn octets(&self) -> &[u8]
        ensures is { result.now ≡ self.now }
        ensures numbered { 16 ≤ length result.now }
    {
        self.octets.as_slice()
    }

    /// The head of the request.
    pub fn head(&self) -> Head
        ensures is { IsMessage result self.now }
        ensures alone { result.goes_on ≡ false }
    {
        match Head::read(self.octets.as_slice()) {
            Ok(head) => head,
            Err(_) => unreachable!(),
        }
    }

    /// The number of the request.
    pub fn id(&self) -> u32
        ensures { result ≡ id_in self.now }
    {
        message_id(self.octets.as_slice())
    }
}
