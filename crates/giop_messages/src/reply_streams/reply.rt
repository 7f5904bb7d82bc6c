//! A reply whose fragments are joined.

ghost use Rattle.std.specs.Prelude.{◌≡◌, ◌≤◌, false, length, IfOk, OnOk, OnErr};
ghost use Rattle.giop_messages.specs.declared.head.MessageKind.TheVariants.{Reply};
ghost use Rattle.giop_messages.specs.Heads.{max_size};
ghost use Rattle.giop_messages.specs.Framing.{added, breaks_run as breaks_this};
ghost use Rattle.giop_messages.specs.Runs.{IsMessage};
ghost use Rattle.giop_messages.specs.ReplyStreamsHeads.{alone};
ghost use Rattle.giop_messages.specs.inner.Runs.{IsFirst, IsNext};

use crate::{Head, add_piece, begin_run, breaks_run};
use std::alloc::{AllocError, Global};
use std::marker::Model;

/// A reply, or the pieces of one that have come, as the reply that they would be if nothing more
/// came. A contract sees its octets: one whole message.
#[derive(Drop)]
pub struct SentReply {
    octets: Vec<u8>,
}

impl Model for SentReply {
    ghost use Rattle.std.specs.Prelude.{ℕ, List};
    ghost use Rattle.giop_messages.specs.declared.head.MessageKind.TheVariants.{Reply};
    ghost use Rattle.giop_messages.specs.Runs.{IsAlone};

    ghost Value = { List ℕ };

    ghost view = { λ reply. reply.octets.items };

    ghost invariant = { λ reply. IsAlone Reply reply.octets.items };
}

/// The octets of a message as if nothing followed.
fn octets_alone(alloc: Global, message: &[u8]) -> Result<Vec<u8>, AllocError>
    requires { 12 ≤ length message.now }
    ensures { IfOk result (λ octets. octets.items ≡ alone message.now) }
{
    if message[6] / 2 % 2 == 1 {
        begin_run(alloc, message)
    } else {
        message.to_vec(alloc)
    }
}

impl SentReply {
    /// A reply that has come whole, or the first piece of one.
    pub(crate) fn begin(alloc: Global, first: &[u8]) -> Result<SentReply, AllocError>
        requires { IsFirst first.now }
        ensures { IfOk result (λ reply. reply ≡ alone first.now) }
    {
        Ok(SentReply {
            octets: octets_alone(alloc, first)?,
        })
    }

    /// Adds the next piece.
    ///
    /// # Errors
    /// Want of memory, and then the reply is as it was.
    pub(crate) fn add(&mut self, fragment: &[u8]) -> Result<(), AllocError>
        requires { IsNext self.old fragment.now }
        ensures added { OnOk result (self.new ≡ added self.old fragment.now) }
        ensures kept { OnErr result (self.new ≡ self.old) }
    {
        add_piece(&mut self.octets, fragment)
    }

    /// Whether the head of a fragment breaks a rule of the pieces of a reply.
    pub(crate) fn is_broken_by(&self, head: &Head) -> bool
        requires { head.now.size ≤ max_size }
        ensures { result ≡ breaks_this self.now head.now }
    {
        breaks_run(self.octets.as_slice(), head)
    }

    /// Its octets.
    pub fn octets(&self) -> &[u8]
        ensures { result.now ≡ self.now }
    {
        self.octets.as_slice()
    }

    /// Its head.
    pub fn head(&self) -> Head
        ensures is { IsMessage result self.now }
        ensures reply { result.kind ≡ Reply }
        ensures alone { result.goes_on ≡ false }
    {
        match Head::read(self.octets.as_slice()) {
            Ok(head) => head,
            Err(_) => unreachable!(),
        }
    }
}
