//! The message that says that one before was none.

ghost use Rattle.std.specs.Prelude.{◌≡◌, IfOk};
ghost use Rattle.type_graph.specs.declared.width.Order.TheVariants.{Big};
ghost use Rattle.giop_messages.specs.Written.{head_octets};
ghost use Rattle.giop_messages.specs.Heads.{message_error_type};

use crate::giop_calls::Giop;
use crate::writing::message::push_head;
use giop_messages::HEAD_LEN;
use std::alloc::{AllocError, Global};
use type_graph::Order;

/// The number of this type of messages.
const MESSAGE_ERROR: u8 = 6;

impl Giop {
    /// Writes the message that says that one before was none: a head in big order, and nothing
    /// behind it.
    ///
    /// # Errors
    /// Want of memory.
    pub fn write_message_error(&self, alloc: Global) -> Result<Vec<u8>, AllocError>
        // the messages of type 6
        ensures { IfOk result (λ octets. octets.items ≡ head_octets Big message_error_type 0) }
    {
        let mut octets = Vec::with_capacity(alloc, HEAD_LEN)?;
        push_head(&mut octets, Order::Big, MESSAGE_ERROR, 0)?;
        Ok(octets)
    }
}
