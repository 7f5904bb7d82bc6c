//! Messages of GIOP, by an accepted table, from buffers of the caller's to another.

ghost use Rattle.std.specs.Prelude.{◌≡◌, ◌≤◌, drop, length, take, IfErr, IfOk, OnErr};
ghost use Rattle.std.specs.Option.{MatchOption};
ghost use Rattle.type_model.specs.Names.{IsNamed};
ghost use Rattle.giop.specs.Made.{given};
ghost use Rattle.giop_messages.specs.declared.message.ReplyStatus.{ReplyStatus};
ghost use Rattle.giop_messages.specs.Headers.{number_of};
ghost use Rattle.giop.specs.Messages.{IsNoRequestOf, IsRequestOf};
ghost use Rattle.idlc_c.specs.MessageAnswers.{IsNoReplyBy, IsReplyBy, RefusesMessage, length_of_buffer, length_of_message, number_of_buffer, number_of_giop, number_of_message};

use crate::held::Held;
use crate::marshal::order;
use giop::giop_buffers::{BufferFault, ReplyHead, RequestHead};
use giop::{GiopFault, ReplyStatus, giop_buffers};
use std::alloc::Global;

#[derive(Clone, Copy)]
pub(crate) enum MessageRefusal {
    /// No type of the table has the node.
    NotNamed,
    NotHanded(BufferFault),
}

fn giop_number(fault: GiopFault) -> u32
    ensures { result ≡ number_of_giop fault }
{
    match fault {
        GiopFault::NotGiop => 90,
        GiopFault::Version => 91,
        GiopFault::TooLong => 92,
        GiopFault::BadHead => 93,
        GiopFault::BadBody => 96,
        GiopFault::BadFragment => 97,
        GiopFault::NoMemory => 42,
    }
}

/// The number of a fault. The length that is needed is told where there is no room.
pub(crate) fn buffer_number(fault: BufferFault, len: &mut usize) -> u32
    ensures number { result ≡ number_of_buffer fault }
    ensures length { len.new ≡ length_of_buffer fault len.old }
{
    match fault {
        BufferFault::NoRoom { needed } => {
            *len = needed;
            45
        }
        BufferFault::Refused(fault) => giop_number(fault),
    }
}

/// The number of an answer. Its length is that of what was handed over, or would have been.
pub(crate) fn message_told(answer: Result<usize, MessageRefusal>, len: &mut usize) -> u32
    ensures number { result ≡ number_of_message answer }
    ensures length { len.new ≡ length_of_message answer len.old }
{
    match answer {
        Ok(written) => {
            *len = written;
            0
        }
        Err(MessageRefusal::NotNamed) => 44,
        Err(MessageRefusal::NotHanded(fault)) => buffer_number(fault, len),
    }
}

fn status_of(number: u32) -> Option<ReplyStatus>
    ensures { MatchOption result ((s : ReplyStatus) → number_of s ≡ number → ⊥) (λ s. number_of s ≡ number) }
{
    match number {
        0 => Some(ReplyStatus::NoException),
        1 => Some(ReplyStatus::UserException),
        2 => Some(ReplyStatus::SystemException),
        3 => Some(ReplyStatus::LocationForward),
        4 => Some(ReplyStatus::LocationForwardPerm),
        5 => Some(ReplyStatus::NeedsAddressingMode),
        _ => None,
    }
}

/// Writes a request to the buffer, and tells how many octets it has.
pub(crate) fn request(
    alloc: Global,
    held: &Held,
    node: u32,
    head: &RequestHead<'_>,
    tape: &[u8],
    out: &mut [u8],
) -> Result<usize, MessageRefusal>
    ensures written { IfOk result (λ len.
        IsRequestOf head.now (given held.now.table.model.graph node tape.now) (take len out.new)) }
    ensures within { IfOk result (λ len. len ≤ length out.old) }
    ensures behind { IfOk result (λ len. drop len out.new ≡ drop len out.old) }
    ensures refused { IfErr result (RefusesMessage (IsNamed held.now.table.model.names node → ⊥)
        (IsRequestOf head.now (given held.now.table.model.graph node tape.now)) (length out.old)
        (IsNoRequestOf head.now (given held.now.table.model.graph node tape.now))) }
    ensures kept { OnErr result (out.new ≡ out.old) }
{
    let table = &held.loaded().table;
    if !table.is_named(node) {
        return Err(MessageRefusal::NotNamed);
    }
    match giop_buffers::write_request(held.giop(), alloc, head, (table, node, tape), out) {
        Ok(len) => Ok(len),
        Err(fault) => Err(MessageRefusal::NotHanded(fault)),
    }
}

/// Writes the reply of the status with a number to the buffer, and tells how many octets it has.
pub(crate) fn reply(
    alloc: Global,
    held: &Held,
    node: u32,
    little: bool,
    id: u32,
    status: u32,
    tape: &[u8],
    out: &mut [u8],
) -> Result<usize, MessageRefusal>
    ensures written { IfOk result (λ len.
        IsReplyBy little id status node tape.now (take len out.new) held.now.table) }
    ensures within { IfOk result (λ len. len ≤ length out.old) }
    ensures behind { IfOk result (λ len. drop len out.new ≡ drop len out.old) }
    ensures refused { IfErr result (RefusesMessage (IsNamed held.now.table.model.names node → ⊥)
        (λ octets. IsReplyBy little id status node tape.now octets held.now.table) (length out.old)
        (IsNoReplyBy little id status node tape.now held.now.table)) }
    ensures kept { OnErr result (out.new ≡ out.old) }
{
    let table = &held.loaded().table;
    if !table.is_named(node) {
        return Err(MessageRefusal::NotNamed);
    }
    let Some(status) = status_of(status) else {
        return Err(MessageRefusal::NotHanded(BufferFault::Refused(GiopFault::BadHead)));
    };
    let head = ReplyHead {
        order: order(little),
        id,
        status,
    };
    match giop_buffers::write_reply(held.giop(), alloc, &head, (table, node, tape), out) {
        Ok(len) => Ok(len),
        Err(fault) => Err(MessageRefusal::NotHanded(fault)),
    }
}
