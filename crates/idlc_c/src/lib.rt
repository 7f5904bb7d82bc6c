//! The calls of accepted tables, for C. No call requires anything, beside what C owes to the types.
#![tactic(auto)]

ghost use Rattle.std.specs.Prelude.{◌≡◌, ◌≢◌, ◌<◌, ◌≤◌, ◌↔◌, [], drop, length, slice_get, take, All, Contains, IfSome, IsSome, None, Some};
ghost use Rattle.type_graph.specs.Words.{reading, writing};
ghost use Rattle.type_graph.specs.Encoding.{Means};
ghost use Rattle.type_model.specs.Names.{IsNamed};
ghost use Rattle.position_checker.specs.Acceptance.{IsRight};
ghost use Rattle.idlc_c.specs.Answers.{HasName, HasNoOctets, HasNoTape, HasOctets, HasTape, IsFaultyAt, IsFile, IsNoFile, IsOfFile, IsOfValue, IsOwn, order_of};
ghost use Rattle.giop.specs.GiopBuffersFronts.{HasTexts, IsTold};
ghost use Rattle.giop.specs.Messages.{HasLength};
ghost use Rattle.idlc_c.specs.MessageAnswers.{HasNoMessage, HasNoReply, HasNoRequest, HasReply, HasRequest, IsOfMessage, IsReplyBy, IsRequestBy};
ghost use Rattle.idlc_c.specs.SourceAnswers.{IsFaultAt, IsIdlOf, IsOfSource};
ghost use Rattle.idlc_c.specs.TextAnswers.{HasNoOctetsOfText, HasOctetsOfText, HasTextOfOctets, IsOctetsOfText, IsOfText, IsTextOfOctets, SaysNone};

mod column;
mod compile;
mod handle;
mod held;
mod load;
mod loose;
mod marshal;
mod messages;
mod names;
mod octets;
mod refusal;
mod source_place;
mod text;

use crate::column::column_of;
use crate::marshal::order;
use crate::messages::{buffer_number, message_told};
use crate::refusal::{Refusal, done, status_of, told_at};
use giop::giop_buffers;
pub use giop::giop_buffers::MessageFront;
use giop::giop_buffers::RequestHead;
pub use handle::Handle;
use idl_compiler::CompileFault;
pub use refusal::RefusalPlace;
pub use source_place::SourcePlace;
use std::alloc::Global;
use std::mem;

/// Loads the table of a file's octets in the place of the one that is there, if it is right.
#[unsafe(no_mangle)]
pub extern "C" fn idlc_load(
    alloc: Global,
    handle: &mut Handle,
    octets: &[u8],
    refusal: &mut RefusalPlace,
) -> u32
    ensures done { result ≡ 0 → IsSome handle.new.table }
    ensures file { result ≡ 0 → IfSome handle.new.table (IsFile octets.now) }
    ensures right { result ≡ 0 → IfSome handle.new.table IsRight }
    ensures nameless { result ≡ 0 → handle.new.names ≡ [] }
    ensures kept { result ≢ 0 → handle.new.table ≡ handle.old.table }
    ensures names { result ≢ 0 → handle.new.names ≡ handle.old.names }
    ensures told { result ≢ 0 → refusal.new.number ≡ result }
    ensures untold { result ≡ 0 → refusal.new ≡ refusal.old }
    ensures long { (result ≡ 46) ↔ (16777216 < length octets.now) }
    ensures no_file { 50 ≤ result → result ≤ 55 → IsNoFile octets.now }
    ensures faulty { 80 ≤ result → IsFaultyAt octets.now refusal.new }
    ensures numbers { IsOfFile result }
{
    match load::load(alloc, octets) {
        Ok(held) => {
            *handle = Handle::of(held);
            0
        }
        Err(refused) => {
            *refusal = RefusalPlace::of(&refused);
            refused.number()
        }
    }
}

/// Loads the table of an IDL text, with the names of the parts of its types, in the place of the
/// one that is there.
#[unsafe(no_mangle)]
pub extern "C" fn idlc_compile(
    alloc: Global,
    handle: &mut Handle,
    source: &[u8],
    place: &mut SourcePlace,
) -> u32
    ensures done { result ≡ 0 → IsSome handle.new.table }
    ensures idl { result ≡ 0 → IfSome handle.new.table (IsIdlOf source.now handle.new.names) }
    ensures right { result ≡ 0 → IfSome handle.new.table IsRight }
    ensures kept { result ≢ 0 → handle.new.table ≡ handle.old.table }
    ensures names { result ≢ 0 → handle.new.names ≡ handle.old.names }
    ensures faulty { result ≡ 47 → IsFaultAt source.now place.new }
    ensures untold { result ≢ 47 → place.new ≡ place.old }
    ensures numbers { IsOfSource result }
{
    match compile::compile(alloc, source) {
        Ok(held) => {
            *handle = Handle::of(held);
            0
        }
        Err(CompileFault::NoMemory) => 42,
        Err(fault) => {
            *place = SourcePlace::of_source(&fault);
            place.column = column_of(alloc, source, &fault, place.line);
            47
        }
    }
}

/// Lets go of the table, if one is loaded.
#[unsafe(no_mangle)]
pub extern "C" fn idlc_free(alloc: Global, handle: &mut Handle)
    ensures table { handle.new.table ≡ None }
    ensures names { handle.new.names ≡ [] }
{
    *handle = Handle::none(alloc);
}

/// Has another handle hold what is loaded, in the place of what is there. It isn't copied: each of the
/// two may be used, and let go of, by a thread of its own.
#[unsafe(no_mangle)]
pub extern "C" fn idlc_share(alloc: Global, handle: &mut Handle, other: &mut Handle) -> u32
    ensures kept { handle.new.table ≡ handle.old.table }
    ensures names { handle.new.names ≡ handle.old.names }
    ensures loaded { (result ≡ 43) ↔ (handle.old.table ≡ None) }
    ensures shared { result ≡ 0 → other.new.table ≡ handle.old.table }
    ensures shared_names { result ≡ 0 → other.new.names ≡ handle.old.names }
    ensures untouched { result ≢ 0 → other.new.table ≡ other.old.table }
    ensures same_names { result ≢ 0 → other.new.names ≡ other.old.names }
    ensures numbers { IsOwn 42 43 result }
{
    let Some(held) = mem::replace(handle, Handle::none(alloc)).into_box() else {
        return Refusal::NotLoaded.number();
    };
    let another = held.another(alloc);
    *handle = Handle::of(held);
    match another {
        Ok(another) => {
            *other = Handle::of(another);
            0
        }
        Err(_) => Refusal::NoMemory.number(),
    }
}

/// The node of a type's name.
#[unsafe(no_mangle)]
pub extern "C" fn idlc_find(alloc: Global, handle: &mut Handle, name: &[u8], node: &mut u32) -> u32
    ensures kept { handle.new.table ≡ handle.old.table }
    ensures names { handle.new.names ≡ handle.old.names }
    ensures loaded { (result ≡ 43) ↔ (handle.old.table ≡ None) }
    ensures found { result ≡ 0 → IfSome handle.old.table (λ table. Contains table.model.names (name.now, node.new)) }
    ensures missing { result ≡ 44 → IfSome handle.old.table (λ table.
        All (λ pair. pair.0 ≢ name.now) table.model.names) }
    ensures untouched { result ≢ 0 → node.new ≡ node.old }
    ensures numbers { IsOwn 43 44 result }
{
    let Some(held) = mem::replace(handle, Handle::none(alloc)).into_box() else {
        return Refusal::NotLoaded.number();
    };
    let found = names::find(&held.loaded().table, name);
    *handle = Handle::of(held);
    match found {
        Some(found) => {
            *node = found;
            0
        }
        None => Refusal::NotNamed.number(),
    }
}

/// Writes the name at a place to the front of the buffer, and tells how long it is, or would be,
/// and its node.
#[unsafe(no_mangle)]
pub extern "C" fn idlc_name(
    alloc: Global,
    handle: &mut Handle,
    place: usize,
    out: &mut [u8],
    len: &mut usize,
    node: &mut u32,
) -> u32
    ensures kept { handle.new.table ≡ handle.old.table }
    ensures names { handle.new.names ≡ handle.old.names }
    ensures loaded { (result ≡ 43) ↔ (handle.old.table ≡ None) }
    ensures done { result ≡ 0 → IfSome handle.old.table (λ table.
        slice_get table.model.names place ≡ Some (take len.new out.new, node.new)) }
    ensures within { result ≡ 0 → len.new ≤ length out.old }
    ensures behind { result ≡ 0 → drop len.new out.new ≡ drop len.new out.old }
    ensures past { result ≡ 44 → IfSome handle.old.table (λ table. length table.model.names ≤ place) }
    ensures no_room { result ≡ 45 → length out.old < len.new }
    ensures needed { result ≡ 45 → IfSome handle.old.table (HasName place len.new) }
    ensures untouched { result ≢ 0 → out.new ≡ out.old }
    ensures same_node { result ≢ 0 → node.new ≡ node.old }
    ensures same_length { result ≢ 0 → result ≢ 45 → len.new ≡ len.old }
    ensures numbers { IsOwn 43 45 result }
{
    let Some(held) = mem::replace(handle, Handle::none(alloc)).into_box() else {
        return Refusal::NotLoaded.number();
    };
    let answer = names::name_at(&held.loaded().table, place, out, node);
    *handle = Handle::of(held);
    status_of(answer, len)
}

/// Writes the octets of the value that the whole tape is to the front of the buffer, with zeros in
/// the gaps, and tells how many they are, or would be.
#[unsafe(no_mangle)]
pub extern "C" fn idlc_encode(
    alloc: Global,
    handle: &mut Handle,
    node: u32,
    little: bool,
    pos: u64,
    tape: &[u8],
    out: &mut [u8],
    len: &mut usize,
) -> u32
    ensures kept { handle.new.table ≡ handle.old.table }
    ensures names { handle.new.names ≡ handle.old.names }
    ensures loaded { (result ≡ 43) ↔ (handle.old.table ≡ None) }
    ensures done { result ≡ 0 → IfSome handle.old.table (λ table.
        Means table.model.graph (writing (order_of little)) 64 node pos tape.now (take len.new out.new)) }
    ensures within { result ≡ 0 → len.new ≤ length out.old }
    ensures behind { result ≡ 0 → drop len.new out.new ≡ drop len.new out.old }
    ensures unnamed { result ≡ 44 → IfSome handle.old.table (λ table. IsNamed table.model.names node → ⊥) }
    ensures no_room { result ≡ 45 → length out.old < len.new }
    ensures needed { result ≡ 45 → IfSome handle.old.table (HasOctets node (order_of little) pos tape.now len.new) }
    ensures refused { 60 ≤ result → IfSome handle.old.table (HasNoOctets node (order_of little) pos tape.now) }
    ensures untouched { result ≢ 0 → out.new ≡ out.old }
    ensures same_length { result ≢ 0 → result ≢ 45 → len.new ≡ len.old }
    ensures numbers { IsOfValue result }
{
    let Some(mut held) = mem::replace(handle, Handle::none(alloc)).into_box() else {
        return Refusal::NotLoaded.number();
    };
    let answer = marshal::encode(&mut held, node, order(little), pos, tape, out, len);
    *handle = Handle::of(held);
    done(answer, len)
}

/// Writes the tape of the value that a front of the octets encodes, whatever stands in the gaps,
/// to the front of the buffer, and tells how long it is, or would be, and how many octets that
/// front has.
#[unsafe(no_mangle)]
pub extern "C" fn idlc_decode(
    alloc: Global,
    handle: &mut Handle,
    node: u32,
    little: bool,
    pos: u64,
    octets: &[u8],
    taken: &mut usize,
    out: &mut [u8],
    len: &mut usize,
) -> u32
    ensures kept { handle.new.table ≡ handle.old.table }
    ensures names { handle.new.names ≡ handle.old.names }
    ensures loaded { (result ≡ 43) ↔ (handle.old.table ≡ None) }
    ensures done { result ≡ 0 → IfSome handle.old.table (λ table. Means table.model.graph
        (reading (order_of little)) 64 node pos (take len.new out.new) (take taken.new octets.now)) }
    ensures taken { result ≡ 0 → taken.new ≤ length octets.now }
    ensures within { result ≡ 0 → len.new ≤ length out.old }
    ensures behind { result ≡ 0 → drop len.new out.new ≡ drop len.new out.old }
    ensures unnamed { result ≡ 44 → IfSome handle.old.table (λ table. IsNamed table.model.names node → ⊥) }
    ensures no_room { result ≡ 45 → length out.old < len.new }
    ensures needed { result ≡ 45 → IfSome handle.old.table (HasTape node (order_of little) pos octets.now len.new) }
    ensures refused { 60 ≤ result → IfSome handle.old.table (HasNoTape node (order_of little) pos octets.now) }
    ensures untouched { result ≢ 0 → out.new ≡ out.old }
    ensures not_taken { result ≢ 0 → taken.new ≡ taken.old }
    ensures same_length { result ≢ 0 → result ≢ 45 → len.new ≡ len.old }
    ensures numbers { IsOfValue result }
{
    let Some(mut held) = mem::replace(handle, Handle::none(alloc)).into_box() else {
        return Refusal::NotLoaded.number();
    };
    let answer = marshal::decode(&mut held, node, order(little), pos, octets, taken, out, len);
    *handle = Handle::of(held);
    done(answer, len)
}

/// Writes the octets of the value that a text says to the front of the buffer, with zeros in the
/// gaps, and tells how many they are, or would be. Where the text says none, the place is told.
#[unsafe(no_mangle)]
pub extern "C" fn idlc_encode_text(
    alloc: Global,
    handle: &mut Handle,
    node: u32,
    little: bool,
    pos: u64,
    text: &[u8],
    out: &mut [u8],
    len: &mut usize,
    place: &mut SourcePlace,
) -> u32
    ensures kept { handle.new.table ≡ handle.old.table }
    ensures names { handle.new.names ≡ handle.old.names }
    ensures loaded { (result ≡ 43) ↔ (handle.old.table ≡ None) }
    ensures done { result ≡ 0 → IfSome handle.old.table
        (IsOctetsOfText handle.old.names node (order_of little) pos text.now (take len.new out.new)) }
    ensures within { result ≡ 0 → len.new ≤ length out.old }
    ensures behind { result ≡ 0 → drop len.new out.new ≡ drop len.new out.old }
    ensures unnamed { result ≡ 44 → IfSome handle.old.table (λ table. IsNamed table.model.names node → ⊥) }
    ensures no_room { result ≡ 45 → length out.old < len.new }
    ensures needed { result ≡ 45 → IfSome handle.old.table
        (HasOctetsOfText handle.old.names node (order_of little) pos text.now len.new) }
    ensures refused { 60 ≤ result → result ≤ 68 → IfSome handle.old.table
        (HasNoOctetsOfText handle.old.names node (order_of little) pos text.now) }
    ensures unsaid { 110 ≤ result → IfSome handle.old.table (SaysNone handle.old.names node text.now) }
    ensures told { 110 ≤ result → place.new.number ≡ result }
    ensures untold { result < 110 → place.new ≡ place.old }
    ensures untouched { result ≢ 0 → out.new ≡ out.old }
    ensures same_length { result ≢ 0 → result ≢ 45 → len.new ≡ len.old }
    ensures numbers { IsOfText result }
{
    let Some(held) = mem::replace(handle, Handle::none(alloc)).into_box() else {
        return Refusal::NotLoaded.number();
    };
    let answer = text::encode_text(alloc, held.loaded(), node, order(little), pos, text, out);
    *handle = Handle::of(held);
    told_at(answer, len, place)
}

/// Writes the text of the value that a front of the octets encodes, whatever stands in the gaps, to
/// the front of the buffer, and tells how long it is, or would be, and how many octets that front
/// has.
#[unsafe(no_mangle)]
pub extern "C" fn idlc_decode_text(
    alloc: Global,
    handle: &mut Handle,
    node: u32,
    little: bool,
    pos: u64,
    octets: &[u8],
    taken: &mut usize,
    out: &mut [u8],
    len: &mut usize,
) -> u32
    ensures kept { handle.new.table ≡ handle.old.table }
    ensures names { handle.new.names ≡ handle.old.names }
    ensures loaded { (result ≡ 43) ↔ (handle.old.table ≡ None) }
    ensures done { result ≡ 0 → IfSome handle.old.table
        (IsTextOfOctets handle.old.names node (order_of little) pos octets.now taken.new (take len.new out.new)) }
    ensures within { result ≡ 0 → len.new ≤ length out.old }
    ensures behind { result ≡ 0 → drop len.new out.new ≡ drop len.new out.old }
    ensures unnamed { result ≡ 44 → IfSome handle.old.table (λ table. IsNamed table.model.names node → ⊥) }
    ensures no_room { result ≡ 45 → length out.old < len.new }
    ensures needed { result ≡ 45 → IfSome handle.old.table
        (HasTextOfOctets handle.old.names node (order_of little) pos octets.now len.new) }
    ensures refused { 60 ≤ result → IfSome handle.old.table (HasNoTape node (order_of little) pos octets.now) }
    ensures untouched { result ≢ 0 → out.new ≡ out.old }
    ensures not_taken { result ≢ 0 → taken.new ≡ taken.old }
    ensures same_length { result ≢ 0 → result ≢ 45 → len.new ≡ len.old }
    ensures numbers { IsOfValue result }
{
    let Some(held) = mem::replace(handle, Handle::none(alloc)).into_box() else {
        return Refusal::NotLoaded.number();
    };
    let answer = text::decode_text(
        alloc,
        held.loaded(),
        node,
        order(little),
        pos,
        octets,
        taken,
        out,
    );
    *handle = Handle::of(held);
    status_of(answer, len)
}

/// Writes the request of these fields to the front of the buffer, with the body that the tape of the
/// node is, and tells how many octets it has, or would have.
#[unsafe(no_mangle)]
pub extern "C" fn idlc_write_request(
    alloc: Global,
    handle: &mut Handle,
    node: u32,
    little: bool,
    id: u32,
    flags: u8,
    key: &[u8],
    operation: &[u8],
    tape: &[u8],
    out: &mut [u8],
    len: &mut usize,
) -> u32
    ensures kept { handle.new.table ≡ handle.old.table }
    ensures names { handle.new.names ≡ handle.old.names }
    ensures loaded { (result ≡ 43) ↔ (handle.old.table ≡ None) }
    ensures done { result ≡ 0 → IfSome handle.old.table
        (IsRequestBy little id flags key.now operation.now node tape.now (take len.new out.new)) }
    ensures within { result ≡ 0 → len.new ≤ length out.old }
    ensures behind { result ≡ 0 → drop len.new out.new ≡ drop len.new out.old }
    ensures unnamed { result ≡ 44 → IfSome handle.old.table (λ table. IsNamed table.model.names node → ⊥) }
    ensures no_room { result ≡ 45 → length out.old < len.new }
    ensures needed { result ≡ 45 → IfSome handle.old.table
        (HasRequest little id flags key.now operation.now node tape.now len.new) }
    ensures refused { 90 ≤ result → IfSome handle.old.table
        (HasNoRequest little id flags key.now operation.now node tape.now result) }
    ensures untouched { result ≢ 0 → out.new ≡ out.old }
    ensures same_length { result ≢ 0 → result ≢ 45 → len.new ≡ len.old }
    ensures numbers { IsOfMessage result }
{
    let Some(held) = mem::replace(handle, Handle::none(alloc)).into_box() else {
        return Refusal::NotLoaded.number();
    };
    let head = RequestHead {
        order: order(little),
        id,
        flags,
        key,
        operation,
    };
    let answer = messages::request(alloc, &held, node, &head, tape, out);
    *handle = Handle::of(held);
    message_told(answer, len)
}

/// Writes the reply to the request of a number to the front of the buffer, with the body that the tape
/// of the node is, and tells how many octets it has, or would have. The status is the number of a
/// ReplyStatusType_1_2.
#[unsafe(no_mangle)]
pub extern "C" fn idlc_write_reply(
    alloc: Global,
    handle: &mut Handle,
    node: u32,
    little: bool,
    id: u32,
    status: u32,
    tape: &[u8],
    out: &mut [u8],
    len: &mut usize,
) -> u32
    ensures kept { handle.new.table ≡ handle.old.table }
    ensures names { handle.new.names ≡ handle.old.names }
    ensures loaded { (result ≡ 43) ↔ (handle.old.table ≡ None) }
    ensures done { result ≡ 0 → IfSome handle.old.table
        (IsReplyBy little id status node tape.now (take len.new out.new)) }
    ensures within { result ≡ 0 → len.new ≤ length out.old }
    ensures behind { result ≡ 0 → drop len.new out.new ≡ drop len.new out.old }
    ensures unnamed { result ≡ 44 → IfSome handle.old.table (λ table. IsNamed table.model.names node → ⊥) }
    ensures no_room { result ≡ 45 → length out.old < len.new }
    ensures needed { result ≡ 45 → IfSome handle.old.table (HasReply little id status node tape.now len.new) }
    ensures refused { 90 ≤ result → IfSome handle.old.table (HasNoReply little id status node tape.now result) }
    ensures untouched { result ≢ 0 → out.new ≡ out.old }
    ensures same_length { result ≢ 0 → result ≢ 45 → len.new ≡ len.old }
    ensures numbers { IsOfMessage result }
{
    let Some(held) = mem::replace(handle, Handle::none(alloc)).into_box() else {
        return Refusal::NotLoaded.number();
    };
    let answer = messages::reply(alloc, &held, node, little, id, status, tape, out);
    *handle = Handle::of(held);
    message_told(answer, len)
}

/// Tells what stands at the front of a stream of messages of which no run of fragments is open. The key
/// of the object that a request asks for is written to the front of the buffer, and behind it the
/// operation; it tells how many octets they have together, or would have. Any table serves.
#[unsafe(no_mangle)]
pub extern "C" fn idlc_read_message(
    alloc: Global,
    handle: &mut Handle,
    octets: &[u8],
    message: &mut MessageFront,
    out: &mut [u8],
    len: &mut usize,
) -> u32
    ensures kept { handle.new.table ≡ handle.old.table }
    ensures names { handle.new.names ≡ handle.old.names }
    ensures loaded { (result ≡ 43) ↔ (handle.old.table ≡ None) }
    ensures done { result ≡ 0 → IsTold octets.now message.new (take len.new out.new) }
    ensures within { result ≡ 0 → len.new ≤ length out.old }
    ensures behind { result ≡ 0 → drop len.new out.new ≡ drop len.new out.old }
    ensures no_room { result ≡ 45 → length out.old < len.new }
    ensures needed { result ≡ 45 → HasLength (HasTexts octets.now) len.new }
    ensures refused { 90 ≤ result → HasNoMessage octets.now result }
    ensures untold { result ≢ 0 → message.new ≡ message.old }
    ensures untouched { result ≢ 0 → out.new ≡ out.old }
    ensures same_length { result ≢ 0 → result ≢ 45 → len.new ≡ len.old }
    ensures numbers { IsOfMessage result }
{
    let Some(held) = mem::replace(handle, Handle::none(alloc)).into_box() else {
        return Refusal::NotLoaded.number();
    };
    let answer = giop_buffers::read_message(held.giop(), alloc, octets, message, out);
    *handle = Handle::of(held);
    match answer {
        Ok(written) => {
            *len = written;
            0
        }
        Err(fault) => buffer_number(fault, len),
    }
}
