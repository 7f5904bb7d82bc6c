//! The types of GIOP 1.2 and IIOP as an accepted table, by which headers and profiles are read and
//! written, and the parts of their tapes.
#![tactic(auto)]

mod finding;
mod graph;
pub mod laws;
mod names;
mod table;
mod tapes;
mod types;

pub use finding::find_value;
pub use graph::{
    BOOLEAN_RESULT, CANCEL_REQUEST_HEADER, ID_ARGUMENT, LOCATE_REPLY_HEADER, LOCATE_REQUEST_HEADER,
    NO_ARGUMENT, PROFILE_BODY_1_0, PROFILE_BODY_1_1, REPLY_HEADER, REQUEST_HEADER,
    SYSTEM_EXCEPTION,
};
pub use table::giop_types;
pub use tapes::fault::TapeFault;
pub use tapes::reading::{
    Tagged, split_octets, split_tagged, split_tagged_list, split_u8, split_u16, split_u32,
};
pub use tapes::writing::{push_octets, push_tagged, push_u8, push_u16, push_u32};
pub use type_graph::basic_types::OBJECT;
pub use types::GiopTypes;
