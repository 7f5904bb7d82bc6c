//! What object references say (ISO/IEC 19500-2, IOP: IOR): their profiles with hosts, ports, keys
//! and components.
#![tactic(auto)]

mod body;
mod list;
mod listing;
pub mod spelled_references;
mod tape;

pub use body::iiop_profile;
pub use list::{list_profile, list_reference};
pub use listing::{IiopBody, IiopProfile, ListedProfile, Listing};
