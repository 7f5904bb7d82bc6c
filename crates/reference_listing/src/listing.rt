//! What is listed of a reference.

use type_graph::Order;

/// The body of a profile of IIOP (ISO/IEC 19500-2, IIOP IOR profiles: ProfileBody_1_1).
#[derive(Drop)]
pub struct IiopBody {
    pub major: u8,
    pub minor: u8,
    pub host: Vec<u8>,
    pub port: u16,
    /// The key of the object at its server.
    pub key: Vec<u8>,
    /// Each with its tag; none in version 1.0.
    pub components: Vec<(u32, Vec<u8>)>,
}

/// A profile of IIOP.
#[derive(Drop)]
pub struct IiopProfile {
    /// The byte order of the encapsulation.
    pub order: Order,
    pub body: IiopBody,
    /// The octets behind the body.
    pub behind: Vec<u8>,
}

/// A profile of a reference.
#[derive(Drop)]
pub enum ListedProfile {
    Iiop(IiopProfile),
    /// Any other, and one with the tag of IIOP whose octets aren't those of one.
    Other { tag: u32, octets: Vec<u8> },
}

/// A reference, profile by profile.
#[derive(Drop)]
pub struct Listing {
    /// The repository id of the interface.
    pub type_id: Vec<u8>,
    pub profiles: Vec<ListedProfile>,
}
