//! What a request can ask of an interface, and what a defined interface has.

use type_graph::Items;

/// What a request does with the entry that it names.
#[derive(Clone, Copy, Debug, PartialEq, Eq)]
pub enum Role {
    /// It calls the operation.
    Operation,
    /// It gets the attribute.
    Getting,
    /// It sets the attribute.
    Setting,
}

/// An operation, or the getting or setting of an attribute.
#[derive(Drop)]
pub struct Signature {
    /// The entry of the operation or the attribute.
    pub entry: usize,
    pub role: Role,
    pub is_oneway: bool,
    /// The number of the frame that a request carries. That of the reply comes next.
    pub request: u32,
    /// The places of the exceptions that it may raise, among all exceptions.
    pub raises: Items<usize>,
}

/// What a defined interface has, with what it inherits.
#[derive(Drop)]
pub struct Offered {
    /// The places of its operations, those that it inherits first.
    pub operations: Items<usize>,
    /// The entries of all interfaces that it inherits from: each base and then the bases of that,
    /// each once.
    pub bases: Items<usize>,
}
