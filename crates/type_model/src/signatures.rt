//! Interfaces, operations and exceptions of a model, each known by its place in its list.

use crate::names::Name;
use type_graph::Items;

#[derive(Drop)]
pub struct Interface {
    pub name: Name,
    /// The repository id.
    pub id: Name,
    /// The repository ids of all interfaces that it inherits from.
    pub bases: Items<Name>,
    /// The places of its operations, those that it inherits first.
    pub operations: Items<u32>,
}

/// An operation, or the getting or setting of an attribute.
#[derive(Drop)]
pub struct Operation {
    /// The name that a request carries.
    pub name: Name,
    pub oneway: bool,
    /// The frame of the `in` and `inout` parameters.
    pub request: u32,
    /// The frame of the result and of the `inout` and `out` parameters.
    pub reply: u32,
    /// The places of the exceptions that it may raise.
    pub exceptions: Items<u32>,
}

#[derive(Drop)]
pub struct Exception {
    pub name: Name,
    /// The repository id.
    pub id: Name,
    /// The frame of the repository id and the members.
    pub frame: u32,
}
