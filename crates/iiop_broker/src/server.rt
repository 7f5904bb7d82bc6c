//! What messages are answered by.

use broker_answers::Service;
use std::alloc::Global;

/// The objects that are served, and the servant of their operations.
#[derive(Drop)]
pub(crate) struct Server<S> {
    pub(crate) alloc: Global,
    pub(crate) service: Service,
    pub(crate) servant: S,
}
