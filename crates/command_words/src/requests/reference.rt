//! References to print.

/// A reference to print.
#[derive(Clone, Copy)]
pub struct ReferenceRequest<'a> {
    pub host: &'a str,
    pub port: u16,
    /// The key of the object, an equals sign, and the name of its interface.
    pub object: &'a str,
}
