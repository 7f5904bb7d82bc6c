//! What operations do.

/// What an operation of an object does. Attributes are counted from 0, in the order of the
/// interface's operations.
#[derive(Clone, Copy)]
pub enum Action {
    /// It gets an attribute.
    Get(usize),
    /// It sets an attribute to its argument.
    Set(usize),
    /// It has nothing to answer.
    Empty,
    /// It answers its arguments.
    Echo,
    /// Nothing serves it.
    Nothing,
}
