//! Values to marshal.

use type_graph::Order;

/// From a tape to octets, or from octets to a tape.
#[derive(Clone, Copy, Debug, PartialEq, Eq)]
pub enum Way {
    Encode,
    Decode,
}

/// How a value stands in words and lines.
#[derive(Clone, Copy, Debug, PartialEq, Eq)]
pub enum Form {
    /// As the hexadecimal digits of its tape.
    Hex,
    /// As text.
    Text,
}

/// One value to marshal.
#[derive(Clone, Copy)]
pub struct ValueRequest<'a> {
    pub way: Way,
    /// The name of a type of the table.
    pub name: &'a str,
    pub order: Order,
    /// The position of the first octet.
    pub pos: u64,
}
