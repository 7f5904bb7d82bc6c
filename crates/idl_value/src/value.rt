//! A value, apart from its type.

/// What a type of a graph has as a value. Contracts see it as the value tree of the definitions.
#[derive(Drop)]
pub enum Value {
    /// An integer, octet, character, boolean or enumerator.
    Integer(i128),
    /// A string, without its terminating zero.
    Text(Vec<u8>),
    /// The elements of a sequence or an array, the members of a structure or a frame.
    Items(Vec<Value>),
    /// A union: the discriminator, and the member that it chooses, if any.
    Choice {
        disc: i128,
        member: Option<Box<Value>>,
    },
}
