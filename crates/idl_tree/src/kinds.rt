//! What identifiers are declared as.

/// What a name is declared as.
#[derive(Clone, Copy, Debug, PartialEq, Eq)]
pub enum EntryKind {
    Module,
    /// An interface, declared ahead or defined.
    Interface,
    /// A structure, declared ahead or defined.
    Struct,
    /// A union, declared ahead or defined.
    Union,
    Enum,
    Enumerator,
    Typedef,
    Const,
    Exception,
    Operation,
    Attribute,
}
