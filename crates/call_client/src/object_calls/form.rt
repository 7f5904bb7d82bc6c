//! How objects are named.

/// How an object is named to its server (ISO/IEC 19500-2, GIOP message formats:
/// AddressingDisposition).
#[derive(Clone, Copy, Debug, PartialEq, Eq)]
pub enum Form {
    /// By its key in the profile that is dialled.
    Key,
    /// By the profile that is dialled.
    Profile,
    /// By the reference, and the number of the profile that is dialled.
    Reference,
}
