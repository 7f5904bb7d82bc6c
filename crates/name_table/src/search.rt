//! What a search gives.

/// What a search gives.
#[derive(Clone, Copy)]
pub enum Found {
    /// No entry.
    Nothing,
    /// The entry of this number.
    One(usize),
    /// Several that differ, of which these are the first two.
    Several(usize, usize),
}

/// What is seen where a name is sought.
#[derive(Clone, Copy)]
pub enum Sight {
    /// Nothing of the name.
    Unseen,
    /// The entry of this number, which is declared in another case.
    OtherCase(usize),
    /// Several entries that differ, of which these are the first two.
    Unclear(usize, usize),
    /// The entry of this number.
    Seen(usize),
}
