//! Why reading stops.

#[derive(Clone, Copy)]
pub enum Stop {
    /// The next token can't stand where it does.
    Unexpected,
    /// The token of this number, counted from 0, opens a level too many.
    TooDeep { at: usize, line: usize },
    /// Memory was refused.
    NoMemory,
}
