//! Who hears of faults.

use diagnostic_views::Look;

/// Who reads standard error.
#[derive(Clone, Copy, Debug, PartialEq, Eq)]
pub enum ErrorReader {
    /// A program or a file: a fault is one line.
    Program,
    /// One who asked for what else is known, by `--explain`.
    Asker,
    /// A person at a terminal, who is told that too.
    Person(Look),
}

impl ErrorReader {
    /// The same, where words may ask for what else is known.
    pub fn asking(self, explains: bool) -> ErrorReader {
        match self {
            ErrorReader::Program if explains => ErrorReader::Asker,
            heard => heard,
        }
    }

    /// How what else is known looks, if it is told.
    pub fn look(self) -> Option<Look> {
        match self {
            ErrorReader::Program => None,
            ErrorReader::Asker => Some(Look::Plain),
            ErrorReader::Person(look) => Some(look),
        }
    }

    pub fn is_person(self) -> bool {
        matches!(self, ErrorReader::Person(_))
    }
}
