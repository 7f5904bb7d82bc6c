//! What a run tells when it did what was asked for.

ghost use Rattle.std.specs.Prelude.{◌≡◌};

use std::fmt::{self, Formatter};

/// What else is told on standard error, as the line behind `idlc: `.
#[derive(Clone, Copy)]
pub enum Notice {
    /// A table was written whose names the planned program doesn't serve.
    PlanUnused,
}

impl fmt::Display for Notice {
    fn fmt<W: fmt::Write>(&self, f: &mut Formatter<W>) -> fmt::Result {
        match self {
            Notice::PlanUnused => f.write_str("planned program not used"),
        }
    }
}

/// The text for standard output, and what else is told.
#[derive(Drop)]
pub struct TaskOutput {
    pub text: String,
    pub notice: Option<Notice>,
}

impl TaskOutput {
    /// An answer behind which nothing else is told.
    pub fn plain(text: String) -> TaskOutput
        ensures { result.text ≡ text }
    {
        TaskOutput { text, notice: None }
    }
}
