//! Scopes.

ghost use Rattle.std.specs.Prelude.{◌<◌, ◌-◌};
ghost use Rattle.std.specs.Option.{SomeIff};

/// The scope of a file or of an entry: 0 for the file, else one more than the number of the entry
/// whose scope it is.
#[derive(Clone, Copy, PartialEq, Eq, PartialOrd, Ord)]
pub struct Scope(pub usize);

impl Scope {
    /// The file's.
    pub const FILE: Scope = Scope(0);

    /// The entry whose scope it is, if it isn't the file's.
    pub fn entry(self) -> Option<usize>
        ensures { SomeIff result (0 < self.0) (self.0 - 1) }
    {
        self.0.checked_sub(1)
    }
}
