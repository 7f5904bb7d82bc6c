//! The nodes of the parts of which a value is made.

ghost use Rattle.std.specs.Prelude.{◌≡◌, [], ◌∷◌, MatchOption};

/// The nodes of an array's or a sequence's elements, or of members, in order.
#[derive(Clone, Copy)]
pub enum Parts<'a> {
    /// The same node so many times.
    Copies { number: u32, left: usize },
    Listed(&'a [u32]),
}

impl<'a> Parts<'a> {
    ghost use Rattle.idl_value.specs.inner.PartList.{numbers_of};

    /// The first node, and the parts behind it.
    pub fn split_first(self) -> Option<(u32, Parts<'a>)>
        ensures { MatchOption result (numbers_of self.entry ≡ []) (λ first. numbers_of self.entry
            ≡ first.0 ∷ numbers_of first.1) }
    {
        match self {
            Parts::Copies { left: 0, .. } => None,
            Parts::Copies { number, left } => Some((
                number,
                Parts::Copies {
                    number,
                    left: left - 1,
                },
            )),
            Parts::Listed([]) => None,
            Parts::Listed([first, more @ ..]) => Some((*first, Parts::Listed(more))),
        }
    }
}
