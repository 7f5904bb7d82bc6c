//! Lists that a contract sees as plain lists.

ghost use Rattle.std.specs.Prelude.{◌≡◌, ◌≤◌, ◌≤ℤ◌, ◌<ℤ◌, ◌↔◌, ◌<◌, ℕ, suc, length, option_to_list, IsTrue, IfSome, IfNone};
ghost use Rattle.std.specs.Cmp.Lexicographic.{pointwise, lists_per};
ghost use Rattle.type_graph.specs.Value.{arm_of};
ghost use Rattle.type_graph.specs.GraphRules.{label_at};
ghost use Rattle.type_graph.specs.Labels.{AreRising};

use std::marker::Model;

/// A list that keeps its order and length. A contract sees the plain list.
#[derive(Drop)]
pub struct Items<T> {
    items: Vec<T>,
}

impl<T> Model for Items<T> {
    ghost use Rattle.std.specs.Prelude.{List};

    ghost Value = { List T };

    ghost view = { λ l. l.items.items };
}

impl<T> Items<T> {
    /// The items in this order. Takes no memory.
    pub fn new(items: Vec<T>) -> Self
        ensures { result ≡ items.items }
    {
        Items { items }
    }

    pub fn as_slice(&self) -> &[T]
        ensures { result.now ≡ self.now }
    {
        self.items.as_slice()
    }

    /// Gives the list back. Takes no memory.
    pub fn into_vec(self) -> Vec<T>
        ensures { result.items ≡ self }
    {
        self.items
    }
}

impl<T: PartialEq> PartialEq for Items<T> {
    ghost eq = { pointwise T.eq };

    ghost laws = { lists_per T.laws };

    fn eq(&self, other: &Self) -> bool {
        self.items == other.items
    }
}

/// The members of a structure or a frame, in order: numbers of nodes.
pub type Members = Items<u32>;

/// The arms of a union, or of an instruction that switches as one does: pairs of a label and a
/// number, in rising order of the labels.
pub type Arms = Items<(i128, u32)>;

/// The place of the first label that isn't less than the next, if there is one.
pub(crate) fn first_fall(arms: &[(i128, u32)]) -> Option<usize>
    ensures falls { IfSome result (λ place. (suc place < length arms.now)
        × (label_at arms.now (suc place) ≤ℤ label_at arms.now place)) }
    ensures first { IfSome result (λ place. (before : ℕ) → before < place
        → label_at arms.now before <ℤ label_at arms.now (suc before)) }
    ensures none { IfNone result (AreRising arms.now) }
{
    for next in 1..arms.len() {
        if arms[next - 1].0 >= arms[next].0 {
            return Some(next - 1);
        }
    }
    None
}

fn are_same(arms: &[(i128, u32)], others: &[(i128, u32)]) -> bool
    ensures { IsTrue result ↔ (arms.now ≡ others.now) }
{
    arms == others
}

impl Items<(i128, u32)> {
    /// The number that a label chooses, else `otherwise`.
    pub fn chosen(&self, otherwise: Option<u32>, label: i128) -> Option<u32>
        ensures { option_to_list result ≡ arm_of self.now otherwise label }
    {
        for arm in &self.items {
            if arm.0 == label {
                return Some(arm.1);
            }
        }
        otherwise
    }

    /// Whether each label is less than the next.
    pub fn is_rising(&self) -> bool
        ensures { IsTrue result ↔ AreRising self.now }
    {
        first_fall(&self.items).is_none()
    }

    /// Whether the arms are the same, one by one.
    pub fn is(&self, other: &Self) -> bool
        ensures { IsTrue result ↔ (self.now ≡ other.now) }
    {
        are_same(self.as_slice(), other.as_slice())
    }
}
