//! The order of words: by their codes, which take one comparison, and else by their letters without
//! case, so that words that are chosen for one code cost no more than their lengths.

ghost use Rattle.std.specs.Prelude.{◌≡◌, Some, map, nat_eq, refl};
ghost use Rattle.std.proofs.Common.{rules};
ghost use Rattle.std.specs.Char.{to_ascii_lowercase};
ghost use Rattle.std.specs.Cmp.{partial_order_from_agreeing_total};
ghost use Rattle.std.specs.Cmp.Lexicographic.{pointwise, slice_cmp};
ghost use Rattle.std.specs.Cmp.Rules.{comparing};
ghost use Rattle.std.specs.Ordering.{nat_cmp, on};
ghost use Rattle.name_table.specs.inner.Keys.{folded, word_cmp, word_cmp_total, word_ties};

use crate::key::Word;
use std::cmp::Ordering;

/// The order of two texts, whatever the case of their letters.
fn order_of(one: &[u8], other: &[u8]) -> Ordering
    ensures { result ≡ slice_cmp nat_cmp (map to_ascii_lowercase one.now) (map to_ascii_lowercase other.now) }
{
    for place in 0..one.len().min(other.len()) {
        let left = one[place].to_ascii_lowercase();
        let right = other[place].to_ascii_lowercase();
        match left.cmp(&right) {
            Ordering::Equal => {}
            order => return order,
        }
    }
    one.len().cmp(&other.len())
}

impl PartialEq for Word<'_> {
    ghost eq = { on folded (pointwise nat_eq) };

    ghost laws = { Prim.search (comparing, rules) };

    fn eq(&self, other: &Self) -> bool {
        self.text.eq_ignore_ascii_case(other.text)
    }
}

impl Eq for Word<'_> {
    ghost laws = { Prim.search (comparing, rules) };
}

impl PartialOrd for Word<'_> {
    ghost partial_cmp = { λ a b. Some (word_cmp a b) };

    ghost laws = { partial_order_from_agreeing_total word_cmp word_cmp_total (λ x y. refl) word_ties };

    fn partial_cmp(&self, other: &Self) -> Option<Ordering> {
        Some(self.cmp(other))
    }
}

impl Ord for Word<'_> {
    ghost cmp = { word_cmp };

    ghost total = { word_cmp_total };

    ghost matches_partial_cmp = { λ a b. refl };

    ghost matches_eq = { word_ties };

    fn cmp(&self, other: &Self) -> Ordering {
        match self.code.cmp(&other.code) {
            Ordering::Equal => order_of(self.text.as_bytes(), other.text.as_bytes()),
            order => order,
        }
    }
}
