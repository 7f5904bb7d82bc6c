//! The numbers that are values of a node.

ghost use Rattle.std.specs.Prelude.{◌≡◌, ◌^◌, ◌≤◌, ◌<ℤ◌, ◌≤ℤ◌, ◌↔◌, true, false, pos, ℤ, IsTrue, IfSome, IfNone};
ghost use Rattle.type_graph.specs.declared.node.Node.TheVariants.{Integer};
ghost use Rattle.type_graph.specs.Labels.{AreValues};
ghost use Rattle.type_graph.specs.Value.{IsNumber, IsNumeric};

use crate::node::Node;
use crate::width::Width;

/// The integers from `least` up to `end`, which is none of them.
#[derive(Clone, Copy, Debug, PartialEq, Eq)]
pub struct Values {
    pub least: i128,
    pub end: i128,
    /// How many they are.
    pub count: u128,
}

impl Values {
    pub fn contains(self, n: i128) -> bool
        ensures { IsTrue result ↔ ((self.least ≤ℤ n) × (n <ℤ self.end)) }
    {
        self.least <= n && n < self.end
    }
}

fn signed_values(width: Width) -> Values
    ensures { AreValues (Integer width true) result.least result.end result.count }
{
    let count = width.patterns();
    let half = (count / 2) as i128;
    Values {
        least: -half,
        end: half,
        count,
    }
}

fn values_below(end: u128) -> Values
    requires { end ≤ 2 ^ 64 }
    ensures { (result.least ≡ pos 0) × (result.end ≡ pos end) × (result.count ≡ end) }
{
    Values {
        least: 0,
        end: end as i128,
        count: end,
    }
}

fn unsigned_values(width: Width) -> Values
    ensures { AreValues (Integer width false) result.least result.end result.count }
{
    values_below(width.patterns())
}

impl Node {
    /// The numbers that are values of the node (ISO/IEC 19500-2, CDR, primitive types and
    /// enumerated types), where it is of a kind whose values are numbers.
    pub fn values(&self) -> Option<Values>
        ensures numeric { IfSome result (λ values. IsNumeric self.now) }
        ensures some { IfSome result (λ values. AreValues self.now values.least values.end values.count) }
        ensures none { IfNone result (IsNumeric self.now → ⊥) }
    {
        match self {
            Node::Integer {
                width,
                signed: true,
            } => Some(signed_values(*width)),
            Node::Integer {
                width,
                signed: false,
            } => Some(unsigned_values(*width)),
            Node::Octet | Node::Char => Some(unsigned_values(Width::One)),
            Node::Boolean => Some(values_below(2)),
            Node::Enum { n } => Some(values_below(u128::from(*n))),
            _ => None,
        }
    }

    /// Whether a number is a value of the node.
    pub fn has_number(&self, n: i128) -> bool
        ensures { IsTrue result ↔ IsNumber self.now n }
    {
        match self.values() {
            None => false,
            Some(values) => values.contains(n),
        }
    }
}
