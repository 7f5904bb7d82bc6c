//! Why a list of nodes is no graph of types, or a specification has none.

ghost use Rattle.std.specs.Prelude.{◌≡◌};
ghost use Rattle.type_graph.specs.declared.fault.GraphFault.TheVariants.{NoMemory};

use std::alloc::{AllocError, AllocFailed};
use thiserror::Error;

/// Which limit is passed.
#[derive(Clone, Copy, Debug, PartialEq, Eq)]
pub enum GraphLimit {
    /// 4,096 nodes.
    Nodes,
    /// 1,024 members or labels of one type.
    Members,
    /// 32,768 members and labels of all types together.
    AllMembers,
    /// 65,536 enumerators of one enumeration.
    Enumerators,
    /// 64 nodes on a path downwards that passes no sequence.
    Path,
    /// 4,294,967,295 for a bound.
    Bound,
    /// 1,048,576 elements of an array.
    Size,
}

/// Which rule of nodes a node breaks. A place is that of a label among the arms.
#[derive(Clone, Copy, Debug, PartialEq, Eq)]
pub enum NodeRule {
    /// A label is that of the arm before it.
    LabelTwice { place: usize },
    /// A label is no value of the union's discriminator.
    LabelRange { place: usize },
    /// A default where the labels are all values of the discriminator.
    DefaultNeedless,
    /// The discriminator of a union is of a kind that has no labels.
    BadSwitch,
    /// Too many members or labels, enumerators, or elements of an array.
    Limit { which: GraphLimit },
    /// A number out of range, an empty structure or enumeration, labels that fall, a frame that is
    /// referred to.
    BadNode,
}

/// Which rule a list of nodes breaks, and where: a node is named by its place in the list.
#[derive(Clone, Copy, Debug, PartialEq, Eq)]
pub enum RuleFault {
    TooManyNodes,
    /// With this node the members of all types are too many.
    TooManyMembers { node: usize },
    /// A rule of one node.
    InNode { node: usize, rule: NodeRule },
    /// The node holds itself without a sequence between, by what it holds at the place.
    SelfHeld { node: usize, place: usize },
    /// A path downwards from the node that passes no sequence is too long.
    LongPath { node: usize },
}

/// A fault has its number and name as its text. The line is that of the IDL file, 0 where a graph
/// is made from nodes.
#[derive(Debug, Drop, Error)]
pub enum GraphFault {
    /// A type holds itself without a sequence between.
    #[error("30 SelfHeld line {line}")]
    SelfHeld { line: usize },
    /// A label stands twice in a union, or a second default.
    #[error("31 LabelTwice line {line}")]
    LabelTwice { line: usize },
    /// A label is no value of the union's discriminator.
    #[error("32 LabelRange line {line}")]
    LabelRange { line: usize },
    /// A default where the labels are all values of the discriminator.
    #[error("33 DefaultNeedless line {line}")]
    DefaultNeedless { line: usize },
    /// The discriminator of a union is of a type that has no labels.
    #[error("34 BadSwitch line {line}")]
    BadSwitch { line: usize },
    #[error("35 Limit line {line}")]
    Limit { which: GraphLimit, line: usize },
    /// A oneway operation that answers something.
    #[error("36 BadOneway line {line}")]
    BadOneway { line: usize },
    /// A number out of range, an empty structure or enumeration, a frame that is referred to, a
    /// broken rule of a model.
    #[error("37 BadNode")]
    BadNode,
    #[error("no memory")]
    NoMemory,
}

impl NodeRule {
    ghost use Rattle.std.specs.Prelude.{◌≢◌};

    fn at_line(self, line: usize) -> GraphFault
        ensures { result ≢ NoMemory }
    {
        match self {
            NodeRule::LabelTwice { .. } => GraphFault::LabelTwice { line },
            NodeRule::LabelRange { .. } => GraphFault::LabelRange { line },
            NodeRule::DefaultNeedless => GraphFault::DefaultNeedless { line },
            NodeRule::BadSwitch => GraphFault::BadSwitch { line },
            NodeRule::Limit { which } => GraphFault::Limit { which, line },
            NodeRule::BadNode => GraphFault::BadNode,
        }
    }
}

impl RuleFault {
    ghost use Rattle.std.specs.Prelude.{◌≢◌};

    /// The numbered fault, with the line of what breaks the rule.
    pub fn at_line(self, line: usize) -> GraphFault
        ensures { result ≢ NoMemory }
    {
        match self {
            RuleFault::TooManyNodes => GraphFault::Limit {
                which: GraphLimit::Nodes,
                line,
            },
            RuleFault::TooManyMembers { .. } => GraphFault::Limit {
                which: GraphLimit::AllMembers,
                line,
            },
            RuleFault::InNode { rule, .. } => rule.at_line(line),
            RuleFault::SelfHeld { .. } => GraphFault::SelfHeld { line },
            RuleFault::LongPath { .. } => GraphFault::Limit {
                which: GraphLimit::Path,
                line,
            },
        }
    }
}

impl From<AllocError> for GraphFault {
    ghost from_gives = { λ _ fault. fault ≡ NoMemory };

    fn from(_error: AllocError) -> GraphFault {
        GraphFault::NoMemory
    }
}

impl<T: Drop> From<AllocFailed<T>> for GraphFault {
    ghost from_gives = { λ _ fault. fault ≡ NoMemory };

    fn from(_error: AllocFailed<T>) -> GraphFault {
        GraphFault::NoMemory
    }
}
