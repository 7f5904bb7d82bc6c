//! Of which kind a type is.

ghost use Rattle.std.specs.Prelude.{◌≡◌, option_copied};
ghost use Rattle.lowered_types.specs.TypeKinds.{const_kind, kind_of, node_kind};

use crate::fault::TypeKind;
use name_table::const_values::ConstKind;
use type_graph::{Node, basic_types};

fn node_kind(node: &Node) -> TypeKind
    ensures { result ≡ node_kind node.now }
{
    match node {
        Node::Integer { .. } => TypeKind::Integer,
        Node::Octet => TypeKind::Octet,
        Node::Char => TypeKind::Char,
        Node::Boolean => TypeKind::Boolean,
        Node::Enum { .. } => TypeKind::Enum,
        Node::Text { .. } => TypeKind::String,
        Node::Seq { .. } => TypeKind::Sequence,
        Node::Array { .. } => TypeKind::Array,
        Node::Struct { .. } | Node::Frame { .. } => TypeKind::Struct,
        Node::Union { .. } => TypeKind::Union,
    }
}

/// The kind of the type that has the number.
pub(crate) fn kind_of_type(number: u32, node: Option<&Node>) -> Option<TypeKind>
    ensures { result ≡ kind_of number (option_copied node.entry) }
{
    let node = node?;
    if number == basic_types::OBJECT {
        return Some(TypeKind::Object);
    }
    Some(node_kind(node))
}

/// The kind of type that a constant is of.
pub(crate) fn const_kind(kind: ConstKind) -> TypeKind
    ensures { result ≡ const_kind kind }
{
    match kind {
        ConstKind::Integer(_) => TypeKind::Integer,
        ConstKind::Char => TypeKind::Char,
        ConstKind::Boolean => TypeKind::Boolean,
        ConstKind::Octet => TypeKind::Octet,
        ConstKind::String(_) => TypeKind::String,
        ConstKind::Enum(_) => TypeKind::Enum,
    }
}
