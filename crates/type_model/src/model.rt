//! What an IDL specification declares: its graph of types, names, interfaces, operations and
//! exceptions.

ghost use Rattle.std.specs.Prelude.{◌≡◌, ◌≢◌, ◌<◌, ◌↔◌, ℕ, All, Contains, length, slice_get, IsSomeAnd, IfNone, IfOk, IfErr, IsTrue, Some};
ghost use Rattle.std.specs.Bool.{OnFalse};
ghost use Rattle.type_model.specs.ModelRules.{AreDeclared, BeginsWithId, IsException, IsFrame, IsInterface, IsModel, IsNamedFrame, IsOperation, parts_of};
ghost use Rattle.type_model.specs.Names.{IsNamed};
ghost use Rattle.type_graph.specs.Refusal.{wants_memory};

use crate::names::{Name, NameTable};
use crate::signatures::{Exception, Interface, Operation};
use std::alloc::Global;
use type_graph::{Graph, GraphFault, Items, Node};

/// The types of a specification with their names, and what it declares beside types.
#[derive(Drop)]
pub struct Model {
    graph: Graph,
    names: NameTable,
    interfaces: Items<Interface>,
    operations: Items<Operation>,
    exceptions: Items<Exception>,
}

impl std::marker::Model for Model {
    ghost use Rattle.type_model.specs.ModelRules.{Parts, IsModel, parts_of};

    ghost Value = { Parts };

    ghost view = { λ m. parts_of m.graph m.names m.interfaces m.operations m.exceptions };

    ghost invariant = { λ m. IsModel (parts_of m.graph m.names m.interfaces m.operations m.exceptions) };
}

fn is_frame(nodes: &[Node], number: u32) -> bool
    ensures { IsTrue result ↔ IsSomeAnd (slice_get nodes.now number) IsFrame }
{
    match nodes.get(number as usize) {
        Some(Node::Frame { .. }) => true,
        _ => false,
    }
}

fn is_unbounded_text(nodes: &[Node], number: u32) -> bool
    ensures { IsTrue result ↔ (slice_get nodes.now number ≡ Some (Node.Text 0)) }
{
    match nodes.get(number as usize) {
        Some(Node::Text { bound }) => *bound == 0,
        _ => false,
    }
}

fn begins_with_id(nodes: &[Node], number: u32) -> bool
    ensures { IsTrue result ↔ BeginsWithId nodes.now number }
{
    match nodes.get(number as usize) {
        Some(Node::Frame { members }) => match members.as_slice().first() {
            Some(first) => is_unbounded_text(nodes, *first),
            None => false,
        },
        _ => false,
    }
}

fn is_named_frame(nodes: &[Node], names: &NameTable, number: u32) -> bool
    ensures { IsTrue result ↔ IsNamedFrame nodes.now names.now number }
{
    is_frame(nodes, number) && names.is_named(number)
}

fn are_below(numbers: &[u32], count: usize) -> bool
    ensures { IsTrue result ↔ All (λ number. number < count) numbers.now }
{
    numbers.iter().all(|number| (*number as usize) < count)
}

fn are_interfaces(interfaces: &[Interface], count: usize) -> bool
    ensures { IsTrue result ↔ All (IsInterface count) interfaces.now }
{
    interfaces.iter().all(|interface| are_below(interface.operations.as_slice(), count))
}

fn is_operation(nodes: &[Node], names: &NameTable, count: usize, operation: &Operation) -> bool
    ensures { IsTrue result ↔ IsOperation nodes.now names.now count operation.now }
{
    is_named_frame(nodes, names, operation.request)
        && is_named_frame(nodes, names, operation.reply)
        && are_below(operation.exceptions.as_slice(), count)
}

fn are_operations(nodes: &[Node], names: &NameTable, count: usize, operations: &[Operation]) -> bool
    ensures { IsTrue result ↔ All (IsOperation nodes.now names.now count) operations.now }
{
    operations
        .iter()
        .all(|operation| is_operation(nodes, names, count, operation))
}

fn is_exception(nodes: &[Node], names: &NameTable, exception: &Exception) -> bool
    ensures { IsTrue result ↔ IsException nodes.now names.now exception.now }
{
    is_named_frame(nodes, names, exception.frame) && begins_with_id(nodes, exception.frame)
}

fn are_exceptions(nodes: &[Node], names: &NameTable, exceptions: &[Exception]) -> bool
    ensures { IsTrue result ↔ All (IsException nodes.now names.now) exceptions.now }
{
    exceptions
        .iter()
        .all(|exception| is_exception(nodes, names, exception))
}

fn are_declared(
    nodes: &[Node],
    names: &NameTable,
    interfaces: &[Interface],
    operations: &[Operation],
    exceptions: &[Exception],
) -> bool
    ensures { IsTrue result ↔ AreDeclared nodes.now names.now interfaces.now operations.now exceptions.now }
{
    are_interfaces(interfaces, operations.len())
        && are_operations(nodes, names, exceptions.len(), operations)
        && are_exceptions(nodes, names, exceptions)
}

impl Model {
    /// The model of just these parts.
    ///
    /// # Errors
    /// `BadNode` where they break a rule of models; or want of memory.
    pub fn new(
        alloc: Global,
        graph: Graph,
        names: Items<(Name, u32)>,
        interfaces: Items<Interface>,
        operations: Items<Operation>,
        exceptions: Items<Exception>,
    ) -> Result<Model, GraphFault>
        ensures kept { IfOk result (λ model. model ≡ parts_of graph names interfaces operations exceptions) }
        ensures rules { IfOk result IsModel }
        ensures refused { IfErr result
            (λ fault. OnFalse (wants_memory fault)
            (IsModel (parts_of graph names interfaces operations exceptions) → ⊥)) }
    {
        let names = NameTable::new(alloc, names, graph.nodes().len())?;
        let nodes = graph.nodes();
        if !are_declared(
            nodes,
            &names,
            interfaces.as_slice(),
            operations.as_slice(),
            exceptions.as_slice(),
        ) {
            return Err(GraphFault::BadNode);
        }
        Ok(Model {
            graph,
            names,
            interfaces,
            operations,
            exceptions,
        })
    }

    pub fn graph(&self) -> &Graph
        ensures value { result.now ≡ self.now.graph }
        ensures rules { IsModel self.now }
    {
        &self.graph
    }

    /// All names with their nodes, in order of declaration.
    pub fn names(&self) -> &NameTable
        ensures value { result.now ≡ self.now.names }
        ensures rules { IsModel self.now }
    {
        &self.names
    }

    pub fn interfaces(&self) -> &[Interface]
        ensures value { result.now ≡ self.now.interfaces }
        ensures rules { IsModel self.now }
    {
        self.interfaces.as_slice()
    }

    pub fn operations(&self) -> &[Operation]
        ensures value { result.now ≡ self.now.operations }
        ensures rules { IsModel self.now }
    {
        self.operations.as_slice()
    }

    pub fn exceptions(&self) -> &[Exception]
        ensures value { result.now ≡ self.now.exceptions }
        ensures rules { IsModel self.now }
    {
        self.exceptions.as_slice()
    }

    /// The node of a name.
    pub fn node_of(&self, name: &str) -> Option<u32>
        ensures found { (node : ℕ) → (result ≡ Some node) ↔ Contains self.now.names (name.now, node) }
        ensures missing { IfNone result (All (λ pair. pair.0 ≢ name.now) self.now.names) }
        ensures rules { IsModel self.now }
    {
        self.names.node_of(name)
    }

    /// Whether some name has this node.
    pub fn is_named(&self, node: u32) -> bool
        ensures value { IsTrue result ↔ IsNamed self.now.names node }
        ensures rules { IsModel self.now }
    {
        self.names.is_named(node)
    }
}
