//! The types that are lowered so far.

ghost use Rattle.std.specs.Prelude.{◌≡◌, ◌≤◌, [], length, replicate, slice_get, slice_set, IfOk, Ok};
ghost use Rattle.lowered_types.specs.Faults.{Tells};
ghost use Rattle.lowered_types.specs.SimpleTypes.{type_found};
ghost use Rattle.lowered_types.specs.Lowered.{added, added_at, already, counted, held_at, is_undefined as has_no_definition, named_type, node_set, one_site, opened as opened_of, place_of, placed, raised_at, type_of, undefined as undefined_node, unlowered};

use crate::fault::{BuildFault, at_most};
use crate::place::Place;
use crate::readings::resolved;
use idl_tree::names::{At, ScopedName};
use scoped_names::{Names, Scope};
use std::alloc::{AllocError, Global};
use std::marker::Model;
use type_graph::basic_types::basic_nodes;
use type_graph::{GraphLimit, Items, Members, Node, basic_types};
use type_model::Name;
use type_paths::NodeSites;

const MAX_NODES: u32 = 4096;

const MAX_ALL_MEMBERS: u32 = 32768;

/// Those of the two structures among the basic types.
const BASIC_MEMBERS: usize = 4;

/// The types that are lowered so far, and what the entries among the names have of them. A contract
/// sees the nodes, the names of their parts, what each entry has, the exceptions, where the nodes
/// behind the basic types stand, and how many members all types have.
pub struct TypeTable {
    nodes: Vec<Node>,
    names: Vec<Items<Name>>,
    places: Vec<Option<Place>>,
    exceptions: Vec<(usize, u32)>,
    sites: Vec<NodeSites>,
    members: usize,
}

impl Model for TypeTable {
    ghost use Rattle.lowered_types.specs.Lowered.{Lowered};

    ghost Value = { Lowered };

    ghost view = { λ t. record {
      nodes = t.nodes.items;
      names = t.names.items;
      places = t.places.items;
      exceptions =
          t.exceptions.items;
      sites = t.sites.items;
      members = t.members;
    } };
}

// A derived drop would stand in each function that lets go of a table, field by field.

impl Drop for TypeTable {
    fn drop(self) {
        let TypeTable {
            nodes: _,
            names: _,
            places: _,
            exceptions: _,
            sites: _,
            members: _,
        } = self;
    }
}

/// A structure that has no members yet.
fn undefined_type(alloc: Global) -> Node
    ensures { result ≡ undefined_node }
{
    Node::Struct {
        members: Members::new(Vec::new(alloc)),
    }
}

/// The names of a node that has no parts with names. Takes no memory.
fn no_names(alloc: Global) -> Items<Name>
    ensures { result ≡ [] }
{
    Items::new(Vec::new(alloc))
}

/// Those of the basic types.
fn basic_names(alloc: Global) -> Result<Vec<Items<Name>>, AllocError>
    ensures { IfOk result (λ names. names.items ≡ replicate 14 []) }
{
    let mut names = Vec::new(alloc);
    for _ in 0..basic_types::BASIC_NODES as usize {
        names.push(no_names(alloc))?;
    }
    Ok(names)
}

/// Where a node stands that holds one other at most.
fn one_site(alloc: Global, at: At) -> Result<NodeSites, BuildFault>
    ensures { Tells result (λ sites. sites) (Ok (one_site at)) }
{
    let held = vec![in alloc; at]?;
    Ok(NodeSites::new(at, held))
}

impl TypeTable {
    /// The types of every specification, where there are so many entries.
    ///
    /// # Errors
    /// Want of memory.
    pub fn new(alloc: Global, entries: usize) -> Result<TypeTable, BuildFault>
        ensures { Tells result (λ t. t) (Ok (unlowered entries)) }
    {
        Ok(TypeTable {
            nodes: basic_nodes(alloc)?,
            names: basic_names(alloc)?,
            places: vec![in alloc; None; entries]?,
            exceptions: Vec::new(alloc),
            sites: Vec::new(alloc),
            members: BASIC_MEMBERS,
        })
    }

    /// A node more, with the names of its parts and its sites; gives its number.
    ///
    /// # Errors
    /// `Limit` where there are 4,096, want of memory.
    pub(crate) fn add(
        &mut self,
        node: Node,
        names: Items<Name>,
        sites: NodeSites,
    ) -> Result<u32, BuildFault>
        ensures { Tells result (already self.new) (added self.old node names sites) }
    {
        let number = self.nodes.len();
        let count = number as u128 + 1;
        at_most(MAX_NODES, GraphLimit::Nodes, sites.at(), count)?;
        self.nodes.push(node)?;
        self.names.push(names)?;
        self.sites.push(sites)?;
        Ok(number as u32)
    }

    /// A node at `at` that holds one other at most, and no parts with names.
    ///
    /// # Errors
    /// As `add`.
    pub(crate) fn add_at(&mut self, alloc: Global, node: Node, at: At) -> Result<u32, BuildFault>
        ensures { Tells result (already self.new) (added_at self.old node at) }
    {
        let sites = one_site(alloc, at)?;
        self.add(node, no_names(alloc), sites)
    }

    /// An entry has this from now on.
    ///
    /// # Errors
    /// `OtherNames` where there is no such entry, or one that has something.
    pub(crate) fn put(&mut self, entry: usize, place: Place) -> Result<(), BuildFault>
        ensures { Tells result (λ u. self.new) (placed self.old entry place) }
    {
        let Some(None) = self.places.get(entry) else {
            return Err(BuildFault::OtherNames);
        };
        self.places[entry] = Some(place);
        Ok(())
    }

    /// What an entry has.
    pub fn place(&self, entry: usize) -> Option<Place>
        ensures { result ≡ place_of self.now entry }
    {
        match self.places.get(entry) {
            Some(place) => *place,
            None => None,
        }
    }

    /// The node of the type that an entry is the name of.
    fn type_at(&self, entry: usize) -> Option<u32>
        ensures { result ≡ type_of self.now entry }
    {
        match self.places.get(entry) {
            Some(Some(Place::Typed(number))) => Some(*number),
            _ => None,
        }
    }

    /// A type more that an entry is the name of.
    ///
    /// # Errors
    /// As `add`, `OtherNames` where there is no such entry.
    pub(crate) fn add_named(
        &mut self,
        alloc: Global,
        entry: usize,
        node: Node,
        names: Items<Name>,
        at: At,
    ) -> Result<u32, BuildFault>
        ensures { Tells result (already self.new) (named_type self.old entry node names at) }
    {
        let sites = one_site(alloc, at)?;
        let number = self.add(node, names, sites)?;
        self.put(entry, Place::Typed(number))?;
        Ok(number)
    }

    /// A structure or a union that is declared there: gives its number, which it has since its
    /// first declaration.
    ///
    /// # Errors
    /// As `add_named`.
    pub(crate) fn declare(&mut self, alloc: Global, entry: usize, at: At) -> Result<u32, BuildFault>
        ensures { Tells result (already self.new) (opened_of self.old entry at) }
    {
        match self.type_at(entry) {
            Some(number) => Ok(number),
            None => { self.add_named(alloc, entry, undefined_type(alloc), no_names(alloc), at) }
        }
    }

    /// Whether a node is a structure or a union that has no definition yet.
    fn is_undefined(&self, number: usize) -> bool
        ensures { result ≡ has_no_definition (slice_get self.now.nodes number) }
    {
        match self.nodes.get(number) {
            Some(Node::Struct { members }) => members.as_slice().is_empty(),
            _ => false,
        }
    }

    /// What a structure or a union is, what its members are called and where they stand. Takes no
    /// memory.
    ///
    /// # Errors
    /// `OtherNames` where there is no such node, or one that has a definition.
    pub(crate) fn define(
        &mut self,
        number: u32,
        node: Node,
        names: Items<Name>,
        held: Vec<At>,
    ) -> Result<(), BuildFault>
        ensures { Tells result (λ u. self.new) (node_set self.old number node names held.items) }
    {
        let place = number as usize;
        if !self.is_undefined(place) {
            return Err(BuildFault::OtherNames);
        }
        self.nodes[place] = node;
        self.set_names(place, names);
        self.set_held(place, held);
        Ok(())
    }

    /// What the parts of a node are called.
    #[tactic(auto, using(std::proofs::lemmas::List::set_past))]
    fn set_names(&mut self, number: usize, names: Items<Name>)
        ensures { self.new ≡ record self.old { names = slice_set self.old.names number names } }
    {
        if number < self.names.len() {
            self.names[number] = names;
        }
    }

    /// Where what a node holds stands; a basic type has no sites.
    fn set_held(&mut self, number: usize, held: Vec<At>)
        ensures { self.new ≡ record self.old { sites = held_at self.old.sites number held.items } }
    {
        let Some(place) = number.checked_sub(basic_types::BASIC_NODES as usize) else {
            return;
        };
        if place < self.sites.len() {
            let at = self.sites[place].at();
            self.sites[place] = NodeSites::new(at, held);
        }
    }

    /// So many members more of one type, which stands there. Takes no memory.
    ///
    /// # Errors
    /// `Limit` where all types have more than 32,768.
    pub(crate) fn count_members(&mut self, count: usize, at: At) -> Result<(), BuildFault>
        ensures { Tells result (λ u. self.new) (counted self.old count at) }
    {
        let all = self.members as u128 + count as u128;
        let all = at_most(MAX_ALL_MEMBERS, GraphLimit::AllMembers, at, all)?;
        self.members = all as usize;
        Ok(())
    }

    /// The exceptions so far, each by its entry and its frame.
    pub fn exceptions(&self) -> &[(usize, u32)]
        ensures { result.now ≡ self.now.exceptions }
    {
        self.exceptions.as_slice()
    }

    /// An exception that an entry is the name of, whose frame is the node of the number.
    ///
    /// # Errors
    /// `OtherNames` where there is no such entry, want of memory.
    pub(crate) fn raise(&mut self, entry: usize, frame: u32) -> Result<(), BuildFault>
        ensures { Tells result (λ u. self.new) (raised_at self.old entry frame) }
    {
        let place = self.exceptions.len();
        self.put(entry, Place::Raised { frame, place })?;
        self.exceptions.push((entry, frame))?;
        Ok(())
    }

    pub fn nodes(&self) -> &[Node]
        ensures { result.now ≡ self.now.nodes }
    {
        self.nodes.as_slice()
    }

    /// What each entry has.
    pub fn places(&self) -> &[Option<Place>]
        ensures { result.now ≡ self.now.places }
    {
        self.places.as_slice()
    }

    /// Where the nodes stand behind the basic types.
    pub fn sites(&self) -> &[NodeSites]
        ensures { result.now ≡ self.now.sites }
    {
        self.sites.as_slice()
    }

    /// The same without the places where nodes stand. Takes no memory.
    pub fn without_sites(self, alloc: Global) -> TypeTable
        ensures { result ≡ record self { sites = [] } }
    {
        let TypeTable {
            nodes,
            names,
            places,
            exceptions,
            sites: _,
            members,
        } = self;
        TypeTable {
            nodes,
            names,
            places,
            exceptions,
            sites: Vec::new(alloc),
            members,
        }
    }

    /// Gives the nodes and the names of their parts back. Takes no memory.
    pub fn into_parts(self) -> (Vec<Node>, Vec<Items<Name>>)
        ensures nodes { result.0.items ≡ self.nodes }
        ensures names { result.1.items ≡ self.names }
    {
        let TypeTable {
            nodes,
            names,
            places: _,
            exceptions: _,
            sites: _,
            members: _,
        } = self;
        (nodes, names)
    }
}

/// The node of the type that a name finds. Takes no memory.
///
/// # Errors
/// `OtherNames` where it finds no type.
pub(crate) fn find_type<'a>(
    names: &Names<'a>,
    table: &TypeTable,
    scope: Scope,
    name: &ScopedName<'a>,
) -> Result<u32, BuildFault>
    requires { scope.0 ≤ length names.now.entries }
    ensures { result ≡ type_found names.now.entries table.now scope.0 name.now }
{
    let entry = resolved(names, scope, name)?;
    match table.type_at(entry) {
        Some(number) => Ok(number),
        None => Err(BuildFault::OtherNames),
    }
}
