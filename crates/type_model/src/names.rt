//! Names, and the table that looks them up.

ghost use Rattle.std.specs.Prelude.{◌≡◌, ◌≢◌, ◌<◌, ◌≤◌, ◌↔◌, ℕ, List, All, Contains, length, slice_get, slice_index_or, map, IfSome, IfNone, IfOk, IfErr, OnOk, IsTrue, Some, true, false};
ghost use Rattle.std.specs.Bool.{OnFalse};
ghost use Rattle.std.specs.String.{string_bytes};
ghost use Rattle.std.specs.List.Sorted.{IsSorted};
ghost use Rattle.type_model.specs.Names.{AreDistinct, AreNames, AreMarks, IsNamed, IsOrder, name_at};
ghost use Rattle.type_model.specs.inner.Texts.{octets_of};
ghost use Rattle.type_model.specs.inner.Keys.{AreKeys, Differ, key_cmp, place_of};
ghost use Rattle.type_graph.specs.Refusal.{wants_memory};

use arrayvec::ArrayString;
use std::alloc::{AllocError, Global};
use std::cmp::Ordering;
use std::marker::Model;
use type_graph::{GraphFault, Items};

/// Where the text of a name stands: a short one in the name, so that it takes no block of memory.
#[derive(Drop)]
enum Text {
    Short(ArrayString<16>),
    Long(String),
}

/// A name or a repository id. A contract sees its octets.
#[derive(Drop)]
pub struct Name {
    text: Text,
}

impl Model for Name {
    ghost use Rattle.std.specs.Prelude.{ℕ, List};
    ghost use Rattle.type_model.specs.inner.Texts.{octets_of};

    ghost Value = { List ℕ };

    ghost view = { λ n. octets_of n.text };
}

/// The text in place, where it is short enough.
fn in_place(text: &str) -> Option<Text>
    ensures { IfSome result (λ place. octets_of place ≡ text.now) }
{
    match ArrayString::from(text) {
        Ok(short) => Some(Text::Short(short)),
        Err(_) => None,
    }
}

impl Name {
    /// The name of this text. Takes no memory.
    pub fn new(text: String) -> Self
        ensures { result ≡ string_bytes text }
    {
        match in_place(text.as_str()) {
            Some(text) => Name { text },
            None => Name {
                text: Text::Long(text),
            },
        }
    }

    /// The name of this text; a short one takes no memory.
    ///
    /// # Errors
    /// Want of memory.
    pub fn copied(alloc: Global, text: &str) -> Result<Self, AllocError>
        ensures { IfOk result (λ name. name ≡ text.now) }
    {
        match in_place(text) {
            Some(text) => Ok(Name { text }),
            None => Ok(Name {
                text: Text::Long(String::from_str(alloc, text)?),
            }),
        }
    }

    pub fn as_str(&self) -> &str
        ensures { result.now ≡ self.now }
    {
        match &self.text {
            Text::Short(short) => short.as_str(),
            Text::Long(long) => long.as_str(),
        }
    }
}

/// Names that differ, looked up by their text and told from their nodes. They are sought by the
/// order of their octets, so that no choice of names makes that slow. A contract sees the names in
/// order of declaration.
#[derive(Drop)]
pub struct NameTable {
    names: Vec<(Name, u32)>,
    /// The places of the names, in the order of their octets.
    order: Vec<usize>,
    /// True at the number of each node that has a name.
    marks: Vec<bool>,
}

impl Model for NameTable {
    ghost use Rattle.std.specs.Prelude.{ℕ, List};
    ghost use Rattle.type_model.specs.Names.{IsTable};

    ghost Value = { List (List ℕ × ℕ) };

    ghost view = { λ t. t.names.items };

    ghost invariant = { λ t. IsTable t.names.items t.order.items t.marks.items };
}

/// The texts of names with their places, in the order of the texts.
fn sorted(alloc: Global, names: &[(Name, u32)]) -> Result<Vec<(&str, usize)>, AllocError>
    ensures keys { IfOk result (λ keys. AreKeys names.now keys.items) }
    ensures sorted { IfOk result (λ keys. IsSorted key_cmp keys.items) }
{
    let mut keys = Vec::new(alloc);
    keys.reserve(names.len())?;
    for place in 0..names.len() {
        keys.push((names[place].0.as_str(), place))?;
    }
    keys.sort_unstable();
    Ok(keys)
}

/// The places of texts that stand in their order; None where one stands twice.
fn places_of(alloc: Global, keys: &[(&str, usize)]) -> Result<Vec<usize>, GraphFault>
    ensures places { IfOk result (λ places. places.items ≡ map place_of keys.now) }
    ensures differ { OnOk result (Differ keys.now (length keys.now)) }
    ensures refused { IfErr result (λ fault. OnFalse (wants_memory fault) (Differ keys.now (length keys.now) → ⊥)) }
{
    let mut places = Vec::new(alloc);
    places.reserve(keys.len())?;
    for at in 0..keys.len() {
        let (text, place) = keys[at];
        if at > 0 && keys[at - 1].0 == text {
            return Err(GraphFault::BadNode);
        }
        places.push(place)?;
    }
    Ok(places)
}

/// The places of names in the order of their octets.
fn order_of(alloc: Global, names: &[(Name, u32)]) -> Result<Vec<usize>, GraphFault>
    ensures order { IfOk result (λ order. IsOrder names.now order.items) }
    ensures distinct { OnOk result (AreDistinct names.now) }
    ensures refused { IfErr result (λ fault. OnFalse (wants_memory fault) (AreDistinct names.now → ⊥)) }
{
    let keys = sorted(alloc, names)?;
    let order = places_of(alloc, keys.as_slice())?;
    Ok(order)
}

/// True at each number below the count that a name has.
fn marks_of(alloc: Global, names: &[(Name, u32)], count: usize) -> Result<Vec<bool>, GraphFault>
    ensures marks { IfOk result (λ marks. AreMarks (map (λ name. name.1) names.now) marks.items) }
    ensures within { OnOk result (All (λ number. number < count) (map (λ name. name.1) names.now)) }
    ensures refused { IfErr result
        (λ fault. OnFalse (wants_memory fault)
        (All (λ number. number < count) (map (λ name. name.1) names.now) → ⊥)) }
{
    let mut marks = vec![in alloc; false; count]?;
    for place in 0..names.len() {
        let node = names[place].1 as usize;
        if node >= count {
            return Err(GraphFault::BadNode);
        }
        marks[node] = true;
    }
    Ok(marks)
}

impl NameTable {
    /// The table of these names, of nodes below the count.
    ///
    /// # Errors
    /// A name that stands twice or a node out of range is `BadNode`; or want of memory.
    pub fn new(
        alloc: Global,
        names: Items<(Name, u32)>,
        count: usize,
    ) -> Result<NameTable, GraphFault>
        ensures kept { IfOk result (λ table. table ≡ names) }
        ensures rules { OnOk result (AreNames count names) }
        ensures refused { IfErr result (λ fault. OnFalse (wants_memory fault) (AreNames count names → ⊥)) }
    {
        let names = names.into_vec();
        let order = order_of(alloc, names.as_slice())?;
        let marks = marks_of(alloc, names.as_slice(), count)?;
        Ok(NameTable {
            names,
            order,
            marks,
        })
    }

    /// How many names there are.
    pub fn len(&self) -> usize
        ensures value { result ≡ length self.now }
        ensures distinct { AreDistinct self.now }
    {
        self.names.len()
    }

    pub fn is_empty(&self) -> bool
        ensures { IsTrue result ↔ (length self.now ≡ 0) }
    {
        self.names.is_empty()
    }

    /// The name at a place in the order of declaration, and its node.
    pub fn pair(&self, place: usize) -> (&str, u32)
        requires { place < length self.now }
        ensures value { slice_get self.now place ≡ Some (result.0.now, result.1) }
        ensures distinct { AreDistinct self.now }
    {
        let (name, node) = &self.names[place];
        (name.as_str(), *node)
    }

    /// The place of a name in the order of declaration.
    fn place_of(&self, name: &str) -> Option<usize>
        ensures found { IfSome result (λ place. (place < length self.now) × (name_at self.now place ≡ name.now)) }
        ensures missing { IfNone result ((place : ℕ) → place < length self.now → name_at self.now place ≢ name.now) }
    {
        let mut low = 0;
        let mut high = self.order.len();
        while low < high {
            let middle = low + (high - low) / 2;
            let place = self.order[middle];
            match self.names[place].0.as_str().cmp(name) {
                Ordering::Less => low = middle + 1,
                Ordering::Greater => high = middle,
                Ordering::Equal => return Some(place),
            }
        }
        None
    }

    /// The node of a name.
    pub fn node_of(&self, name: &str) -> Option<u32>
        ensures found { (node : ℕ) → (result ≡ Some node) ↔ Contains self.now (name.now, node) }
        ensures missing { IfNone result (All (λ pair. pair.0 ≢ name.now) self.now) }
    {
        let place = self.place_of(name)?;
        Some(self.names[place].1)
    }

    /// Whether some name has this node.
    pub fn is_named(&self, node: u32) -> bool
        ensures { IsTrue result ↔ IsNamed self.now node }
    {
        self.marks.get(node as usize).copied().unwrap_or(false)
    }
}
