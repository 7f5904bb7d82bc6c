//! The values of texts.

ghost use Rattle.std.specs.Prelude.{true, ◌≡◌, ◌<◌, ◌≤◌, ◌↔◌, [], ◌∷◌, ℕ, ℤ, List, Some, None, length, map, replicate, slice_get, slice_set, option_to_list, IfOk, IfErr, OnOk, OnErr, IsTrue};
ghost use Rattle.type_graph.specs.declared.node.Node.TheVariants.{Union};
ghost use Rattle.type_graph.specs.Value.{Tree, Trees, Number, Items, node_at, IsCount, IsNumber};
ghost use Rattle.idl_value.specs.View.{tree_of, trees_of, member_of};
ghost use Rattle.json.specs.Token.{Token as SpecToken, string};
ghost use Rattle.json.specs.Reads.{token_of};
ghost use Rattle.type_model.specs.PartNamesNames.{AreApart, names_at};
ghost use Rattle.value_text.specs.Stringified.{Stringifies, FitsObject};
ghost use Rattle.value_text.specs.Texts.{refers as node_refers};
ghost use Rattle.value_text.specs.Says.{SaysNumber, SaysTogether};
ghost use Rattle.value_text.specs.inner.Reading.{IsOctets, Reads, ReadsAs, ReadsItems, ReadsElements, ReadsParts, ReadsList, ReadsCopies, ReadsMembers, ReadsStructure, ReadsObject};
ghost use Rattle.idl_value.specs.declared.value.Value.{Value as SpecValue};
ghost use Rattle.value_text.specs.inner.Refusing.{RefusesAs, ReadsNone, IsLow, IsNamed, AreOctets, AreSound};

use crate::cursor::{Cursor, Stop};
use crate::fault::Wanted;
use crate::lookup::Lookup;
use crate::shape::refers;
use crate::words::{read_chars, read_number, read_octets, read_text};
use idl_value::Value;
use json::Token;
use std::alloc::{AllocError, Global};
use type_graph::{Arms, Graph, Node};
use type_model::part_names::{NodeNames, PartNames};

/// The types of values, and how the names of their parts are found.
#[derive(Clone, Copy)]
pub struct Sought<'t> {
    pub graph: &'t Graph,
    pub names: &'t PartNames,
    pub lookup: &'t Lookup,
}

/// How many elements there have to be.
#[derive(Clone, Copy)]
struct Counts {
    least: usize,
    most: usize,
}

impl Counts {
    fn of_sequence(bound: u32) -> Counts
        ensures { (n : ℕ) → ((result.least ≤ n) × (n ≤ result.most)) ↔ IsCount bound n }
    {
        let most = if bound == 0 { 0xFFFF_FFFF } else { bound };
        Counts {
            least: 0,
            most: most as usize,
        }
    }

    fn of_array(n: u32) -> Counts
        ensures { (result.least ≡ n) × (result.most ≡ n) }
    {
        Counts {
            least: n as usize,
            most: n as usize,
        }
    }

    fn allow(self, count: usize) -> bool
        ensures { IsTrue result ↔ ((self.least ≤ count) × (count ≤ self.most)) }
    {
        self.least <= count && count <= self.most
    }
}

/// The value of a node that begins with this token, with so many sequences still allowed one inside
/// another. A number that is no node's counts as an octet's.
#[cycle(reading)]
pub fn read_value(
    cursor: &mut Cursor<'_>,
    token: Token<'_>,
    alloc: Global,
    types: &Sought<'_>,
    number: u32,
    depth: u32,
) -> Result<Value, Stop>
    ensures read { IfOk result (λ value. Reads types.now.names.now types.now.graph.now number depth
        (token_of token.entry) cursor.old (tree_of value) cursor.new) }
    ensures refused { IfErr result (λ stop. RefusesAs stop (ReadsNone types.now.names.now types.now.graph.now
        (Reads types.now.names.now types.now.graph.now number depth (token_of token.entry) cursor.old))) }
{
    let Some(node) = types.graph.nodes().get(number as usize) else {
        return read_whole(cursor, token, alloc, types, number, &Node::Octet);
    };
    match node {
        Node::Text { bound } => read_text(cursor, token, alloc, *bound),
        Node::Seq { elem, bound } => {
            if depth == 0 {
                return Err(cursor.refuse(token, Wanted::Depth));
            }
            let counts = Counts::of_sequence(*bound);
            read_elements(cursor, token, alloc, types, *elem, counts, depth - 1)
        }
        Node::Array { elem, n } => {
            let counts = Counts::of_array(*n);
            read_elements(cursor, token, alloc, types, *elem, counts, depth)
        }
        Node::Struct { members } => {
            let members = members.as_slice();
            read_structure(cursor, token, alloc, types, number, members, depth)
        }
        Node::Frame { members } => {
            let members = members.as_slice();
            read_members(cursor, token, alloc, types, number, members, depth)
        }
        Node::Union {
            switch,
            arms,
            default,
        } => read_choice(cursor, token, alloc, types, *switch, arms, *default, depth),
        _ => read_whole(cursor, token, alloc, types, number, node),
    }
}

/// An integer, octet, character, boolean or enumerator.
fn read_whole(
    cursor: &Cursor<'_>,
    token: Token<'_>,
    alloc: Global,
    types: &Sought<'_>,
    number: u32,
    node: &Node,
) -> Result<Value, Stop>
    ensures read { IfOk result (λ value. (n : ℤ) × (tree_of value ≡ Number n) × IsNumber node.now n
        × SaysNumber (names_at types.now.names.now number) node.now n (token_of token.entry)) }
    ensures refused { IfErr result (λ stop. RefusesAs stop (IsLow node.now
        → IsNamed node.now (names_at types.now.names.now number) → (n : ℤ) → IsNumber node.now n
        → SaysNumber (names_at types.now.names.now number) node.now n (token_of token.entry) → ⊥)) }
{
    let labels = types.names.of(number);
    let n = read_number(cursor, token, alloc, types.lookup, labels, number, node)?;
    Ok(Value::Integer(n))
}

/// The elements of a sequence or an array, as many as there have to be.
#[cycle(reading)]
fn read_elements(
    cursor: &mut Cursor<'_>,
    token: Token<'_>,
    alloc: Global,
    types: &Sought<'_>,
    elem: u32,
    counts: Counts,
    depth: u32,
) -> Result<Value, Stop>
    ensures read { IfOk result (λ value. (values : Trees) × (tree_of value ≡ Items values)
        × ReadsElements types.now.names.now types.now.graph.now elem counts.least counts.most depth
        (token_of token.entry) cursor.old values cursor.new) }
    ensures refused { IfErr result (λ stop. RefusesAs stop (ReadsNone types.now.names.now types.now.graph.now
        (ReadsElements types.now.names.now types.now.graph.now elem counts.least counts.most depth
        (token_of token.entry) cursor.old))) }
{
    let values = read_items(cursor, token, alloc, types, elem, counts.most, depth)?;
    if !counts.allow(values.len()) {
        return Err(cursor.refuse(token, Wanted::Count));
    }
    Ok(Value::Items(values))
}

/// Elements together, or as a list; those over the most are refused at once.
#[cycle(reading)]
fn read_items(
    cursor: &mut Cursor<'_>,
    token: Token<'_>,
    alloc: Global,
    types: &Sought<'_>,
    elem: u32,
    most: usize,
    depth: u32,
) -> Result<Vec<Value>, Stop>
    ensures read { IfOk result (λ values. ReadsItems types.now.names.now types.now.graph.now elem depth
        (token_of token.entry) cursor.old (trees_of values.items) cursor.new) }
    ensures refused { IfErr result (λ stop. RefusesAs stop (ReadsNone types.now.names.now types.now.graph.now
        (ReadsElements types.now.names.now types.now.graph.now elem 0 most depth (token_of token.entry) cursor.old))) }
{
    match token {
        Token::BeginArray => read_list(cursor, alloc, types, elem, most, depth),
        Token::String(text) => read_together(cursor, token, alloc, types, elem, text),
        _ => Err(cursor.refuse(token, Wanted::List)),
    }
}

/// Octets by their digits, characters by a string.
fn read_together(
    cursor: &Cursor<'_>,
    token: Token<'_>,
    alloc: Global,
    types: &Sought<'_>,
    elem: u32,
    text: &str,
) -> Result<Vec<Value>, Stop>
    ensures read { IfOk result (λ values. (octets : List ℕ)
        × SaysTogether (node_at types.now.graph.now elem) octets (string text.now ∷ [])
        × IsOctets octets values.items) }
    ensures refused { IfErr result (λ stop. RefusesAs stop ((octets : List ℕ) → AreOctets octets
        → SaysTogether (node_at types.now.graph.now elem) octets (string text.now ∷ []) → ⊥)) }
{
    match types.graph.nodes().get(elem as usize) {
        None | Some(Node::Octet) => read_octets(cursor, token, alloc, text),
        Some(Node::Char) => read_chars(cursor, token, alloc, text),
        _ => Err(cursor.refuse(token, Wanted::List)),
    }
}

/// The elements of a list that is open, and its end; those over the most are refused at once.
#[cycle(reading)]
fn read_list(
    cursor: &mut Cursor<'_>,
    alloc: Global,
    types: &Sought<'_>,
    elem: u32,
    most: usize,
    depth: u32,
) -> Result<Vec<Value>, Stop>
    ensures listed { IfOk result (λ values. ReadsList types.now.names.now types.now.graph.now (replicate
        (length values.items) elem) depth cursor.old (trees_of values.items) cursor.new) }
    ensures refused { IfErr result (λ stop. RefusesAs stop (ReadsNone types.now.names.now types.now.graph.now
        (ReadsCopies types.now.names.now types.now.graph.now elem most depth cursor.old))) }
    ensures counted { IfOk result (λ values. length values.items ≤ most) }
{
    let mut values = Vec::new(alloc);
    while let Some(token) = cursor.next_element() {
        if values.len() >= most {
            return Err(cursor.refuse(token, Wanted::Count));
        }
        values.push(read_value(cursor, token, alloc, types, elem, depth)?)?;
    }
    Ok(values)
}

/// The members of a structure; those of an object reference also by its string.
#[cycle(reading)]
fn read_structure(
    cursor: &mut Cursor<'_>,
    token: Token<'_>,
    alloc: Global,
    types: &Sought<'_>,
    number: u32,
    members: &[u32],
    depth: u32,
) -> Result<Value, Stop>
    ensures read { IfOk result (λ value. (values : Trees) × (tree_of value ≡ Items values)
        × ReadsStructure types.now.names.now types.now.graph.now (names_at types.now.names.now number) members.now depth
        (token_of token.entry) cursor.old values cursor.new) }
    ensures refused { IfErr result (λ stop. RefusesAs stop (AreApart (names_at types.now.names.now number)
        → ReadsNone types.now.names.now types.now.graph.now (ReadsStructure types.now.names.now types.now.graph.now
        (names_at types.now.names.now number) members.now depth (token_of token.entry) cursor.old))) }
{
    match token {
        Token::String(text) => {
            let labels = types.names.of(number);
            read_reference(
                cursor,
                token,
                alloc,
                types.graph,
                labels,
                members,
                text,
                depth,
            )
        }
        _ => read_members(cursor, token, alloc, types, number, members, depth),
    }
}

/// An object reference by its string.
fn read_reference(
    cursor: &mut Cursor<'_>,
    token: Token<'_>,
    alloc: Global,
    graph: &Graph,
    labels: &NodeNames,
    members: &[u32],
    text: &str,
    depth: u32,
) -> Result<Value, Stop>
    ensures same { cursor.new ≡ cursor.old }
    ensures read { IfOk result (λ value. (node_refers graph.now labels.now members.now ≡ true)
        × Stringifies text.now (tree_of value) × FitsObject (tree_of value) depth) }
    ensures refused { IfErr result (λ stop. RefusesAs stop ((value : Tree)
        → node_refers graph.now labels.now members.now ≡ true → Stringifies text.now value → FitsObject value depth
        → ⊥)) }
{
    if !refers(graph, labels, members) {
        return Err(cursor.refuse(token, Wanted::Members));
    }
    match cursor.reference(alloc, text, depth)? {
        Some(value) => Ok(value),
        None => Err(cursor.refuse(token, unspelled(depth))),
    }
}

/// What is wanted in place of a reference: two sequences stand one inside another in it.
fn unspelled(depth: u32) -> Wanted {
    if depth < 2 {
        Wanted::Depth
    } else {
        Wanted::Members
    }
}

/// The members of a structure or a frame: an object where they have names, or a list.
#[cycle(reading)]
fn read_members(
    cursor: &mut Cursor<'_>,
    token: Token<'_>,
    alloc: Global,
    types: &Sought<'_>,
    number: u32,
    members: &[u32],
    depth: u32,
) -> Result<Value, Stop>
    ensures read { IfOk result (λ value. (values : Trees) × (tree_of value ≡ Items values)
        × ReadsMembers types.now.names.now types.now.graph.now (names_at types.now.names.now number) members.now depth
        (token_of token.entry) cursor.old values cursor.new) }
    ensures refused { IfErr result (λ stop. RefusesAs stop (AreApart (names_at types.now.names.now number)
        → ReadsNone types.now.names.now types.now.graph.now (ReadsMembers types.now.names.now types.now.graph.now
        (names_at types.now.names.now number) members.now depth (token_of token.entry) cursor.old))) }
{
    match token {
        Token::BeginObject => {
            if types.names.of(number).len() != members.len() {
                return Err(cursor.refuse(token, Wanted::Members));
            }
            let values = read_object(cursor, alloc, types, number, members, depth)?;
            Ok(Value::Items(values))
        }
        Token::BeginArray => {
            let values = read_row(cursor, alloc, types, members, depth)?;
            Ok(Value::Items(values))
        }
        _ => Err(cursor.refuse(token, Wanted::Members)),
    }
}

/// The members of a list that is open, and its end.
#[cycle(reading)]
fn read_row(
    cursor: &mut Cursor<'_>,
    alloc: Global,
    types: &Sought<'_>,
    members: &[u32],
    depth: u32,
) -> Result<Vec<Value>, Stop>
    ensures read { IfOk result (λ values. ReadsList types.now.names.now types.now.graph.now members.now depth cursor.old
        (trees_of values.items) cursor.new) }
    ensures refused { IfErr result (λ stop. RefusesAs stop (ReadsNone types.now.names.now types.now.graph.now
        (ReadsList types.now.names.now types.now.graph.now members.now depth cursor.old))) }
{
    let mut values = Vec::new(alloc);
    for member in members {
        let token = cursor.next_part()?;
        values.push(read_value(cursor, token, alloc, types, *member, depth)?)?;
    }
    cursor.end_list()?;
    Ok(values)
}

/// A place for each member, none filled yet.
fn empty_slots(alloc: Global, count: usize) -> Result<Vec<Option<Value>>, AllocError>
    ensures { IfOk result (λ slots. slots.items ≡ replicate count None) }
{
    let mut slots = Vec::with_capacity(alloc, count)?;
    for _ in 0..count {
        slots.push(None)?;
    }
    Ok(slots)
}

/// The members of an object that is open, in any order, and its end.
#[cycle(reading)]
fn read_object(
    cursor: &mut Cursor<'_>,
    alloc: Global,
    types: &Sought<'_>,
    number: u32,
    members: &[u32],
    depth: u32,
) -> Result<Vec<Value>, Stop>
    ensures read { IfOk result (λ values. ReadsObject types.now.names.now types.now.graph.now
        (names_at types.now.names.now number) members.now depth cursor.old (trees_of values.items) cursor.new) }
    ensures refused { IfErr result (λ stop. RefusesAs stop (AreApart (names_at types.now.names.now number)
        → length (names_at types.now.names.now number) ≡ length members.now
        → ReadsNone types.now.names.now types.now.graph.now (ReadsObject types.now.names.now types.now.graph.now
        (names_at types.now.names.now number) members.now depth cursor.old))) }
{
    let mut slots = empty_slots(alloc, members.len())?;
    'each: while let Some(label) = cursor.next_key()? {
        let labels = types.names.of(number);
        let place = place_of(cursor, types.lookup, labels, number, label)?;
        let member = free_member(cursor, members, &slots, place)?;
        let token = cursor.next();
        let value = read_value(cursor, token, alloc, types, member, depth)?;
        fill(&mut slots, place, value);
    }
    values_of_slots(cursor, alloc, slots)
}

/// The place of the member of this name.
fn place_of(
    cursor: &Cursor<'_>,
    lookup: &Lookup,
    labels: &NodeNames,
    number: u32,
    label: &str,
) -> Result<usize, Stop>
    ensures named { IfOk result (λ place. slice_get labels.now place ≡ Some label.now) }
    ensures refused { OnErr result ((place : ℕ) → slice_get labels.now place ≡ Some label.now → ⊥) }
{
    match lookup.place_of(labels, number, label) {
        Some(place) => Ok(place),
        None => Err(cursor.refuse(Token::EndObject, Wanted::Member)),
    }
}

/// The member at a place, which has to be free.
fn free_member(
    cursor: &Cursor<'_>,
    members: &[u32],
    slots: &[Option<Value>],
    place: usize,
) -> Result<u32, Stop>
    ensures member { IfOk result (λ member. slice_get members.now place ≡ Some member) }
    ensures free { OnOk result (slice_get slots.now place ≡ Some None) }
    ensures refused { OnErr result ((number : ℕ) → slice_get members.now place ≡ Some number
        → slice_get slots.now place ≡ Some None → ⊥) }
{
    match (members.get(place), slots.get(place)) {
        (Some(member), Some(None)) => Ok(*member),
        (Some(_), Some(Some(_))) => Err(cursor.refuse(Token::EndObject, Wanted::OtherMember)),
        _ => Err(cursor.refuse(Token::EndObject, Wanted::Member)),
    }
}

/// Puts a value at a place.
fn fill(slots: &mut Vec<Option<Value>>, place: usize, value: Value)
    requires { place < length slots.old.items }
    ensures { slots.new.items ≡ slice_set slots.old.items place (Some value) }
{
    slots[place] = Some(value);
}

/// The members in order, if each is there.
fn values_of_slots(
    cursor: &Cursor<'_>,
    alloc: Global,
    slots: Vec<Option<Value>>,
) -> Result<Vec<Value>, Stop>
    ensures read { IfOk result (λ values. slots.items ≡ map Some values.items) }
    ensures refused { IfErr result (λ stop. RefusesAs stop ((values : List SpecValue) → slots.items ≡ map Some values
        → ⊥)) }
{
    let mut values = Vec::with_capacity(alloc, slots.len())?;
    for slot in slots {
        let Some(value) = slot else {
            return Err(cursor.refuse(Token::EndObject, Wanted::AllMembers));
        };
        values.push(value)?;
    }
    Ok(values)
}

/// A union is the list of its label and its member, if it has one.
#[cycle(reading)]
fn read_choice(
    cursor: &mut Cursor<'_>,
    token: Token<'_>,
    alloc: Global,
    types: &Sought<'_>,
    switch: u32,
    arms: &Arms,
    default: Option<u32>,
    depth: u32,
) -> Result<Value, Stop>
    ensures read { IfOk result (λ value. (labels : List (List ℕ))
        → ReadsAs types.now.names.now types.now.graph.now labels (Union switch arms.now default) depth
        (token_of token.entry) cursor.old (tree_of value) cursor.new) }
    ensures refused { IfErr result (λ stop. RefusesAs stop ((labels : List (List ℕ))
        → ReadsNone types.now.names.now types.now.graph.now (ReadsAs types.now.names.now types.now.graph.now labels
        (Union switch arms.now default) depth (token_of token.entry) cursor.old))) }
{
    let Token::BeginArray = token else {
        return Err(cursor.refuse(token, Wanted::List));
    };
    let disc = read_label(cursor, alloc, types, switch)?;
    let chosen = arms.chosen(default, disc);
    let member = read_chosen(cursor, alloc, types, chosen, depth)?;
    cursor.end_list()?;
    Ok(Value::Choice { disc, member })
}

/// The member of a union, if its label chooses one.
#[cycle(reading)]
fn read_chosen(
    cursor: &mut Cursor<'_>,
    alloc: Global,
    types: &Sought<'_>,
    chosen: Option<u32>,
    depth: u32,
) -> Result<Option<Box<Value>>, Stop>
    ensures read { IfOk result (λ member. ReadsParts types.now.names.now types.now.graph.now
        (option_to_list chosen) depth cursor.old (member_of member) cursor.new) }
    ensures refused { IfErr result (λ stop. RefusesAs stop (ReadsNone types.now.names.now types.now.graph.now
        (ReadsParts types.now.names.now types.now.graph.now (option_to_list chosen) depth cursor.old))) }
{
    let Some(number) = chosen else {
        return Ok(None);
    };
    let token = cursor.next_part()?;
    let value = read_value(cursor, token, alloc, types, number, depth)?;
    let member = Box::new(alloc, value)?;
    Ok(Some(member))
}

/// The label of a union, with which its list begins.
fn read_label(
    cursor: &mut Cursor<'_>,
    alloc: Global,
    types: &Sought<'_>,
    switch: u32,
) -> Result<i128, Stop>
    ensures number { IfOk result (λ n. IsNumber (node_at types.now.graph.now switch) n) }
    ensures says { IfOk result (λ n. (said : SpecToken)
        × SaysNumber (names_at types.now.names.now switch) (node_at types.now.graph.now switch) n said
        × (cursor.old ≡ said ∷ cursor.new)) }
    ensures refused { IfErr result (λ stop. RefusesAs stop (AreSound types.now.names.now types.now.graph.now
        → (n : ℤ) (said : SpecToken) (more : List SpecToken) → IsNumber (node_at types.now.graph.now switch) n
        → SaysNumber (names_at types.now.names.now switch) (node_at types.now.graph.now switch) n said
        → cursor.old ≡ said ∷ more → ⊥)) }
{
    let token = cursor.next_part()?;
    let labels = types.names.of(switch);
    match types.graph.nodes().get(switch as usize) {
        Some(node) => read_number(cursor, token, alloc, types.lookup, labels, switch, node),
        None => read_number(
            cursor,
            token,
            alloc,
            types.lookup,
            labels,
            switch,
            &Node::Octet,
        ),
    }
}
