//! What the text of a value of each type looks like.

use command_tables::Escaped;
use position_checker::Accepted;
use std::alloc::{AllocError, Global};
use std::fmt;
use type_graph::{Graph, Node, Width};
use type_model::Model;
use type_model::part_names::{NodeNames, PartNames};
use value_text::refers;

/// The types of a table: their names, by the numbers of their nodes, and those of their parts.
#[derive(Drop)]
struct Types<'t> {
    model: &'t Model,
    graph: &'t Graph,
    parts: &'t PartNames,
    names: Vec<Option<&'t str>>,
}

/// A type where another one names it: by its name, by its number where it has none. All object references have
/// one type in CDR, which may have many names: where it is named, it is `Object`.
#[derive(Clone, Copy)]
struct Referred<'t> {
    types: &'t Types<'t>,
    node: u32,
}

/// What the text of a value of a type looks like.
#[derive(Clone, Copy)]
struct Outline<'t> {
    types: &'t Types<'t>,
    node: u32,
}

/// The members of a structure or a frame.
#[derive(Clone, Copy)]
struct Members<'t> {
    types: &'t Types<'t>,
    names: &'t NodeNames,
    members: &'t [u32],
}

/// The label of a union's arm.
#[derive(Clone, Copy)]
struct Label<'t> {
    types: &'t Types<'t>,
    switch: u32,
    label: i128,
}

/// An arm of a union.
#[derive(Clone, Copy)]
struct Arm<'t> {
    types: &'t Types<'t>,
    switch: u32,
    label: i128,
    node: u32,
}

/// The keyword of the type of object references (ISO/IEC 19500-1, Object Reference Types).
const REFERENCE: &str = "Object";

/// The keyword of an integer type (ISO/IEC 19500-1, integer types).
fn keyword(width: Width, signed: bool) -> &'static str {
    match (width, signed) {
        (Width::One, true) => "int8",
        (Width::One, false) => "uint8",
        (Width::Two, true) => "short",
        (Width::Two, false) => "unsigned short",
        (Width::Four, true) => "long",
        (Width::Four, false) => "unsigned long",
        (Width::Eight, true) => "long long",
        (Width::Eight, false) => "unsigned long long",
    }
}

/// The keyword of a type without parts.
fn simple(node: &Node) -> Option<&'static str> {
    match node {
        Node::Integer { width, signed } => Some(keyword(*width, *signed)),
        Node::Octet => Some("octet"),
        Node::Char => Some("char"),
        Node::Boolean => Some("boolean"),
        Node::Text { bound: 0 } => Some("string"),
        _ => None,
    }
}

impl fmt::Display for Referred<'_> {
    fn fmt<W: fmt::Write>(&self, f: &mut fmt::Formatter<W>) -> fmt::Result {
        let Some(node) = self.types.graph.nodes().get(self.node as usize) else {
            return Ok(());
        };
        if let Some(word) = simple(node) {
            return f.write_str(word);
        }
        if let Node::Text { bound } = node {
            return write!(f, "string<{bound}>");
        }
        if self.types.is_reference(self.node, node) {
            return f.write_str(REFERENCE);
        }
        match self.types.names.get(self.node as usize) {
            Some(Some(name)) => write!(f, "{}", Escaped(name)),
            _ => write!(f, "#{}", self.node),
        }
    }
}

impl fmt::Display for Members<'_> {
    fn fmt<W: fmt::Write>(&self, f: &mut fmt::Formatter<W>) -> fmt::Result {
        let is_named = !self.members.is_empty() && self.names.len() == self.members.len();
        f.write_str(if is_named { "{" } else { "[" })?;
        for place in 0..self.members.len() {
            if place > 0 {
                f.write_str(", ")?;
            }
            if is_named && let Some(name) = self.names.get(place) {
                write!(f, "\"{}\": ", Escaped(name))?;
            }
            let node = self.members[place];
            let types = self.types;
            write!(f, "{}", Referred { types, node })?;
        }
        f.write_str(if is_named { "}" } else { "]" })
    }
}

impl fmt::Display for Label<'_> {
    fn fmt<W: fmt::Write>(&self, f: &mut fmt::Formatter<W>) -> fmt::Result {
        let names = self.types.parts.of(self.switch);
        if 0 <= self.label
            && self.label < 4_294_967_296
            && let Some(name) = names.get(self.label as usize)
        {
            return write!(f, "\"{}\"", Escaped(name));
        }
        match self.types.graph.nodes().get(self.switch as usize) {
            Some(Node::Boolean) if self.label == 0 => f.write_str("false"),
            Some(Node::Boolean) => f.write_str("true"),
            Some(Node::Char) => write!(f, "\"\\u{:04x}\"", self.label),
            _ => write!(f, "{}", self.label),
        }
    }
}

impl fmt::Display for Arm<'_> {
    fn fmt<W: fmt::Write>(&self, f: &mut fmt::Formatter<W>) -> fmt::Result {
        let types = self.types;
        let label = Label {
            types,
            switch: self.switch,
            label: self.label,
        };
        let node = self.node;
        write!(f, "[{label}, {}]", Referred { types, node })
    }
}

impl<'t> Types<'t> {
    /// Whether the node of a number is that of object references.
    fn is_reference(&self, number: u32, node: &Node) -> bool {
        match node {
            Node::Struct { members } => {
                refers(self.graph, self.parts.of(number), members.as_slice())
            }
            _ => false,
        }
    }

    /// The enumerators, by name or by number.
    fn write_enumerators<W: fmt::Write>(
        &self,
        f: &mut fmt::Formatter<W>,
        node: u32,
        n: u32,
    ) -> fmt::Result {
        let names = self.parts.of(node);
        if names.is_empty() {
            return write!(f, "0 to {}", n.saturating_sub(1));
        }
        for place in 0..names.len() {
            if place > 0 {
                f.write_str(" | ")?;
            }
            if let Some(name) = names.get(place) {
                write!(f, "\"{}\"", Escaped(name))?;
            }
        }
        Ok(())
    }

    /// Elements: octets are digits, characters a string, all others a list.
    fn write_elements<W: fmt::Write>(&self, f: &mut fmt::Formatter<W>, elem: u32) -> fmt::Result {
        match self.graph.nodes().get(elem as usize) {
            Some(Node::Octet) => f.write_str("\"two digits an octet\""),
            Some(Node::Char) => f.write_str("\"characters\""),
            _ => write!(
                f,
                "[{}, ..]",
                Referred {
                    types: self,
                    node: elem
                }
            ),
        }
    }

    /// The members of a structure, or the string of an object reference.
    fn write_structure<W: fmt::Write>(
        &self,
        f: &mut fmt::Formatter<W>,
        node: u32,
        members: &[u32],
    ) -> fmt::Result {
        if refers(self.graph, self.parts.of(node), members) {
            return f.write_str("\"IOR:..\"");
        }
        self.write_members(f, node, members)
    }

    /// The members of a structure or a frame, with their names.
    fn write_members<W: fmt::Write>(
        &self,
        f: &mut fmt::Formatter<W>,
        node: u32,
        members: &[u32],
    ) -> fmt::Result {
        write!(
            f,
            "{}",
            Members {
                types: self,
                names: self.parts.of(node),
                members
            }
        )
    }

    /// The arms of a union: a label and its member.
    fn write_arms<W: fmt::Write>(
        &self,
        f: &mut fmt::Formatter<W>,
        switch: u32,
        arms: &[(i128, u32)],
        default: Option<u32>,
    ) -> fmt::Result {
        for (label, node) in arms {
            let arm = Arm {
                types: &*self,
                switch,
                label: *label,
                node: *node,
            };
            write!(f, "{arm} | ")?;
        }
        match default {
            Some(node) => write!(f, "[another label, {}]", Referred { types: self, node }),
            None => f.write_str("[another label]"),
        }
    }
}

impl fmt::Display for Outline<'_> {
    fn fmt<W: fmt::Write>(&self, f: &mut fmt::Formatter<W>) -> fmt::Result {
        let types = self.types;
        match types.graph.nodes().get(self.node as usize) {
            Some(Node::Enum { n }) => types.write_enumerators(f, self.node, *n),
            Some(Node::Seq { elem, bound }) => {
                types.write_elements(f, *elem)?;
                match *bound {
                    0 => Ok(()),
                    bound => write!(f, " of at most {bound}"),
                }
            }
            Some(Node::Array { elem, n }) => {
                types.write_elements(f, *elem)?;
                write!(f, " of {n}")
            }
            Some(Node::Struct { members }) => {
                types.write_structure(f, self.node, members.as_slice())
            }
            Some(Node::Frame { members }) => {
                types.write_members(f, self.node, members.as_slice())
            }
            Some(
                Node::Union {
                    switch,
                    arms,
                    default,
                },
            ) => types.write_arms(f, *switch, arms.as_slice(), *default),
            _ => write!(
                f,
                "{}",
                Referred {
                    types,
                    node: self.node
                }
            ),
        }
    }
}

/// Whether the text of a value of the type looks like more than a keyword.
fn has_outline(node: &Node) -> bool {
    !matches!(node, Node::Text { .. }) && simple(node).is_none()
}

/// The line of a name.
#[derive(Clone, Copy)]
struct Named<'t> {
    types: &'t Types<'t>,
    name: &'t str,
    node: u32,
}

impl fmt::Display for Named<'_> {
    fn fmt<W: fmt::Write>(&self, f: &mut fmt::Formatter<W>) -> fmt::Result {
        let types = self.types;
        let node = self.node;
        writeln!(f, "{} = {}", Escaped(self.name), Outline { types, node })
    }
}

/// The lines of all types.
#[derive(Clone, Copy)]
struct AllLines<'t>(&'t Types<'t>);

impl fmt::Display for AllLines<'_> {
    fn fmt<W: fmt::Write>(&self, f: &mut fmt::Formatter<W>) -> fmt::Result {
        let types = self.0;
        let names = types.model.names();
        for place in 0..names.len() {
            let (name, node) = names.pair(place);
            write!(f, "{}", Named { types, name, node })?;
        }
        write!(f, "{}", Nameless(types))
    }
}

/// The types without a name, by their numbers, and that of object references.
#[derive(Clone, Copy)]
struct Nameless<'t>(&'t Types<'t>);

impl fmt::Display for Nameless<'_> {
    fn fmt<W: fmt::Write>(&self, f: &mut fmt::Formatter<W>) -> fmt::Result {
        let types = self.0;
        let nodes = types.graph.nodes();
        for number in 0..nodes.len() {
            let node = number as u32;
            if types.is_reference(node, &nodes[number]) {
                writeln!(f, "{REFERENCE} = {}", Outline { types, node })?;
            } else if has_outline(&nodes[number]) && types.names.get(number) == Some(&None) {
                writeln!(f, "#{node} = {}", Outline { types, node })?;
            }
        }
        Ok(())
    }
}

/// The first name of each node.
fn names_of<'t>(alloc: Global, model: &'t Model) -> Result<Vec<Option<&'t str>>, AllocError> {
    let mut first = vec![in alloc; None; model.graph().nodes().len()]?;
    let names = model.names();
    for place in 0..names.len() {
        let (name, node) = names.pair(place);
        if let Some(known) = first.get_mut(node as usize)
            && known.is_none()
        {
            *known = Some(name);
        }
    }
    Ok(first)
}

fn lines(alloc: Global, types: &Types<'_>) -> Result<String, AllocError> {
    format!(in alloc; "{}", AllLines(types))
}

/// For each name of a table what the text of a value of its type looks like, as a line; then the
/// same of types without a name, by the numbers of their nodes.
pub(crate) fn outlines(
    alloc: Global,
    table: &Accepted,
    parts: &PartNames,
) -> Result<String, AllocError> {
    let model = table.table().model();
    let names = names_of(alloc, model)?;
    let graph = model.graph();
    let types = Types {
        model,
        graph,
        parts,
        names,
    };
    lines(alloc, &types)
}
