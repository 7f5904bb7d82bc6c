//! What is lowered behind a part: each refusal leaves nothing behind.

ghost use Rattle.std.specs.Prelude.{◌≡◌, ◌≤◌, length};
ghost use Rattle.lowered_types.specs.Faults.{Tells};
ghost use Rattle.lowered_types.specs.SimpleTypes.{param_type};
ghost use Rattle.lowered_types.specs.Lowered.{added, already, counted, placed};

use crate::fault::BuildFault;
use crate::place::Place;
use crate::simple::lower_param_type;
use crate::table::TypeTable;
use idl_tree::names::At;
use idl_tree::types::ParamType;
use scoped_names::{Names, Scope};
use std::alloc::Global;
use type_graph::{Items, Node};
use type_model::Name;
use type_paths::NodeSites;

impl TypeTable {
    /// A node more, with the names of its parts and its sites; gives its number.
    ///
    /// # Errors
    /// `Limit` where there are 4,096, want of memory.
    pub fn with_node(
        self,
        node: Node,
        names: Items<Name>,
        sites: NodeSites,
    ) -> Result<(TypeTable, u32), BuildFault>
        ensures { Tells result (λ r. already r.0 r.1) (added self node names sites) }
    {
        let mut table = self;
        let number = table.add(node, names, sites)?;
        Ok((table, number))
    }

    /// An entry has this from now on. Takes no memory.
    ///
    /// # Errors
    /// `OtherNames` where there is no such entry.
    pub fn with_place(self, entry: usize, place: Place) -> Result<TypeTable, BuildFault>
        ensures { Tells result (λ table. table) (placed self entry place) }
    {
        let mut table = self;
        table.put(entry, place)?;
        Ok(table)
    }

    /// So many members more of one type, which stands there. Takes no memory.
    ///
    /// # Errors
    /// `Limit` where all types have more than 32,768.
    pub fn with_members(self, count: usize, at: At) -> Result<TypeTable, BuildFault>
        ensures { Tells result (λ table. table) (counted self count at) }
    {
        let mut table = self;
        table.count_members(count, at)?;
        Ok(table)
    }

    /// What is lowered behind the type of a parameter, a result or an attribute; gives its number.
    ///
    /// # Errors
    /// The first fault in the order of reading; want of memory.
    pub fn with_param_type<'a>(
        self,
        alloc: Global,
        names: &Names<'a>,
        scope: Scope,
        t: &ParamType<'a>,
    ) -> Result<(TypeTable, u32), BuildFault>
        requires { scope.0 ≤ length names.now.entries }
        ensures { Tells result (λ r. already r.0 r.1) (param_type names.now.entries self scope.0 t.now) }
    {
        let mut table = self;
        let number = lower_param_type(names, &mut table, alloc, scope, t)?;
        Ok((table, number))
    }
}
