//! The model of what a file is lowered to.

ghost use Rattle.std.specs.Prelude.{◌≡◌, IfErr, IfOk};
ghost use Rattle.model_builder.specs.Faults.{IsRefusedBehind};
ghost use Rattle.model_builder.specs.inner.Own.{IsOwn};
ghost use Rattle.model_builder.specs.Shown.{IsModelOf, defined};

use crate::fault::ModelFault;
use crate::naming::names_of;
use crate::parts::parts_of;
use crate::paths::{check_paths, graph_of};
use crate::signatures::{exceptions_of, interfaces_of, operations_of};
use lowered_operations::{Offered, Signature};
use lowered_types::TypeTable;
use scoped_names::Names;
use std::alloc::Global;
use type_graph::{GraphFault, Items};
use type_model::Model;
use type_model::part_names::PartNames;

/// The model of a file, and the names of the parts of its nodes.
#[derive(Drop)]
pub struct Built {
    pub model: Model,
    pub parts: PartNames,
}

/// The model of types, operations and interfaces that are lowered under these names, and the names of
/// the parts of its nodes.
///
/// # Errors
/// A type that holds itself, too long a path; want of memory.
pub(crate) fn built_of<'a>(
    alloc: Global,
    names: &Names<'a>,
    types: TypeTable,
    signatures: Vec<Signature>,
    offered: Vec<Option<Offered>>,
) -> Result<Built, ModelFault>
    requires { IsOwn names.now (defined types signatures.items offered.items) }
    ensures shows { IfOk result (λ built.
        IsModelOf names.now (defined types signatures.items offered.items) built.model) }
    ensures named { IfOk result (λ built. built.parts ≡ types.names) }
    ensures refused { IfErr result (IsRefusedBehind types) }
{
    check_paths(alloc, &types)?;
    // where nodes stand takes more memory than their names, and nobody asks for it from here on
    let types = types.without_sites(alloc);
    let list = names_of(alloc, names, &types)?;
    let operations = operations_of(alloc, names, signatures)?;
    let exceptions = exceptions_of(alloc, names, types.exceptions())?;
    let interfaces = interfaces_of(alloc, names, offered)?;
    let (nodes, own) = types.into_parts();
    let parts = parts_of(alloc, own)?;
    let graph = graph_of(alloc, nodes)?;
    let model = Model::new(
        alloc,
        graph,
        Items::new(list),
        Items::new(interfaces),
        Items::new(operations),
        Items::new(exceptions),
    );
    match model {
        Ok(model) => Ok(Built { model, parts }),
        Err(GraphFault::NoMemory) => Err(ModelFault::NoMemory),
        Err(_) => unreachable!(),
    }
}
