//! The names of the types, and the model of all.

ghost use Rattle.std.specs.Prelude.{◌≡◌, [], ◌∷◌, ◌++◌, IfOk, OnOk};
ghost use Rattle.std.specs.Bool.{OnFalse};
ghost use Rattle.type_graph.specs.Refusal.{wants_memory};
ghost use Rattle.type_model.specs.ModelRules.{IsModel};
ghost use Rattle.giop_types.specs.GiopModel.{body_names, call_names, giop_model, giop_names, locate_names, operation_names};

use crate::graph::{
    BOOLEAN_RESULT, CANCEL_REQUEST_HEADER, ID_ARGUMENT, LOCATE_REPLY_HEADER, LOCATE_REQUEST_HEADER,
    NO_ARGUMENT, PROFILE_BODY_1_0, PROFILE_BODY_1_1, REPLY_HEADER, REQUEST_HEADER,
    SYSTEM_EXCEPTION, graph,
};
use std::alloc::{AllocError, Global};
use type_graph::basic_types::OBJECT;
use type_graph::{GraphFault, Items};
use type_model::{Model, Name};

fn add(alloc: Global, names: &mut Vec<(Name, u32)>, text: &str, node: u32) -> Result<(), AllocError>
    ensures { OnOk result (names.new.items ≡ names.old.items ++ (text.now, node) ∷ []) }
{
    let name = Name::copied(alloc, text)?;
    match names.push((name, node)) {
        Ok(()) => Ok(()),
        Err(_) => Err(AllocError),
    }
}

fn add_calls(alloc: Global, names: &mut Vec<(Name, u32)>) -> Result<(), AllocError>
    ensures { OnOk result (names.new.items ≡ names.old.items ++ call_names) }
{
    add(alloc, names, "IOP::IOR", OBJECT)?;
    add(alloc, names, "GIOP::RequestHeader_1_2", REQUEST_HEADER)?;
    add(alloc, names, "GIOP::ReplyHeader_1_2", REPLY_HEADER)?;
    Ok(())
}

fn add_locates(alloc: Global, names: &mut Vec<(Name, u32)>) -> Result<(), AllocError>
    ensures { OnOk result (names.new.items ≡ names.old.items ++ locate_names) }
{
    let locate = "GIOP::LocateRequestHeader_1_2";
    add(alloc, names, locate, LOCATE_REQUEST_HEADER)?;
    add(
        alloc,
        names,
        "GIOP::LocateReplyHeader_1_2",
        LOCATE_REPLY_HEADER,
    )?;
    add(
        alloc,
        names,
        "GIOP::CancelRequestHeader",
        CANCEL_REQUEST_HEADER,
    )?;
    Ok(())
}

fn add_bodies(alloc: Global, names: &mut Vec<(Name, u32)>) -> Result<(), AllocError>
    ensures { OnOk result (names.new.items ≡ names.old.items ++ body_names) }
{
    add(alloc, names, "SystemException", SYSTEM_EXCEPTION)?;
    add(alloc, names, "IIOP::ProfileBody_1_0", PROFILE_BODY_1_0)?;
    add(alloc, names, "IIOP::ProfileBody_1_1", PROFILE_BODY_1_1)?;
    Ok(())
}

fn add_operations(alloc: Global, names: &mut Vec<(Name, u32)>) -> Result<(), AllocError>
    ensures { OnOk result (names.new.items ≡ names.old.items ++ operation_names) }
{
    add(alloc, names, "is_a/in", ID_ARGUMENT)?;
    add(alloc, names, "is_a/out", BOOLEAN_RESULT)?;
    add(alloc, names, "non_existent/in", NO_ARGUMENT)?;
    add(alloc, names, "non_existent/out", BOOLEAN_RESULT)?;
    Ok(())
}

fn names(alloc: Global) -> Result<Vec<(Name, u32)>, AllocError>
    ensures { IfOk result (λ names. names.items ≡ giop_names) }
{
    let mut names = Vec::new(alloc);
    add_calls(alloc, &mut names)?;
    add_locates(alloc, &mut names)?;
    add_bodies(alloc, &mut names)?;
    add_operations(alloc, &mut names)?;
    Ok(names)
}

/// The rules hold, so that only memory can have been the cause.
#[tactic(auto, using(crate::proofs::ModelFacts::giop_is_model))]
fn memory_of(fault: GraphFault) -> AllocError
    requires { OnFalse (wants_memory fault) (IsModel giop_model → ⊥) }
{
    match fault {
        GraphFault::NoMemory => AllocError,
        _ => unreachable!(),
    }
}

/// The model of the types of GIOP.
pub(crate) fn model(alloc: Global) -> Result<Model, AllocError>
    ensures { IfOk result (λ model. model ≡ giop_model) }
{
    let graph = graph(alloc)?;
    let names = Items::new(names(alloc)?);
    let interfaces = Items::new(Vec::new(alloc));
    let operations = Items::new(Vec::new(alloc));
    let exceptions = Items::new(Vec::new(alloc));
    match Model::new(alloc, graph, names, interfaces, operations, exceptions) {
        Ok(model) => Ok(model),
        Err(fault) => Err(memory_of(fault)),
    }
}
