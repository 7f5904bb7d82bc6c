//! What requests and replies carry.

ghost use Rattle.std.specs.Prelude.{◌≡◌, ◌≤◌, length};
ghost use Rattle.idl_tree.specs.Lists.{parts};
ghost use Rattle.lowered_types.specs.Faults.{Tells, each};
ghost use Rattle.lowered_types.specs.Lowered.{already};
ghost use Rattle.lowered_operations.specs.Frames.{all_carried, frame_added, frames_added, nothing_carried, result_carried, with_carried, with_param};

use idl_tree::definitions::{Direction, Operation, Param};
use idl_tree::names::{At, Listed};
use lowered_types::{BuildFault, MemberList, TypeTable};
use scoped_names::{Names, Scope};
use std::alloc::Global;
use type_graph::Node;
use type_paths::NodeSites;

/// What a result is called.
pub(crate) const RESULT: &str = "_return";

/// The types that a request and its reply carry, with their names.
#[derive(Drop)]
pub(crate) struct Carried {
    pub request: MemberList,
    pub reply: MemberList,
}

/// What is lowered, and what a request and its reply carry of it.
#[derive(Drop)]
pub(crate) struct Carrying {
    pub types: TypeTable,
    pub carried: Carried,
}

impl Carried {
    /// Nothing. Takes no memory.
    pub fn new(alloc: Global) -> Self
        ensures { result ≡ nothing_carried }
    {
        Carried {
            request: MemberList::new(alloc),
            reply: MemberList::new(alloc),
        }
    }

    /// One type more, of what has the name and stands there.
    ///
    /// # Errors
    /// Those of `MemberList::with_member`.
    pub fn with_type(
        self,
        alloc: Global,
        name: &str,
        direction: Direction,
        number: u32,
        at: At,
    ) -> Result<Carried, BuildFault>
        ensures { Tells result (λ c. c) (with_carried self name.now direction number at) }
    {
        let Carried { request, reply } = self;
        match direction {
            Direction::In => {
                let request = request.with_member(alloc, name, number, at)?;
                Ok(Carried { request, reply })
            }
            Direction::Out => {
                let reply = reply.with_member(alloc, name, number, at)?;
                Ok(Carried { request, reply })
            }
            Direction::InOut => {
                let request = request.with_member(alloc, name, number, at)?;
                let reply = reply.with_member(alloc, name, number, at)?;
                Ok(Carried { request, reply })
            }
        }
    }
}

impl Carrying {
    fn with_param<'a>(
        self,
        alloc: Global,
        names: &Names<'a>,
        scope: Scope,
        param: &Param<'a>,
    ) -> Result<Carrying, BuildFault>
        requires { scope.0 ≤ length names.now.entries }
        ensures { Tells result (λ c. c) (with_param names.now.entries scope.0 self param.now) }
    {
        let Carrying { types, carried } = self;
        let at = param.identifier.at();
        let (types, number) = types.with_param_type(alloc, names, scope, &param.param_type)?;
        let name = param.identifier.name();
        let carried = carried.with_type(alloc, name, param.direction, number, at)?;
        Ok(Carrying { types, carried })
    }

    fn with_params<'a>(
        self,
        alloc: Global,
        names: &Names<'a>,
        scope: Scope,
        params: &Listed<Param<'a>>,
    ) -> Result<Carrying, BuildFault>
        requires { scope.0 ≤ length names.now.entries }
        ensures { Tells result (λ c. c) (each (with_param names.now.entries scope.0) self (parts params.now)) }
    {
        let mut carrying = self;
        for param in params.iter() {
            carrying = carrying.with_param(alloc, names, scope, param)?;
        }
        Ok(carrying)
    }
}

/// The result of an operation that stands there.
fn lower_result<'a>(
    types: TypeTable,
    alloc: Global,
    names: &Names<'a>,
    scope: Scope,
    at: At,
    o: &Operation<'a>,
) -> Result<Carrying, BuildFault>
    requires { scope.0 ≤ length names.now.entries }
    ensures { Tells result (λ c. c) (result_carried names.now.entries types scope.0 at o.now.result_type) }
{
    let carried = Carried::new(alloc);
    let Some(t) = &o.result_type else {
        return Ok(Carrying { types, carried });
    };
    let (types, number) = types.with_param_type(alloc, names, scope, t)?;
    let carried = carried.with_type(alloc, RESULT, Direction::Out, number, at)?;
    Ok(Carrying { types, carried })
}

/// The result and the parameters of an operation.
///
/// # Errors
/// Those of `TypeTable::with_param_type` and `MemberList::with_member`.
pub(crate) fn lower_carried<'a>(
    types: TypeTable,
    alloc: Global,
    names: &Names<'a>,
    scope: Scope,
    o: &Operation<'a>,
) -> Result<Carrying, BuildFault>
    requires { scope.0 ≤ length names.now.entries }
    ensures { Tells result (λ c. c) (all_carried names.now.entries types scope.0 o.now) }
{
    let at = o.identifier.at();
    let carrying = lower_result(types, alloc, names, scope, at, o)?;
    match &o.params {
        Some(params) => carrying.with_params(alloc, names, scope, params),
        None => Ok(carrying),
    }
}

/// A frame of an operation that stands there, with the places of what it carries; gives its
/// number.
fn lower_frame(
    types: TypeTable,
    members: MemberList,
    at: At,
) -> Result<(TypeTable, u32), BuildFault>
    ensures { Tells result (λ r. already r.0 r.1) (frame_added types members at) }
{
    let types = types.with_members(members.len(), at)?;
    let (members, names, held) = members.into_parts();
    types.with_node(Node::Frame { members }, names, NodeSites::new(at, held))
}

/// The frames of a request and its reply; gives the number of the first.
///
/// # Errors
/// `Limit` where there are too many nodes or members, want of memory.
pub(crate) fn lower_frames(
    types: TypeTable,
    carried: Carried,
    at: At,
) -> Result<(TypeTable, u32), BuildFault>
    ensures { Tells result (λ r. already r.0 r.1) (frames_added types carried at) }
{
    let Carried { request, reply } = carried;
    let (types, number) = lower_frame(types, request, at)?;
    let (types, _) = lower_frame(types, reply, at)?;
    Ok((types, number))
}
