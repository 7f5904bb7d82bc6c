//! What operations and attributes raise.

ghost use Rattle.std.specs.Prelude.{◌≡◌, ◌≤◌, length};
ghost use Rattle.idl_tree.specs.Lists.{parts};
ghost use Rattle.lowered_types.specs.Faults.{Tells};
ghost use Rattle.lowered_operations.specs.Oneway.{parts_of};
ghost use Rattle.lowered_operations.specs.Operations.{exception_found, get_raises, raised, set_raises};

use idl_tree::definitions::Attributes;
use idl_tree::names::{Listed, ScopedName};
use lowered_types::{BuildFault, Place, TypeTable, resolved};
use scoped_names::{Names, Scope};
use std::alloc::Global;

/// The place of the exception that a name finds. Takes no memory.
fn find_exception<'a>(
    names: &Names<'a>,
    types: &TypeTable,
    scope: Scope,
    name: &ScopedName<'a>,
) -> Result<usize, BuildFault>
    requires { scope.0 ≤ length names.now.entries }
    ensures { result ≡ exception_found names.now.entries types.now scope.0 name.now }
{
    let entry = resolved(names, scope, name)?;
    match types.place(entry) {
        Some(Place::Raised { place, .. }) => Ok(place),
        _ => Err(BuildFault::OtherNames),
    }
}

/// The places of the exceptions that names find, in order.
///
/// # Errors
/// Those of `resolved`, `OtherNames` where a name finds no exception, want of memory.
fn find_raised<'a>(
    names: &Names<'a>,
    types: &TypeTable,
    alloc: Global,
    scope: Scope,
    raises: &Listed<ScopedName<'a>>,
) -> Result<Vec<usize>, BuildFault>
    requires { scope.0 ≤ length names.now.entries }
    ensures { Tells result (λ found. found.items) (raised names.now.entries types.now scope.0 (parts raises.now)) }
{
    let mut places = Vec::new(alloc);
    for name in raises.iter() {
        let place = find_exception(names, types, scope, name)?;
        places.push(place)?;
    }
    Ok(places)
}

/// As `find_raised`, of a list that may be absent.
///
/// # Errors
/// As `find_raised`.
pub(crate) fn find_all_raised<'a>(
    names: &Names<'a>,
    types: &TypeTable,
    alloc: Global,
    scope: Scope,
    raises: &Option<Listed<ScopedName<'a>>>,
) -> Result<Vec<usize>, BuildFault>
    requires { scope.0 ≤ length names.now.entries }
    ensures { Tells result (λ found. found.items) (raised names.now.entries types.now scope.0 (parts_of raises.now)) }
{
    match raises {
        Some(raises) => find_raised(names, types, alloc, scope, raises),
        None => Ok(Vec::new(alloc)),
    }
}

/// What is raised where attributes are got.
///
/// # Errors
/// As `find_raised`.
pub(crate) fn find_get_raised<'a>(
    names: &Names<'a>,
    types: &TypeTable,
    alloc: Global,
    scope: Scope,
    declared: &Attributes<'a>,
) -> Result<Vec<usize>, BuildFault>
    requires { scope.0 ≤ length names.now.entries }
    ensures { Tells result (λ found. found.items)
        (raised names.now.entries types.now scope.0 (get_raises declared.now)) }
{
    match declared {
        Attributes::Readonly { raises, .. } => find_raised(names, types, alloc, scope, raises),
        Attributes::Get { get, .. } => find_raised(names, types, alloc, scope, get),
        Attributes::Silent { .. } | Attributes::Set { .. } => Ok(Vec::new(alloc)),
    }
}

/// What is raised where attributes are set.
///
/// # Errors
/// As `find_raised`.
pub(crate) fn find_set_raised<'a>(
    names: &Names<'a>,
    types: &TypeTable,
    alloc: Global,
    scope: Scope,
    declared: &Attributes<'a>,
) -> Result<Vec<usize>, BuildFault>
    requires { scope.0 ≤ length names.now.entries }
    ensures { Tells result (λ found. found.items)
        (raised names.now.entries types.now scope.0 (set_raises declared.now)) }
{
    match declared {
        Attributes::Get { set, .. } => find_all_raised(names, types, alloc, scope, set),
        Attributes::Set { set, .. } => find_raised(names, types, alloc, scope, set),
        Attributes::Silent { .. } | Attributes::Readonly { .. } => Ok(Vec::new(alloc)),
    }
}
