//! What types, exceptions and frames are called.

ghost use Rattle.std.specs.Prelude.{◌≡◌, ◌<◌, ◌+◌, ◌^◌, ◌++◌, ◌∷◌, [], length, map, All, Some, IfOk, IfSome, OnOk};
ghost use Rattle.std.specs.List.{flat_map};
ghost use Rattle.std.specs.String.{string_bytes};
ghost use Rattle.model_builder.specs.Naming.{called, frames_of, mark_of as its_mark, marked, name_of as its_name, names_at, names_of as its_names, names_of_place, scopes_of, with_colons};
ghost use Rattle.model_builder.specs.inner.Theirs.{HasFrames};

use lowered_operations::Role;
use lowered_types::{Place, TypeTable};
use scoped_names::Names;
use std::alloc::{AllocError, Global};
use type_model::Name;

/// What stands before the name of an operation on the wire.
pub(crate) fn mark_of(role: Role) -> &'static str
    ensures { result.now ≡ its_mark role }
{
    match role {
        Role::Operation => "",
        Role::Getting => "_get_",
        Role::Setting => "_set_",
    }
}

/// Adds the names of scopes, with colons behind each.
fn push_scopes(out: &mut String, scopes: &[&str]) -> Result<(), AllocError>
    ensures { OnOk result (string_bytes out.new ≡
        string_bytes out.old ++ with_colons (map (λ n. n.now) scopes.now)) }
{
    for scope in scopes {
        out.push_str(scope)?;
        out.push_str("::")?;
    }
    Ok(())
}

/// The names of the scopes around an entry, from the outermost.
fn scopes_around<'a>(
    alloc: Global,
    names: &Names<'a>,
    entry: usize,
) -> Result<Vec<&'a str>, AllocError>
    requires { entry < length names.now.entries }
    ensures { IfOk result (λ scopes. map (λ n. n.now) scopes.items ≡ scopes_of names.now.entries entry) }
{
    let mut path = names.path(alloc, entry)?;
    path.pop();
    Ok(path)
}

/// The name of an entry, with what stands before its own name and behind it.
fn call<'a>(
    alloc: Global,
    names: &Names<'a>,
    mark: &str,
    entry: usize,
    end: &str,
) -> Result<Name, AllocError>
    requires { entry < length names.now.entries }
    ensures { IfOk result (λ name. name ≡ called names.now.entries mark.now entry end.now) }
{
    let scopes = scopes_around(alloc, names, entry)?;
    let mut text = String::new(alloc);
    push_scopes(&mut text, scopes.as_slice())?;
    text.push_str(mark)?;
    text.push_str(names.name(entry))?;
    text.push_str(end)?;
    Ok(Name::new(text))
}

/// The name of an operation on the wire.
///
/// # Errors
/// Want of memory.
pub(crate) fn marked_name<'a>(
    alloc: Global,
    names: &Names<'a>,
    role: Role,
    entry: usize,
) -> Result<Name, AllocError>
    requires { entry < length names.now.entries }
    ensures { IfOk result (λ name. name ≡ marked names.now.entries (its_mark role) entry) }
{
    let mut text = String::new(alloc);
    text.push_str(mark_of(role))?;
    text.push_str(names.name(entry))?;
    Ok(Name::new(text))
}

/// The name of an entry.
///
/// # Errors
/// Want of memory.
pub(crate) fn name_of<'a>(
    alloc: Global,
    names: &Names<'a>,
    entry: usize,
) -> Result<Name, AllocError>
    requires { entry < length names.now.entries }
    ensures { IfOk result (λ name. name ≡ its_name names.now.entries entry) }
{
    call(alloc, names, "", entry, "")
}

/// Adds the names of the frames of a request and its reply.
fn push_frames<'a>(
    list: &mut Vec<(Name, u32)>,
    alloc: Global,
    names: &Names<'a>,
    role: Role,
    entry: usize,
    request: u32,
) -> Result<(), AllocError>
    requires there { entry < length names.now.entries }
    requires small { request + 1 < 2 ^ 32 }
    ensures { OnOk result (list.new.items ≡ list.old.items ++ frames_of names.now.entries role entry request) }
{
    let mark = mark_of(role);
    list.push((call(alloc, names, mark, entry, "/in")?, request))?;
    list.push((call(alloc, names, mark, entry, "/out")?, request + 1))?;
    Ok(())
}

/// Adds the names of the frames of an attribute that is got and set.
fn push_accesses<'a>(
    list: &mut Vec<(Name, u32)>,
    alloc: Global,
    names: &Names<'a>,
    entry: usize,
    request: u32,
) -> Result<(), AllocError>
    requires there { entry < length names.now.entries }
    requires small { request + 3 < 2 ^ 32 }
    ensures { OnOk result (list.new.items ≡
        list.old.items ++ names_of_place names.now.entries entry (Some (Place.GotAndSet request))) }
{
    push_frames(list, alloc, names, Role::Getting, entry, request)?;
    push_frames(list, alloc, names, Role::Setting, entry, request + 2)
}

/// Adds the names of what an entry has.
fn push_place<'a>(
    list: &mut Vec<(Name, u32)>,
    alloc: Global,
    names: &Names<'a>,
    entry: usize,
    place: Option<Place>,
) -> Result<(), AllocError>
    requires there { entry < length names.now.entries }
    requires small { IfSome place HasFrames }
    ensures { OnOk result (list.new.items ≡ list.old.items ++ names_of_place names.now.entries entry place) }
{
    match place {
        None => Ok(()),
        Some(Place::Typed(number)) => {
            list.push((name_of(alloc, names, entry)?, number))?;
            Ok(())
        }
        Some(Place::Raised { frame, .. }) => {
            list.push((name_of(alloc, names, entry)?, frame))?;
            Ok(())
        }
        Some(Place::Called { request }) => {
            push_frames(list, alloc, names, Role::Operation, entry, request)
        }
        Some(Place::Got { request }) => {
            push_frames(list, alloc, names, Role::Getting, entry, request)
        }
        Some(Place::GotAndSet { request }) => push_accesses(list, alloc, names, entry, request),
    }
}

/// The names of all types, exceptions and frames, in order of declaration.
///
/// # Errors
/// Want of memory.
pub(crate) fn names_of<'a>(
    alloc: Global,
    names: &Names<'a>,
    types: &TypeTable,
) -> Result<Vec<(Name, u32)>, AllocError>
    requires { All (λ place. IfSome place HasFrames) types.now.places }
    ensures { IfOk result (λ list. list.items ≡ its_names names.now.entries types.now) }
{
    let mut list = Vec::new(alloc);
    for entry in 0..names.len() {
        push_place(&mut list, alloc, names, entry, types.place(entry))?;
    }
    Ok(list)
}
