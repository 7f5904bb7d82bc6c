//! Operations, exceptions and interfaces.

ghost use Rattle.std.specs.Prelude.{◌≡◌, ◌<◌, ◌≤◌, ◌^◌, ◌++◌, ◌∷◌, [], length, map, All, IfOk, IfSome, OnOk};
ghost use Rattle.model_builder.specs.Signatures.{exception_of as its_exception, id_of as its_id, interface_of as its_interface, interfaces_from, operation_of as its_operation};
ghost use Rattle.model_builder.specs.inner.Theirs.{ArePlaces, IsOffered, IsSignature};

use crate::naming::{marked_name, name_of};
use lowered_operations::{Offered, Signature};
use scoped_names::Names;
use std::alloc::{AllocError, Global};
use type_graph::Items;
use type_model::{Exception, Interface, Name, Operation};

/// The repository id of an entry.
fn id_of<'a>(alloc: Global, names: &Names<'a>, entry: usize) -> Result<Name, AllocError>
    requires { entry < length names.now.entries }
    ensures { IfOk result (λ id. id ≡ its_id names.now entry) }
{
    Ok(Name::new(names.repository_id(alloc, entry)?))
}

/// Places as numbers of 32 bits.
fn numbers_of(alloc: Global, places: &[usize]) -> Result<Vec<u32>, AllocError>
    requires { ArePlaces places.now }
    ensures { IfOk result (λ numbers. numbers.items ≡ places.now) }
{
    let mut numbers = Vec::new(alloc);
    for place in places {
        numbers.push(*place as u32)?;
    }
    Ok(numbers)
}

fn operation_of<'a>(alloc: Global, names: &Names<'a>, s: Signature) -> Result<Operation, AllocError>
    requires { IsSignature (length names.now.entries) s }
    ensures { IfOk result (λ o. o ≡ its_operation names.now.entries s) }
{
    let exceptions = numbers_of(alloc, s.raises.as_slice())?;
    Ok(Operation {
        name: marked_name(alloc, names, s.role, s.entry)?,
        oneway: s.is_oneway,
        request: s.request,
        reply: s.request + 1,
        exceptions: Items::new(exceptions),
    })
}

/// The operations of a file, in the order of the text.
///
/// # Errors
/// Want of memory.
pub(crate) fn operations_of<'a>(
    alloc: Global,
    names: &Names<'a>,
    signatures: Vec<Signature>,
) -> Result<Vec<Operation>, AllocError>
    requires { All (IsSignature (length names.now.entries)) signatures.items }
    ensures { IfOk result (λ list. list.items ≡ map (its_operation names.now.entries) signatures.items) }
{
    let mut list = Vec::new(alloc);
    for signature in signatures {
        list.push(operation_of(alloc, names, signature)?)?;
    }
    Ok(list)
}

fn exception_of<'a>(
    alloc: Global,
    names: &Names<'a>,
    entry: usize,
    frame: u32,
) -> Result<Exception, AllocError>
    requires { entry < length names.now.entries }
    ensures { IfOk result (λ x. x ≡ its_exception names.now (entry, frame)) }
{
    let id = id_of(alloc, names, entry)?;
    Ok(Exception {
        name: name_of(alloc, names, entry)?,
        id,
        frame,
    })
}

/// The exceptions of a file, in the order of the text.
///
/// # Errors
/// Want of memory.
pub(crate) fn exceptions_of<'a>(
    alloc: Global,
    names: &Names<'a>,
    exceptions: &[(usize, u32)],
) -> Result<Vec<Exception>, AllocError>
    requires { All (λ exception. exception.0 < length names.now.entries) exceptions.now }
    ensures { IfOk result (λ list. list.items ≡ map (its_exception names.now) exceptions.now) }
{
    let mut list = Vec::new(alloc);
    for (entry, frame) in exceptions {
        list.push(exception_of(alloc, names, *entry, *frame)?)?;
    }
    Ok(list)
}

/// The repository ids of entries.
fn ids_of<'a>(alloc: Global, names: &Names<'a>, entries: &[usize]) -> Result<Vec<Name>, AllocError>
    requires { All (λ entry. entry < length names.now.entries) entries.now }
    ensures { IfOk result (λ ids. ids.items ≡ map (its_id names.now) entries.now) }
{
    let mut ids = Vec::new(alloc);
    for entry in entries {
        ids.push(id_of(alloc, names, *entry)?)?;
    }
    Ok(ids)
}

fn interface_of<'a>(
    alloc: Global,
    names: &Names<'a>,
    entry: usize,
    offered: Offered,
) -> Result<Interface, AllocError>
    requires there { entry < length names.now.entries }
    requires theirs { IsOffered (length names.now.entries) offered }
    ensures { IfOk result (λ i. i ≡ its_interface names.now entry offered) }
{
    let id = id_of(alloc, names, entry)?;
    let bases = ids_of(alloc, names, offered.bases.as_slice())?;
    let operations = numbers_of(alloc, offered.operations.as_slice())?;
    Ok(Interface {
        name: name_of(alloc, names, entry)?,
        id,
        bases: Items::new(bases),
        operations: Items::new(operations),
    })
}

/// Adds the interface that an entry is, if it is a defined one.
fn push_interface<'a>(
    list: &mut Vec<Interface>,
    alloc: Global,
    names: &Names<'a>,
    entry: usize,
    offered: Option<Offered>,
) -> Result<(), AllocError>
    requires there { entry < length names.now.entries }
    requires theirs { IfSome offered (IsOffered (length names.now.entries)) }
    ensures { OnOk result (list.new.items ≡ list.old.items ++ interfaces_from names.now entry (offered ∷ [])) }
{
    if let Some(offered) = offered {
        list.push(interface_of(alloc, names, entry, offered)?)?;
    }
    Ok(())
}

/// The interfaces of a file that are defined, in order of declaration.
///
/// # Errors
/// Want of memory.
pub(crate) fn interfaces_of<'a>(
    alloc: Global,
    names: &Names<'a>,
    offered: Vec<Option<Offered>>,
) -> Result<Vec<Interface>, AllocError>
    requires within { length offered.items ≤ length names.now.entries }
    requires theirs { All (λ offered. IfSome offered (IsOffered (length names.now.entries))) offered.items }
    ensures { IfOk result (λ list. list.items ≡ interfaces_from names.now 0 offered.items) }
{
    let mut list = Vec::new(alloc);
    let mut entry = 0;
    for offered in offered {
        push_interface(&mut list, alloc, names, entry, offered)?;
        entry += 1;
    }
    Ok(list)
}
