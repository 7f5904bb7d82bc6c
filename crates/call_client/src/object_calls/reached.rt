//! Calls of objects that references name.

ghost use Rattle.std.specs.Prelude.{◌≡◌, IfNone, IfSome, option_map, slice_get};
ghost use Rattle.std.specs.Option.{ForSome};
ghost use Rattle.type_graph.specs.Value.{Tree};
ghost use Rattle.type_model.specs.Names.{IsNamed};
ghost use Rattle.giop.specs.Addresses.{target_tree};
ghost use Rattle.giop.specs.Made.{given_by};
ghost use Rattle.reference_texts.specs.References.{reference_of};
ghost use Rattle.reference_listing.specs.Listings.{iiop_of, rows_of};
ghost use Rattle.call_client.specs.Forms.{IsProfileAt, IsTarget, naming};
ghost use Rattle.call_client.specs.Talks.{IsCalledBy, IsCalledTo, asking, misses};

use crate::object_calls::calling::call_at;
use crate::object_calls::dial::Dial;
use crate::object_calls::form::Form;
use crate::{CallFault, ReplyBody, Request};
use giop::{Addressed, Body, Giop, Ior, Tagged};
use reference_listing::{IiopProfile, ListedProfile};
use std::alloc::Global;

fn nth_profile(profiles: &[(u32, Vec<u8>)], place: usize) -> Option<&(u32, Vec<u8>)>
    ensures { option_map (λ p. p.now) result ≡ slice_get profiles.now place }
{
    profiles.get(place)
}

/// The object of the profile at a place among those of a reference, by this profile.
fn profile_at(ior: &Ior, place: usize) -> Option<Addressed<'_>>
    ensures found { IfSome result (λ target. IsProfileAt (reference_of ior.now).profiles place (target_tree target)) }
    ensures none { IfNone result ((target : Tree) → IsProfileAt (reference_of ior.now).profiles place target → ⊥) }
{
    match nth_profile(ior.profiles.as_slice(), place) {
        Some((tag, octets)) => Some(Addressed::Profile(Tagged {
            tag: *tag,
            octets: octets.as_slice(),
        })),
        None => None,
    }
}

/// The object of a profile, which stands at a place among those of a reference, in a form.
fn target_in<'w>(
    form: Form,
    ior: &'w Ior,
    place: usize,
    profile: &'w IiopProfile,
) -> Option<Addressed<'w>>
    ensures found { IfSome result (λ target.
        IsTarget (naming form (reference_of ior.now)) place (iiop_of profile.now) (target_tree target)) }
    ensures none { IfNone result ((target : Tree)
        → IsTarget (naming form (reference_of ior.now)) place (iiop_of profile.now) target → ⊥) }
{
    match form {
        Form::Key => Some(Addressed::Key(profile.body.key.as_slice())),
        Form::Profile => profile_at(ior, place),
        Form::Reference => Some(Addressed::Reference {
            selected: place,
            reference: ior,
        }),
    }
}

/// Calls the object of a profile, which stands at a place among those of a reference, at its host and
/// port.
fn call_to<D: Dial>(
    giop: &Giop,
    alloc: Global,
    dial: &mut D,
    ior: &Ior,
    place: usize,
    profile: &IiopProfile,
    form: Form,
    request: &Request<'_>,
    body: Option<Body<'_>>,
    reads: u64,
) -> Result<Option<ReplyBody>, CallFault>
    requires { ForSome body (λ b. IsNamed b.0.now.model.names b.1) }
    ensures { IsCalledTo (D.went dial.old) (D.went dial.new) (asking request.now (given_by body.entry) reads)
        (IsTarget (naming form (reference_of ior.now)) place (iiop_of profile.now)) (iiop_of profile.now)
        (D.lines dial.old) result (D.lines dial.new) }
{
    let Some(target) = target_in(form, ior, place, profile) else {
        return Err(CallFault::NeedsAddressingMode);
    };
    let to_object = Request {
        order: request.order,
        id: request.id,
        flags: request.flags,
        target,
        operation: request.operation,
    };
    let host = profile.body.host.as_slice();
    call_at(
        giop,
        alloc,
        dial,
        host,
        profile.body.port,
        &to_object,
        body,
        reads,
    )
}

/// Whether no connection could be made, so that the next profile is tried.
fn is_missed(fault: CallFault) -> bool
    ensures { result ≡ misses fault }
{
    match fault {
        CallFault::NotReached => true,
        _ => false,
    }
}

/// Calls the object that a reference names, by its first profile of IIOP whose host and port can be
/// reached. The request is sent with a target that names the object of this profile in a form. So many
/// reads may give octets. The profiles are those of the reference, as `list_reference` lists them; for
/// the form of keys they alone count.
///
/// # Errors
/// `NotReached` where none can be; `NeedsAddressingMode` where the form is that of profiles, and the
/// reference has none at the place; want of memory; else as `call` of call_client says.
pub fn call_by<D: Dial>(
    giop: &Giop,
    alloc: Global,
    dial: &mut D,
    ior: &Ior,
    profiles: &[ListedProfile],
    form: Form,
    request: &Request<'_>,
    body: Option<Body<'_>>,
    reads: u64,
) -> Result<Option<ReplyBody>, CallFault>
    requires { ForSome body (λ b. IsNamed b.0.now.model.names b.1) }
    ensures { IsCalledBy (D.went dial.old) (D.went dial.new) (asking request.now (given_by body.entry) reads)
        (naming form (reference_of ior.now)) (rows_of profiles.now) (D.lines dial.old) result (D.lines dial.new) }
{
    let mut place = 0;
    for listed in profiles {
        match listed {
            ListedProfile::Iiop(profile) => {
                match call_to(
                    giop, alloc, dial, ior, place, profile, form, request, body, reads,
                ) {
                    Ok(answer) => return Ok(answer),
                    Err(fault) if is_missed(fault) => (),
                    Err(fault) => return Err(fault),
                }
            }
            ListedProfile::Other { .. } => (),
        }
        place += 1;
    }
    Err(CallFault::NotReached)
}
