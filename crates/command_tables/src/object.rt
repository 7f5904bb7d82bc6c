//! Objects as words name them, and interfaces by name.

ghost use Rattle.std.specs.Prelude.{◌≡◌, ◌<◌, ℕ, List, length, slice_get, option_and_then, option_map, IfSome, IfNone};
ghost use Rattle.command_tables.specs.References.{IsObject, interface_named as interface_of_name};

use type_model::Interface;

/// The key before the first equals sign, and the name of an interface behind it. Takes no memory.
pub fn object_in(word: &str) -> Option<(&str, &str)>
    ensures found { IfSome result (λ r. IsObject word.now r.0.now r.1.now) }
    ensures refused { IfNone result ((key name : List ℕ) → IsObject word.now key name → ⊥) }
{
    let Some((key, name)) = word.split_once('=') else {
        return None;
    };
    if key.is_empty() {
        return None;
    }
    Some((key, name))
}

/// The place of the first interface of a name. Takes no memory.
pub fn interface_place(interfaces: &[Interface], name: &str) -> Option<usize>
    ensures within { IfSome result (λ place. place < length interfaces.now) }
    ensures named { option_and_then (slice_get interfaces.now) result ≡ interface_of_name name.now interfaces.now }
{
    for place in 0..interfaces.len() {
        if interfaces[place].name.as_str() == name {
            return Some(place);
        }
    }
    None
}

/// The first interface of a name.
pub(crate) fn interface_named<'t>(interfaces: &'t [Interface], name: &str) -> Option<&'t Interface>
    ensures { option_map (λ i. i.now) result ≡ interface_of_name name.now interfaces.now }
{
    interfaces.get(interface_place(interfaces, name)?)
}
