//! Addresses.

ghost use Rattle.std.specs.Prelude.{◌≡◌, option_map};
ghost use Rattle.std.specs.Char.{is_ascii_digit};
ghost use Rattle.std.specs.List.{list_all};
ghost use Rattle.reference_texts.specs.Places.{address_of as address_in, cut as cut_of, hosted as hosted_by, is_host as is_host_name, is_of_host, is_version as is_version_word, past_version as past_version_of, port_of as port_in};

use crate::corbaloc::cut::cut;

/// The port where none is given.
const PORT: u16 = 2809;

fn is_version(word: &str) -> bool
    ensures { result ≡ is_version_word word.now }
{
    word == "1.0" || word == "1.1" || word == "1.2"
}

/// An address without its version.
fn past_version(address: &str) -> Option<&str>
    ensures { option_map (λ rest. rest.now) result ≡ past_version_of address.now (cut_of 64 address.now) }
{
    let Some((version, rest)) = cut(address, '@') else {
        return Some(address);
    };
    if is_version(version) {
        Some(rest)
    } else {
        None
    }
}

fn are_of_host(text: &str) -> bool
    ensures { result ≡ list_all is_of_host text.now }
{
    text.as_bytes().iter().all(|c| c.is_ascii_alphanumeric()
        || *c == b'-'
        || *c == b'.'
        || *c == b'_')
}

fn is_host(host: &str) -> bool
    ensures { result ≡ is_host_name host.now }
{
    !host.is_empty() && are_of_host(host)
}

fn are_digits(text: &str) -> bool
    ensures { result ≡ list_all is_ascii_digit text.now }
{
    text.as_bytes().iter().all(|c| c.is_ascii_digit())
}

fn port_of(digits: &str) -> Option<u16>
    ensures { result ≡ port_in digits.now }
{
    if !are_digits(digits) {
        return None;
    }
    match digits.parse::<u16>() {
        Ok(port) => Some(port),
        Err(_) => None,
    }
}

/// A host and a port.
fn hosted(address: &str) -> Option<(&str, u16)>
    ensures { option_map (λ r. (r.0.now, r.1)) result ≡ hosted_by address.now (cut_of 58 address.now) }
{
    let (host, digits) = match cut(address, ':') {
        Some(parts) => parts,
        None => {
            return if is_host(address) {
                Some((address, PORT))
            } else {
                None
            };
        }
    };
    if !is_host(host) {
        return None;
    }
    match port_of(digits) {
        Some(port) => Some((host, port)),
        None => None,
    }
}

/// The host and the port of an address.
pub(crate) fn address_of(address: &str) -> Option<(&str, u16)>
    ensures { option_map (λ r. (r.0.now, r.1)) result ≡ address_in address.now }
{
    match past_version(address) {
        Some(rest) => hosted(rest),
        None => None,
    }
}
