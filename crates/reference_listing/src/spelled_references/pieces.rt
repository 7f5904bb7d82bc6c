//! Lines, and what stands in them.

ghost use Rattle.std.specs.Prelude.{◌≡◌, IfOk, true};
ghost use Rattle.std.specs.Option.{ForSome};
ghost use Rattle.std.specs.List.{list_all};
ghost use Rattle.std.specs.String.{string_bytes};
ghost use Rattle.reference_listing.specs.Pieces.{IsComponent, IsTag, behind_line, gap_line, gap_lines, is_tag_letter};

use crate::spelled_references::names::component_name;
use crate::spelled_references::shown::{digits_text, octet_digits};
use std::alloc::{AllocError, Global};

/// A tag: its number, and its name where it has one.
pub(crate) fn tag_text(alloc: Global, tag: u32, name: Option<&str>) -> Result<String, AllocError>
    requires { ForSome name (λ letters. list_all is_tag_letter letters.now ≡ true) }
    ensures { IfOk result (λ text. IsTag tag (string_bytes text)) }
{
    match name {
        Some(name) => format!(in alloc; "{tag} {name}"),
        None => format!(in alloc; "{tag}"),
    }
}

/// The line of a component with its number among those of its profile.
pub(crate) fn component_line(
    alloc: Global,
    number: usize,
    tag: u32,
    octets: &[u8],
) -> Result<String, AllocError>
    ensures { IfOk result (λ line. IsComponent number (tag, octets.now) (string_bytes line)) }
{
    let tag = tag_text(alloc, tag, component_name(tag))?;
    let octets = digits_text(alloc, octets)?;
    format!(in alloc; "  component {number} tag {tag} octets {octets}\n")
}

/// The line of an octet of a gap.
pub(crate) fn one_gap(
    alloc: Global,
    indent: &str,
    place: usize,
    octet: u8,
) -> Result<String, AllocError>
    ensures { IfOk result (λ line. string_bytes line ≡ gap_line indent.now (place, octet)) }
{
    let octet = octet_digits(alloc, octet)?;
    format!(in alloc; "{indent}gap {place} octets {octet}\n")
}

pub(crate) fn all_gaps(
    alloc: Global,
    indent: &str,
    gaps: &[(usize, u8)],
) -> Result<String, AllocError>
    ensures { IfOk result (λ lines. string_bytes lines ≡ gap_lines indent.now gaps.now) }
{
    let mut lines = String::new(alloc);
    for gap in gaps {
        let line = one_gap(alloc, indent, gap.0, gap.1)?;
        lines.push_str(line.as_str())?;
    }
    Ok(lines)
}

/// The line of the octets behind a value, if there are some.
pub(crate) fn behind_text(alloc: Global, indent: &str, octets: &[u8]) -> Result<String, AllocError>
    ensures { IfOk result (λ line. string_bytes line ≡ behind_line indent.now octets.now) }
{
    if octets.is_empty() {
        return Ok(String::new(alloc));
    }
    let octets = hex::encode(alloc, octets)?;
    format!(in alloc; "{indent}behind {octets}\n")
}
