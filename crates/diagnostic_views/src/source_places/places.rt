//! Places of a source.

ghost use Rattle.std.specs.Prelude.{◌≡◌, ◌≤◌, ◌+◌, ◌^◌, ◌==◌, ◌⊎◌, MatchOption, length, option_map};
ghost use Rattle.std.specs.List.{position_or_len};
ghost use Rattle.diagnostic_views.specs.Markers.{marker_of};
ghost use Rattle.diagnostic_views.specs.PlaceViews.{place_parts};
ghost use Rattle.diagnostic_views.specs.Places.{IsCut, IsLineStart, IsNoLine, following, place_of};

use crate::source_places::marker::read_marker;

/// A line of a file, counted from 1. The file that was preprocessed has no name until a marker names
/// one.
#[derive(Clone, Copy)]
pub struct SourceLine<'a> {
    /// The octets of the file's name.
    pub file: Option<&'a [u8]>,
    pub line: u64,
}

fn line_len(octets: &[u8]) -> usize
    ensures value { result ≡ position_or_len (λ c. c == 10) octets.now }
    ensures within { result ≤ length octets.now }
{
    octets
        .iter()
        .position(|octet| *octet == b'\n')
        .unwrap_or(octets.len())
}

/// The first line without its line feed, and what stands behind that, if there is one.
fn cut_line(octets: &[u8]) -> Option<(&[u8], &[u8])>
    ensures { MatchOption result (position_or_len (λ c. c == 10) octets.now ≡ length octets.now)
        (λ parts. IsCut octets.now parts.0.now parts.1.now) }
{
    let end = line_len(octets);
    if end == octets.len() {
        return None;
    }
    Some((octets.split_at(end).0, octets.split_at(end + 1).1))
}

/// The place of the line behind this one.
fn following<'a>(place: SourceLine<'a>, line: &'a [u8]) -> SourceLine<'a>
    requires { place.line ≤ 2 ^ 63 + 1000000000 }
    ensures value { place_parts result ≡ following (place_parts place.entry) (marker_of line.now) }
    ensures within { (result.line ≤ 1000000000) ⊎ (result.line ≤ place.entry.line + 1) }
{
    match read_marker(line) {
        Some(marker) => SourceLine {
            file: marker.file.or(place.file),
            line: marker.line,
        },
        None => SourceLine {
            file: place.file,
            line: place.line + 1,
        },
    }
}

/// The place of an octet: the line in which it stands, as the markers before it say.
pub fn place_at(source: &[u8], octet: usize) -> SourceLine<'_>
    requires { octet ≤ length source.now }
    ensures { place_parts result ≡ place_of source.now octet }
{
    let mut place = SourceLine {
        file: None,
        line: 1,
    };
    let mut left = source.split_at(octet).0;
    while let Some((line, rest)) = cut_line(left) {
        place = following(place, line);
        left = rest;
    }
    place
}

/// Where the line with this number begins, counted from 1 in the source itself. None where the source
/// has no such line.
pub fn line_start(source: &[u8], line: usize) -> Option<usize>
    ensures { MatchOption result (IsNoLine source.now line) (IsLineStart source.now line) }
{
    if line == 0 {
        return None;
    }
    let mut start = 0;
    let mut number = 1;
    while number < line {
        let left = source.split_at(start).1;
        let end = line_len(left);
        if end == left.len() {
            return None;
        }
        start += end + 1;
        number += 1;
    }
    Some(start)
}
