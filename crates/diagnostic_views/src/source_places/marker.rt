//! Line markers.

ghost use Rattle.std.specs.Prelude.{◌≡◌, ◌≤◌, ◌==◌, IfSome, drop, length, not, option_map};
ghost use Rattle.std.specs.Char.{is_ascii_digit};
ghost use Rattle.std.specs.List.{before_first, position_or_len};
ghost use Rattle.diagnostic_views.specs.MarkerViews.{marker_parts};
ghost use Rattle.diagnostic_views.specs.Markers.{after_octet, file_in, is_blank, marker_of, number_of, numbered, past_blanks, past_word};

/// What a marker says of the line behind it.
#[derive(Clone, Copy)]
pub struct Marker<'a> {
    /// At most 1,000,000,000.
    pub line: u64,
    /// The octets of the file's name, where it says one.
    pub file: Option<&'a [u8]>,
}

fn is_blank(octet: u8) -> bool
    ensures { result ≡ is_blank octet }
{
    octet == b' ' || octet == b'\t' || octet == b'\r'
}

fn blank_len(octets: &[u8]) -> usize
    ensures value { result ≡ position_or_len (λ c. not (is_blank c)) octets.now }
    ensures within { result ≤ length octets.now }
{
    octets
        .iter()
        .position(|octet| !is_blank(*octet))
        .unwrap_or(octets.len())
}

fn past_blanks(octets: &[u8]) -> &[u8]
    ensures { result.now ≡ past_blanks octets.now }
{
    octets.split_at(blank_len(octets)).1
}

/// What stands behind the octet, which isn't zero and with which the octets have to begin.
fn after_octet(octet: u8, octets: &[u8]) -> Option<&[u8]>
    requires { 1 ≤ octet }
    ensures { option_map (λ rest. rest.now) result ≡ after_octet octet octets.now }
{
    match octets {
        [first, rest @ ..] if *first == octet => Some(rest),
        _ => None,
    }
}

fn past_word(octets: &[u8]) -> &[u8]
    ensures { result.now ≡ past_word octets.now }
{
    past_blanks(octets.strip_prefix(b"line".as_slice()).unwrap_or(octets))
}

/// The number that digits spell.
fn number_of(digits: &[u8]) -> u64
    ensures value { result ≡ number_of digits.now }
    ensures within { result ≤ 1000000000 }
{
    let mut number: u64 = 0;
    for digit in digits {
        number = (number * 10 + u64::from(digit.saturating_sub(b'0'))).min(1_000_000_000);
    }
    number
}

fn digit_len(octets: &[u8]) -> usize
    ensures value { result ≡ position_or_len (λ c. not (is_ascii_digit c)) octets.now }
    ensures within { result ≤ length octets.now }
{
    octets
        .iter()
        .position(|octet| !octet.is_ascii_digit())
        .unwrap_or(octets.len())
}

/// The digits at the front, and the rest.
fn split_digits(octets: &[u8]) -> (&[u8], &[u8])
    ensures digits { result.0.now ≡ before_first (λ c. not (is_ascii_digit c)) octets.now }
    ensures rest { result.1.now ≡ drop (length result.0.now) octets.now }
{
    octets.split_at(digit_len(octets))
}

fn name_len(octets: &[u8]) -> usize
    ensures value { result ≡ position_or_len (λ c. c == 34) octets.now }
    ensures within { result ≤ length octets.now }
{
    octets
        .iter()
        .position(|octet| *octet == b'"')
        .unwrap_or(octets.len())
}

fn before_quote(octets: &[u8]) -> &[u8]
    ensures { result.now ≡ before_first (λ c. c == 34) octets.now }
{
    octets.split_at(name_len(octets)).0
}

/// The name that stands between quotes at the front.
fn file_in(octets: &[u8]) -> Option<&[u8]>
    ensures { option_map (λ name. name.now) result ≡ file_in octets.now }
{
    match after_octet(b'"', octets) {
        Some(name) => Some(before_quote(name)),
        None => None,
    }
}

fn numbered(octets: &[u8]) -> Option<Marker<'_>>
    ensures value { option_map marker_parts result ≡ numbered octets.now }
    ensures within { IfSome result (λ marker. marker.line ≤ 1000000000) }
{
    let (digits, rest) = split_digits(octets);
    if digits.is_empty() {
        return None;
    }
    Some(Marker {
        line: number_of(digits),
        file: file_in(past_blanks(rest)),
    })
}

/// The marker that a line is, without its line feed: `#`, maybe the word `line`, a number, and maybe a
/// file's name in quotes.
pub fn read_marker(line: &[u8]) -> Option<Marker<'_>>
    ensures value { option_map marker_parts result ≡ marker_of line.now }
    ensures within { IfSome result (λ marker. marker.line ≤ 1000000000) }
{
    match after_octet(b'#', past_blanks(line)) {
        Some(rest) => numbered(past_word(past_blanks(rest))),
        None => None,
    }
}
