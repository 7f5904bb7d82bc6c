//! What is shown of a line.

ghost use Rattle.std.specs.Prelude.{◌≡◌, ◌≤◌, ◌<◌, ◌+◌, ◌^◌, ◌++◌, IfOk, drop, length, take};
ghost use Rattle.diagnostic_views.specs.Windows.{IsUnder, IsWindow, cut};

use crate::shown_source::line::{line_end, line_start, without_return};
use crate::shown_source::shown::all_shown;
use std::alloc::{AllocError, Global};

/// So many characters are shown at most.
const WIDTH: usize = 120;

/// What is shown of the line around a place.
#[derive(Drop)]
pub struct Window {
    /// Where the line begins.
    pub start: usize,
    /// Where its line feed or the end of the source stands.
    pub stop: usize,
    /// At most 120 characters of ASCII.
    pub text: Vec<u8>,
    /// So many characters stand in front of those of the place.
    pub caret: usize,
}

/// How much is cut off at the front.
fn cut(before: usize, behind: usize) -> usize
    requires { before + behind < 2 ^ 64 }
    ensures value { result ≡ cut before behind }
    ensures within { result ≤ before }
{
    if before + behind <= WIDTH {
        0
    } else {
        before
            .saturating_sub(WIDTH / 2)
            .min(before + behind - WIDTH)
    }
}

fn front(text: &[u8]) -> &[u8]
    ensures { result.now ≡ take 120 text.now }
{
    if text.len() <= WIDTH {
        text
    } else {
        text.split_at(WIDTH).0
    }
}

fn clipped(alloc: Global, text: &[u8], cut_off: usize) -> Result<Vec<u8>, AllocError>
    requires { cut_off ≤ length text.now }
    ensures { IfOk result (λ clip. clip.items ≡ take 120 (drop cut_off text.now)) }
{
    let mut clip = Vec::new(alloc);
    clip.extend_from_slice(front(text.split_at(cut_off).1))?;
    Ok(clip)
}

fn cut_out(alloc: Global, source: &[u8], octet: usize) -> Result<Window, AllocError>
    requires { octet ≤ length source.now }
    ensures { IfOk result (λ window.
        IsWindow source.now octet window.start window.stop window.text.items window.caret) }
{
    let start = line_start(source, octet);
    let stop = line_end(source, octet);
    let end = without_return(source, octet, stop);
    let mut whole = all_shown(alloc, &source[start..octet])?;
    let behind = all_shown(alloc, &source[octet..end])?;
    let before = whole.len();
    let cut_off = cut(before, behind.len());
    whole.extend_from_slice(behind.as_slice())?;
    Ok(Window {
        start,
        stop,
        text: clipped(alloc, whole.as_slice(), cut_off)?,
        caret: before - cut_off,
    })
}

/// The line around an octet, or around the end of the source, with each octet as it is shown: of a long
/// line 120 characters, with 60 before the caret where there are so many and as many behind it.
pub fn show_line(alloc: Global, source: &[u8], octet: usize) -> Result<Window, AllocError>
    requires { octet ≤ length source.now }
    ensures shown { IfOk result (λ window.
        IsWindow source.now octet window.start window.stop window.text.items window.caret) }
    ensures under { IfOk result (λ window. IsUnder source.now octet window.stop window.text.items window.caret) }
{
    cut_out(alloc, source, octet)
}
