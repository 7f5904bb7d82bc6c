//! The line around a place.

ghost use Rattle.std.specs.Prelude.{◌≡◌, ◌≢◌, ℕ, ◌-◌, ◌<◌, ◌≤◌, ◌⊎◌, length, slice_index};
ghost use Rattle.diagnostic_views.specs.Windows.{without_return};

/// Where the line begins in which the octet stands.
pub(crate) fn line_start(source: &[u8], octet: usize) -> usize
    requires { octet ≤ length source.now }
    ensures before { result ≤ octet }
    ensures begins { (result ≡ 0) ⊎ (slice_index source.now (result - 1) ≡ 10) }
    ensures whole { (k : ℕ) → result ≤ k → k < octet → slice_index source.now k ≢ 10 }
{
    let mut start = octet;
    while start > 0 && source[start - 1] != b'\n' {
        start -= 1;
    }
    start
}

/// Where it ends: at its line feed, or with the source.
pub(crate) fn line_end(source: &[u8], octet: usize) -> usize
    requires { octet ≤ length source.now }
    ensures behind { octet ≤ result }
    ensures within { result ≤ length source.now }
    ensures ends { (result ≡ length source.now) ⊎ (slice_index source.now result ≡ 10) }
    ensures whole { (k : ℕ) → octet ≤ k → k < result → slice_index source.now k ≢ 10 }
{
    let mut end = octet;
    while end < source.len() && source[end] != b'\n' {
        end += 1;
    }
    end
}

/// The end without the carriage return that a line may end with.
pub(crate) fn without_return(source: &[u8], octet: usize, end: usize) -> usize
    requires { end ≤ length source.now }
    ensures value { result ≡ without_return source.now octet end }
    ensures within { result ≤ end }
    ensures behind { octet ≤ end → octet ≤ result }
{
    if octet < end && source[end - 1] == b'\r' {
        end - 1
    } else {
        end
    }
}
