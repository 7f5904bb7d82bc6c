//! Texts cut in two.

ghost use Rattle.std.specs.Prelude.{◌≡◌, ◌<◌, option_map};
ghost use Rattle.reference_texts.specs.Places.{cut as cut_of};

/// What stands before the first such character and behind it, where there is one.
pub(crate) fn cut(text: &str, mark: char) -> Option<(&str, &str)>
    requires { mark < 128 }
    ensures { option_map (λ r. (r.0.now, r.1.now)) result ≡ cut_of mark text.now }
{
    text.split_once(mark)
}
