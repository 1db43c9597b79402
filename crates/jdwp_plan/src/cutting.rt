//! Parts of a line.
ghost use Rattle.std.specs.Prelude.{◌≡◌, ◌^◌};
ghost use Rattle.std.specs.Option.{option_map};
ghost use Rattle.jdwp_plan.specs.Cuts.{behind, front, number_of};

/// A text, cut at the first of a separator.
#[derive(Clone, Copy)]
pub(crate) struct Cut<'a> {
    /// What stands before it; all where there is none.
    pub front: &'a str,
    /// What stands behind it.
    pub behind: Option<&'a str>,
}

/// The text cut at its first space.
pub(crate) fn cut_at_space(text: &str) -> Cut<'_>
    ensures front { result.front.now ≡ front 32 text.now }
    ensures behind { option_map (λ b. b.now) result.behind ≡ behind 32 text.now }
{
    match text.split_once(' ') {
        Some((front, behind)) => Cut {
            front,
            behind: Some(behind),
        },
        None => Cut {
            front: text,
            behind: None,
        },
    }
}

/// The text cut at its first dot.
pub(crate) fn cut_at_dot(text: &str) -> Cut<'_>
    ensures front { result.front.now ≡ front 46 text.now }
    ensures behind { option_map (λ b. b.now) result.behind ≡ behind 46 text.now }
{
    match text.split_once('.') {
        Some((front, behind)) => Cut {
            front,
            behind: Some(behind),
        },
        None => Cut {
            front: text,
            behind: None,
        },
    }
}

/// A decimal number below 2^32, of digits alone.
pub(crate) fn number(text: &str) -> Option<u32>
    ensures { result ≡ number_of (2 ^ 32) text.now }
{
    if text.as_bytes().first() == Some(&b'+') {
        return None;
    }
    text.parse::<u32>().ok()
}
