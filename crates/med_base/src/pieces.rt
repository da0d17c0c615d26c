// Pieces of a text, borrowed from it.
ghost use Rattle.std.specs.Prelude.{◌≡◌, ◌∷◌, option_map};
ghost use Rattle.med_base.specs.Cut.{pieces_left};
ghost use Rattle.med_base.specs.Prefix.{parts};
ghost use Rattle.med_base.specs.Classify.{pair_of};
ghost use Rattle.med_base.specs.Entries.{behind, between, around_last};

/// What stands before the first slash, and what stands behind it where there is one.
pub(crate) fn cut(text: &str) -> (&str, Option<&str>)
    ensures { parts text.now ≡ result.0.now ∷ pieces_left 47 (option_map (λ s. s.now) result.1) }
{
    match text.split_once('/') {
        Some((first, rest)) => (first, Some(rest)),
        None => (text, None),
    }
}

/// What stands around the only slash of a text.
pub(crate) fn pair(text: &str) -> Option<(&str, &str)>
    ensures { option_map (λ p. (p.0.now, p.1.now)) result ≡ pair_of (parts text.now) }
{
    let (first, rest) = cut(text);
    let (second, more) = cut(rest?);
    match more {
        None => Some((first, second)),
        Some(_) => None,
    }
}

/// What stands behind the front of a text, if the text begins with it.
pub(crate) fn after<'a>(text: &'a str, front: &str) -> Option<&'a str>
    ensures { option_map (λ s. s.now) result ≡ behind front.now text.now }
{
    text.strip_prefix(front)
}

/// What stands between a front and an end.
pub(crate) fn inside<'a>(text: &'a str, front: &str, end: &str) -> Option<&'a str>
    ensures { option_map (λ s. s.now) result ≡ between front.now end.now text.now }
{
    after(text, front)?.strip_suffix(end)
}

/// What stands around the last `_` of a text.
pub(crate) fn around_underscore(text: &str) -> Option<(&str, &str)>
    ensures { option_map (λ p. (p.0.now, p.1.now)) result ≡ around_last 95 text.now }
{
    text.rsplit_once('_')
}
