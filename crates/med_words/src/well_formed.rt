// What is asked of each word before clap reads it.
ghost use Rattle.std.specs.Prelude.{◌≡◌, ◌<◌, ◌==◌, ◌↔◌, IsTrue, map, length, position, string_bytes};
ghost use Rattle.std.specs.List.{AllByRecursion};
ghost use Rattle.med_words.specs.WellFormed.{IsWellFormed, EndsWell};

/// The word may be handed on: it isn't empty, behind a hyphen stands a second one and more, and
/// behind a first `=` stands something.
fn is_well_formed(word: &str) -> bool
    ensures value { IsTrue result ↔ IsWellFormed word.now }
{
    match word.as_bytes() {
        [] => false,
        [b'-', b'-', rest @ ..] => ends_well(rest),
        [b'-', ..] => false,
        _ => true,
    }
}

/// Something stands, and behind a first `=` too.
fn ends_well(rest: &[u8]) -> bool
    ensures { IsTrue result ↔ ((0 < length rest.now) × EndsWell rest.now) }
{
    match first_equals(rest) {
        Some(place) => place + 1 < rest.len(),
        None => !rest.is_empty(),
    }
}

fn first_equals(rest: &[u8]) -> Option<usize>
    ensures value { result ≡ position (λ x. x == 61) rest.now }
{
    rest.iter().position(|byte| *byte == b'=')
}

/// Each word may be handed on.
pub(crate) fn are_well_formed(words: &[String]) -> bool
    ensures value { IsTrue result ↔ AllByRecursion IsWellFormed (map string_bytes words.now) }
{
    match words {
        [] => true,
        [first, rest @ ..] => is_well_formed(first.as_str()) && are_well_formed(rest),
    }
}
