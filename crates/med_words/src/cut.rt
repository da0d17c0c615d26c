// A line, cut at its command word.
ghost use Rattle.std.specs.Prelude.{◌≡◌, ◌≤◌, ◌&&◌, None, false, IfSome, map, string_bytes, length, not, ◌++◌, ◌∷◌};
ghost use Rattle.clap.specs.Lexer.{has_byte};
ghost use Rattle.med_words.specs.Cut.{is_plain, main_count, parts};

/// The words before the command word, it, and the words behind it.
#[derive(Clone, Copy)]
pub(crate) struct Cut<'a> {
    pub(crate) main: &'a [String],
    pub(crate) word: &'a str,
    pub(crate) own: &'a [String],
}

/// The word is a name of an option alone.
fn lacks_equals(word: &str) -> bool
    ensures { result ≡ not (has_byte 61 word.now) }
{
    !word.as_bytes().contains(&b'=')
}

/// The word isn't empty, and begins with no hyphen.
fn begins_plain(word: &str) -> bool
    ensures { result ≡ is_plain word.now }
{
    match word.as_bytes() {
        [] => false,
        [first, ..] => *first != b'-',
    }
}

// Whether the next word is the value of this one, which is itself no value.
fn takes_next(is_value: bool, word: &str) -> bool
    ensures { result ≡ (not is_value && not (has_byte 61 word.now)) }
{
    !is_value && lacks_equals(word)
}

/// How many words stand before the command word.
fn count_main(words: &[String]) -> usize
    ensures value { result ≡ main_count false (map string_bytes words.now) }
    ensures bound { result ≤ length words.now }
{
    let mut is_value = false;
    for (at, word) in words.iter().enumerate() {
        if !is_value && begins_plain(word.as_str()) {
            return at;
        }
        is_value = takes_next(is_value, word.as_str());
    }
    words.len()
}

/// The words, cut at the command word, or none where no word is left for it.
pub(crate) fn at_word(words: &[String]) -> Option<Cut<'_>>
    ensures some { IfSome result (λ c. map string_bytes words.now
        ≡ (parts c).0 ++ (parts c).1 ∷ (parts c).2) }
    ensures count { IfSome result
        (λ c. length c.main.now ≡ main_count false (map string_bytes words.now)) }
    ensures none { result ≡ None
        → length words.now ≤ main_count false (map string_bytes words.now) }
{
    let (main, rest) = words.split_at(count_main(words));
    match rest {
        [] => None,
        [word, own @ ..] => Some(Cut {
            main,
            word: word.as_str(),
            own,
        }),
    }
}
