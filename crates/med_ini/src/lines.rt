// A line by itself. Each text that is cut off a line is borrowed from it.
ghost use Rattle.std.specs.Prelude.{◌≡◌, ◌≤◌, ◌<◌, ◌+◌, ◌-◌, ◌∷◌, ◌==◌, ◌||◌, length, take, drop, slice_index, position, option_map, IfSome};
ghost use Rattle.std.specs.List.{prefix_len, suffix_len};
ghost use Rattle.med_base.specs.Cut.{pieces_left};
ghost use Rattle.med_ini.specs.Lines.{is_space, is_blank, lines_of, indent, past, without_end, stripped, begins_comment, is_delimiter, is_close, is_feed, parted, bracketed, header_of};

fn is_white(byte: u8) -> bool
    ensures { result ≡ is_space byte }
{
    matches!(byte, b' ' | b'\t' | b'\r' | 11 | 12)
}

fn is_white_or_feed(byte: u8) -> bool
    ensures { result ≡ is_blank byte }
{
    is_white(byte) || byte == b'\n'
}

/// The number of white space characters at the start.
pub(crate) fn indent_of(line: &str) -> usize
    ensures value { result ≡ indent line.now }
    ensures bound { result ≤ length line.now }
{
    let line = line.as_bytes();
    let mut at = 0;
    'white: while at < line.len() && is_white(line[at]) {
        at += 1;
    }
    at
}

/// What stands past the white space at the start.
pub(crate) fn past_white(line: &str) -> &str
    ensures { result.now ≡ past line.now }
{
    &line[indent_of(line)..]
}

fn kept_len(text: &[u8]) -> usize
    ensures value { result ≡ length text.now - suffix_len is_blank text.now }
    ensures bound { result ≤ length text.now }
    ensures place { result < length text.now → slice_index text.now result < 128 }
{
    let mut end = text.len();
    'blank: while 0 < end && is_white_or_feed(text[end - 1]) {
        end -= 1;
    }
    end
}

/// A text without the white space and the line feeds at its end.
pub(crate) fn without_blank_end(text: &str) -> &str
    ensures { result.now ≡ without_end text.now }
{
    &text[..kept_len(text.as_bytes())]
}

/// A line without the white space at both ends.
pub(crate) fn strip(line: &str) -> &str
    ensures { result.now ≡ stripped line.now }
{
    without_blank_end(past_white(line))
}

/// Whether `#` or `;` stands first.
pub(crate) fn is_comment(text: &str) -> bool
    ensures { result ≡ begins_comment text.now }
{
    matches!(text.as_bytes(), [b'#' | b';', ..])
}

fn first_feed(text: &[u8]) -> Option<usize>
    ensures value { result ≡ position is_feed text.now }
    ensures ascii { IfSome result (λ at. slice_index text.now at < 128) }
{
    text.iter().position(|byte| *byte == b'\n')
}

fn first_close(text: &[u8]) -> Option<usize>
    ensures value { result ≡ position is_close text.now }
    ensures ascii { IfSome result (λ at. slice_index text.now at < 128) }
{
    text.iter().position(|byte| *byte == b']')
}

fn first_delimiter(text: &[u8]) -> Option<usize>
    ensures value { result ≡ position is_delimiter text.now }
    ensures ascii { IfSome result (λ at. slice_index text.now at < 128) }
{
    text.iter().position(|byte| *byte == b'=' || *byte == b':')
}

// What stands before and behind an ASCII character.
fn around(text: &str, at: usize) -> (&str, &str)
    requires within { at < length text.now }
    requires ascii { slice_index text.now at < 128 }
    ensures before { result.0.now ≡ take at text.now }
    ensures behind { result.1.now ≡ drop (at + 1) text.now }
{
    (&text[..at], &text[at + 1..])
}

/// The first line, and what is left behind its line feed.
pub(crate) fn cut_line(text: &str) -> (&str, Option<&str>)
    ensures lines { lines_of text.now
        ≡ result.0.now ∷ pieces_left 10 (option_map (λ s. s.now) result.1) }
    ensures len { IfSome result.1 (λ s. length s.now < length text.now) }
{
    match first_feed(text.as_bytes()) {
        Some(at) => {
            let (line, left) = around(text, at);
            (line, Some(left))
        }
        None => (text, None),
    }
}

/// What stands before and behind the first `=` or `:`.
pub(crate) fn cut_option(text: &str) -> Option<(&str, &str)>
    ensures { option_map (λ p. (p.0.now, p.1.now)) result ≡ parted is_delimiter text.now }
{
    match first_delimiter(text.as_bytes()) {
        Some(at) => Some(around(text, at)),
        None => None,
    }
}

// What stands before the first `]`, unless that is nothing.
fn name_in(text: &str) -> Option<&str>
    ensures { option_map (λ s. s.now) result ≡ bracketed text.now }
{
    match first_close(text.as_bytes()) {
        None | Some(0) => None,
        Some(at) => Some(around(text, at).0),
    }
}

/// The name of a header.
pub(crate) fn header_in(text: &str) -> Option<&str>
    ensures { option_map (λ s. s.now) result ≡ header_of text.now }
{
    match text.strip_prefix('[') {
        Some(rest) => name_in(rest),
        None => None,
    }
}
