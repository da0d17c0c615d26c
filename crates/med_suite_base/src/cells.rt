// The cells of a table.

/// Whether an answer is what its cell says: `=` and the text, or `none`.
pub(crate) fn is_text(answer: Option<&str>, cell: &str) -> bool {
    match answer {
        Some(text) => cell.strip_prefix('=') == Some(text),
        None => cell == "none",
    }
}

/// Whether an answer is what its cell says: a number in digits, or `none`.
pub(crate) fn is_number(answer: Option<u64>, cell: &str) -> bool {
    match answer {
        Some(number) => cell.parse::<u64>().ok() == Some(number),
        None => cell == "none",
    }
}
