// Numbers in decimal digits.
ghost use Rattle.std.specs.Prelude.{◌≡◌, true, false, MatchOption};
ghost use Rattle.std.specs.Char.{is_ascii_digit};
ghost use Rattle.std.specs.List.{list_all};
ghost use Rattle.std.specs.Str.Parse.{digits_value};
ghost use Rattle.med_base.specs.Decimal.{is_decimal};

fn are_digits(text: &[u8]) -> bool
    ensures { result ≡ list_all is_ascii_digit text.now }
{
    text.iter().all(|byte| byte.is_ascii_digit())
}

/// The number that 1 to `places` of the digits `0` to `9` write, of at most the limit, and `None`
/// exactly for every other text. Zeros may lead. It takes no memory.
pub fn decimal_in(text: &str, places: usize, limit: u32) -> Option<u32>
    ensures value { MatchOption result (is_decimal places limit text.now ≡ false)
        (λ n. (is_decimal places limit text.now ≡ true) × (n ≡ digits_value 10 text.now)) }
{
    if places < text.len() || !are_digits(text.as_bytes()) {
        return None;
    }
    match text.parse::<u32>() {
        Ok(number) if number <= limit => Some(number),
        Ok(_) => None,
        Err(_) => None,
    }
}
