// The numbers of JSON texts.
ghost use Rattle.std.specs.Prelude.{◌≡◌, ◌==◌, ◌<◌, true, false, is_some, length, slice_index, option_and_then, IsTrue};
ghost use Rattle.serde_json.specs.Find.{as_u64};
ghost use Rattle.serde_json.specs.Read.{number_of, number_from};

use fast_float::Numeral;

// Whether a minus sign stands first.
fn has_minus(bytes: &[u8]) -> bool
    ensures value { result ≡ (slice_index bytes.now 0 == 45) }
    ensures len { IsTrue result → 0 < length bytes.now }
{
    !bytes.is_empty() && bytes[0] == b'-'
}

// Whether a number behind a minus sign is finite.
fn is_finite_below(numeral: &Numeral<'_>) -> bool
    ensures { result ≡ is_some (number_from true numeral.now) }
{
    match numeral.to_i64(true) {
        Some(n) if n < 0 => true,
        _ => numeral.to_float::<f64>(true).is_finite(),
    }
}

// Whether a number without a sign is finite.
fn is_finite_above(numeral: &Numeral<'_>) -> bool
    ensures { result ≡ is_some (number_from false numeral.now) }
{
    numeral.to_u64().is_some() || numeral.to_float::<f64>(false).is_finite()
}

/// Whether the number of this text is finite as a float of 64 bits.
pub(crate) fn is_finite(text: &str) -> bool
    ensures { result ≡ is_some (number_of text.now) }
{
    let bytes = text.as_bytes();
    if has_minus(bytes) {
        is_finite_below(&Numeral::scan(&bytes[1..]))
    } else {
        is_finite_above(&Numeral::scan(bytes))
    }
}

/// The whole number from 0 to 2^64-1 of this text, if it is written with digits alone.
pub(crate) fn whole_number(text: &str) -> Option<u64>
    ensures { result ≡ option_and_then as_u64 (number_of text.now) }
{
    let bytes = text.as_bytes();
    if has_minus(bytes) {
        None
    } else {
        Numeral::scan(bytes).to_u64()
    }
}
