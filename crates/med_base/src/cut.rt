// A text cut at a byte.
ghost use Rattle.std.specs.Prelude.{◌≡◌, ◌∷◌, ◌+◌, ◌==◌, length, position, IfSome, option_map};
ghost use Rattle.med_base.specs.Cut.{pieces_of, pieces_left};

fn place_of(text: &[u8], byte: u8) -> Option<usize>
    ensures { result ≡ position (λ b. b == byte) text.now }
{
    text.iter().position(|b| *b == byte)
}

/// What stands before the first such byte, and what stands behind it where there is one.
pub fn cut_at(text: &[u8], byte: u8) -> (&[u8], Option<&[u8]>)
    ensures pieces { pieces_of byte text.now ≡ result.0.now ∷ pieces_left byte
        (option_map (λ s. s.now) result.1) }
    ensures len { IfSome result.1
        (λ s. length result.0.now + (length s.now + 1) ≡ length text.now) }
{
    match place_of(text, byte) {
        Some(at) => (&text[..at], Some(&text[at + 1..])),
        None => (text, None),
    }
}
