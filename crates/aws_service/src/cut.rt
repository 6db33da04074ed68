//! A text cut at the first byte of a kind.
ghost use Rattle.std.specs.Prelude.{◌≡◌, ◌==◌};
ghost use Rattle.std.specs.List.{before_first, after_first, position, position_or_len};

/// What stands before the first such byte, or all.
pub(crate) fn before_first(text: &[u8], byte: u8) -> &[u8]
    ensures { result.now ≡ before_first (λ b. b == byte) text.now }
{
    text.split_at(place_of(text, byte)).0
}

/// What stands behind the first such byte, or nothing.
pub(crate) fn after_first(text: &[u8], byte: u8) -> &[u8]
    ensures { result.now ≡ after_first (λ b. b == byte) text.now }
{
    match text.split_at(place_of(text, byte)).1 {
        [] => &[],
        [_, behind @ ..] => behind,
    }
}

fn place_of(text: &[u8], byte: u8) -> usize
    ensures { result ≡ position_or_len (λ b. b == byte) text.now }
{
    match first_place(text, byte) {
        Some(place) => place,
        None => text.len(),
    }
}

fn first_place(text: &[u8], byte: u8) -> Option<usize>
    ensures { result ≡ position (λ b. b == byte) text.now }
{
    text.iter().position(|b| *b == byte)
}
