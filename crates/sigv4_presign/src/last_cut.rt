//! A text cut at its last byte of a kind.
ghost use Rattle.std.specs.Prelude.{◌≢◌, All, MatchOption};
ghost use Rattle.sigv4_presign.specs.LinkClaims.{IsLastCut};

/// What stands before the last mark, and what stands behind it; None where there is no mark.
pub fn cut_at_last(text: &[u8], mark: u8) -> Option<(&[u8], &[u8])>
    ensures { MatchOption result (All (λ b. b ≢ mark) text.now)
        (λ parts. IsLastCut mark text.now parts.0.now parts.1.now) }
{
    match text.iter().rposition(|b| *b == mark) {
        Some(place) => Some((&text[..place], &text[place + 1..])),
        None => None,
    }
}
