//! The value of the header `authorization`.
ghost use Rattle.std.specs.Prelude.{◌≡◌, ◌++◌, ℕ, List, MatchOption};
ghost use Rattle.sigv4_verify.specs.SignedForm.{GivesAuthorization};

use sigv4_presign::cut_at_last;

/// The parts of an authorization.
#[derive(Clone, Copy)]
pub(crate) struct Authorization<'a> {
    pub credential: &'a [u8],
    pub names: &'a [u8],
    pub signature: &'a [u8],
}

/// The parts of a text, if it is an authorization. They are cut from its end: an access key may have a comma.
pub(crate) fn authorization_of(text: &[u8]) -> Option<Authorization<'_>>
    ensures { GivesAuthorization text.now result }
{
    let (rest, signature) = cut_at_last(text, b',')?;
    let (credential, names) = cut_at_last(rest, b',')?;
    Some(Authorization {
        credential: behind(credential, b"AWS4-HMAC-SHA256 Credential=")?,
        names: behind(names, b" SignedHeaders=")?,
        signature: behind(signature, b" Signature=")?,
    })
}

/// What stands behind a prefix.
fn behind<'a>(text: &'a [u8], prefix: &[u8]) -> Option<&'a [u8]>
    ensures { MatchOption result ((rest : List ℕ) → ¬ (text.now ≡ prefix.now ++ rest))
        (λ rest. text.now ≡ prefix.now ++ rest.now) }
{
    text.strip_prefix(prefix)
}
