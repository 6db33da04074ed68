//! What a signature says of the payload: its digest, or that it is not signed.
ghost use Rattle.std.specs.Prelude.{◌≡◌, IfOk, IfErr, OnOk, true, false, codes};
ghost use Rattle.std.specs.List.{list_all};
ghost use Rattle.hex.specs.Hex.{encode_lower};
ghost use Rattle.sha2.specs.Sha256.{sha256};
ghost use Rattle.sign_base.specs.declared.error_kind.ErrorKind.TheVariants.{RequestInvalid};
ghost use Rattle.sigv4_core.specs.PayloadWord.{unsigned_payload, is_digest, is_lower_hex};
ghost use Rattle.sigv4_core.specs.Refused.{RefusedWith};

use hmac_core::hash;
use sign_base::{Error, NoMemory, Octets};
use std::alloc::Global;
use std::marker::Model;

/// How many digits a digest has.
const DIGEST_LEN: usize = 64;

/// The word that a canonical request has for its payload. Contracts see it as that word.
#[derive(Debug)]
pub struct Payload {
    word: Octets,
}

impl Drop for Payload {
    fn drop(self) {
        let Payload { word } = self;
        drop(word);
    }
}

impl Model for Payload {
    ghost use Rattle.std.specs.Prelude.{ℕ, List};

    ghost Value = { List ℕ };

    ghost view = { λ p. p.word };
}

impl Payload {
    /// A payload that is not signed: the word `UNSIGNED-PAYLOAD`.
    pub fn unsigned(alloc: Global) -> Result<Payload, NoMemory<()>>
        ensures { IfOk result (λ p. p ≡ unsigned_payload) }
    {
        Ok(Payload {
            word: Octets::from_slice(alloc, b"UNSIGNED-PAYLOAD")?,
        })
    }

    /// A payload with this content: its SHA-256 in lower-case hexadecimal.
    pub fn of(alloc: Global, content: &[u8]) -> Result<Payload, NoMemory<()>>
        ensures { IfOk result (λ p. p ≡ encode_lower (sha256 content.now)) }
    {
        let digest = hash::hex_sha256(alloc, content)?;
        Ok(Payload {
            word: Octets::from_vec(digest.into_bytes()),
        })
    }

    /// A payload with this SHA-256.
    ///
    /// `RequestInvalid` where the text is not 64 digits from `0-9a-f`.
    pub fn digest(alloc: Global, hex: &[u8]) -> Result<Payload, Error>
        ensures ok { IfOk result (λ p. p ≡ hex.now) }
        ensures accepted { OnOk result (is_digest hex.now ≡ true) }
        ensures err { IfErr result (RefusedWith RequestInvalid (codes "invalid payload digest")
            (is_digest hex.now ≡ false)) }
    {
        if !is_digest(hex) {
            return Err(Error::request_invalid(alloc, "invalid payload digest")?);
        }
        Ok(Payload {
            word: Octets::from_slice(alloc, hex)?,
        })
    }

    /// The digest of the content, or `UNSIGNED-PAYLOAD`: what S3 wants as `x-amz-content-sha256`, which AWS
    /// calls HashedPayload.
    pub fn hash_or_unsigned(&self) -> &[u8]
        ensures { result.now ≡ self.now }
    {
        self.word.as_slice()
    }
}

fn is_digest(word: &[u8]) -> bool
    ensures { result ≡ is_digest word.now }
{
    word.len() == DIGEST_LEN && has_hex_digits(word)
}

// The loop has no early exit, so that it may be compiled to vector code.
fn has_hex_digits(word: &[u8]) -> bool
    ensures { result ≡ list_all is_lower_hex word.now }
{
    let mut all = true;
    for b in word {
        all &= is_lower_hex(*b);
    }
    all
}

fn is_lower_hex(b: u8) -> bool
    ensures { result ≡ is_lower_hex b }
{
    b.is_ascii_digit() | ((b >= b'a') & (b <= b'f'))
}
