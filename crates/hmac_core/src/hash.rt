//! The nine calls of a service signer: Base64, digests in hexadecimal, and HMAC.
ghost use Rattle.std.specs.Prelude.{◌≡◌, ◌⊎◌, Ok, Err, [], IfOk, IfErr, IsErr};
ghost use Rattle.std.specs.String.{string_bytes};
ghost use lib.Chars.{codes};
ghost use Rattle.base64.specs.Engines.{standard};
ghost use Rattle.base64.specs.GeneralPurpose.{encode_of, decode_of};
ghost use Rattle.hex.specs.Hex.{encode_lower};
ghost use Rattle.sha1.specs.Sha1.{sha1};
ghost use Rattle.sha2.specs.Sha256.{sha256};
ghost use Rattle.sign_base.specs.Error.{new_error};
ghost use Rattle.sign_base.specs.Refusal.{IsErrorOf};
ghost use Rattle.sign_base.specs.declared.error_kind.ErrorKind.TheVariants.{Unexpected};
ghost use Rattle.hmac_core.specs.Hmac.{hmac_of};

use crate::hmac;
use base64::DecodeAllocError;
use base64::engine::general_purpose::STANDARD;
use sha1::Sha1;
use sha2::{Digest, Sha256};
use sign_base::{Error, NoMemory};
use std::alloc::Global;

/// The bytes in Base64 (RFC 4648): the standard alphabet, padded.
pub fn base64_encode(alloc: Global, content: &[u8]) -> Result<String, NoMemory<()>>
    ensures { IfOk result (λ text. string_bytes text ≡ encode_of standard content.now) }
{
    Ok(STANDARD.encode(alloc, content)?)
}

/// The bytes of a text in Base64.
///
/// A byte outside the alphabet, missing or surplus padding, and bits left over are `Unexpected`.
pub fn base64_decode(alloc: Global, content: &str) -> Result<Vec<u8>, Error>
    ensures value { IfOk result (λ bytes. decode_of standard content.now ≡ Ok bytes.items) }
    ensures exact { IfOk result (λ bytes. content.now ≡ encode_of standard bytes.items) }
    ensures err { IfErr result (IsErrorOf Unexpected (codes "base64 decode failed")) }
    ensures refused { IfErr result (λ e. e ≡ new_error Unexpected (codes "base64 decode failed")
        → IsErr (decode_of standard content.now)) }
{
    match STANDARD.decode(alloc, content.as_bytes()) {
        Ok(bytes) => Ok(bytes),
        Err(DecodeAllocError::OutOfMemory) => Err(Error::out_of_memory()),
        Err(DecodeAllocError::DecodeError(_)) => {
            Err(Error::unexpected(alloc, "base64 decode failed")?)
        }
    }
}

/// SHA-1 in lower-case hexadecimal.
pub fn hex_sha1(alloc: Global, content: &[u8]) -> Result<String, NoMemory<()>>
    ensures { IfOk result (λ text. string_bytes text ≡ encode_lower (sha1 content.now)) }
{
    Ok(hex::encode(alloc, Sha1::digest(content))?)
}

/// SHA-256 in lower-case hexadecimal.
pub fn hex_sha256(alloc: Global, content: &[u8]) -> Result<String, NoMemory<()>>
    ensures { IfOk result (λ text. string_bytes text ≡ encode_lower (sha256 content.now)) }
{
    Ok(hex::encode(alloc, Sha256::digest(content))?)
}

/// HMAC-SHA256, 32 bytes.
pub fn hmac_sha256(alloc: Global, key: &[u8], content: &[u8]) -> Result<Vec<u8>, NoMemory<()>>
    ensures { IfOk result (λ bytes. bytes.items ≡ hmac_of sha256 key.now content.now) }
{
    Ok(Vec::from_slice(alloc, &hmac::hmac_sha256(key, content))?)
}

/// HMAC-SHA1 in lower-case hexadecimal.
pub fn hex_hmac_sha1(alloc: Global, key: &[u8], content: &[u8]) -> Result<String, NoMemory<()>>
    ensures { IfOk result (λ text. string_bytes text ≡ encode_lower (hmac_of sha1 key.now content.now)) }
{
    Ok(hex::encode(alloc, hmac::hmac_sha1(key, content))?)
}

/// HMAC-SHA256 in lower-case hexadecimal.
pub fn hex_hmac_sha256(alloc: Global, key: &[u8], content: &[u8]) -> Result<String, NoMemory<()>>
    ensures { IfOk result (λ text. string_bytes text ≡ encode_lower (hmac_of sha256 key.now content.now)) }
{
    Ok(hex::encode(alloc, hmac::hmac_sha256(key, content))?)
}

/// HMAC-SHA1 in Base64.
pub fn base64_hmac_sha1(alloc: Global, key: &[u8], content: &[u8]) -> Result<String, NoMemory<()>>
    ensures { IfOk result
        (λ text. string_bytes text ≡ encode_of standard (hmac_of sha1 key.now content.now)) }
{
    base64_encode(alloc, &hmac::hmac_sha1(key, content))
}

/// HMAC-SHA256 in Base64.
pub fn base64_hmac_sha256(alloc: Global, key: &[u8], content: &[u8]) -> Result<String, NoMemory<()>>
    ensures { IfOk result
        (λ text. string_bytes text ≡ encode_of standard (hmac_of sha256 key.now content.now)) }
{
    base64_encode(alloc, &hmac::hmac_sha256(key, content))
}
