//! HMAC (RFC 2104) over SHA-1 and SHA-256. The hash is fed in pieces, so no text is copied.
ghost use Rattle.std.specs.Prelude.{◌≡◌, ◌≤◌, length};
ghost use Rattle.sha1.specs.Sha1.{sha1};
ghost use Rattle.sha2.specs.Sha256.{sha256};
ghost use Rattle.hmac_core.specs.Hmac.{hmac_of, short_key, filled_block, masked_block};

use sha1::Sha1;
use sha2::{Digest, Sha256};

/// The length of a block of both hashes, in bytes.
const BLOCK: usize = 64;

pub(crate) const INNER: u8 = 0x36;

pub(crate) const OUTER: u8 = 0x5c;

/// HMAC-SHA1.
pub(crate) fn hmac_sha1(key: &[u8], text: &[u8]) -> [u8; 20]
    ensures { result ≡ hmac_of sha1 key.now text.now }
{
    let block = sha1_block(key);
    let mut inner = Sha1::new();
    inner.update(&masked_block(block, INNER));
    inner.update(text);
    let mut outer = Sha1::new();
    outer.update(&masked_block(block, OUTER));
    outer.update(&inner.finalize());
    outer.finalize()
}

/// HMAC-SHA256.
pub(crate) fn hmac_sha256(key: &[u8], text: &[u8]) -> [u8; 32]
    ensures { result ≡ hmac_of sha256 key.now text.now }
{
    let block = sha256_block(key);
    let mut inner = Sha256::new();
    inner.update(masked_block(block, INNER));
    inner.update(text);
    let mut outer = Sha256::new();
    outer.update(masked_block(block, OUTER));
    outer.update(inner.finalize());
    outer.finalize()
}

/// A key as one block of SHA-1.
fn sha1_block(key: &[u8]) -> [u8; BLOCK]
    ensures { result ≡ filled_block (short_key sha1 key.now) }
{
    if key.len() > BLOCK {
        filled_block(&Sha1::digest(key))
    } else {
        filled_block(key)
    }
}

/// A key as one block of SHA-256.
pub(crate) fn sha256_block(key: &[u8]) -> [u8; BLOCK]
    ensures { result ≡ filled_block (short_key sha256 key.now) }
{
    if key.len() > BLOCK {
        filled_block(&Sha256::digest(key))
    } else {
        filled_block(key)
    }
}

/// A short key, filled with zeros.
fn filled_block(key: &[u8]) -> [u8; BLOCK]
    requires { length key.now ≤ 64 }
    ensures { result ≡ filled_block key.now }
{
    let mut block = [0; BLOCK];
    block[..key.len()].copy_from_slice(key);
    block
}

/// A block with each byte xor the mask.
pub(crate) fn masked_block(mut block: [u8; BLOCK], mask: u8) -> [u8; BLOCK]
    ensures { result ≡ masked_block mask block }
{
    mask_each(&mut block, mask);
    block
}

fn mask_each(bytes: &mut [u8], mask: u8)
    ensures { bytes.new ≡ masked_block mask bytes.old }
{
    for byte in bytes {
        *byte = mask ^ *byte;
    }
}
