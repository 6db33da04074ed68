//! A key of HMAC-SHA256 whose blocks are hashed already: who keys many texts by it hashes them once.
ghost use Rattle.std.specs.Prelude.{◌≡◌, IfOk};
ghost use Rattle.std.specs.String.{string_bytes};
ghost use Rattle.hex.specs.Hex.{encode_lower};
ghost use Rattle.sha2.specs.Sha256.{sha256};
ghost use Rattle.hmac_core.specs.Hmac.{hmac_of};

use crate::hmac::{INNER, OUTER, masked_block, sha256_block};
use sha2::{Digest, Sha256};
use sign_base::NoMemory;
use std::alloc::Global;
use std::marker::Model;

/// A key of HMAC-SHA256, and what the hash is after each of its masked blocks. It has no debug form.
#[derive(Drop)]
pub struct Sha256Key {
    key: Vec<u8>,
    inner: Sha256,
    outer: Sha256,
}

/// Contracts see the bytes of the key.
impl Model for Sha256Key {
    ghost use Rattle.std.specs.Prelude.{ℕ, List};
    ghost use Rattle.hmac_core.specs.HashedKey.{IsHashedKey};

    ghost Value = { List ℕ };

    ghost view = { λ k. k.key.items };

    ghost invariant = { λ k. IsHashedKey k.key.items k.inner k.outer };
}

impl Sha256Key {
    /// The key of these bytes, however many.
    pub fn new(key: Vec<u8>) -> Sha256Key
        ensures { result ≡ key.items }
    {
        let block = sha256_block(key.as_slice());
        let mut inner = Sha256::new();
        inner.update(masked_block(block, INNER));
        let mut outer = Sha256::new();
        outer.update(masked_block(block, OUTER));
        Sha256Key { key, inner, outer }
    }

    /// The bytes of the key.
    pub fn as_slice(&self) -> &[u8]
        ensures { result.now ≡ self.now }
    {
        self.key.as_slice()
    }

    /// HMAC-SHA256 under this key, in lower-case hexadecimal.
    pub fn hex_hmac(&self, alloc: Global, text: &[u8]) -> Result<String, NoMemory<()>>
        ensures { IfOk result (λ hex. string_bytes hex ≡ encode_lower (hmac_of sha256 self.now text.now)) }
    {
        Ok(hex::encode(alloc, self.hmac(text))?)
    }

    fn hmac(&self, text: &[u8]) -> [u8; 32]
        ensures { result ≡ hmac_of sha256 self.now text.now }
    {
        let mut inner = copy_of(&self.inner);
        inner.update(text);
        let mut outer = copy_of(&self.outer);
        outer.update(inner.finalize());
        outer.finalize()
    }
}

/// The hasher as it is, which takes no memory.
fn copy_of(hasher: &Sha256) -> Sha256
    ensures { result ≡ hasher.now }
{
    match hasher.clone() {
        Ok(copy) => copy,
        Err(_) => unreachable!(),
    }
}
