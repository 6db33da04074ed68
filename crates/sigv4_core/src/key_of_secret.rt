//! A signing key beside the secret that it was derived of.
ghost use Rattle.std.specs.Prelude.{◌≡◌, IfOk, IsTrue};
ghost use Rattle.sign_time.specs.Calendar.{IsFourDigitYear};
ghost use Rattle.sigv4_core.specs.Signature.{derived_key};

use crate::{SigCredential, SigScope, SigningKey};
use sign_base::{NoMemory, Octets, Timestamp};
use std::alloc::Global;
use std::marker::Model;

/// A signing key beside the secret that it was derived of. It has no debug form.
pub(crate) struct KeyOfSecret {
    secret: Octets,
    key: SigningKey,
}

impl Drop for KeyOfSecret {
    fn drop(self) {
        let KeyOfSecret { secret, key } = self;
        drop(secret);
        drop(key);
    }
}

/// Contracts see the key.
impl Model for KeyOfSecret {
    ghost use Rattle.std.specs.Prelude.{◌≡◌};
    ghost use Rattle.sigv4_core.specs.Signature.{DerivedKey, signing_key};

    ghost Value = { DerivedKey };

    ghost view = { λ k. k.key };

    ghost invariant = { λ k. k.key.key ≡ signing_key k.secret k.key.scope k.key.date };
}

impl KeyOfSecret {
    /// The key for the day of this moment, and a copy of the secret.
    pub(crate) fn derive(
        alloc: Global,
        credential: &SigCredential,
        scope: &SigScope,
        now: Timestamp,
    ) -> Result<KeyOfSecret, NoMemory<()>>
        requires { IsFourDigitYear now }
        ensures { IfOk result (λ key. key ≡ derived_key credential.now scope.now now) }
    {
        Ok(KeyOfSecret {
            secret: Octets::from_slice(alloc, credential.secret())?,
            key: SigningKey::derive(alloc, credential, scope, now)?,
        })
    }

    pub(crate) fn key(&self) -> &SigningKey
        ensures { result.now ≡ self.now }
    {
        &self.key
    }

    /// Whether it is the key of this credential and scope for the day of this moment.
    pub(crate) fn is_for(
        &self,
        credential: &SigCredential,
        scope: &SigScope,
        now: Timestamp,
    ) -> bool
        requires { IsFourDigitYear now }
        ensures { IsTrue result → self.now ≡ derived_key credential.now scope.now now }
    {
        self.key.is_for(credential.access(), scope, now)
            && self.secret.as_slice() == credential.secret()
    }
}
