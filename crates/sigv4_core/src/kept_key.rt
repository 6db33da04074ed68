//! The signing key that was asked for last: who signs one request after another derives it once a day.
ghost use Rattle.std.specs.Prelude.{◌≡◌, None, Some, IfOk, IsSome, IsTrue, OnOk};
ghost use Rattle.sign_time.specs.Calendar.{IsFourDigitYear};
ghost use Rattle.sigv4_core.specs.Signature.{derived_key};

use crate::key_of_secret::KeyOfSecret;
use crate::{SigCredential, SigScope, SigningKey};
use sign_base::{NoMemory, Timestamp};
use std::alloc::Global;
use std::marker::Model;

/// The signing key that was asked for last, where there is one, and the secret of its credential. It has no
/// debug form.
///
/// Both stay in memory until another key is asked for, or it is dropped.
pub struct KeptKey {
    kept: Option<KeyOfSecret>,
}

impl Drop for KeptKey {
    fn drop(self) {
        let KeptKey { kept } = self;
        drop(kept);
    }
}

/// Contracts see the key.
impl Model for KeptKey {
    ghost use Rattle.std.specs.Prelude.{Option};
    ghost use Rattle.sigv4_core.specs.Signature.{DerivedKey};

    ghost Value = { Option DerivedKey };

    ghost view = { λ k. k.kept };
}

impl KeptKey {
    /// No key yet.
    pub fn new() -> KeptKey
        ensures { result ≡ None }
    {
        KeptKey { kept: None }
    }

    /// The signing key of the credential for this scope and the day of this moment: the one that is kept,
    /// where it is that, or else one that is derived, and kept from then on.
    ///
    /// Requires a year of four digits.
    pub fn key_for(
        &mut self,
        alloc: Global,
        credential: &SigCredential,
        scope: &SigScope,
        now: Timestamp,
    ) -> Result<&SigningKey, NoMemory<()>>
        requires { IsFourDigitYear now }
        ensures { IfOk result (λ key. key.now ≡ derived_key credential.now scope.now now) }
    {
        self.keep(alloc, credential, scope, now)?;
        Ok(self.key())
    }

    /// Keeps the signing key of the credential for this scope and day, where it is not kept already.
    fn keep(
        &mut self,
        alloc: Global,
        credential: &SigCredential,
        scope: &SigScope,
        now: Timestamp,
    ) -> Result<(), NoMemory<()>>
        requires { IsFourDigitYear now }
        ensures { OnOk result (self.new ≡ Some (derived_key credential.now scope.now now)) }
    {
        if self.is_for(credential, scope, now) {
            return Ok(());
        }
        self.kept = Some(KeyOfSecret::derive(alloc, credential, scope, now)?);
        Ok(())
    }

    /// Whether the key that is kept is the one of this credential, scope and day.
    fn is_for(&self, credential: &SigCredential, scope: &SigScope, now: Timestamp) -> bool
        requires { IsFourDigitYear now }
        ensures { IsTrue result → self.now ≡ Some (derived_key credential.now scope.now now) }
    {
        match &self.kept {
            Some(kept) => kept.is_for(credential, scope, now),
            None => false,
        }
    }

    /// The key that is kept.
    fn key(&self) -> &SigningKey
        requires { IsSome self.now }
        ensures { self.now ≡ Some result.now }
    {
        match &self.kept {
            Some(kept) => kept.key(),
            None => unreachable!(),
        }
    }
}
