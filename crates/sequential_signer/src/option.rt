//! A credential that may be absent.
ghost use Rattle.std.specs.Prelude.{◌≡◌, IfOk, IfSome};
ghost use Rattle.sequential_signer.specs.OptionValid.{option_valid, option_valid_at};

use crate::SigningCredential;
use sign_base::{NoMemory, Timestamp};
use std::alloc::Global;

/// No credential is never valid. A credential is valid as it says itself.
impl<T: SigningCredential> SigningCredential for Option<T> {
    const NAME: &'static str = T::NAME;

    ghost valid = { λ credential now. option_valid T.valid credential now };

    ghost valid_at = { λ credential moment now. option_valid_at T.valid_at credential moment now };

    ghost clones_freely = { λ credential. IfSome credential T.clones_freely };

    fn is_valid(&self, now: Timestamp) -> bool {
        match self {
            Some(credential) => credential.is_valid(now),
            None => false,
        }
    }

    fn is_valid_at(&self, ts: Timestamp, now: Timestamp) -> bool {
        match self {
            Some(credential) => credential.is_valid_at(ts, now),
            None => false,
        }
    }

    fn try_clone(&self, alloc: Global) -> Result<Option<T>, NoMemory<()>> {
        match self {
            Some(credential) => Ok(Some(credential.try_clone(alloc)?)),
            None => Ok(None),
        }
    }
}
