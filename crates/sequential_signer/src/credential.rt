//! What a credential says of itself: whether it can be used, now and at a later moment.
ghost use Rattle.std.specs.Prelude.{◌≡◌, ℤ, Bool, IfOk, IsOk};

use sign_base::{NoMemory, Timestamp};
use std::alloc::Global;

/// A credential that requests are signed with. Whoever implements it keeps its secrets out of debug
/// texts, errors and logs.
pub trait SigningCredential: Drop {
    /// The type's name in errors.
    const NAME: &'static str;

    /// Whether the credential can be used at this moment: the credential, now.
    ghost valid: { Self → ℤ → Bool };

    /// Whether it can be used at a later moment: the credential, that moment, now.
    ghost valid_at: { Self → ℤ → ℤ → Bool };

    /// A clone of the credential takes no memory. Where a type says nothing, it may take some.
    ghost clones_freely: { Self → Type 0 } = { λ _. ⊥ };

    /// Whether the credential can be used now. A function of the credential and the moment.
    fn is_valid(&self, now: Timestamp) -> bool
        ensures { result ≡ valid self.now now };

    /// Whether it lasts to the moment `ts`, seen from now. Where the credential knows no more, this
    /// is `is_valid(now)`.
    fn is_valid_at(&self, ts: Timestamp, now: Timestamp) -> bool
        ensures { result ≡ valid_at self.now ts now };

    /// An equal credential.
    fn try_clone(&self, alloc: Global) -> Result<Self, NoMemory<()>>
        ensures equal { IfOk result (λ c. c ≡ self.now) }
        ensures free { clones_freely self.now → IsOk result };
}
