//! A derived signing key as a value: who signs many requests derives it once a day.
ghost use Rattle.std.specs.Prelude.{◌≡◌, ℤ, IfOk, IsTrue, Some, bytes_eq};
ghost use Rattle.std.specs.Fmt.{DisplaysOnOk, WritesStyledOnOk};
ghost use Rattle.std.specs.String.{string_bytes};
ghost use Rattle.sign_time.specs.Calendar.{IsFourDigitYear, civil_of};
ghost use Rattle.sign_time.specs.MomentText.{iso8601_text};
ghost use Rattle.sigv4_core.specs.Signature.{derived_key, key_of_day, date_of, scope_text};
ghost use Rattle.sigv4_core.specs.Signature.{signature_under, key_stars};

use crate::moment::day_of;
use crate::request_signature::{scope_text, signing_key, text_to_sign};
use crate::{SigCredential, SigScope};
use hmac_core::Sha256Key;
use sign_base::{NoMemory, Octets, Timestamp};
use sign_time::FormatMoment;
use std::alloc::Global;
use std::fmt;
use std::marker::Model;

/// The signing key of a credential for a day, a region and a service. `Debug` shows nothing of it.
///
/// Who has the key can sign for its day, region and service, and for no other.
pub struct SigningKey {
    access: Octets,
    scope: SigScope,
    /// The day, counted from the start of the year 0.
    day: u128,
    date: Octets,
    credential_scope: Vec<u8>,
    key: Sha256Key,
}

impl Drop for SigningKey {
    fn drop(self) {
        let SigningKey {
            access,
            scope,
            date,
            credential_scope,
            key,
            day: _,
        } = self;
        drop(access);
        drop(scope);
        drop(date);
        drop(credential_scope);
        drop(key);
    }
}

impl Model for SigningKey {
    ghost use Rattle.sigv4_core.specs.Signature.{DerivedKey};
    ghost use Rattle.sigv4_core.specs.SigningDay.{IsSigningDay};

    ghost Value = { DerivedKey };

    ghost view = { λ k. record { access = k.access; scope = k.scope; date = k.date; key = k.key } };

    ghost invariant = { λ k. IsSigningDay k.day k.date k.scope k.credential_scope.items };
}

impl SigningKey {
    /// The key for the day of this moment.
    ///
    /// Requires a year of four digits.
    pub fn derive(
        alloc: Global,
        credential: &SigCredential,
        scope: &SigScope,
        now: Timestamp,
    ) -> Result<SigningKey, NoMemory<()>>
        requires { IsFourDigitYear now }
        ensures { IfOk result (λ key. key ≡ derived_key credential.now scope.now now) }
    {
        let date = now.format_date(alloc)?;
        let key = signing_key(alloc, credential.secret(), scope, date.as_bytes())?;
        SigningKey::of_date(alloc, credential.access(), scope, now, date, key)
    }

    /// The key for the day of this moment, by its bytes and the access key that it was derived for. Neither
    /// is judged: a signed head names the access key, so check its form before.
    ///
    /// Requires a year of four digits.
    pub fn from_bytes(
        alloc: Global,
        access: &[u8],
        scope: &SigScope,
        now: Timestamp,
        key: &[u8],
    ) -> Result<SigningKey, NoMemory<()>>
        requires { IsFourDigitYear now }
        ensures { IfOk result (λ k. k ≡ key_of_day access.now scope.now now key.now) }
    {
        let date = now.format_date(alloc)?;
        let key = Vec::from_slice(alloc, key)?;
        SigningKey::of_date(alloc, access, scope, now, date, key)
    }

    /// The key for the day of this moment, which has this date.
    fn of_date(
        alloc: Global,
        access: &[u8],
        scope: &SigScope,
        now: Timestamp,
        date: String,
        key: Vec<u8>,
    ) -> Result<SigningKey, NoMemory<()>>
        requires year { IsFourDigitYear now }
        requires date { string_bytes date ≡ date_of now }
        ensures { IfOk result (λ k. k ≡ key_of_day access.now scope.now now key.items) }
    {
        Ok(SigningKey {
            access: Octets::from_slice(alloc, access)?,
            scope: scope.try_clone(alloc)?,
            day: day_of(now),
            credential_scope: scope_text(alloc, scope, now)?,
            key: Sha256Key::new(key),
            date: Octets::from_vec(date.into_bytes()),
        })
    }

    /// Whether the key is for the day of this moment. It takes memory only where it is not, or may not be.
    ///
    /// Requires a year of four digits.
    pub fn is_for_day_of(&self, alloc: Global, now: Timestamp) -> Result<bool, NoMemory<()>>
        requires { IsFourDigitYear now }
        ensures { IfOk result (λ same. same ≡ bytes_eq self.now.date (date_of now)) }
    {
        if self.is_of_day(now) {
            return Ok(true);
        }
        let date = now.format_date(alloc)?;
        Ok(self.date.as_slice() == date.as_bytes())
    }

    /// Whether the key is for this access key and scope, and for the day of this moment.
    pub(crate) fn is_for(&self, access: &[u8], scope: &SigScope, now: Timestamp) -> bool
        requires { IsFourDigitYear now }
        ensures access { IsTrue result → self.now.access ≡ access.now }
        ensures scope { IsTrue result → self.now.scope ≡ scope.now }
        ensures day { IsTrue result → self.now.date ≡ date_of now }
    {
        self.is_of_day(now) && self.scope.is_same(scope) && self.access.as_slice() == access
    }

    /// Whether the moment is of the key's day.
    fn is_of_day(&self, now: Timestamp) -> bool
        requires { IsFourDigitYear now }
        ensures { IsTrue result → self.now.date ≡ date_of now }
    {
        self.day == day_of(now)
    }

    /// The signature of a canonical request under this key, in lower-case hexadecimal.
    ///
    /// Requires a year of four digits, and the day that the key is for.
    pub fn signature(
        &self,
        alloc: Global,
        now: Timestamp,
        request: &[u8],
    ) -> Result<Octets, NoMemory<()>>
        requires year { IsFourDigitYear now }
        requires day { self.now.date ≡ date_of now }
        ensures { IfOk result (λ text. text
            ≡ signature_under self.now.key self.now.scope now request.now) }
    {
        let date_time = now.format_iso8601(alloc)?;
        self.signature_at(alloc, date_time.as_bytes(), request)
    }

    /// The signature at a moment of the key's day, by the text of that moment.
    pub(crate) fn signature_at(
        &self,
        alloc: Global,
        date_time: &[u8],
        request: &[u8],
    ) -> Result<Octets, NoMemory<()>>
        ensures { IfOk result (λ text. (t : ℤ) → self.now.date ≡ date_of t
            → date_time.now ≡ iso8601_text (civil_of t)
            → text ≡ signature_under self.now.key self.now.scope t request.now) }
    {
        let text = text_to_sign(alloc, date_time, self.credential_scope.as_slice(), request)?;
        let signature = self.key.hex_hmac(alloc, text.as_slice())?;
        Ok(Octets::from_vec(signature.into_bytes()))
    }

    /// The credential scope of a request of the key's day.
    pub(crate) fn credential_scope(&self) -> &[u8]
        ensures { (t : ℤ) → self.now.date ≡ date_of t → result.now ≡ scope_text self.now.scope t }
    {
        self.credential_scope.as_slice()
    }

    pub fn access(&self) -> &[u8]
        ensures { result.now ≡ self.now.access }
    {
        self.access.as_slice()
    }

    /// The bytes of the key: who has them can sign as who has the value.
    pub fn as_slice(&self) -> &[u8]
        ensures { result.now ≡ self.now.key }
    {
        self.key.as_slice()
    }

    pub fn scope(&self) -> &SigScope
        ensures { result.now ≡ self.now.scope }
    {
        &self.scope
    }
}

impl fmt::Debug for SigningKey {
    ghost debug_output = { λ _. Some key_stars };

    fn fmt<W: fmt::Write>(&self, f: &mut fmt::Formatter<W>) -> fmt::Result
        ensures writes { DisplaysOnOk W.write_str_gives f.old result (Some key_stars) f.new }
        ensures styled { WritesStyledOnOk W.write_str_gives f.old result key_stars f.new }
    {
        f.write_str("SigningKey(***)")
    }
}
