//! An access key and its secret. Nothing here shows the secret.
ghost use Rattle.std.specs.Prelude.{◌≡◌, ◌∷◌, IfOk, IfErr, OnOk, Some, true, false, codes};
ghost use Rattle.std.specs.Char.{is_ascii_graphic};
ghost use Rattle.std.specs.Fmt.{DisplaysOnOk, WritesStyledOnOk};
ghost use Rattle.std.specs.List.{list_all};
ghost use Rattle.sign_base.specs.Octets.{FitsInline};
ghost use Rattle.sign_base.specs.declared.error_kind.ErrorKind.TheVariants.{CredentialInvalid};
ghost use Rattle.sigv4_core.specs.Credential.{is_credential, is_before, credential_stars};
ghost use Rattle.sigv4_core.specs.Refused.{RefusedWith};

use sequential_signer::SigningCredential;
use sign_base::{Error, NoMemory, Octets, Timestamp};
use std::alloc::Global;
use std::fmt;
use std::marker::Model;

/// An access key and its secret, which can be used until they expire. `Debug` shows neither.
pub struct SigCredential {
    access: Octets,
    secret: Octets,
    /// None where they do not expire.
    expires: Option<Timestamp>,
}

impl Drop for SigCredential {
    fn drop(self) {
        let SigCredential {
            access,
            secret,
            expires: _,
        } = self;
        drop(access);
        drop(secret);
    }
}

impl Model for SigCredential {
    ghost use Rattle.std.specs.Prelude.{IsTrue};
    ghost use Rattle.sigv4_core.specs.Credential.{Credential, is_credential};

    ghost Value = { Credential };

    ghost view = { λ c. record { access = c.access; secret = c.secret; expires = c.expires } };

    ghost invariant = { λ c. IsTrue (is_credential c.access c.secret) };
}

impl SigCredential {
    /// An access key with its secret.
    ///
    /// `CredentialInvalid` where the access key is empty or has a byte other than 0x21 to 0x7e, or
    /// where the secret is empty.
    pub fn new(
        alloc: Global,
        access: &[u8],
        secret: &[u8],
        expires: Option<Timestamp>,
    ) -> Result<SigCredential, Error>
        ensures ok { IfOk result (λ c. c
            ≡ record { access = access.now; secret = secret.now; expires = expires }) }
        ensures accepted { OnOk result (is_credential access.now secret.now ≡ true) }
        ensures err { IfErr result (RefusedWith CredentialInvalid (codes "invalid key")
            (is_credential access.now secret.now ≡ false)) }
    {
        if !is_credential(access, secret) {
            return Err(Error::credential_invalid(alloc, "invalid key")?);
        }
        Ok(SigCredential {
            access: Octets::from_slice(alloc, access)?,
            secret: Octets::from_slice(alloc, secret)?,
            expires,
        })
    }

    /// The access key, which is no secret: each signed request names it.
    pub fn access(&self) -> &[u8]
        ensures value { result.now ≡ self.now.access }
        ensures accepted { is_credential self.now.access self.now.secret ≡ true }
    {
        self.access.as_slice()
    }

    pub(crate) fn secret(&self) -> &[u8]
        ensures { result.now ≡ self.now.secret }
    {
        self.secret.as_slice()
    }
}

impl fmt::Debug for SigCredential {
    ghost debug_output = { λ _. Some credential_stars };

    fn fmt<W: fmt::Write>(&self, f: &mut fmt::Formatter<W>) -> fmt::Result
        ensures writes { DisplaysOnOk W.write_str_gives f.old result (Some credential_stars) f.new }
        ensures styled { WritesStyledOnOk W.write_str_gives f.old result credential_stars f.new }
    {
        f.write_str("SigCredential(***)")
    }
}

/// It lasts to every moment before it expires.
impl SigningCredential for SigCredential {
    const NAME: &'static str = "SigCredential";

    ghost valid = { λ c now. is_before c.expires now };

    ghost valid_at = { λ c moment now. is_before c.expires moment };

    fn is_valid(&self, now: Timestamp) -> bool {
        is_before(self.expires, now)
    }

    fn is_valid_at(&self, ts: Timestamp, _now: Timestamp) -> bool {
        is_before(self.expires, ts)
    }

    fn try_clone(&self, alloc: Global) -> Result<SigCredential, NoMemory<()>> {
        Ok(SigCredential {
            access: self.access.try_clone(alloc)?,
            secret: self.secret.try_clone(alloc)?,
            expires: self.expires,
        })
    }
}

/// Whether the moment comes before a credential expires.
fn is_before(expires: Option<Timestamp>, moment: Timestamp) -> bool
    ensures { result ≡ is_before expires moment }
{
    match expires {
        Some(expires) => moment < expires,
        None => true,
    }
}

fn is_credential(access: &[u8], secret: &[u8]) -> bool
    ensures { result ≡ is_credential access.now secret.now }
{
    !access.is_empty() && is_visible(access) && !secret.is_empty()
}

fn is_visible(bytes: &[u8]) -> bool
    ensures { result ≡ list_all is_ascii_graphic bytes.now }
{
    bytes.iter().all(|b| b.is_ascii_graphic())
}
