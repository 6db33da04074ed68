//! A key with the token of its session. Nothing here shows the secret or the token.
ghost use Rattle.std.specs.Prelude.{◌≡◌, IfOk, IfErr, OnOk, Some, None, true, false, codes};
ghost use Rattle.std.specs.Prelude.{option_map};
ghost use Rattle.std.specs.Char.{is_ascii_graphic};
ghost use Rattle.std.specs.Fmt.{DisplaysOnOk, WritesStyledOnOk};
ghost use Rattle.std.specs.List.{list_all};
ghost use Rattle.sign_base.specs.declared.error_kind.ErrorKind.TheVariants.{CredentialInvalid};
ghost use Rattle.sigv4_core.specs.Credential.{is_before};
ghost use Rattle.sigv4_core.specs.Refused.{RefusedWith};
ghost use Rattle.aws_credentials.specs.Session.{is_session_token, session_stars};

use sequential_signer::SigningCredential;
use sign_base::{Error, NoMemory, Octets, Timestamp};
use sigv4_core::SigCredential;
use std::alloc::Global;
use std::fmt;
use std::marker::Model;

/// An access key and its secret, with the token of the session that gave them, where one did. AWS takes a
/// signature under a key of a session only beside its token. `Debug` shows nothing of it.
#[derive(Drop)]
pub struct SessionCredential {
    key: SigCredential,
    token: Option<Octets>,
}

impl Model for SessionCredential {
    ghost use Rattle.aws_credentials.specs.Session.{Session};

    ghost Value = { Session };

    ghost view = { λ c. record { key = c.key; token = c.token } };
}

impl From<SigCredential> for SessionCredential {
    ghost use Rattle.std.specs.Prelude.{◌≡◌, None};

    ghost from_gives = { λ key c. c ≡ record { key = key; token = None } };

    /// A key of no session.
    fn from(key: SigCredential) -> SessionCredential {
        SessionCredential { key, token: None }
    }
}

impl SessionCredential {
    /// A key with the token of its session.
    ///
    /// `CredentialInvalid` where the token is empty or has a byte other than 0x21 to 0x7e: a header or a
    /// link could not carry it as it is.
    pub fn with_token(
        alloc: Global,
        key: SigCredential,
        token: &[u8],
    ) -> Result<SessionCredential, Error>
        ensures ok { IfOk result (λ c. c ≡ record { key = key; token = Some token.now }) }
        ensures accepted { OnOk result (is_session_token token.now ≡ true) }
        ensures err { IfErr result (RefusedWith CredentialInvalid (codes "invalid session token")
            (is_session_token token.now ≡ false)) }
    {
        if !is_session_token(token) {
            return Err(Error::credential_invalid(alloc, "invalid session token")?);
        }
        Ok(SessionCredential {
            key,
            token: Some(Octets::from_slice(alloc, token)?),
        })
    }

    /// The key without its token.
    pub fn key(&self) -> &SigCredential
        ensures { result.now ≡ self.now.key }
    {
        &self.key
    }

    /// The token, which is a secret.
    pub fn token(&self) -> Option<&[u8]>
        ensures { option_map (λ t. t.now) result ≡ self.now.token }
    {
        match &self.token {
            Some(token) => Some(token.as_slice()),
            None => None,
        }
    }
}

impl fmt::Debug for SessionCredential {
    ghost debug_output = { λ _. Some session_stars };

    fn fmt<W: fmt::Write>(&self, f: &mut fmt::Formatter<W>) -> fmt::Result
        ensures writes { DisplaysOnOk W.write_str_gives f.old result (Some session_stars) f.new }
        ensures styled { WritesStyledOnOk W.write_str_gives f.old result session_stars f.new }
    {
        f.write_str("SessionCredential(***)")
    }
}

/// It lasts as long as its key.
impl SigningCredential for SessionCredential {
    const NAME: &'static str = "SessionCredential";

    ghost valid = { λ c now. is_before c.key.expires now };

    ghost valid_at = { λ c moment now. is_before c.key.expires moment };

    fn is_valid(&self, now: Timestamp) -> bool {
        self.key.is_valid(now)
    }

    fn is_valid_at(&self, ts: Timestamp, now: Timestamp) -> bool {
        self.key.is_valid_at(ts, now)
    }

    fn try_clone(&self, alloc: Global) -> Result<SessionCredential, NoMemory<()>> {
        Ok(SessionCredential {
            key: self.key.try_clone(alloc)?,
            token: match &self.token {
                Some(token) => Some(token.try_clone(alloc)?),
                None => None,
            },
        })
    }
}

fn is_session_token(token: &[u8]) -> bool
    ensures { result ≡ is_session_token token.now }
{
    !token.is_empty() && is_visible(token)
}

fn is_visible(bytes: &[u8]) -> bool
    ensures { result ≡ list_all is_ascii_graphic bytes.now }
{
    bytes.iter().all(|b| b.is_ascii_graphic())
}
