//! What a program writes of its own to sign for AWS: what its objects work in, and its provider.
ghost use Rattle.std.specs.Prelude.{⊤};

use credentials::{Env, OsEnv, Polled, ProvideCredential};
use sign_base::{Error, ErrorKind, NoMemory, Timestamp};
use sigv4_core::{Moment, SigCredential};
use std::alloc::Global;

/// An environment, and the moment of the signatures.
#[derive(Drop)]
pub(crate) struct Surroundings {
    pub(crate) env: OsEnv,
    pub(crate) now: Timestamp,
}

impl Moment for Surroundings {
    ghost moment_of = { λ surroundings. surroundings.now };

    fn moment(&self) -> Timestamp {
        self.now
    }
}

/// Finds the key of the variables `AWS_ACCESS_KEY_ID` and `AWS_SECRET_ACCESS_KEY`.
#[derive(Drop)]
pub(crate) struct EnvironmentKey;

impl ProvideCredential for EnvironmentKey {
    type Credential = SigCredential;

    type Ctx = Surroundings;

    type Load = ();

    ghost started = { λ provider surroundings load. ⊤ };

    ghost ready = { λ provider surroundings load. ⊤ };

    ghost gives = { λ provider surroundings answer. ⊤ };

    fn provide_credential(&self, _alloc: Global, _ctx: &Surroundings) -> Result<(), NoMemory<()>> {
        Ok(())
    }

    fn poll_load(
        &self,
        alloc: Global,
        ctx: &Surroundings,
        _load: &mut (),
    ) -> Polled<Option<SigCredential>> {
        match environment_key(alloc, &ctx.env) {
            Ok(found) => Polled::Ready(found),
            Err(error) if error.kind() == ErrorKind::OutOfMemory => Polled::OutOfMemory,
            Err(error) => Polled::Failed(error),
        }
    }
}

/// The key, where both variables are set.
fn environment_key(alloc: Global, env: &OsEnv) -> Result<Option<SigCredential>, Error> {
    let access = env.var(alloc, "AWS_ACCESS_KEY_ID")?;
    let secret = env.var(alloc, "AWS_SECRET_ACCESS_KEY")?;
    match (access, secret) {
        (Some(access), Some(secret)) => key(alloc, access.as_str(), secret.as_str()),
        _ => Ok(None),
    }
}

fn key(alloc: Global, access: &str, secret: &str) -> Result<Option<SigCredential>, Error> {
    let key = SigCredential::new(alloc, access.as_bytes(), secret.as_bytes(), None)?;
    Ok(Some(key))
}
