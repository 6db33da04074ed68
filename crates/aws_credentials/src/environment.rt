//! The credential that the variables of the environment name.
ghost use Rattle.std.specs.Prelude.{◌≡◌, ⊤, IfOk, IsOk, option_map, string_bytes};
ghost use Rattle.aws_credentials.specs.Environment.{found_in_environment};
ghost use Rattle.aws_credentials.specs.Found.{IsFound, GivesFound};

use crate::{HasVariables, KeyTexts, SessionCredential, polled_session, session_in};
use credentials::{Polled, ProvideCredential};
use sign_base::{Error, NoMemory};
use std::alloc::Global;
use std::marker::PhantomData;

/// Finds the credential of `AWS_ACCESS_KEY_ID`, `AWS_SECRET_ACCESS_KEY` and `AWS_SESSION_TOKEN`, which does
/// not expire. An empty variable counts as none, and without the first there is no credential.
///
/// It answers every poll. `CredentialInvalid` where there is no secret key, or where a variable has not the
/// form of what it is for. Whoever changes variables while it works gets what each read finds.
#[derive(Drop)]
pub struct EnvironmentProvider<X> {
    context: PhantomData<X>,
}

impl<X> EnvironmentProvider<X> {
    pub fn new() -> EnvironmentProvider<X> {
        EnvironmentProvider {
            context: PhantomData,
        }
    }
}

impl<X: HasVariables> ProvideCredential for EnvironmentProvider<X> {
    type Credential = SessionCredential;

    type Ctx = X;

    type Load = ();

    ghost started = { λ provider ctx load. ⊤ };

    ghost ready = { λ provider ctx load. ⊤ };

    ghost gives = { λ provider ctx answer. GivesFound (found_in_environment (X.variables ctx)) answer };

    fn provide_credential(&self, _alloc: Global, _ctx: &X) -> Result<(), NoMemory<()>>
        ensures started { IfOk result (λ load. ⊤) }
        ensures succeeds { IsOk result }
    {
        Ok(())
    }

    fn poll_load(
        &self,
        alloc: Global,
        ctx: &X,
        _load: &mut (),
    ) -> Polled<Option<SessionCredential>> {
        polled_session(environment_session(alloc, ctx))
    }
}

fn environment_session<X: HasVariables>(
    alloc: Global,
    ctx: &X,
) -> Result<Option<SessionCredential>, Error>
    ensures { IsFound (found_in_environment (X.variables ctx.now)) result }
{
    let texts = KeyTexts {
        access: ctx.variable(alloc, "AWS_ACCESS_KEY_ID")?,
        secret: ctx.variable(alloc, "AWS_SECRET_ACCESS_KEY")?,
        token: ctx.variable(alloc, "AWS_SESSION_TOKEN")?,
    };
    session_in(alloc, "the environment", texts, None)
}
