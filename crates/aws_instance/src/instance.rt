//! The provider of what the metadata service of an instance hands out.
ghost use Rattle.std.specs.Prelude.{◌≡◌, ◌≢◌, ℕ, List};
ghost use Rattle.http.specs.declared.request.Request.{Request};
ghost use Rattle.aws_instance.specs.Instance.{InstanceGives, InstanceStarted, OfOpenSend};

use crate::InstanceLoad;
use crate::steps::{poll_credential, poll_role, poll_token, start};
use aws_credentials::{HasVariables, SessionCredential};
use aws_endpoints::HasSender;
use credentials::{Polled, ProvideCredential};
use sign_base::NoMemory;
use std::alloc::Global;
use std::marker::PhantomData;
use std::mem;

/// Finds the credential of the role that an instance has (EC2), by the second version of its metadata service
/// (IMDSv2): a `PUT` for a token that lasts six hours, and with that a `GET` for the name of the role and one
/// for the credential of that role. The service is at `http://169.254.169.254`, or at the address that
/// `AWS_EC2_METADATA_SERVICE_ENDPOINT` names. There is no credential where `AWS_EC2_METADATA_DISABLED` is
/// `true`, in any case of letters, and where the role is not found (status 404).
///
/// `CredentialInvalid` where that address does not begin with `http://` or `https://`; where no request can
/// be made of what is answered; where another status than 200 comes, or a body of more than 1 MiB; where
/// the token or the role is not one word of visible bytes; and what `session_of_json` refuses. What the
/// context answers to a send that fails is answered as it is. The first version of the service, without
/// tokens, is not asked.
///
/// Where an allocation failed, the next poll asks from the token on anew.
#[derive(Drop)]
pub struct InstanceProvider<X> {
    context: PhantomData<X>,
}

impl<X> InstanceProvider<X> {
    pub fn new() -> InstanceProvider<X> {
        InstanceProvider {
            context: PhantomData,
        }
    }
}

impl<X: HasVariables + HasSender> ProvideCredential for InstanceProvider<X> {
    type Credential = SessionCredential;

    type Ctx = X;

    type Load = InstanceLoad<X::Send>;

    ghost started = { λ provider ctx load.
        InstanceStarted (X.begun ctx) (X.answers ctx) (X.variables ctx) load };

    ghost ready = { λ provider ctx load. OfOpenSend load (λ send. X.send_ready ctx send)
        × ((req : Request (List ℕ)) (send : X.Send) → X.begun ctx req send → X.send_ready ctx send) };

    ghost gives = { λ provider ctx answer. InstanceGives (X.variables ctx) (X.answers ctx) answer };

    fn provide_credential(
        &self,
        _alloc: Global,
        _ctx: &X,
    ) -> Result<InstanceLoad<X::Send>, NoMemory<()>> {
        Ok(InstanceLoad::Start)
    }

    fn poll_load(
        &self,
        alloc: Global,
        ctx: &X,
        load: &mut InstanceLoad<X::Send>,
    ) -> Polled<Option<SessionCredential>> {
        match mem::replace(load, InstanceLoad::Start) {
            InstanceLoad::Start => start(alloc, ctx, load),
            InstanceLoad::Token { root, send } => poll_token(alloc, ctx, load, root, send),
            InstanceLoad::Role { root, token, send } => {
                poll_role(alloc, ctx, load, root, token, send)
            }
            InstanceLoad::Credential { send } => poll_credential(alloc, ctx, load, send),
        }
    }
}
