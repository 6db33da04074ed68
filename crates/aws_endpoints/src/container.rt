//! The provider of what a container's endpoint hands out.
ghost use Rattle.std.specs.Prelude.{◌≡◌, ◌≢◌, ◌⊎◌, [], ℕ, List, IfOk, IfErr, IfSome, MatchOption, Ok, None};
ghost use Rattle.http.specs.declared.request.Request.{Request};
ghost use Rattle.sign_base.specs.Error.{new_error};
ghost use Rattle.sign_base.specs.declared.error_kind.ErrorKind.TheVariants.{CredentialInvalid, OutOfMemory};
ghost use Rattle.aws_endpoints.specs.Container.{container_request, ContainerGives};
ghost use Rattle.aws_endpoints.specs.Container.{GivesRequested, IsAskedSend};

use crate::HasSender;
use crate::answer::session_polled;
use crate::asking::begin;
use crate::container_request::container_request;
use crate::refused::failed;
use aws_credentials::{HasVariables, SessionCredential};
use credentials::{Polled, ProvideCredential};
use sign_base::{Error, NoMemory};
use std::alloc::Global;
use std::marker::PhantomData;

const PLACE: &str = "the answer of the container's endpoint";

/// Finds the credential that the endpoint of a container hands out (ECS, and EKS's agent of pods), by one
/// `GET` of `http://169.254.170.2` with the path `AWS_CONTAINER_CREDENTIALS_RELATIVE_URI`, or else of
/// `AWS_CONTAINER_CREDENTIALS_FULL_URI`, with `AWS_CONTAINER_AUTHORIZATION_TOKEN` as its header
/// `Authorization`, where that is set. An empty variable counts as none; where neither of the first two is
/// set, there is no credential.
///
/// `CredentialInvalid` where the endpoint may not be asked, which is so without TLS at any host but the
/// machine itself and the addresses of ECS and EKS; where no request can be made of what is set; where the
/// status is not 200, or the body has more than 1 MiB; and what `session_of_json` refuses. What the context
/// answers to a send that fails is answered as it is.
///
/// Where an allocation failed, the next poll asks anew.
#[derive(Drop)]
pub struct ContainerProvider<X> {
    context: PhantomData<X>,
}

impl<X> ContainerProvider<X> {
    pub fn new() -> ContainerProvider<X> {
        ContainerProvider {
            context: PhantomData,
        }
    }
}

/// A load of a container's credential: the request that was sent, where one is open.
#[derive(Drop)]
pub struct ContainerLoad<S> {
    open_send: Option<S>,
}

impl<X: HasVariables + HasSender> ProvideCredential for ContainerProvider<X> {
    type Credential = SessionCredential;

    type Ctx = X;

    type Load = ContainerLoad<X::Send>;

    ghost started = { λ provider ctx load. IfSome load.open_send
        (IsAskedSend (X.begun ctx) (container_request (X.variables ctx))) };

    ghost ready = { λ provider ctx load. IfSome load.open_send (λ send. X.send_ready ctx send)
        × ((req : Request (List ℕ)) (send : X.Send) → X.begun ctx req send → X.send_ready ctx send) };

    ghost gives = { λ provider ctx answer. ContainerGives (X.variables ctx) (X.answers ctx) answer };

    fn provide_credential(
        &self,
        _alloc: Global,
        _ctx: &X,
    ) -> Result<ContainerLoad<X::Send>, NoMemory<()>> {
        Ok(ContainerLoad { open_send: None })
    }

    fn poll_load(
        &self,
        alloc: Global,
        ctx: &X,
        load: &mut ContainerLoad<X::Send>,
    ) -> Polled<Option<SessionCredential>> {
        let mut send = match load.open_send.take() {
            Some(send) => send,
            None => match ask(alloc, ctx) {
                Ok(send) => send,
                Err(answer) => return answer,
            },
        };
        let answer = poll(alloc, ctx, &mut send);
        if let Polled::Pending = answer {
            load.open_send = Some(send);
        }
        answer
    }
}

/// Sends what the environment asks for; or what the load ends with where nothing is sent.
#[tactic(auto, unfolding(crate::specs::Container::ContainerGives))]
fn ask<X: HasVariables + HasSender>(
    alloc: Global,
    ctx: &X,
) -> Result<X::Send, Polled<Option<SessionCredential>>>
    ensures ok { IfOk result (IsAskedSend (X.begun ctx.now) (container_request (X.variables ctx.now))) }
    ensures ready { ((req : Request (List ℕ)) (send : X.Send) → X.begun ctx.now req send
        → X.send_ready ctx.now send) → IfOk result (X.send_ready ctx.now) }
    ensures gives { IfErr result (ContainerGives (X.variables ctx.now) (X.answers ctx.now)) }
    ensures over { IfErr result (λ answer. answer ≢ Polled.Pending) }
{
    match begin_asked(alloc, ctx) {
        Ok(Some(send)) => Ok(send),
        Ok(None) => Err(Polled::Ready(None)),
        Err(error) => Err(failed(error)),
    }
}

/// Sends what the environment asks for, or None where it asks for nothing.
#[tactic(auto, unfolding(crate::specs::Container::IsAskedSend))]
fn begin_asked<X: HasVariables + HasSender>(
    alloc: Global,
    ctx: &X,
) -> Result<Option<X::Send>, Error>
    ensures ok { IfOk result (λ send. MatchOption send
        (container_request (X.variables ctx.now) ≡ Ok None)
        (IsAskedSend (X.begun ctx.now) (container_request (X.variables ctx.now)))) }
    ensures err { IfErr result (λ e. (e ≡ new_error OutOfMemory [])
        ⊎ ((e.kind ≡ CredentialInvalid)
        × GivesRequested (X.answers ctx.now) (container_request (X.variables ctx.now)) (Polled.Failed e))) }
{
    match container_request(alloc, ctx)? {
        Some(head) => Ok(Some(begin(alloc, ctx, PLACE, &head)?)),
        None => Ok(None),
    }
}

/// Goes on with a request that the environment asked for.
fn poll<X: HasVariables + HasSender>(
    alloc: Global,
    ctx: &X,
    send: &mut X::Send,
) -> Polled<Option<SessionCredential>>
    ensures kept { IsAskedSend (X.begun ctx.now) (container_request (X.variables ctx.now)) send.old
        → result ≡ Polled.Pending
        → IsAskedSend (X.begun ctx.now) (container_request (X.variables ctx.now)) send.new }
    ensures ready { X.send_ready ctx.now send.old → result ≢ Polled.Pending }
    ensures gives { IsAskedSend (X.begun ctx.now) (container_request (X.variables ctx.now)) send.old
        → ContainerGives (X.variables ctx.now) (X.answers ctx.now) result }
{
    let polled = ctx.poll_http_send(alloc, send);
    session_polled(alloc, PLACE, polled)
}
