//! The steps of a load: each goes on with the request that is open, and begins the next.
ghost use Rattle.std.specs.Prelude.{◌≡◌, ◌≢◌, ℕ, List, IfOk, IfErr};
ghost use Rattle.http.specs.declared.request.Request.{Request};
ghost use Rattle.aws_endpoints.specs.Asking.{IsSendOf};
ghost use Rattle.aws_instance.specs.Requests.{token_head, role_head, credential_head};
ghost use Rattle.aws_instance.specs.Answers.{word_place};
ghost use Rattle.aws_instance.specs.Instance.{TokenAsked, RoleAsked, CredentialAsked, InstanceStarted};
ghost use Rattle.aws_instance.specs.Instance.{InstanceGives, GivesRole, GivesCredential, LeadsTo, NotSent};
ghost use Rattle.aws_instance.specs.Instance.{credential_place};

use crate::InstanceLoad;
use crate::asked_word::{AskedWord, word_polled};
use crate::metadata_service::service_root;
use crate::requests::{credential_head, role_head, token_head};
use aws_credentials::{HasVariables, SessionCredential};
use aws_endpoints::HasSender;
use aws_endpoints::answer::session_polled;
use aws_endpoints::asking::begin;
use aws_endpoints::refused::failed;
use credentials::Polled;
use sign_base::{Head, Octets};
use std::alloc::Global;

const CREDENTIAL_PLACE: &str = "the credential answer of the instance's endpoint";

/// Asks for a token, and goes on from there.
pub(crate) fn start<X: HasVariables + HasSender>(
    alloc: Global,
    ctx: &X,
    load: &mut InstanceLoad<X::Send>,
) -> Polled<Option<SessionCredential>>
    ensures kept { InstanceStarted (X.begun ctx.now) (X.answers ctx.now) (X.variables ctx.now) load.old
        → InstanceStarted (X.begun ctx.now) (X.answers ctx.now) (X.variables ctx.now) load.new }
    ensures ready { ((req : Request (List ℕ)) (send : X.Send) → X.begun ctx.now req send
        → X.send_ready ctx.now send) → result ≢ Polled.Pending }
    ensures gives { InstanceGives (X.variables ctx.now) (X.answers ctx.now) result }
{
    match ask_token(alloc, ctx) {
        Ok((root, send)) => poll_token(alloc, ctx, load, root, send),
        Err(answer) => answer,
    }
}

/// Sends the request for a token, to the address that comes with it; or what the load ends with.
fn ask_token<X: HasVariables + HasSender>(
    alloc: Global,
    ctx: &X,
) -> Result<(Octets, X::Send), Polled<Option<SessionCredential>>>
    ensures ok { IfOk result (λ asked.
        TokenAsked (X.begun ctx.now) (X.answers ctx.now) (X.variables ctx.now) asked.0 asked.1) }
    ensures gives { IfErr result (InstanceGives (X.variables ctx.now) (X.answers ctx.now)) }
    ensures over { IfErr result (λ answer. answer ≢ Polled.Pending) }
{
    let root = match service_root(alloc, ctx) {
        Ok(Some(root)) => root,
        Ok(None) => return Err(Polled::Ready(None)),
        Err(error) => return Err(failed(error)),
    };
    match send_for_token(alloc, ctx, &root) {
        Ok(send) => Ok((root, send)),
        Err(answer) => Err(answer),
    }
}

fn send_for_token<X: HasSender>(
    alloc: Global,
    ctx: &X,
    root: &Octets,
) -> Result<X::Send, Polled<Option<SessionCredential>>>
    ensures ok { IfOk result (IsSendOf (X.begun ctx.now) (token_head root.now)) }
    ensures not { IfErr result (NotSent (token_head root.now) (word_place AskedWord.Token)) }
{
    match token_head(alloc, root) {
        Ok(head) => send(alloc, ctx, AskedWord::Token.place(), &head),
        Err(_) => Err(Polled::OutOfMemory),
    }
}

/// Goes on with the request for a token, and with the token asks for the role.
pub(crate) fn poll_token<X: HasVariables + HasSender>(
    alloc: Global,
    ctx: &X,
    load: &mut InstanceLoad<X::Send>,
    root: Octets,
    mut send: X::Send,
) -> Polled<Option<SessionCredential>>
    ensures kept { InstanceStarted (X.begun ctx.now) (X.answers ctx.now) (X.variables ctx.now) load.old
        → TokenAsked (X.begun ctx.now) (X.answers ctx.now) (X.variables ctx.now) root send
        → InstanceStarted (X.begun ctx.now) (X.answers ctx.now) (X.variables ctx.now) load.new }
    ensures ready { X.send_ready ctx.now send → ((req : Request (List ℕ)) (send : X.Send)
        → X.begun ctx.now req send → X.send_ready ctx.now send) → result ≢ Polled.Pending }
    ensures gives { TokenAsked (X.begun ctx.now) (X.answers ctx.now) (X.variables ctx.now) root send
        → InstanceGives (X.variables ctx.now) (X.answers ctx.now) result }
{
    let polled = ctx.poll_http_send(alloc, &mut send);
    match word_polled(alloc, AskedWord::Token, polled) {
        Ok(token) => begin_role(alloc, ctx, load, root, token),
        Err(Polled::Pending) => {
            *load = InstanceLoad::Token { root, send };
            Polled::Pending
        }
        Err(answer) => answer,
    }
}

/// Asks for the role, and goes on from there.
fn begin_role<X: HasVariables + HasSender>(
    alloc: Global,
    ctx: &X,
    load: &mut InstanceLoad<X::Send>,
    root: Octets,
    token: Octets,
) -> Polled<Option<SessionCredential>>
    ensures kept { InstanceStarted (X.begun ctx.now) (X.answers ctx.now) (X.variables ctx.now) load.old
        → LeadsTo (GivesRole (X.answers ctx.now) root token)
        (InstanceGives (X.variables ctx.now) (X.answers ctx.now))
        → InstanceStarted (X.begun ctx.now) (X.answers ctx.now) (X.variables ctx.now) load.new }
    ensures ready { ((req : Request (List ℕ)) (send : X.Send) → X.begun ctx.now req send
        → X.send_ready ctx.now send) → result ≢ Polled.Pending }
    ensures gives { LeadsTo (GivesRole (X.answers ctx.now) root token)
        (InstanceGives (X.variables ctx.now) (X.answers ctx.now))
        → InstanceGives (X.variables ctx.now) (X.answers ctx.now) result }
{
    match send_for_role(alloc, ctx, &root, &token) {
        Ok(send) => poll_role(alloc, ctx, load, root, token, send),
        Err(answer) => answer,
    }
}

fn send_for_role<X: HasSender>(
    alloc: Global,
    ctx: &X,
    root: &Octets,
    token: &Octets,
) -> Result<X::Send, Polled<Option<SessionCredential>>>
    ensures ok { IfOk result (IsSendOf (X.begun ctx.now) (role_head root.now token.now)) }
    ensures not { IfErr result (NotSent (role_head root.now token.now) (word_place AskedWord.Role)) }
{
    match role_head(alloc, root, token) {
        Ok(head) => send(alloc, ctx, AskedWord::Role.place(), &head),
        Err(_) => Err(Polled::OutOfMemory),
    }
}

/// Goes on with the request for the role, and with its name asks for the credential.
pub(crate) fn poll_role<X: HasVariables + HasSender>(
    alloc: Global,
    ctx: &X,
    load: &mut InstanceLoad<X::Send>,
    root: Octets,
    token: Octets,
    mut send: X::Send,
) -> Polled<Option<SessionCredential>>
    ensures kept { InstanceStarted (X.begun ctx.now) (X.answers ctx.now) (X.variables ctx.now) load.old
        → RoleAsked (X.begun ctx.now) (X.answers ctx.now) (X.variables ctx.now) root token send
        → InstanceStarted (X.begun ctx.now) (X.answers ctx.now) (X.variables ctx.now) load.new }
    ensures ready { X.send_ready ctx.now send → ((req : Request (List ℕ)) (send : X.Send)
        → X.begun ctx.now req send → X.send_ready ctx.now send) → result ≢ Polled.Pending }
    ensures gives { RoleAsked (X.begun ctx.now) (X.answers ctx.now) (X.variables ctx.now) root token send
        → InstanceGives (X.variables ctx.now) (X.answers ctx.now) result }
{
    let polled = ctx.poll_http_send(alloc, &mut send);
    match word_polled(alloc, AskedWord::Role, polled) {
        Ok(role) => begin_credential(alloc, ctx, load, &root, &token, &role),
        Err(Polled::Pending) => {
            *load = InstanceLoad::Role { root, token, send };
            Polled::Pending
        }
        Err(answer) => answer,
    }
}

/// Asks for the credential of a role, and goes on from there.
fn begin_credential<X: HasVariables + HasSender>(
    alloc: Global,
    ctx: &X,
    load: &mut InstanceLoad<X::Send>,
    root: &Octets,
    token: &Octets,
    role: &Octets,
) -> Polled<Option<SessionCredential>>
    ensures kept { InstanceStarted (X.begun ctx.now) (X.answers ctx.now) (X.variables ctx.now) load.old
        → LeadsTo (GivesCredential (X.answers ctx.now) root.now token.now role.now)
        (InstanceGives (X.variables ctx.now) (X.answers ctx.now))
        → InstanceStarted (X.begun ctx.now) (X.answers ctx.now) (X.variables ctx.now) load.new }
    ensures ready { ((req : Request (List ℕ)) (send : X.Send) → X.begun ctx.now req send
        → X.send_ready ctx.now send) → result ≢ Polled.Pending }
    ensures gives { LeadsTo (GivesCredential (X.answers ctx.now) root.now token.now role.now)
        (InstanceGives (X.variables ctx.now) (X.answers ctx.now))
        → InstanceGives (X.variables ctx.now) (X.answers ctx.now) result }
{
    match send_for_credential(alloc, ctx, root, token, role) {
        Ok(send) => poll_credential(alloc, ctx, load, send),
        Err(answer) => answer,
    }
}

fn send_for_credential<X: HasSender>(
    alloc: Global,
    ctx: &X,
    root: &Octets,
    token: &Octets,
    role: &Octets,
) -> Result<X::Send, Polled<Option<SessionCredential>>>
    ensures ok { IfOk result (IsSendOf (X.begun ctx.now) (credential_head root.now token.now role.now)) }
    ensures not { IfErr result (NotSent (credential_head root.now token.now role.now) credential_place) }
{
    match credential_head(alloc, root, token, role) {
        Ok(head) => send(alloc, ctx, CREDENTIAL_PLACE, &head),
        Err(_) => Err(Polled::OutOfMemory),
    }
}

/// Goes on with the request for the credential.
pub(crate) fn poll_credential<X: HasVariables + HasSender>(
    alloc: Global,
    ctx: &X,
    load: &mut InstanceLoad<X::Send>,
    mut send: X::Send,
) -> Polled<Option<SessionCredential>>
    ensures kept { InstanceStarted (X.begun ctx.now) (X.answers ctx.now) (X.variables ctx.now) load.old
        → CredentialAsked (X.begun ctx.now) (X.answers ctx.now) (X.variables ctx.now) send
        → InstanceStarted (X.begun ctx.now) (X.answers ctx.now) (X.variables ctx.now) load.new }
    ensures ready { X.send_ready ctx.now send → result ≢ Polled.Pending }
    ensures gives { CredentialAsked (X.begun ctx.now) (X.answers ctx.now) (X.variables ctx.now) send
        → InstanceGives (X.variables ctx.now) (X.answers ctx.now) result }
{
    let polled = ctx.poll_http_send(alloc, &mut send);
    let answer = session_polled(alloc, CREDENTIAL_PLACE, polled);
    if let Polled::Pending = answer {
        *load = InstanceLoad::Credential { send };
    }
    answer
}

/// Sends a request of this head; or what the load ends with where nothing is sent.
fn send<X: HasSender>(
    alloc: Global,
    ctx: &X,
    place: &str,
    head: &Head,
) -> Result<X::Send, Polled<Option<SessionCredential>>>
    ensures ok { IfOk result (IsSendOf (X.begun ctx.now) head.now) }
    ensures not { IfErr result (NotSent head.now place.now) }
{
    match begin(alloc, ctx, place, head) {
        Ok(send) => Ok(send),
        Err(error) => Err(failed(error)),
    }
}
