//! The request for a role, signed.
ghost use Rattle.std.specs.Prelude.{◌≡◌, ◌≢◌, ◌⊎◌, Ok, Err, IfOk, IfErr, IsOkAnd, OnOk, true, false};
ghost use Rattle.std.specs.Prelude.{option_map};
ghost use Rattle.std.specs.Duration.{as_nanos};
ghost use Rattle.credentials.specs.Operation.{Operation};
ghost use Rattle.sign_base.specs.declared.error_kind.ErrorKind.TheVariants.{OutOfMemory};
ghost use Rattle.sign_request.specs.AcceptedHead.{is_accepted_head};
ghost use Rattle.sign_request.specs.PlainHead.{ArePartsOf};
ghost use Rattle.aws_credentials.specs.Session.{Session};
ghost use Rattle.aws_service.specs.SessionHead.{head_signing};
ghost use Rattle.aws_sts.specs.Role.{role_head, role_form};
ghost use Rattle.aws_sts.specs.RoleRequest.{IsRequestAt, asking_head, head_for, service_for};

use crate::form::is_length_allowed;
use crate::{AssumeRole, Role, RoleError};
use aws_credentials::SessionCredential;
use aws_service::{AwsError, AwsService, ContentRule, LeftOut};
use bytes::Bytes;
use http::Request;
use http::request::Parts;
use sign_base::{Error, ErrorKind, Field, Fields, Head, NoMemory, Octets, Timestamp, Version};
use sign_request::parts_of;
use sigv4_core::Payload;
use std::alloc::Global;
use std::time::Duration;

impl<Z> AssumeRole<Z> {
    /// The request that asks for the role for the whole seconds of a duration, or for as long as the role
    /// says, signed at this moment with the credential of a source that may assume it: a form that is posted
    /// to the endpoint by HTTPS.
    ///
    /// `Duration` where a session cannot last so long; else why the request cannot be signed. Whether the
    /// source is valid is not asked.
    #[tactic(auto, unfolding(crate::specs::RoleRequest::asking_head))]
    pub fn request(
        &self,
        alloc: Global,
        source: &SessionCredential,
        expires_in: Option<Duration>,
        now: Timestamp,
    ) -> Result<Request<Bytes>, RoleError>
        ensures ok { let operation : Operation Session =
            record { credential = source.now; expires_in = option_map as_nanos expires_in }
            in IfOk result (λ request. IsRequestAt self.now operation request now) }
        ensures err { let operation : Operation Session =
            record { credential = source.now; expires_in = option_map as_nanos expires_in }
            in IfErr result (λ why. (why ≡ RoleError.OutOfMemory)
            ⊎ (asking_head self.now operation now ≡ Err why)) }
    {
        if !is_length_allowed(expires_in) {
            return Err(RoleError::Duration);
        }
        let body = body_of(&self.role, alloc, expires_in)?;
        match self.parts_for(alloc, source, body.as_slice(), now) {
            Ok(parts) => Ok(Request::from_parts(parts, body)),
            Err(why) => Err(why),
        }
    }

    /// The signed head of the request with this body.
    #[tactic(auto, unfolding(crate::specs::RoleRequest::head_for))]
    fn parts_for(
        &self,
        alloc: Global,
        source: &SessionCredential,
        body: &[u8],
        now: Timestamp,
    ) -> Result<Parts, RoleError>
        ensures ok { IfOk result (λ parts. IsOkAnd (head_for self.now source.now now body.now)
            (λ head. ArePartsOf head parts)) }
        ensures err { IfErr result (λ why. (why ≡ RoleError.OutOfMemory)
            ⊎ (head_for self.now source.now now body.now ≡ Err why)) }
    {
        let head = self.signed_head(alloc, source, body, now)?;
        accepted_parts(alloc, &head)
    }

    fn signed_head(
        &self,
        alloc: Global,
        source: &SessionCredential,
        body: &[u8],
        now: Timestamp,
    ) -> Result<Head, AwsError>
        ensures ok { IfOk result (λ h. head_signing (service_for self.now.scope body.now) source.now now
            (role_head self.now.role) ≡ Ok h) }
        ensures err { IfErr result (λ why. (why ≡ AwsError.OutOfMemory)
            ⊎ (head_signing (service_for self.now.scope body.now) source.now now (role_head self.now.role)
            ≡ Err why)) }
    {
        let head = self.role.head(alloc)?;
        let service = self.service_for(alloc, body)?;
        service.sign_head(alloc, &head, source, now)
    }

    /// What signs requests with this body.
    fn service_for(&self, alloc: Global, body: &[u8]) -> Result<AwsService<()>, NoMemory<()>>
        ensures { IfOk result (λ service. service ≡ service_for self.now.scope body.now) }
    {
        Ok(AwsService::new(
            self.scope.try_clone(alloc)?,
            Payload::of(alloc, body)?,
            ContentRule::Unstated,
            LeftOut::none(alloc),
        ))
    }
}

impl Role {
    /// The head of the request, before it is signed.
    fn head(&self, alloc: Global) -> Result<Head, NoMemory<()>>
        ensures { IfOk result (λ h. h ≡ role_head self.now) }
    {
        let mut uri = Vec::from_slice(alloc, b"https://".as_slice())?;
        uri.extend_from_slice(self.authority.as_slice())?;
        uri.push(b'/')?;
        let mut headers = Vec::new(alloc);
        headers.push(Field {
            name: Octets::from_slice(alloc, b"content-type")?,
            value: Octets::from_slice(alloc, b"application/x-www-form-urlencoded; charset=utf-8")?,
        })?;
        Ok(Head {
            method: Octets::from_slice(alloc, b"POST")?,
            uri: Octets::from_vec(uri),
            version: Version::V11,
            headers: Fields::from_vec(headers),
        })
    }
}

/// The form that asks for a role.
fn body_of(role: &Role, alloc: Global, expires_in: Option<Duration>) -> Result<Bytes, NoMemory<()>>
    ensures { IfOk result (λ body. body ≡ role_form role.now (option_map as_nanos expires_in)) }
{
    Ok(Bytes::from_vec(role.form(alloc, expires_in)?)?)
}

/// The head as `http` has it.
fn accepted_parts(alloc: Global, head: &Head) -> Result<Parts, RoleError>
    ensures ok { IfOk result (ArePartsOf head.now) }
    ensures accepted { OnOk result (is_accepted_head head.now ≡ true) }
    ensures err { IfErr result (λ why. (why ≡ RoleError.OutOfMemory)
        ⊎ ((why ≡ RoleError.Head) × (is_accepted_head head.now ≡ false))) }
{
    match parts_of(alloc, head) {
        Ok(parts) => Ok(parts),
        Err(error) => Err(head_refused(&error)),
    }
}

fn head_refused(error: &Error) -> RoleError
    ensures memory { error.now.kind ≡ OutOfMemory → result ≡ RoleError.OutOfMemory }
    ensures other { error.now.kind ≢ OutOfMemory → result ≡ RoleError.Head }
{
    match error.kind() {
        ErrorKind::OutOfMemory => RoleError::OutOfMemory,
        _ => RoleError::Head,
    }
}
