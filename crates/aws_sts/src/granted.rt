//! The credential that an answer of STS grants.
ghost use Rattle.std.specs.Prelude.{◌≡◌, ◌⊎◌, ◌++◌, Ok, Err, IfOk, IfErr};
ghost use Rattle.sign_base.specs.Error.{new_error};
ghost use Rattle.sign_base.specs.declared.error_kind.ErrorKind.TheVariants.{CredentialInvalid};
ghost use Rattle.sign_request.specs.Refusal.{IsOutOfMemory};
ghost use Rattle.aws_credentials.specs.Found.{IsFound};
ghost use Rattle.aws_sts.specs.RoleAnswer.{sts_answer, expiry_in, found_until, with_its_token};
ghost use Rattle.aws_sts.specs.RoleAnswer.{granted_in_xml, granted, status_error};

use crate::xml::element_text;
use aws_credentials::{KeyTexts, SessionCredential, session_in};
use bytes::Bytes;
use http::Response;
use sign_base::{Error, ErrorKind, NoMemory, Timestamp};
use sign_time::ReadMoment;
use std::alloc::Global;

const PLACE: &str = "the answer of STS";

/// The credential that a response grants.
///
/// `PermissionDenied` where its status is 403, `Unexpected` where it is another than 200, with the status in
/// the message. `CredentialInvalid` where one of the four elements of a session's credential is missing, or
/// has not the form of what it is for.
#[tactic(auto, unfolding(crate::specs::RoleAnswer::granted))]
pub(crate) fn granted(alloc: Global, response: &Response<Bytes>) -> Result<SessionCredential, Error>
    ensures ok { IfOk result (λ c. granted response.now ≡ Ok c) }
    ensures err { IfErr result (λ e. IsOutOfMemory e ⊎ (granted response.now ≡ Err e)) }
{
    let status = response.status().as_u16();
    if status != 200 {
        return Err(status_error(alloc, status)?);
    }
    granted_in_xml(alloc, response.body().as_slice())
}

fn status_error(alloc: Global, status: u16) -> Result<Error, NoMemory<()>>
    ensures { IfOk result (λ e. e ≡ status_error status) }
{
    let message = format!(in alloc; "STS answered {status}")?;
    let kind = match status {
        403 => ErrorKind::PermissionDenied,
        _ => ErrorKind::Unexpected,
    };
    Ok(Error::of(kind, message))
}

#[tactic(auto, unfolding(crate::specs::RoleAnswer::granted_in_xml))]
fn granted_in_xml(alloc: Global, xml: &[u8]) -> Result<SessionCredential, Error>
    ensures ok { IfOk result (λ c. granted_in_xml xml.now ≡ Ok c) }
    ensures err { IfErr result (λ e. IsOutOfMemory e ⊎ (granted_in_xml xml.now ≡ Err e)) }
{
    let Some(end) = expiry_in(alloc, xml)? else {
        return Err(not_granted(alloc, "no expiration in ")?);
    };
    with_its_token(alloc, found_until(alloc, end, xml)?)
}

fn expiry_in(alloc: Global, xml: &[u8]) -> Result<Option<Timestamp>, NoMemory<()>>
    ensures { IfOk result (λ end. end ≡ expiry_in xml.now) }
{
    match element_text(alloc, xml, b"/Expiration>")? {
        Some(text) => Ok(Timestamp::parse(alloc, text.as_str()).ok()),
        None => Ok(None),
    }
}

#[tactic(auto, unfolding(crate::specs::RoleAnswer::found_until))]
fn found_until(
    alloc: Global,
    end: Timestamp,
    xml: &[u8],
) -> Result<Option<SessionCredential>, Error>
    ensures { IsFound (found_until end xml.now) result }
{
    let texts = KeyTexts {
        access: element_text(alloc, xml, b"/AccessKeyId>")?,
        secret: element_text(alloc, xml, b"/SecretAccessKey>")?,
        token: element_text(alloc, xml, b"/SessionToken>")?,
    };
    session_in(alloc, PLACE, texts, Some(end))
}

/// The credential that was found, which has to have a token.
fn with_its_token(
    alloc: Global,
    found: Option<SessionCredential>,
) -> Result<SessionCredential, Error>
    ensures ok { IfOk result (λ c. with_its_token (Ok found) ≡ Ok c) }
    ensures err { IfErr result (λ e. IsOutOfMemory e ⊎ (with_its_token (Ok found) ≡ Err e)) }
{
    let Some(session) = found else {
        return Err(not_granted(alloc, "no access key in ")?);
    };
    if session.token().is_none() {
        return Err(not_granted(alloc, "no session token in ")?);
    }
    Ok(session)
}

/// The error with this cause.
fn not_granted(alloc: Global, cause: &str) -> Result<Error, NoMemory<()>>
    ensures { IfOk result (λ e. e ≡ new_error CredentialInvalid (cause.now ++ sts_answer)) }
{
    let mut message = String::from_str(alloc, cause)?;
    message.push_str(PLACE)?;
    Ok(Error::of(ErrorKind::CredentialInvalid, message))
}
