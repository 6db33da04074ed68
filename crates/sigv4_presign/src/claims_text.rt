//! Whom the credential of a link names.
ghost use Rattle.std.specs.Prelude.{◌≡◌, IfOk, bytes_eq};
ghost use Rattle.std.specs.Char.{is_ascii_graphic};
ghost use Rattle.std.specs.List.{list_all};
ghost use Rattle.sign_base.specs.Moment.{IsMoment};
ghost use Rattle.sign_time.specs.Calendar.{IsFourDigitYear};
ghost use Rattle.sigv4_core.specs.Signature.{date_of};
ghost use Rattle.sigv4_presign.specs.LinkClaims.{GivesParts, GivesScope, GivesSigner, is_access};

use crate::last_cut::cut_at_last;
use sign_base::{ErrorKind, NoMemory, Octets, Timestamp};
use sign_time::FormatMoment;
use sigv4_core::SigScope;
use std::alloc::Global;

/// An access key and a scope.
#[derive(Drop)]
pub(crate) struct LinkSigner {
    pub access: Octets,
    pub scope: SigScope,
}

/// What stands between the slashes of a credential.
#[derive(Clone, Copy)]
struct CredentialParts<'a> {
    access: &'a [u8],
    day: &'a [u8],
    region: &'a [u8],
    service: &'a [u8],
}

/// The access key and the scope that a text names on the day of this moment, if it names any.
pub(crate) fn signer_of(
    alloc: Global,
    text: &[u8],
    date: Timestamp,
) -> Result<Option<LinkSigner>, NoMemory<()>>
    requires moment { IsMoment date }
    requires year { IsFourDigitYear date }
    ensures { IfOk result (GivesSigner text.now date) }
{
    let Some(parts) = parts_of(text) else {
        return Ok(None);
    };
    if !is_day_of(alloc, parts.day, date)? {
        return Ok(None);
    }
    if !is_access(parts.access) {
        return Ok(None);
    }
    let Some(scope) = scope_of(alloc, parts.region, parts.service)? else {
        return Ok(None);
    };
    let access = Octets::from_slice(alloc, parts.access)?;
    Ok(Some(LinkSigner { access, scope }))
}

/// The parts of a credential, cut from its end: its access key may have a slash.
fn parts_of(text: &[u8]) -> Option<CredentialParts<'_>>
    ensures { GivesParts text.now result }
{
    let (rest, last) = cut_at_last(text, b'/')?;
    if last != b"aws4_request".as_slice() {
        return None;
    }
    let (rest, service) = cut_at_last(rest, b'/')?;
    let (rest, region) = cut_at_last(rest, b'/')?;
    let (access, day) = cut_at_last(rest, b'/')?;
    Some(CredentialParts {
        access,
        day,
        region,
        service,
    })
}

/// Whether the text is the day of this moment.
fn is_day_of(alloc: Global, text: &[u8], date: Timestamp) -> Result<bool, NoMemory<()>>
    requires { IsFourDigitYear date }
    ensures { IfOk result (λ same. same ≡ bytes_eq text.now (date_of date)) }
{
    let day = date.format_date(alloc)?;
    Ok(text == day.as_bytes())
}

/// Whether a credential may have this access key.
fn is_access(access: &[u8]) -> bool
    ensures { result ≡ is_access access.now }
{
    !access.is_empty() && is_visible(access)
}

fn is_visible(bytes: &[u8]) -> bool
    ensures { result ≡ list_all is_ascii_graphic bytes.now }
{
    bytes.iter().all(|b| b.is_ascii_graphic())
}

/// The scope of a region and a service, if a scope may have them.
fn scope_of(alloc: Global, region: &[u8], service: &[u8]) -> Result<Option<SigScope>, NoMemory<()>>
    ensures { IfOk result (GivesScope region.now service.now) }
{
    match SigScope::new(alloc, region, service) {
        Ok(scope) => Ok(Some(scope)),
        Err(error) if error.kind() == ErrorKind::OutOfMemory => Err(NoMemory { back: () }),
        Err(_) => Ok(None),
    }
}
