//! A head that is given, as one to sign.
ghost use Rattle.std.specs.Prelude.{◌≡◌, IfOk, map};
ghost use Rattle.domreth_sign.specs.Given.{version_numbered, field_given, head_given};

use crate::given::{GivenField, GivenHead};
use sign_base::{Field, Fields, Head, NoMemory, Octets, Version};
use std::alloc::Global;

/// The version of HTTP with this number, if there is one.
pub(crate) fn version_numbered(number: u8) -> Option<Version>
    ensures { result ≡ version_numbered number }
{
    match number {
        9 => Some(Version::V09),
        10 => Some(Version::V10),
        11 => Some(Version::V11),
        20 => Some(Version::V2),
        30 => Some(Version::V3),
        _ => None,
    }
}

/// The head, in this version.
pub(crate) fn head_given(
    alloc: Global,
    head: &GivenHead<'_>,
    version: Version,
) -> Result<Head, NoMemory<()>>
    ensures { IfOk result (λ h. h ≡ head_given head.now version) }
{
    Ok(Head {
        method: Octets::from_slice(alloc, head.method)?,
        uri: Octets::from_slice(alloc, head.uri)?,
        version,
        headers: fields_given(alloc, head.headers)?,
    })
}

fn fields_given(alloc: Global, headers: &[GivenField<'_>]) -> Result<Fields, NoMemory<()>>
    ensures { IfOk result (λ fields. fields ≡ map field_given headers.now) }
{
    let mut fields = Vec::with_capacity(alloc, headers.len())?;
    for header in headers {
        fields.push(field_given(alloc, header)?)?;
    }
    Ok(Fields::from_vec(fields))
}

fn field_given(alloc: Global, header: &GivenField<'_>) -> Result<Field, NoMemory<()>>
    ensures { IfOk result (λ field. field ≡ field_given header.now) }
{
    Ok(Field {
        name: Octets::from_slice(alloc, header.name)?,
        value: Octets::from_slice(alloc, header.value)?,
    })
}
