//! The requests that ask the metadata service of an instance.
ghost use Rattle.std.specs.Prelude.{◌≡◌, ◌++◌, ◌∷◌, [], IfOk};
ghost use Rattle.aws_instance.specs.Requests.{token_head, role_head, credential_head, metadata_head};

use sign_base::{Field, Fields, Head, NoMemory, Octets, Version};
use std::alloc::Global;

const TOKEN_PATH: &[u8] = b"/latest/api/token";

const CREDENTIALS_PATH: &[u8] = b"/latest/meta-data/iam/security-credentials/";

/// Asks for a token that lasts six hours.
pub(crate) fn token_head(alloc: Global, root: &Octets) -> Result<Head, NoMemory<()>>
    ensures { IfOk result (λ head. head ≡ token_head root.now) }
{
    Ok(Head {
        method: Octets::from_slice(alloc, b"PUT")?,
        uri: joined(alloc, root.as_slice(), TOKEN_PATH)?,
        version: Version::V11,
        headers: one_field(alloc, b"x-aws-ec2-metadata-token-ttl-seconds", b"21600")?,
    })
}

/// Asks for the name of the instance's role.
pub(crate) fn role_head(alloc: Global, root: &Octets, token: &Octets) -> Result<Head, NoMemory<()>>
    ensures { IfOk result (λ head. head ≡ role_head root.now token.now) }
{
    let uri = joined(alloc, root.as_slice(), CREDENTIALS_PATH)?;
    metadata_head(alloc, uri, token)
}

/// Asks for the credential of a role.
pub(crate) fn credential_head(
    alloc: Global,
    root: &Octets,
    token: &Octets,
    role: &Octets,
) -> Result<Head, NoMemory<()>>
    ensures { IfOk result (λ head. head ≡ credential_head root.now token.now role.now) }
{
    let list = joined(alloc, root.as_slice(), CREDENTIALS_PATH)?;
    let uri = joined(alloc, list.as_slice(), role.as_slice())?;
    metadata_head(alloc, uri, token)
}

fn metadata_head(alloc: Global, uri: Octets, token: &Octets) -> Result<Head, NoMemory<()>>
    ensures { IfOk result (λ head. head ≡ metadata_head uri token.now) }
{
    Ok(Head {
        method: Octets::from_slice(alloc, b"GET")?,
        uri,
        version: Version::V11,
        headers: one_field(alloc, b"x-aws-ec2-metadata-token", token.as_slice())?,
    })
}

fn joined(alloc: Global, start: &[u8], end: &[u8]) -> Result<Octets, NoMemory<()>>
    ensures { IfOk result (λ all. all ≡ start.now ++ end.now) }
{
    let mut all = Vec::from_slice(alloc, start)?;
    all.extend_from_slice(end)?;
    Ok(Octets::from_vec(all))
}

fn one_field(alloc: Global, name: &[u8], value: &[u8]) -> Result<Fields, NoMemory<()>>
    ensures { IfOk result (λ fields. fields ≡ record { name = name.now; value = value.now } ∷ []) }
{
    let mut fields = Vec::with_capacity(alloc, 1)?;
    fields.push(Field {
        name: Octets::from_slice(alloc, name)?,
        value: Octets::from_slice(alloc, value)?,
    })?;
    Ok(Fields::from_vec(fields))
}
