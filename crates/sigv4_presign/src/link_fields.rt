//! What the query of a link says.
ghost use Rattle.std.specs.Prelude.{◌≡◌, IfOk, option_map, string_bytes};
ghost use Rattle.sigv4_presign.specs.LinkPieces.{keyed_pieces, value_in, is_value};
ghost use Rattle.sigv4_presign.specs.LinkFields.{GivesAll, GivesValues, GivesFields};

use crate::link_date::{expires_of_text, moment_of_text};
use crate::link_query::{
    ALGORITHM, CREDENTIAL, DATE, EXPIRES, Piece, SIGNATURE, SIGNED_HEADERS, only_value, pieces_of,
    unsigned_query,
};
use sign_base::{NoMemory, Timestamp};
use std::alloc::{AllocError, Global};

/// What a link says of itself, and the query that its signature is to be of.
#[derive(Drop)]
pub(crate) struct LinkFields {
    pub credential: String,
    pub date: Timestamp,
    /// The seconds that it is good for.
    pub expires: u32,
    pub signature: String,
    pub unsigned: Vec<u8>,
}

/// The values of a link that differ from link to link.
#[derive(Drop)]
struct LinkValues {
    credential: String,
    date: String,
    expires: String,
    signature: String,
}

/// The fields of a query, if it is that of a link.
pub(crate) fn read_fields(alloc: Global, query: &str) -> Result<Option<LinkFields>, NoMemory<()>>
    ensures { IfOk result (GivesFields query.now) }
{
    let pieces = pieces_of(alloc, query)?;
    let Some(values) = link_values(alloc, pieces.as_slice())? else {
        return Ok(None);
    };
    let Some(date) = moment_of_text(alloc, values.date.as_bytes())? else {
        return Ok(None);
    };
    let Some(expires) = expires_of_text(alloc, values.expires.as_bytes())? else {
        return Ok(None);
    };
    Ok(Some(LinkFields {
        credential: values.credential,
        date,
        expires,
        signature: values.signature,
        unsigned: unsigned_query(alloc, pieces.as_slice())?,
    }))
}

/// The values, where each of the six names stands once, and algorithm and headers are those of a link.
fn link_values(alloc: Global, pieces: &[Piece<'_>]) -> Result<Option<LinkValues>, AllocError>
    ensures { IfOk result (GivesValues (keyed_pieces pieces.now)) }
{
    if !has_value(alloc, pieces, ALGORITHM, "AWS4-HMAC-SHA256")? {
        return Ok(None);
    }
    if !has_value(alloc, pieces, SIGNED_HEADERS, "host")? {
        return Ok(None);
    }
    Ok(all_values(
        only_value(alloc, pieces, CREDENTIAL)?,
        only_value(alloc, pieces, DATE)?,
        only_value(alloc, pieces, EXPIRES)?,
        only_value(alloc, pieces, SIGNATURE)?,
    ))
}

fn all_values(
    credential: Option<String>,
    date: Option<String>,
    expires: Option<String>,
    signature: Option<String>,
) -> Option<LinkValues>
    ensures { GivesAll (option_map string_bytes credential) (option_map string_bytes date)
        (option_map string_bytes expires) (option_map string_bytes signature) result }
{
    Some(LinkValues {
        credential: credential?,
        date: date?,
        expires: expires?,
        signature: signature?,
    })
}

/// Whether a name stands once and has this value.
fn has_value(
    alloc: Global,
    pieces: &[Piece<'_>],
    name: &str,
    wanted: &str,
) -> Result<bool, AllocError>
    ensures { IfOk result (λ has. has
        ≡ is_value wanted.now (value_in name.now (keyed_pieces pieces.now))) }
{
    match only_value(alloc, pieces, name)? {
        Some(value) => Ok(value.as_str() == wanted),
        None => Ok(false),
    }
}
