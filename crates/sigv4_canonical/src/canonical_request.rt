//! The canonical request: what is signed of a request.
ghost use Rattle.std.specs.Prelude.{◌≡◌, ◌++◌, ◌∷◌, [], IfOk, OnOk};
ghost use Rattle.sign_base.specs.Bytes.{newline};
ghost use Rattle.sigv4_canonical.specs.CanonicalRequest.{canonical_request};
ghost use Rattle.sigv4_canonical.specs.CanonicalHeaders.{signed_headers};

use crate::headers::canonical_headers;
use crate::path::canonical_path;
use crate::query::canonical_query;
use sign_base::{Fields, NoMemory, Octets};
use std::alloc::{AllocError, Global};

/// Room for the method, the names, the word and the ends of the lines of most requests.
const ROOM: usize = 256;

/// A canonical request, and the names of its headers joined by `;`.
#[derive(Drop)]
pub struct CanonicalTexts {
    pub request: Vec<u8>,
    pub names: Vec<u8>,
}

/// The canonical request: method, path, query, headers, the names of the headers, and the word for the
/// payload, a line each.
pub fn canonical(
    alloc: Global,
    method: &[u8],
    path: &[u8],
    query: &[u8],
    fields: &Fields,
    word: &[u8],
) -> Result<Octets, NoMemory<()>>
    ensures { IfOk result (λ text. text
        ≡ canonical_request method.now path.now query.now fields.now word.now) }
{
    let texts = canonical_texts(alloc, method, path, query, fields, word)?;
    Ok(Octets::from_vec(texts.request))
}

/// The same, and the names of its headers, which a signature says beside it.
#[tactic(auto, unfolding(crate::specs::CanonicalRequest::canonical_request))]
pub fn canonical_texts(
    alloc: Global,
    method: &[u8],
    path: &[u8],
    query: &[u8],
    fields: &Fields,
    word: &[u8],
) -> Result<CanonicalTexts, NoMemory<()>>
    ensures request { IfOk result (λ texts. texts.request.items
        ≡ canonical_request method.now path.now query.now fields.now word.now) }
    ensures names { IfOk result (λ texts. texts.names.items ≡ signed_headers fields.now) }
{
    let path = canonical_path(alloc, path)?;
    let query = canonical_query(alloc, query)?;
    let headers = canonical_headers(alloc, fields)?;
    let room = ROOM
        .saturating_add(path.len())
        .saturating_add(query.len())
        .saturating_add(headers.lines.len());
    let mut request = Vec::with_capacity(alloc, room)?;
    push_line(&mut request, method)?;
    push_line(&mut request, path.as_bytes())?;
    push_line(&mut request, query.as_slice())?;
    push_line(&mut request, headers.lines.as_slice())?;
    push_line(&mut request, headers.names.as_slice())?;
    request.extend_from_slice(word)?;
    Ok(CanonicalTexts {
        request,
        names: headers.names,
    })
}

fn push_line(text: &mut Vec<u8>, line: &[u8]) -> Result<(), AllocError>
    ensures { OnOk result (text.new.items ≡ text.old.items ++ (line.now ++ newline ∷ [])) }
{
    text.extend_from_slice(line)?;
    text.push(b'\n')?;
    Ok(())
}
