//! The header that has the token of a session.
ghost use Rattle.std.specs.Prelude.{◌≡◌, ◌++◌, ◌∷◌, [], OnOk, not, filter, option_map};
ghost use Rattle.sigv4_core.specs.SignedHead.{field, is_named};
ghost use Rattle.aws_service.specs.SessionHead.{token_name, token_headers, with_token};

use sign_base::{Field, NoMemory, Octets};
use std::alloc::Global;

const TOKEN: &[u8] = b"x-amz-security-token";

/// Puts this token behind, in place of any that the headers have.
pub(crate) fn replace_token(
    alloc: Global,
    token: Option<&[u8]>,
    headers: &mut Vec<Field>,
) -> Result<(), NoMemory<()>>
    ensures { OnOk result (headers.new.items
        ≡ with_token (option_map (λ t. t.now) token.entry) headers.old.items) }
{
    remove_token(headers);
    match token {
        Some(token) => push_token(alloc, token, headers),
        None => Ok(()),
    }
}

fn push_token(alloc: Global, token: &[u8], headers: &mut Vec<Field>) -> Result<(), NoMemory<()>>
    ensures { OnOk result (headers.new.items ≡ headers.old.items ++ field token_name token.now ∷ []) }
{
    headers.push(Field {
        name: Octets::from_slice(alloc, TOKEN)?,
        value: Octets::from_slice(alloc, token)?,
    })?;
    Ok(())
}

fn remove_token(headers: &mut Vec<Field>)
    ensures { headers.new.items ≡ filter (λ f. not (is_named token_name f)) headers.old.items }
{
    headers.retain(|field| !is_token(field));
}

fn is_token(field: &Field) -> bool
    ensures { result ≡ is_named token_name field.now }
{
    field.name.as_slice().eq_ignore_ascii_case(TOKEN)
}
