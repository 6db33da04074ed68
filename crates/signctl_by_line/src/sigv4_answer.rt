//! The answer to a line of `sigv4`, added at the end of a text. Where an allocation fails, a part of it may
//! stand there.
ghost use Rattle.std.specs.Prelude.{◌≡◌, ◌++◌, OnOk, IsErr, Err};
ghost use Rattle.line_words.specs.Words.{with_newline};
ghost use Rattle.signctl_by_line.specs.Sigv4Answers.{done_line, signing_line, presigning_line, checked_word};
ghost use Rattle.signctl_by_line.specs.Sigv4Answers.{sigv4_answer};

use crate::sigv4_item::{Asked, Sigv4Item};
use line_words::head_text::push_head;
use line_words::text::push;
use sign_base::{Head, NoMemory};
use sign_request::HeaderSeeds;
use sigv4_core::{KeptKey, SigError, sign_head_kept};
use sigv4_presign::{Checked, PresignError, presign_kept, verify_kept};
use std::alloc::Global;

/// Adds the answer to an item. The key that is kept is taken where it fits, and is the item's from then on.
pub(crate) fn push_answer(
    alloc: Global,
    keys: HeaderSeeds,
    kept: &mut KeptKey,
    item: &Sigv4Item,
    text: &mut Vec<u8>,
) -> Result<(), NoMemory<()>>
    ensures { OnOk result (text.new.items ≡ text.old.items ++ sigv4_answer item.now) }
{
    let Sigv4Item {
        credential,
        scope,
        moment,
        asked,
        head,
    } = item;
    match asked {
        Asked::Sign(payload) => {
            let signed = sign_head_kept(
                alloc, head, credential, scope, payload, *moment, keys, kept,
            );
            push_signed(text, signed)
        }
        Asked::Presign(seconds) => {
            let made = presign_kept(
                alloc, head, credential, scope, *seconds, *moment, keys, kept,
            );
            push_presigned(text, made)
        }
        Asked::Verify => {
            let found = verify_kept(alloc, head, credential, scope, *moment, keys, kept)?;
            push_line(text, checked_word(found))
        }
    }
}

/// Adds the line of a head that was signed, or was not.
fn push_signed(text: &mut Vec<u8>, signed: Result<Head, SigError>) -> Result<(), NoMemory<()>>
    ensures line { OnOk result (text.new.items ≡ text.old.items ++ with_newline (signing_line signed)) }
    ensures memory { signed ≡ Err SigError.OutOfMemory → IsErr result }
{
    match signed {
        Ok(head) => push_done(text, &head),
        Err(SigError::Head) => push_line(text, b"refused head"),
        Err(SigError::Authority) => push_line(text, b"refused authority"),
        Err(SigError::Path) => push_line(text, b"refused path"),
        Err(SigError::Moment) => push_line(text, b"refused moment"),
        Err(SigError::OutOfMemory) => Err(NoMemory { back: () }),
    }
}

/// Adds the line of a head whose link was made, or was not.
fn push_presigned(text: &mut Vec<u8>, made: Result<Head, PresignError>) -> Result<(), NoMemory<()>>
    ensures line { OnOk result (text.new.items ≡ text.old.items ++ with_newline (presigning_line made)) }
    ensures memory { made ≡ Err PresignError.OutOfMemory → IsErr result }
{
    match made {
        Ok(head) => push_done(text, &head),
        Err(PresignError::Head) => push_line(text, b"refused head"),
        Err(PresignError::Authority) => push_line(text, b"refused authority"),
        Err(PresignError::Path) => push_line(text, b"refused path"),
        Err(PresignError::Moment) => push_line(text, b"refused moment"),
        Err(PresignError::Already) => push_line(text, b"refused already"),
        Err(PresignError::Expires) => push_line(text, b"refused expires"),
        Err(PresignError::Link) => push_line(text, b"refused link"),
        Err(PresignError::OutOfMemory) => Err(NoMemory { back: () }),
    }
}

/// The word of what a link was found to be.
fn checked_word(found: Checked) -> &'static [u8]
    ensures { result.now ≡ checked_word found }
{
    match found {
        Checked::Head => b"head",
        Checked::Authority => b"authority",
        Checked::Path => b"path",
        Checked::Shape => b"shape",
        Checked::Credential => b"credential",
        Checked::Early => b"early",
        Checked::Late => b"late",
        Checked::Signature => b"signature",
        Checked::Valid => b"valid",
    }
}

/// Adds the line of a head that is done.
fn push_done(text: &mut Vec<u8>, head: &Head) -> Result<(), NoMemory<()>>
    ensures { OnOk result (text.new.items ≡ text.old.items ++ with_newline (done_line head.now)) }
{
    push(text, b"done")?;
    push_head(text, head)?;
    push(text, b"\n")
}

fn push_line(text: &mut Vec<u8>, line: &[u8]) -> Result<(), NoMemory<()>>
    ensures { OnOk result (text.new.items ≡ text.old.items ++ with_newline line.now) }
{
    push(text, line)?;
    push(text, b"\n")
}
