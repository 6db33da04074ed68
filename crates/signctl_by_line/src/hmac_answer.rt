//! The answer to a line of `hmac`, added at the end of a text. Where an allocation fails, a part of
//! it may stand there.
ghost use Rattle.std.specs.Prelude.{◌≡◌, ◌++◌, IsTrue, IfOk, OnOk, codes};
ghost use Rattle.std.specs.List.{list_all};
ghost use Rattle.std.specs.String.{string_bytes};
ghost use Rattle.base64.specs.Engines.{standard};
ghost use Rattle.base64.specs.GeneralPurpose.{decode_of};
ghost use Rattle.line_words.specs.Bytes.{is_visible};
ghost use Rattle.line_words.specs.Words.{with_newline};
ghost use Rattle.signctl_by_line.specs.BytesWords.{text_word};
ghost use Rattle.signctl_by_line.specs.HmacGrammar.{IsHmacItem};
ghost use Rattle.signctl_by_line.specs.HmacAnswers.{unkeyed_text, keyed_text, decoded_word, hmac_answer};

use crate::{HmacItem, KeyedCall, UnkeyedCall};
use hmac_core::hash;
use sign_base::{ErrorKind, NoMemory};
use std::alloc::Global;
use std::str;

/// Adds the answer to an item.
pub(crate) fn push_answer(
    alloc: Global,
    item: &HmacItem,
    text: &mut Vec<u8>,
) -> Result<(), NoMemory<()>>
    requires { IsHmacItem item.now }
    ensures { OnOk result (text.new.items ≡ text.old.items ++ hmac_answer item.now) }
{
    match item {
        HmacItem::Unkeyed { call, content } => {
            push_line(
                text,
                unkeyed_text(alloc, *call, content.as_slice())?.as_bytes(),
            )
        }
        HmacItem::Keyed { call, key, content } => push_line(
            text,
            keyed_text(alloc, *call, key.as_slice(), content.as_slice())?.as_bytes(),
        ),
        HmacItem::Base64Decode { content } => push_decoded(alloc, content.as_slice(), text),
    }
}

/// The text that a call gives.
fn unkeyed_text(alloc: Global, call: UnkeyedCall, content: &[u8]) -> Result<String, NoMemory<()>>
    ensures { IfOk result (λ text. string_bytes text ≡ unkeyed_text call content.now) }
{
    match call {
        UnkeyedCall::Base64Encode => hash::base64_encode(alloc, content),
        UnkeyedCall::HexSha1 => hash::hex_sha1(alloc, content),
        UnkeyedCall::HexSha256 => hash::hex_sha256(alloc, content),
    }
}

/// The text that a call gives, or its bytes in hexadecimal.
fn keyed_text(
    alloc: Global,
    call: KeyedCall,
    key: &[u8],
    content: &[u8],
) -> Result<String, NoMemory<()>>
    ensures { IfOk result (λ text. string_bytes text ≡ keyed_text call key.now content.now) }
{
    match call {
        KeyedCall::HmacSha256 => {
            Ok(hex::encode(alloc, hash::hmac_sha256(alloc, key, content)?.as_slice())?)
        }
        KeyedCall::HexHmacSha1 => hash::hex_hmac_sha1(alloc, key, content),
        KeyedCall::HexHmacSha256 => hash::hex_hmac_sha256(alloc, key, content),
        KeyedCall::Base64HmacSha1 => hash::base64_hmac_sha1(alloc, key, content),
        KeyedCall::Base64HmacSha256 => hash::base64_hmac_sha256(alloc, key, content),
    }
}

/// Adds the line of the bytes of a text in Base64.
fn push_decoded(alloc: Global, content: &[u8], text: &mut Vec<u8>) -> Result<(), NoMemory<()>>
    requires { IsTrue (list_all is_visible content.now) }
    ensures { OnOk result
        (text.new.items ≡ text.old.items ++ with_newline (decoded_word (decode_of standard content.now))) }
{
    let Ok(content) = str::from_utf8(content) else {
        unreachable!()
    };
    match hash::base64_decode(alloc, content) {
        Ok(bytes) => push_line(text, hex::encode(alloc, bytes.as_slice())?.as_bytes()),
        Err(error) if error.kind() == ErrorKind::OutOfMemory => Err(NoMemory { back: () }),
        Err(_) => push_line(text, b"refused"),
    }
}

/// Adds a line, which is `-` where it would be empty.
fn push_line(text: &mut Vec<u8>, line: &[u8]) -> Result<(), NoMemory<()>>
    ensures { OnOk result (text.new.items ≡ text.old.items ++ with_newline (text_word line.now)) }
{
    if line.is_empty() {
        text.push(b'-')?;
    } else {
        text.extend_from_slice(line)?;
    }
    text.push(b'\n')?;
    Ok(())
}
