//! The static library: calls for callers that are no Rattle crate. `bindings/c/domreth.h` declares them,
//! and says who owns what.
//!
//! A slice crosses to C as its pointer and then its length, and a `Global` as nothing.
#![tactic(auto)]

ghost use Rattle.signctl_core.specs.Commands.{command_by_word};
ghost use Rattle.domreth_sign.specs.Answers.{signed_lines, signed_lines_with, link_text, link_check};
ghost use Rattle.domreth_sign.specs.DerivedKeys.{derived_bytes};
ghost use Rattle.domreth_c.specs.Call.{IsCall, IsTextCall, IsCheck};

mod desk;
mod refusal_status;
mod room;

use domreth_run::{Answer, HeaderSeeds, NoAnswer};
use domreth_sign::{
    GivenDerived, GivenHead, GivenKey, check_link, derive_key, make_link, sign_lines,
    sign_lines_with,
};
use refusal_status::refusal_status;
use room::{hand_over, status_of};
use std::alloc::Global;

/// Runs the command of this name over the input, and hands its output over where there is room for it.
///
/// The commands are the six that read lines: `script`, `view`, `hmac`, `grant`, `sigv4` and `audit`.
///
/// | status | when | `needed` | `output` begins with |
/// |---|---|---|---|
/// | 0 | all was answered, and no line is bad | the length of the text | the text |
/// | 3 | a line is bad, or the input too long | the length of the text | the text, which ends by saying so |
/// | 5 | the text does not fit | its length | what stood there |
/// | 2 | no command has this name | 0 | what stood there |
/// | 6 | an allocation failed | 0 | what stood there |
///
/// The text is a function of the command and the input, so after 5 a call with that much room does not
/// answer 5. Nothing else in `output` changes.
#[unsafe(no_mangle)]
pub extern "C" fn domreth_run(
    alloc: Global,
    command: &[u8],
    input: &[u8],
    output: &mut [u8],
    needed: &mut usize,
) -> u8
    ensures { IsCall (command_by_word command.now) input.now result
        (record { old = output.old; new = output.new; needed = needed.new }) }
{
    match Answer::of(alloc, command, input, HeaderSeeds::default()) {
        Ok(answer) => hand_over(
            answer.text.as_slice(),
            status_of(answer.is_good),
            output,
            needed,
        ),
        Err(why) => {
            *needed = 0;
            match why {
                NoAnswer::Usage => 2,
                NoAnswer::OutOfMemory => 6,
            }
        }
    }
}

/// Signs a head in its headers, and hands the headers that the signature adds over, a line of HTTP/1.1
/// each: `host` where the head has none, `x-amz-date` and `authorization`. The last two are in the place of
/// those that the head has.
///
/// | status | when | `needed` | `output` begins with |
/// |---|---|---|---|
/// | 0 | the head is signed | the length of the lines | the lines |
/// | 5 | they do not fit | their length | what stood there |
/// | the cause's | there is a cause why not: the first of `Refusal` | 0 | what stood there |
/// | 6 | an allocation failed | 0 | what stood there |
///
/// The payload is the SHA-256 of the content in lower-case hexadecimal, or `UNSIGNED-PAYLOAD`, and the
/// moment is in seconds since the start of 1970. Nothing else in `output` changes.
#[unsafe(no_mangle)]
pub extern "C" fn domreth_sign(
    alloc: Global,
    head: &GivenHead<'_>,
    key: &GivenKey<'_>,
    payload: &[u8],
    second: i64,
    output: &mut [u8],
    needed: &mut usize,
) -> u8
    ensures { IsTextCall (signed_lines head.now key.now payload.now second) result
        (record { old = output.old; new = output.new; needed = needed.new }) }
{
    match sign_lines(alloc, head, key, payload, second) {
        Ok(lines) => hand_over(lines.as_slice(), 0, output, needed),
        Err(why) => {
            *needed = 0;
            refusal_status(why)
        }
    }
}

/// Derives the signing key of the access key's secret for the moment's day, the region and the service, and
/// hands its 32 bytes over, as `domreth_sign` hands its lines over.
///
/// Who has them can sign as who has the secret, for that day, region and service.
#[unsafe(no_mangle)]
pub extern "C" fn domreth_derive_key(
    alloc: Global,
    key: &GivenKey<'_>,
    second: i64,
    output: &mut [u8],
    needed: &mut usize,
) -> u8
    ensures { IsTextCall (derived_bytes key.now second) result
        (record { old = output.old; new = output.new; needed = needed.new }) }
{
    match derive_key(alloc, key, second) {
        Ok(bytes) => hand_over(bytes.as_slice(), 0, output, needed),
        Err(why) => {
            *needed = 0;
            refusal_status(why)
        }
    }
}

/// Does what `domreth_sign` does, under a key that was derived for the moment's day. Whether it was is not
/// asked.
#[unsafe(no_mangle)]
pub extern "C" fn domreth_sign_with(
    alloc: Global,
    head: &GivenHead<'_>,
    derived: &GivenDerived<'_>,
    payload: &[u8],
    second: i64,
    output: &mut [u8],
    needed: &mut usize,
) -> u8
    ensures { IsTextCall (signed_lines_with head.now derived.now payload.now second) result
        (record { old = output.old; new = output.new; needed = needed.new }) }
{
    match sign_lines_with(alloc, head, derived, payload, second) {
        Ok(lines) => hand_over(lines.as_slice(), 0, output, needed),
        Err(why) => {
            *needed = 0;
            refusal_status(why)
        }
    }
}

/// Makes a link by which who has it can send this request for so many seconds, and hands it over, as
/// `domreth_sign` hands its lines over.
#[unsafe(no_mangle)]
pub extern "C" fn domreth_presign(
    alloc: Global,
    head: &GivenHead<'_>,
    key: &GivenKey<'_>,
    expires: u32,
    second: i64,
    output: &mut [u8],
    needed: &mut usize,
) -> u8
    ensures { IsTextCall (link_text head.now key.now expires second) result
        (record { old = output.old; new = output.new; needed = needed.new }) }
{
    match make_link(alloc, head, key, expires, second) {
        Ok(link) => hand_over(link.as_slice(), 0, output, needed),
        Err(why) => {
            *needed = 0;
            refusal_status(why)
        }
    }
}

/// Checks the head's URI as a link of this key at the moment. The status is 0 where it is valid, 6 where an
/// allocation failed, and else that of the first cause of `Refusal` that holds.
#[unsafe(no_mangle)]
pub extern "C" fn domreth_verify(
    alloc: Global,
    head: &GivenHead<'_>,
    key: &GivenKey<'_>,
    second: i64,
) -> u8
    ensures { IsCheck (link_check head.now key.now second) result }
{
    match check_link(alloc, head, key, second) {
        Ok(()) => 0,
        Err(why) => refusal_status(why),
    }
}
