//! The words that the metadata service of an instance answers.
ghost use Rattle.std.specs.Prelude.{◌≡◌, ◌⊎◌, IfOk, IfErr};
ghost use Rattle.std.specs.List.{list_all};
ghost use Rattle.std.specs.Char.{is_ascii_graphic};
ghost use Rattle.http.specs.Response.{head_of};
ghost use Rattle.aws_json.specs.Reading.{IsReading};
ghost use Rattle.aws_instance.specs.Answers.{word_place, word_in_answer, word_in_body, word_in, trimmed};
ghost use Rattle.aws_instance.specs.Answers.{is_word};
ghost use Rattle.aws_instance.specs.Instance.{IsWordOf, EndsAt};

use aws_credentials::SessionCredential;
use aws_endpoints::answer::body_in;
use aws_endpoints::refused::{failed, refused};
use bytes::Bytes;
use credentials::Polled;
use http::Response;
use sign_base::{Error, Octets};
use std::alloc::Global;

/// What is asked of the service that answers by one word.
#[derive(Clone, Copy, Debug)]
pub(crate) enum AskedWord {
    /// A token, with which all else is asked.
    Token,
    /// The name of the instance's role. That it is not found says that the instance has none.
    Role,
}

impl AskedWord {
    /// What messages call the answer.
    pub(crate) fn place(self) -> &'static str
        ensures { result.now ≡ word_place self }
    {
        match self {
            AskedWord::Token => "the token answer of the instance's endpoint",
            AskedWord::Role => "the role answer of the instance's endpoint",
        }
    }
}

/// The word of a send's answer; or what the load answers where there is none.
pub(crate) fn word_polled(
    alloc: Global,
    asked: AskedWord,
    polled: Polled<Response<Bytes>>,
) -> Result<Octets, Polled<Option<SessionCredential>>>
    ensures ok { IfOk result (IsWordOf (word_in_answer asked) polled) }
    ensures ends { IfErr result (EndsAt (word_in_answer asked) polled) }
{
    match polled {
        Polled::Ready(response) => word_answered(alloc, asked, response),
        Polled::Pending => Err(Polled::Pending),
        Polled::Failed(error) => Err(Polled::Failed(error)),
        Polled::OutOfMemory => Err(Polled::OutOfMemory),
    }
}

fn word_answered(
    alloc: Global,
    asked: AskedWord,
    response: Response<Bytes>,
) -> Result<Octets, Polled<Option<SessionCredential>>>
    ensures ok { IfOk result (IsWordOf (word_in_answer asked) (Polled.Ready response)) }
    ensures ends { IfErr result (EndsAt (word_in_answer asked) (Polled.Ready response)) }
{
    match word_in_answer(alloc, asked, response) {
        Ok(Some(word)) => Ok(word),
        Ok(None) => Err(Polled::Ready(None)),
        Err(error) => Err(failed(error)),
    }
}

/// The word of a response.
fn word_in_answer(
    alloc: Global,
    asked: AskedWord,
    response: Response<Bytes>,
) -> Result<Option<Octets>, Error>
    ensures { IsReading (λ word. word) (word_in_answer asked response) result }
{
    let status = response.status().as_u16();
    match asked {
        AskedWord::Role if status == 404 => {
            drop(response);
            Ok(None)
        }
        _ => word_in_body(alloc, asked, response),
    }
}

fn word_in_body(
    alloc: Global,
    asked: AskedWord,
    response: Response<Bytes>,
) -> Result<Option<Octets>, Error>
    ensures { IsReading (λ word. word) (word_in_body asked response) result }
{
    let body = body_in(alloc, asked.place(), response)?;
    word_in(alloc, asked.place(), body.as_slice())
}

fn word_in(alloc: Global, place: &str, body: &[u8]) -> Result<Option<Octets>, Error>
    ensures { IsReading (λ word. word) (word_in place.now body.now) result }
{
    let word = trimmed(body);
    if !is_word(word) {
        return Err(refused(alloc, "no single word in ", place));
    }
    Ok(Some(Octets::from_slice(alloc, word)?))
}

fn trimmed(text: &[u8]) -> &[u8]
    ensures { result.now ≡ trimmed text.now }
{
    text.trim_ascii()
}

fn is_word(text: &[u8]) -> bool
    ensures { result ≡ is_word text.now }
{
    !text.is_empty() && is_visible(text)
}

fn is_visible(bytes: &[u8]) -> bool
    ensures { result ≡ list_all is_ascii_graphic bytes.now }
{
    bytes.iter().all(|b| b.is_ascii_graphic())
}
