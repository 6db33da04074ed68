//! Secrets in debug texts. What is not to be shown is left out when a `Redact` is made, so nothing that
//! prints it can print more, whatever the formatter.
ghost use Rattle.std.specs.Prelude.{◌≡◌, ◌++◌, Some, codes, option_map};
ghost use Rattle.std.specs.Fmt.{DisplaysOnOk, WritesStyledOnOk};
ghost use Rattle.std.specs.String.{string_bytes};
ghost use Rattle.sign_base.specs.Error.{text_or_empty};
ghost use Rattle.sign_base.specs.Redact.{redacted_text, shown_ends};

use std::fmt;
use std::marker::Model;

/// What is shown of a secret: `EMPTY` where it is empty, its first and last three bytes round `***` where
/// it has at least twelve bytes and these cuts fall between characters, and `***` alone otherwise. Of
/// a secret of twelve bytes that is half: use it where that much may be known.
///
/// It holds what it shows and no more of the secret. A width is ignored.
#[derive(Drop)]
pub struct Redact<'a> {
    front: &'a str,
    middle: &'a str,
    back: &'a str,
}

impl<'a> Model for Redact<'a> {
    ghost use Rattle.std.specs.Prelude.{ℕ, List, ◌++◌};

    ghost Value = { List ℕ };

    ghost view = { λ r. r.front.now ++ (r.middle.now ++ r.back.now) };
}

impl<'a> From<&'a str> for Redact<'a> {
    ghost from_gives = { λ text r. r ≡ redacted_text text.now };

    fn from(value: &'a str) -> Redact<'a> {
        redacted(value)
    }
}

impl<'a> From<&'a String> for Redact<'a> {
    ghost from_gives = { λ text r. r ≡ redacted_text (string_bytes text.now) };

    fn from(value: &'a String) -> Redact<'a> {
        redacted(value.as_str())
    }
}

impl<'a> From<&'a Option<String>> for Redact<'a> {
    ghost from_gives = { λ text r. r ≡ redacted_text (text_or_empty text.now) };

    fn from(value: &'a Option<String>) -> Redact<'a> {
        match value {
            Some(text) => redacted(text.as_str()),
            None => redacted(""),
        }
    }
}

impl fmt::Debug for Redact<'_> {
    ghost debug_output = { λ r. Some r };

    fn fmt<W: fmt::Write>(&self, f: &mut fmt::Formatter<W>) -> fmt::Result
        ensures writes { DisplaysOnOk W.write_str_gives f.old result (Some self.now) f.new }
        ensures styled { WritesStyledOnOk W.write_str_gives f.old result self.now f.new }
    {
        f.write_str(self.front)?;
        f.write_str(self.middle)?;
        f.write_str(self.back)
    }
}

/// What is shown of a secret.
fn redacted(text: &str) -> Redact<'_>
    ensures { result ≡ redacted_text text.now }
{
    if text.is_empty() {
        return shown("", "EMPTY", "");
    }
    match shown_ends(text) {
        Some((front, back)) => shown(front, "***", back),
        None => shown("", "***", ""),
    }
}

fn shown<'a>(front: &'a str, middle: &'a str, back: &'a str) -> Redact<'a>
    ensures { result ≡ front.now ++ (middle.now ++ back.now) }
{
    Redact {
        front,
        middle,
        back,
    }
}

/// The ends of a secret that are shown.
fn shown_ends(text: &str) -> Option<(&str, &str)>
    ensures { option_map (λ ends. (ends.0.now, ends.1.now)) result ≡ shown_ends text.now }
{
    if text.len() < 12 {
        return None;
    }
    let (front, _) = text.split_at_checked(3)?;
    let (_, back) = text.split_at_checked(text.len() - 3)?;
    Some((front, back))
}
