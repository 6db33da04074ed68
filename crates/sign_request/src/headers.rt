//! The headers that a view stages, as a service reads them.
ghost use Rattle.std.specs.Prelude.{◌≡◌, ◌⊎◌, ◌+◌, ◌≤◌, ◌++◌, ◌∷◌, [], IfOk, IfErr};
ghost use Rattle.std.specs.Prelude.{OnOk, OnErr, length, map, nat_eq, slice_range};
ghost use Rattle.std.specs.List.{prefix_len, suffix_len, starts_with};
ghost use Rattle.http_header.specs.HeaderMap.{pairs};
ghost use Rattle.http_header.specs.FieldValue.{IsVisibleAscii, plain_value};
ghost use Rattle.sign_request.specs.Query.{text_pair, text_pairs};
ghost use Rattle.sign_request.specs.Headers.{first_value, sorted_names, header_pair, with_prefix};
ghost use Rattle.sign_request.specs.Headers.{AreVisible, is_blank, trimmed_value};
ghost use Rattle.sign_request.specs.Refusal.{IsOutOfMemory, RefusedFor, invalid_value};

use crate::SigningRequest;
use crate::pair::push_texts;
use crate::refusal::refusal;
use http::header::{HeaderName, HeaderValue};
use sign_base::{Error, NoMemory};

const INVALID_VALUE: &str = "invalid header value";

impl SigningRequest {
    /// The first value under a name, or the empty text.
    ///
    /// `RequestInvalid` where that value has a byte other than tab and 0x20 to 0x7e.
    pub fn header_get_or_default(&self, key: &HeaderName) -> Result<&str, Error>
        ensures ok { IfOk result (λ text. text.now ≡ first_value self.now.headers key.now) }
        ensures visible { OnOk result (IsVisibleAscii (first_value self.now.headers key.now)) }
        ensures err { IfErr result (λ e. IsOutOfMemory e ⊎ RefusedFor invalid_value
            (¬ (IsVisibleAscii (first_value self.now.headers key.now))) e) }
    {
        match self.headers.get(key) {
            Some(value) => match value.to_str() {
                Ok(text) => Ok(text),
                Err(_) => Err(refusal(*self.query.allocator(), INVALID_VALUE)),
            },
            None => Ok(""),
        }
    }

    /// Cuts the spaces at the ends of a value; tabs stay, and a value of spaces alone does. The
    /// value is made anew, so a mark that kept it out of logs is gone.
    ///
    /// Without memory the value stays as it was.
    pub fn header_value_normalize(v: &mut HeaderValue) -> Result<(), NoMemory<()>>
        ensures ok { OnOk result (v.new ≡ plain_value (trimmed_value v.old.bytes)) }
        ensures unchanged { OnErr result (v.new ≡ v.old) }
    {
        let (start, end) = trimmed_range(v.as_bytes());
        let bytes = v.as_shared().slice(start..end)?;
        *v = HeaderValue::from_known_valid(bytes);
        Ok(())
    }

    /// Each name of the headers once, sorted.
    pub fn header_name_to_vec_sorted(&self) -> Result<Vec<&str>, NoMemory<()>>
        ensures { IfOk result (λ names. map (λ name. name.now) names.items
            ≡ sorted_names self.now.headers) }
    {
        let mut names = Vec::with_capacity(*self.query.allocator(), self.headers.keys_len())?;
        for name in self.headers.keys() {
            names.push(name.as_str())?;
        }
        names.sort_unstable();
        Ok(names)
    }

    /// The headers whose name, which is in lower case, begins with the prefix, in the map's order.
    ///
    /// `RequestInvalid` where a value of one of them has a byte other than tab and 0x20 to 0x7e.
    pub fn header_to_vec_with_prefix(&self, prefix: &str) -> Result<Vec<(String, String)>, Error>
        ensures ok { IfOk result (λ found. text_pairs found.items
            ≡ map header_pair (with_prefix prefix.now (pairs self.now.headers))) }
        ensures visible { OnOk result (AreVisible (with_prefix prefix.now (pairs self.now.headers))) }
        ensures err { IfErr result (λ e. IsOutOfMemory e ⊎ RefusedFor invalid_value
            (¬ (AreVisible (with_prefix prefix.now (pairs self.now.headers)))) e) }
    {
        let mut found = Vec::new(*self.query.allocator());
        for (name, value) in self.headers.iter() {
            push_with_prefix(&mut found, name, value, prefix)?;
        }
        Ok(found)
    }
}

/// Appends the header if its name begins with the prefix.
fn push_with_prefix(
    found: &mut Vec<(String, String)>,
    name: &HeaderName,
    value: &HeaderValue,
    prefix: &str,
) -> Result<(), Error>
    ensures ok { OnOk result (text_pairs found.new.items ≡ text_pairs found.old.items
        ++ map header_pair (with_prefix prefix.now ((name.now, value.now) ∷ []))) }
    ensures visible { OnOk result (AreVisible (with_prefix prefix.now
        ((name.now, value.now) ∷ []))) }
    ensures err { IfErr result (λ e. IsOutOfMemory e ⊎ RefusedFor invalid_value
        (¬ (AreVisible (with_prefix prefix.now ((name.now, value.now) ∷ [])))) e) }
{
    if !has_prefix(name, prefix) {
        return Ok(());
    }
    match value.to_str() {
        Ok(text) => Ok(push_texts(found, name.as_str(), text)?),
        Err(_) => Err(refusal(*found.allocator(), INVALID_VALUE)),
    }
}

fn has_prefix(name: &HeaderName, prefix: &str) -> bool
    ensures { result ≡ starts_with nat_eq name.now prefix.now }
{
    name.as_str().starts_with(prefix)
}

/// Where a value begins and ends without the spaces at its ends.
fn trimmed_range(bytes: &[u8]) -> (usize, usize)
    ensures cut { slice_range bytes.now result.0 result.1 ≡ trimmed_value bytes.now }
    ensures start { result.0 ≤ result.1 }
    ensures end { result.1 ≤ length bytes.now }
{
    let start = leading_spaces(bytes);
    if start == bytes.len() {
        (0, bytes.len())
    } else {
        (start, end_before_spaces(bytes))
    }
}

fn leading_spaces(bytes: &[u8]) -> usize
    ensures value { result ≡ prefix_len is_blank bytes.now }
    ensures within { result ≤ length bytes.now }
{
    bytes.iter().take_while(|b| **b == b' ').count()
}

fn end_before_spaces(bytes: &[u8]) -> usize
    ensures { result + suffix_len is_blank bytes.now ≡ length bytes.now }
{
    let mut end = bytes.len();
    while end > 0 && bytes[end - 1] == b' ' {
        end -= 1;
    }
    end
}
