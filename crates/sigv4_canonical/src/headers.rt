//! The headers of a canonical request: one line for each name, and the names.
//!
//! The headers are sorted by name, those of one name in their order, and then written name by name. The
//! names in lower case stand in one text, of which each header has its part.
ghost use Rattle.std.specs.Prelude.{◌≡◌, ◌++◌, ◌∷◌, ◌<◌, ◌≤◌, [], false, IfOk, OnOk, length, map, take, drop};
ghost use Rattle.http_header.specs.Token.{lowercase};
ghost use Rattle.sign_request.specs.KeyOrder.{Ascends, key_cmp, BeginsWithKey};
ghost use Rattle.sigv4_canonical.specs.CanonicalHeaders.{header_of, canonical_headers, signed_headers};
ghost use Rattle.sigv4_canonical.specs.CanonicalHeaders.{single_spaced};
ghost use Rattle.sigv4_canonical.specs.SortedHeaders.{named_values, values_text, AreSorted, first_name};
ghost use Rattle.sigv4_canonical.specs.SortedHeaders.{names_text, lines_in, group_line, lowercase_names};
ghost use Rattle.sigv4_canonical.specs.SingleSpaced.{is_single_spaced};

use sign_base::{Fields, NoMemory};
use std::alloc::{AllocError, Global};

/// The lines of the headers, and their names joined by `;`.
#[derive(Drop)]
pub(crate) struct HeaderTexts {
    pub lines: Vec<u8>,
    pub names: Vec<u8>,
}

/// A header: its name in lower case, and its value.
#[derive(Drop)]
struct NamedValue<'a> {
    name: &'a [u8],
    value: &'a [u8],
}

/// The canonical texts of the headers.
pub(crate) fn canonical_headers(alloc: Global, fields: &Fields) -> Result<HeaderTexts, NoMemory<()>>
    ensures lines { IfOk result (λ texts. texts.lines.items ≡ canonical_headers fields.now) }
    ensures names { IfOk result (λ texts. texts.names.items ≡ signed_headers fields.now) }
{
    let names = lowercase_names(alloc, fields)?;
    let headers = sorted_headers(alloc, fields, names.as_slice())?;
    let mut texts = HeaderTexts {
        lines: Vec::with_capacity(alloc, lines_room(fields))?,
        names: Vec::with_capacity(alloc, names_room(fields))?,
    };
    push_headers(headers.as_slice(), &mut texts)?;
    Ok(texts)
}

/// Room for the names of headers, each with a byte behind it.
fn names_room(fields: &Fields) -> usize {
    let mut room: usize = 0;
    for field in fields.as_slice() {
        room = room
            .saturating_add(field.name.as_slice().len())
            .saturating_add(1);
    }
    room
}

/// Room for the lines of headers.
fn lines_room(fields: &Fields) -> usize {
    let mut room = names_room(fields);
    for field in fields.as_slice() {
        room = room
            .saturating_add(field.value.as_slice().len())
            .saturating_add(1);
    }
    room
}

/// Writes headers that ascend by name.
fn push_headers(headers: &[NamedValue<'_>], texts: &mut HeaderTexts) -> Result<(), AllocError>
    requires ascend { Ascends key_cmp (named_values headers.now) }
    requires empty { texts.old.names.items ≡ [] }
    ensures lines { OnOk result
        (texts.new.lines.items ≡ texts.old.lines.items ++ lines_in (named_values headers.now)) }
    ensures names { OnOk result (texts.new.names.items ≡ names_text (named_values headers.now)) }
{
    let mut start = 0;
    while start < headers.len() {
        if start != 0 {
            texts.names.push(b';')?;
        }
        start += push_first_name(&headers[start..], texts)?;
    }
    Ok(())
}

/// Writes the headers of the first name, and answers how many they are.
fn push_first_name(headers: &[NamedValue<'_>], texts: &mut HeaderTexts) -> Result<usize, AllocError>
    requires not_empty { 0 < length headers.now }
    requires ascend { Ascends key_cmp (named_values headers.now) }
    ensures bound { IfOk result (λ n. (0 < n) × (n ≤ length headers.now)) }
    ensures first { IfOk result (λ n. BeginsWithKey n (named_values headers.now)) }
    ensures lines { IfOk result (λ n. texts.new.lines.items
        ≡ texts.old.lines.items ++ group_line (first_name (named_values headers.now))
        (take n (named_values headers.now))) }
    ensures names { OnOk result
        (texts.new.names.items ≡ texts.old.names.items ++ first_name (named_values headers.now)) }
{
    let name = headers[0].name;
    let count = count_named(headers, name);
    texts.names.extend_from_slice(name)?;
    texts.lines.extend_from_slice(name)?;
    texts.lines.push(b':')?;
    push_values(&headers[..count], &mut texts.lines)?;
    texts.lines.push(b'\n')?;
    Ok(count)
}

/// How many headers have this name, which is the first.
fn count_named(headers: &[NamedValue<'_>], name: &[u8]) -> usize
    requires not_empty { 0 < length headers.now }
    requires ascend { Ascends key_cmp (named_values headers.now) }
    requires first { name.now ≡ first_name (named_values headers.now) }
    ensures bound { (0 < result) × (result ≤ length headers.now) }
    ensures first { BeginsWithKey result (named_values headers.now) }
{
    let other = headers.iter().position(|header| header.name != name);
    other.unwrap_or(headers.len())
}

/// The headers in the order of their names, those of one name as they stand. These are their names.
fn sorted_headers<'a>(
    alloc: Global,
    fields: &'a Fields,
    names: &'a [u8],
) -> Result<Vec<NamedValue<'a>>, NoMemory<()>>
    requires { names.now ≡ lowercase_names fields.now }
    ensures { IfOk result (λ headers. AreSorted (map header_of fields.now) (named_values headers.items)) }
{
    let mut headers = named_values(alloc, fields, names)?;
    headers.sort_by(|x, y| x.name.cmp(y.name))?;
    Ok(headers)
}

fn named_values<'a>(
    alloc: Global,
    fields: &'a Fields,
    names: &'a [u8],
) -> Result<Vec<NamedValue<'a>>, AllocError>
    requires { names.now ≡ lowercase_names fields.now }
    ensures { IfOk result (λ headers. named_values headers.items ≡ map header_of fields.now) }
{
    let mut headers = Vec::with_capacity(alloc, fields.as_slice().len())?;
    let mut rest = names;
    for field in fields.as_slice() {
        let (name, more) = rest.split_at(field.name.as_slice().len());
        let value = field.value.as_slice();
        headers.push(NamedValue { name, value })?;
        rest = more;
    }
    Ok(headers)
}

/// The names in lower case, one after another.
fn lowercase_names(alloc: Global, fields: &Fields) -> Result<Vec<u8>, AllocError>
    ensures { IfOk result (λ names. names.items ≡ lowercase_names fields.now) }
{
    let mut names = Vec::with_capacity(alloc, names_room(fields))?;
    for field in fields.as_slice() {
        names.extend_from_slice(field.name.as_slice())?;
    }
    Ok(in_lower_case(names))
}

fn in_lower_case(mut names: Vec<u8>) -> Vec<u8>
    ensures { result.items ≡ lowercase names.items }
{
    names.make_ascii_lowercase();
    names
}

/// Appends the values of some headers, joined by `,`.
fn push_values(headers: &[NamedValue<'_>], text: &mut Vec<u8>) -> Result<(), AllocError>
    ensures { OnOk result (text.new.items ≡ text.old.items ++ values_text (named_values headers.now)) }
{
    for (i, header) in headers.iter().enumerate() {
        if i != 0 {
            text.push(b',')?;
        }
        push_single_spaced(header.value, text)?;
    }
    Ok(())
}

/// Appends what stands between the spaces of a value, with one space between each two.
fn push_single_spaced(value: &[u8], text: &mut Vec<u8>) -> Result<(), AllocError>
    ensures { OnOk result (text.new.items ≡ text.old.items ++ single_spaced value.now) }
{
    if is_single_spaced(value) {
        text.extend_from_slice(value)
    } else {
        push_words(value, text)
    }
}

/// Whether no space is first, last or next to another, so that the value is written as it is.
fn is_single_spaced(value: &[u8]) -> bool
    ensures { result ≡ is_single_spaced false value.now }
{
    let mut in_word = false;
    for b in value {
        if *b != b' ' {
            in_word = true;
        } else if in_word {
            in_word = false;
        } else {
            return false;
        }
    }
    in_word
}

fn push_words(value: &[u8], text: &mut Vec<u8>) -> Result<(), AllocError>
    ensures { OnOk result (text.new.items ≡ text.old.items ++ single_spaced value.now) }
{
    let mut first = true;
    for word in value.split(|b| *b == b' ') {
        if !word.is_empty() {
            if !first {
                text.push(b' ')?;
            }
            text.extend_from_slice(word)?;
            first = false;
        }
    }
    Ok(())
}
