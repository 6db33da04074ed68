//! White space and comments in the texts of shared files.
ghost use Rattle.std.specs.Prelude.{◌≡◌, take};
ghost use Rattle.std.specs.Char.{is_ascii_whitespace};
ghost use Rattle.std.specs.Str.{IsCharBoundary};
ghost use Rattle.aws_profiles.specs.Texts.{trimmed, begins_with, is_comment_mark, is_silent, uncommented};

/// The text without white space at either end.
pub(crate) fn trimmed(text: &str) -> &str
    ensures { result.now ≡ trimmed text.now }
{
    text.trim_ascii()
}

/// Whether the text is empty but for white space and a comment.
pub(crate) fn is_silent(text: &str) -> bool
    ensures { result ≡ is_silent text.now }
{
    let text = trimmed(text);
    text.is_empty() || begins_with_mark(text.as_bytes())
}

/// Whether the text begins with white space.
pub(crate) fn begins_with_space(text: &str) -> bool
    ensures { result ≡ begins_with is_ascii_whitespace text.now }
{
    match text.as_bytes().first() {
        Some(b) => b.is_ascii_whitespace(),
        None => false,
    }
}

fn begins_with_mark(text: &[u8]) -> bool
    ensures { result ≡ begins_with is_comment_mark text.now }
{
    match text.first() {
        Some(b) => *b == b'#' || *b == b';',
        None => false,
    }
}

/// What stands before a comment: before white space that `#` or `;` follows.
pub(crate) fn uncommented(text: &str) -> &str
    ensures { result.now ≡ uncommented text.now }
{
    &text[..comment_start(text)]
}

fn comment_start(text: &str) -> usize
    ensures boundary { IsCharBoundary text.now result }
    ensures before { take result text.now ≡ uncommented text.now }
{
    let bytes = text.as_bytes();
    for i in 0..bytes.len() {
        if bytes[i].is_ascii_whitespace() && begins_with_mark(&bytes[i + 1..]) {
            return i;
        }
    }
    bytes.len()
}
