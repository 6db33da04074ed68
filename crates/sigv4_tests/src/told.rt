//! How the tests compare: what a call told, as a text, with the text that is wanted.
use sign_base::Error;
use std::alloc::Global;
use std::fmt;
use std::process::Abort;

/// This was told.
pub(crate) fn is_text(rt: &impl Abort, told: String, wanted: &str) {
    assert!(rt; told.as_str() == wanted, "{told}\nis not\n{wanted}");
}

/// The debug form of a word.
pub(crate) fn word<T: fmt::Debug + Drop>(rt: &impl Abort, alloc: Global, value: T) -> String {
    format!(in alloc; "{value:?}").expect(rt, "memory")
}

/// These bytes, which are a text.
pub(crate) fn str_of<'a>(rt: &impl Abort, bytes: &'a [u8]) -> &'a str {
    str::from_utf8(bytes).expect(rt, "a text")
}

/// These bytes as a text of its own.
pub(crate) fn text_of(rt: &impl Abort, alloc: Global, bytes: &[u8]) -> String {
    String::from_str(alloc, str_of(rt, bytes)).expect(rt, "memory")
}

/// The kind and the message of an error, or `made`.
pub(crate) fn refusal(rt: &impl Abort, alloc: Global, error: Option<Error>) -> String {
    match error {
        Some(error) => error_text(rt, alloc, error),
        None => text_of(rt, alloc, b"made"),
    }
}

fn error_text(rt: &impl Abort, alloc: Global, error: Error) -> String {
    let kind = error.kind();
    let told = format!(in alloc; "{kind:?}: {error}").expect(rt, "memory");
    drop(error);
    told
}
