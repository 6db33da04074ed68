//! Heads of `http` and plain ones, in both directions, and what is refused.
use super::parts;
use crate::told::{Question, are_answered, shown};
use fixtures::{head_with_headers, plain_head, push_header};
use http::request::Parts;
use sign_base::Head;
use sign_request::{commit, head_of, parts_of};
use std::alloc::Global;

/// What `parts_of` answers.
fn answer(alloc: Global, head: &Head) -> Option<String> {
    shown(alloc, &parts_of(alloc, head))
}

/// A head with one header: its method, its URI, and the header's name and value.
#[derive(Clone, Copy)]
struct Of(&'static str, &'static str, &'static str, &'static [u8]);

impl Question for Of {
    fn answer(&self, alloc: Global) -> Option<String> {
        let head = head_with_headers(alloc, self.0, self.1, &[(self.2, self.3)]).ok()?;
        answer(alloc, &head)
    }
}

const METHOD: &str =
    r#"Err(Error { kind: RequestInvalid, message: "invalid HTTP method", retryable: false })"#;

const FORMAT: &str =
    r#"Err(Error { kind: RequestInvalid, message: "invalid format", retryable: false })"#;

const CHARACTER: &str =
    r#"Err(Error { kind: RequestInvalid, message: "invalid uri character", retryable: false })"#;

const EMPTY: &str =
    r#"Err(Error { kind: RequestInvalid, message: "empty string", retryable: false })"#;

const NAME: &str =
    r#"Err(Error { kind: RequestInvalid, message: "invalid HTTP header name", retryable: false })"#;

const VALUE: &str =
    r#"Err(Error { kind: RequestInvalid, message: "failed to parse header value", retryable: false })"#;

/// What `parts_of` answers to heads.
static CROSSED: [(Of, &str); 9] = [
    (
        Of("PUT", "https://e.x/a", "X", b"v"),
        r#"Ok(Parts { method: PUT, uri: https://e.x/a, version: HTTP/1.1, headers: {"x": "v"} })"#,
    ),
    (Of("no token", "/", "x", b"v"), METHOD),
    (Of("", "/", "x", b"v"), METHOD),
    (Of("GET", "e.x/a", "x", b"v"), FORMAT),
    (Of("GET", ": ", "x", b"v"), CHARACTER),
    (Of("GET", "", "x", b"v"), EMPTY),
    (Of("GET", "/", "no token", b"v"), NAME),
    (Of("GET", "/", "", b"v"), NAME),
    (Of("GET", "/", "x", b"\n"), VALUE),
];

#[test]
fn heads_cross_or_are_refused(rt: HostRuntime) {
    are_answered(&rt, rt.alloc(), &CROSSED);
}

/// What `commit` answers to a plain head, and the head after it, which crosses twice to be shown.
fn commit_told(alloc: Global, head: &mut Parts, plain: &Head) -> Option<String> {
    let answer = commit(alloc, head, plain);
    let after = head_of(alloc, head).ok()?;
    let after = parts_of(alloc, &after).ok()?;
    format!(in alloc; "{answer:?} {after:?}").ok()
}

/// The name of a header of the plain head.
#[derive(Clone, Copy)]
struct Named(&'static str);

impl Question for Named {
    fn answer(&self, alloc: Global) -> Option<String> {
        let plain = head_with_headers(alloc, "PUT", "/b", &[("y", b"w"), (self.0, b"z")]).ok()?;
        let mut head = parts(alloc, "https://e.x/a", &[("x", b"v")])?;
        commit_told(alloc, &mut *head, &plain)
    }
}

/// What `commit` answers: all or nothing.
static COMMITTED: [(Named, &str); 2] = [
    (
        Named("Y"),
        r#"Ok(()) Parts { method: GET, uri: /b, version: HTTP/1.1, headers: {"y": "w", "y": "z"} }"#,
    ),
    (
        Named("no token"),
        r#"Err(Error { kind: RequestInvalid, message: "invalid HTTP header name", retryable: false }) Parts { method: GET, uri: https://e.x/a, version: HTTP/1.1, headers: {"x": "v"} }"#,
    ),
];

#[test]
fn a_commit_is_whole_or_nothing(rt: HostRuntime) {
    are_answered(&rt, rt.alloc(), &COMMITTED);
}

/// A head past a limit: a URI has at most 65,534 bytes, and a head 24,576 names.
#[derive(Clone, Copy)]
enum Past {
    Bytes,
    Names,
}

impl Question for Past {
    fn answer(&self, alloc: Global) -> Option<String> {
        let head = match self {
            Past::Bytes => far(alloc)?,
            Past::Names => crowded(alloc)?,
        };
        answer(alloc, &head)
    }
}

/// A head with a path of 65,535 slashes.
fn far(alloc: Global) -> Option<Head> {
    let path = vec![in alloc; b'/'; 65_535].ok()?;
    let path = String::from_utf8(path).ok()?;
    plain_head(alloc, "GET", path.as_str()).ok()
}

/// A head with 24,577 headers, each under a name of its own.
fn crowded(alloc: Global) -> Option<Head> {
    let mut head = plain_head(alloc, "GET", "/").ok()?;
    for number in 0..24_577 {
        let name = format!(in alloc; "x-{number}").ok()?;
        push_header(alloc, &mut head, name.as_bytes(), b"").ok()?;
    }
    Some(head)
}

const TOO_LONG: &str =
    r#"Err(Error { kind: RequestInvalid, message: "uri too long", retryable: false })"#;

const TOO_MANY: &str =
    r#"Err(Error { kind: RequestInvalid, message: "max size reached", retryable: false })"#;

static PAST: [(Past, &str); 2] = [(Past::Bytes, TOO_LONG), (Past::Names, TOO_MANY)];

#[test]
fn heads_past_a_limit_are_refused(rt: HostRuntime) {
    are_answered(&rt, rt.alloc(), &PAST);
}
