//! Errors: that each call that makes one succeeds, how they print, and what is kept of the errors of
//! libraries and of the system.
use crate::told::{Question, are_answered, shown};
use http_header::{HeaderNameError, HeaderValue, HeaderValueError};
use http_uri::{Authority, Parts, PathAndQuery, Uri};
use sign_base::{Error, ErrorKind};
use sign_request::FromHttpError;
use std::alloc::Global;
use std::io;

/// What an error is made of.
#[derive(Clone, Copy)]
enum Of {
    CredentialInvalid,
    RequestInvalid,
    RateLimited,
    Unexpected,
    ConfigInvalid,
    OutOfMemory,
    Method,
    HeaderValue,
    HeaderName,
    HeaderText,
    Printing,
    Text,
    Uri,
    UriParts,
    System,
    Context,
    Source,
}

/// The debug text of each error.
static MADE: [(Of, &str); 17] = [
    (
        Of::CredentialInvalid,
        r#"Error { kind: CredentialInvalid, message: "x", retryable: false }"#,
    ),
    (
        Of::RequestInvalid,
        r#"Error { kind: RequestInvalid, message: "x", retryable: false }"#,
    ),
    (
        Of::RateLimited,
        r#"Error { kind: RateLimited, message: "x", retryable: true }"#,
    ),
    (
        Of::Unexpected,
        r#"Error { kind: Unexpected, message: "x", retryable: false }"#,
    ),
    (
        Of::ConfigInvalid,
        r#"Error { kind: ConfigInvalid, message: "x", retryable: false }"#,
    ),
    (
        Of::OutOfMemory,
        r#"Error { kind: OutOfMemory, message: "", retryable: false }"#,
    ),
    (
        Of::Method,
        r#"Error { kind: RequestInvalid, message: "invalid HTTP method", retryable: false }"#,
    ),
    (
        Of::HeaderValue,
        r#"Error { kind: RequestInvalid, message: "failed to parse header value", retryable: false }"#,
    ),
    (
        Of::HeaderName,
        r#"Error { kind: RequestInvalid, message: "invalid HTTP header name", retryable: false }"#,
    ),
    (
        Of::HeaderText,
        r#"Error { kind: RequestInvalid, message: "failed to convert header to a str", retryable: false }"#,
    ),
    (
        Of::Printing,
        r#"Error { kind: Unexpected, message: "an error occurred when formatting an argument", retryable: false }"#,
    ),
    (
        Of::Text,
        r#"Error { kind: Unexpected, message: "invalid utf-8 sequence of 1 bytes from index 0", retryable: false }"#,
    ),
    (
        Of::Uri,
        r#"Error { kind: RequestInvalid, message: "invalid uri character", retryable: false }"#,
    ),
    (
        Of::UriParts,
        r#"Error { kind: RequestInvalid, message: "scheme missing", retryable: false }"#,
    ),
    (
        Of::System,
        r#"Error { kind: Unexpected, message: "the cause", retryable: true }"#,
    ),
    (
        Of::Context,
        r#"Error { kind: PermissionDenied, message: "access denied", context: ["role: reader", "region: eu"], retryable: false }"#,
    ),
    (
        Of::Source,
        r#"Error { kind: Unexpected, message: "m", source: m, retryable: false }"#,
    ),
];

fn made(alloc: Global, of: Of) -> Option<Error> {
    match of {
        Of::CredentialInvalid => Error::credential_invalid(alloc, "x").ok(),
        Of::RequestInvalid => Error::request_invalid(alloc, "x").ok(),
        Of::RateLimited => Error::rate_limited(alloc, "x").ok(),
        Of::Unexpected => Error::unexpected(alloc, "x").ok(),
        Of::ConfigInvalid => Error::new(alloc, ErrorKind::ConfigInvalid, "x").ok(),
        Of::OutOfMemory => Some(Error::out_of_memory()),
        Of::Method => Error::from_http(alloc, &http::Error::Method).ok(),
        Of::HeaderValue => Error::from_header_value(alloc, &HeaderValueError::Invalid).ok(),
        Of::HeaderName => Error::from_header_name(alloc, &HeaderNameError::Invalid).ok(),
        Of::HeaderText => of_header_text(alloc),
        Of::Printing => Error::from_fmt(alloc, &std::fmt::Error).ok(),
        Of::Text => of_text(alloc),
        Of::Uri => of_uri(alloc),
        Of::UriParts => of_uri_parts(alloc),
        Of::System => of_system(alloc),
        Of::Context => denied(alloc),
        Of::Source => Error::from_anyhow(alloc, anyhow::Error::msg("m")).ok(),
    }
}

fn of_header_text(alloc: Global) -> Option<Error> {
    let value = HeaderValue::from_bytes(alloc, b"\xff").ok()?;
    let error = value.to_str().err()?;
    Error::from_to_str(alloc, &error).ok()
}

fn of_text(alloc: Global) -> Option<Error> {
    let bytes = Vec::from_slice(alloc, b"\xff").ok()?;
    let error = String::from_utf8(bytes).err()?;
    Error::from_utf8(alloc, &error).ok()
}

fn of_uri(alloc: Global) -> Option<Error> {
    let error = Uri::from_str(alloc, ": ").err()?;
    Error::from_uri(alloc, &error).ok()
}

/// The error of a URI that is put together without its scheme.
fn of_uri_parts(alloc: Global) -> Option<Error> {
    let parts = Parts {
        scheme: None,
        authority: Authority::from_static("e.x").ok(),
        path_and_query: PathAndQuery::from_static("/a").ok(),
    };
    let error = Uri::from_parts(parts).err()?;
    Error::from_uri_parts(alloc, &error).ok()
}

fn of_system(alloc: Global) -> Option<Error> {
    let cause = io::Error::new(io::ErrorKind::TimedOut, "the cause");
    Error::from_io(alloc, &cause).ok()
}

/// An error with two texts of context.
fn denied(alloc: Global) -> Option<Error> {
    let denied = Error::permission_denied(alloc, "access denied").ok()?;
    let denied = denied.with_context(alloc, "role: reader").ok()?;
    denied.with_context(alloc, "region: eu").ok()
}

impl Question for Of {
    fn answer(&self, alloc: Global) -> Option<String> {
        let error = made(alloc, *self)?;
        shown(alloc, &error)
    }
}

#[test]
fn errors_keep_their_parts_and_print(rt: HostRuntime) {
    are_answered(&rt, rt.alloc(), &MADE);
}
