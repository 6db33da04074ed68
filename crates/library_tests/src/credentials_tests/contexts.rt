//! What a context answers of its objects: what they answer, as text where it is asked for text, and a
//! refusal where an object is not there.
use super::objects::AlwaysA;
use crate::told::{Question, are_answered, shown};
use bytes::Bytes;
use credentials::{CommandExecute, Context, FileRead, HttpSend, NoopEnv};
use http::Request;
use std::alloc::Global;

/// What a context is asked for.
#[derive(Clone, Copy)]
enum Ask {
    File,
    FileAsString(&'static str),
    Response,
    ResponseAsString,
    Command,
}

fn answer<F: FileRead, H: HttpSend, C: CommandExecute>(
    alloc: Global,
    ctx: &Context<F, H, NoopEnv, C>,
    ask: Ask,
) -> Option<String> {
    match ask {
        Ask::File => file(alloc, ctx),
        Ask::FileAsString(path) => file_as_string(alloc, ctx, path),
        Ask::Response => response(alloc, ctx),
        Ask::ResponseAsString => response_as_string(alloc, ctx),
        Ask::Command => output(alloc, ctx),
    }
}

fn file<F: FileRead, H: HttpSend, C: CommandExecute>(
    alloc: Global,
    ctx: &Context<F, H, NoopEnv, C>,
) -> Option<String> {
    let mut read = ctx.file_read(alloc, "/a").ok()?;
    shown(alloc, &ctx.poll_file_read(alloc, &mut read))
}

fn file_as_string<F: FileRead, H: HttpSend, C: CommandExecute>(
    alloc: Global,
    ctx: &Context<F, H, NoopEnv, C>,
    path: &str,
) -> Option<String> {
    let mut read = ctx.file_read(alloc, path).ok()?;
    shown(alloc, &ctx.poll_file_read_as_string(alloc, &mut read))
}

fn empty_request(alloc: Global) -> Option<Request<Bytes>> {
    Some(Request::new(alloc, Bytes::copy_from_slice(alloc, b"").ok()?))
}

fn response<F: FileRead, H: HttpSend, C: CommandExecute>(
    alloc: Global,
    ctx: &Context<F, H, NoopEnv, C>,
) -> Option<String> {
    let mut send = ctx.http_send(alloc, empty_request(alloc)?).ok()?;
    shown(alloc, &ctx.poll_http_send(alloc, &mut send))
}

fn response_as_string<F: FileRead, H: HttpSend, C: CommandExecute>(
    alloc: Global,
    ctx: &Context<F, H, NoopEnv, C>,
) -> Option<String> {
    let mut send = ctx.http_send(alloc, empty_request(alloc)?).ok()?;
    shown(alloc, &ctx.poll_http_send_as_string(alloc, &mut send))
}

fn output<F: FileRead, H: HttpSend, C: CommandExecute>(
    alloc: Global,
    ctx: &Context<F, H, NoopEnv, C>,
) -> Option<String> {
    let mut run = ctx.command_execute(alloc, "a", &[]).ok()?;
    shown(alloc, &ctx.poll_command(alloc, &mut run))
}

/// What is asked of objects that answer `a`, but for the file `/empty`.
#[derive(Clone, Copy)]
struct OfObjects(Ask);

impl Question for OfObjects {
    fn answer(&self, alloc: Global) -> Option<String> {
        let ctx = Context::new()
            .with_file_read(AlwaysA)
            .with_http_send(AlwaysA)
            .with_command_execute(AlwaysA);
        answer(alloc, &ctx, self.0)
    }
}

static ANSWERS: [(OfObjects, &str); 6] = [
    (OfObjects(Ask::File), "Ready([97])"),
    (OfObjects(Ask::FileAsString("/a")), "Ready(\"a\")"),
    (OfObjects(Ask::FileAsString("/empty")), "Ready(\"\")"),
    (
        OfObjects(Ask::Response),
        r#"Ready(Response { status: 200, version: HTTP/1.1, headers: {}, body: b"a" })"#,
    ),
    (
        OfObjects(Ask::ResponseAsString),
        r#"Ready(Response { status: 200, version: HTTP/1.1, headers: {}, body: "a" })"#,
    ),
    (OfObjects(Ask::Command), "Ready(CommandOutput(***))"),
];

#[test]
fn objects_answer(rt: HostRuntime) {
    are_answered(&rt, rt.alloc(), &ANSWERS);
}

const NO_FILE: &str =
    r#"Failed(Error { kind: Unexpected, message: "file reading not supported: no file reader configured", retryable: false })"#;

const NO_RESPONSE: &str =
    r#"Failed(Error { kind: Unexpected, message: "HTTP sending not supported: no HTTP client configured", retryable: false })"#;

const NO_OUTPUT: &str =
    r#"Failed(Error { kind: Unexpected, message: "command execution not supported: no command executor configured", retryable: false })"#;

/// What is asked of a context that has no objects.
#[derive(Clone, Copy)]
struct OfNone(Ask);

impl Question for OfNone {
    fn answer(&self, alloc: Global) -> Option<String> {
        answer(alloc, &Context::new(), self.0)
    }
}

static REFUSED: [(OfNone, &str); 5] = [
    (OfNone(Ask::File), NO_FILE),
    (OfNone(Ask::FileAsString("/a")), NO_FILE),
    (OfNone(Ask::Response), NO_RESPONSE),
    (OfNone(Ask::ResponseAsString), NO_RESPONSE),
    (OfNone(Ask::Command), NO_OUTPUT),
];

#[test]
fn objects_that_are_not_there_fail(rt: HostRuntime) {
    are_answered(&rt, rt.alloc(), &REFUSED);
}
