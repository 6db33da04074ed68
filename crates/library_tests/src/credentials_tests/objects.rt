//! Objects of the tests, each of which answers the one byte `a`, but for the file `/empty`.
ghost use Rattle.std.specs.Prelude.{⊤};

use bytes::Bytes;
use credentials::{CommandExecute, CommandOutput, FileRead, HttpSend, Polled};
use http::{Request, Response};
use sign_base::NoMemory;
use std::alloc::Global;

#[derive(Clone, Copy)]
pub(crate) struct AlwaysA;

impl FileRead for AlwaysA {
    /// Whether the file is empty.
    type Read = bool;

    ghost started = { λ object path read. ⊤ };

    ghost ready = { λ object read. ⊥ };

    ghost gives = { λ object path answer. ⊤ };

    fn file_read(&self, _alloc: Global, path: &str) -> Result<bool, NoMemory<()>> {
        Ok(path == "/empty")
    }

    fn poll_read(&self, alloc: Global, read: &mut bool) -> Polled<Vec<u8>> {
        let text = if *read { "" } else { "a" };
        match Vec::from_slice(alloc, text.as_bytes()) {
            Ok(bytes) => Polled::Ready(bytes),
            Err(_) => Polled::OutOfMemory,
        }
    }
}

impl HttpSend for AlwaysA {
    type Send = ();

    ghost started = { λ object req send. ⊤ };

    ghost ready = { λ object send. ⊥ };

    ghost gives = { λ object req answer. ⊤ };

    fn http_send(
        &self,
        _alloc: Global,
        req: Request<Bytes>,
    ) -> Result<(), NoMemory<Request<Bytes>>> {
        drop(req);
        Ok(())
    }

    fn poll_send(&self, alloc: Global, _send: &mut ()) -> Polled<Response<Bytes>> {
        match Bytes::copy_from_slice(alloc, b"a") {
            Ok(body) => Polled::Ready(Response::new(alloc, body)),
            Err(_) => Polled::OutOfMemory,
        }
    }
}

impl CommandExecute for AlwaysA {
    type Run = ();

    ghost started = { λ object program args run. ⊤ };

    ghost ready = { λ object run. ⊥ };

    ghost gives = { λ object program args answer. ⊤ };

    fn command_execute(
        &self,
        _alloc: Global,
        _program: &str,
        _args: &[String],
    ) -> Result<(), NoMemory<()>> {
        Ok(())
    }

    fn poll_run(&self, alloc: Global, _run: &mut ()) -> Polled<CommandOutput> {
        match Vec::from_slice(alloc, b"a") {
            Ok(stdout) => Polled::Ready(CommandOutput {
                status: 0,
                stdout,
                stderr: Vec::new(alloc),
            }),
            Err(_) => Polled::OutOfMemory,
        }
    }
}
