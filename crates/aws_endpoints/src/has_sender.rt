//! What sends requests.
ghost use Rattle.std.specs.Prelude.{◌≡◌, ◌≢◌, ℕ, List, IfOk, IfErr};
ghost use Rattle.http.specs.declared.request.Request.{Request};
ghost use Rattle.http.specs.declared.response.Response.{Response};
ghost use Rattle.credentials.specs.declared.polled.Polled.{Polled};
ghost use Rattle.credentials.specs.Polled.{CanBePolledAgain};

use aws_credentials::ClockedContext;
use bytes::Bytes;
use credentials::{CommandExecute, Context, Env, FileRead, HttpSend, Polled};
use http::{Request, Response};
use sign_base::NoMemory;
use std::alloc::Global;

/// A context that sends requests. Its calls are those of `Context`.
pub trait HasSender: Drop {
    /// A request that was sent.
    type Send: Drop;

    /// The send was begun here with this request, and has not answered yet.
    ghost begun: { Self → Request (List ℕ) → Self.Send → Type 0 };

    /// The send answers at the next poll.
    ghost send_ready: { Self → Self.Send → Type 0 };

    /// What a poll of a send may answer: the request, the answer.
    ghost answers: { Self → Request (List ℕ) → Polled (Response (List ℕ)) → Type 0 };

    /// Begins to send this request.
    fn http_send(&self, alloc: Global, req: Request<Bytes>) -> Result<Self::Send, NoMemory<()>>
        ensures { IfOk result (λ send. begun self.now req send) };

    /// Goes on with a send. One that answered `Ready` or `Failed` is polled no more.
    fn poll_http_send(&self, alloc: Global, send: &mut Self::Send) -> Polled<Response<Bytes>>
        ensures kept { (req : Request (List ℕ)) → begun self.now req send.old → CanBePolledAgain result
            → begun self.now req send.new }
        ensures ready { send_ready self.now send.old → result ≢ Polled.Pending }
        ensures gives { (req : Request (List ℕ)) → begun self.now req send.old
            → answers self.now req result };
}

impl<F: FileRead, H: HttpSend, E: Env, C: CommandExecute> HasSender for Context<F, H, E, C> {
    type Send = H::Send;

    ghost begun = { λ ctx req send. H.started ctx.http_send req send };

    ghost send_ready = { λ ctx send. H.ready ctx.http_send send };

    ghost answers = { λ ctx req answer. H.gives ctx.http_send req answer };

    fn http_send(&self, alloc: Global, req: Request<Bytes>) -> Result<H::Send, NoMemory<()>> {
        match Context::http_send(self, alloc, req) {
            Ok(send) => Ok(send),
            Err(_) => Err(NoMemory { back: () }),
        }
    }

    fn poll_http_send(&self, alloc: Global, send: &mut H::Send) -> Polled<Response<Bytes>> {
        Context::poll_http_send(self, alloc, send)
    }
}

impl<F: FileRead, H: HttpSend, E: Env, C: CommandExecute, X: Drop> HasSender
    for ClockedContext<F, H, E, C, X> {
    type Send = H::Send;

    ghost begun = { λ ctx req send. H.started ctx.objects.http_send req send };

    ghost send_ready = { λ ctx send. H.ready ctx.objects.http_send send };

    ghost answers = { λ ctx req answer. H.gives ctx.objects.http_send req answer };

    fn http_send(&self, alloc: Global, req: Request<Bytes>) -> Result<H::Send, NoMemory<()>> {
        HasSender::http_send(&self.objects, alloc, req)
    }

    fn poll_http_send(&self, alloc: Global, send: &mut H::Send) -> Polled<Response<Bytes>> {
        self.objects.poll_http_send(alloc, send)
    }
}
