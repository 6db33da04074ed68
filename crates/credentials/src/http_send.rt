//! Where HTTP requests are sent.
ghost use Rattle.std.specs.Prelude.{◌≡◌, ◌≢◌, ℕ, List, IfOk, IfErr, IsOk, ⊤, codes};
ghost use Rattle.http.specs.declared.request.Request.{Request};
ghost use Rattle.http.specs.declared.response.Response.{Response};
ghost use Rattle.credentials.specs.declared.polled.Polled.{Polled};
ghost use Rattle.credentials.specs.Polled.{CanBePolledAgain};
ghost use Rattle.credentials.specs.Unsupported.{FailsWith};

use crate::Polled;
use crate::unsupported::unsupported;
use bytes::Bytes;
use http::{Request, Response};
use sign_base::NoMemory;
use std::alloc::Global;

/// Sends HTTP requests, for credentials alone. A send is begun by `http_send` and polled until it
/// answers `Ready` or `Failed`; it is not polled again after that, which is its caller's duty. After
/// `Pending` and after `OutOfMemory` it can be polled again.
///
/// Requests and responses may hold credentials: whoever implements it keeps them out of debug texts,
/// errors and logs.
pub trait HttpSend: Drop {
    /// A request that was sent.
    type Send: Drop;

    /// The send was begun by this object with this request, and has not answered yet.
    ghost started: { Self → Request (List ℕ) → Self.Send → Type 0 };

    /// The send answers at the next poll: the object, the send.
    ghost ready: { Self → Self.Send → Type 0 };

    /// What a poll of a send may answer: the object, the request, the answer.
    ghost gives: { Self → Request (List ℕ) → Polled (Response (List ℕ)) → Type 0 };

    /// Begins to send this request. Where there is no memory, it comes back.
    fn http_send(
        &self,
        alloc: Global,
        req: Request<Bytes>,
    ) -> Result<Self::Send, NoMemory<Request<Bytes>>>
        ensures ok { IfOk result (λ send. started self.now req send) }
        ensures back { IfErr result (λ e. e.back ≡ req) };

    /// Goes on with a send, as far as it can now.
    fn poll_send(&self, alloc: Global, send: &mut Self::Send) -> Polled<Response<Bytes>>
        ensures kept { (req : Request (List ℕ)) → started self.now req send.old → CanBePolledAgain result
            → started self.now req send.new }
        ensures ready { ready self.now send.old → result ≢ Polled.Pending }
        ensures gives { (req : Request (List ℕ)) → started self.now req send.old
            → gives self.now req result };
}

/// Sends no requests: each send fails at its poll.
#[derive(Clone, Copy, Debug)]
pub struct NoopHttpSend;

impl HttpSend for NoopHttpSend {
    type Send = ();

    ghost started = { λ object req send. ⊤ };

    ghost ready = { λ object send. ⊤ };

    ghost gives = { λ object req answer.
        FailsWith (codes "HTTP sending not supported: no HTTP client configured") answer };

    fn http_send(&self, _alloc: Global, req: Request<Bytes>) -> Result<(), NoMemory<Request<Bytes>>>
        ensures ok { IfOk result (λ send. ⊤) }
        ensures back { IfErr result (λ e. e.back ≡ req) }
        ensures succeeds { IsOk result }
    {
        drop(req);
        Ok(())
    }

    fn poll_send(&self, alloc: Global, _send: &mut ()) -> Polled<Response<Bytes>> {
        unsupported(
            alloc,
            "HTTP sending not supported: no HTTP client configured",
        )
    }
}
