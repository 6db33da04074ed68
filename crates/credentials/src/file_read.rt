//! Where files are read.
ghost use Rattle.std.specs.Prelude.{◌≡◌, ◌≢◌, ℕ, List, IfOk, IsOk, ⊤, codes};
ghost use Rattle.credentials.specs.declared.polled.Polled.{Polled};
ghost use Rattle.credentials.specs.Polled.{CanBePolledAgain, polled_map};
ghost use Rattle.credentials.specs.Unsupported.{FailsWith};

use crate::Polled;
use crate::unsupported::unsupported;
use sign_base::NoMemory;
use std::alloc::Global;

/// Reads files whole. A read is begun by `file_read` and polled until it answers `Ready` or `Failed`;
/// it is not polled again after that, which is its caller's duty. After `Pending` and after
/// `OutOfMemory` it can be polled again.
///
/// Whoever implements it keeps what files hold out of debug texts, errors and logs.
pub trait FileRead: Drop {
    /// A read that was begun.
    type Read: Drop;

    /// The read was begun by this object at this path, and has not answered yet.
    ghost started: { Self → List ℕ → Self.Read → Type 0 };

    /// The read answers at the next poll: the object, the read.
    ghost ready: { Self → Self.Read → Type 0 };

    /// What a poll of a read may answer: the object, the path, the answer with the file's bytes.
    ghost gives: { Self → List ℕ → Polled (List ℕ) → Type 0 };

    /// Begins to read the file at this path.
    fn file_read(&self, alloc: Global, path: &str) -> Result<Self::Read, NoMemory<()>>
        ensures { IfOk result (λ read. started self.now path.now read) };

    /// Goes on with a read, as far as it can now. `Ready` has all bytes of the file.
    fn poll_read(&self, alloc: Global, read: &mut Self::Read) -> Polled<Vec<u8>>
        ensures kept { (path : List ℕ) → started self.now path read.old → CanBePolledAgain result
            → started self.now path read.new }
        ensures ready { ready self.now read.old → result ≢ Polled.Pending }
        ensures gives { (path : List ℕ) → started self.now path read.old
            → gives self.now path (polled_map (λ v. v.items) result) };
}

/// Reads no files: each read fails at its poll.
#[derive(Clone, Copy, Debug)]
pub struct NoopFileRead;

impl FileRead for NoopFileRead {
    type Read = ();

    ghost started = { λ object path read. ⊤ };

    ghost ready = { λ object read. ⊤ };

    ghost gives = { λ object path answer.
        FailsWith (codes "file reading not supported: no file reader configured") answer };

    fn file_read(&self, _alloc: Global, _path: &str) -> Result<(), NoMemory<()>>
        ensures started { IfOk result (λ read. ⊤) }
        ensures succeeds { IsOk result }
    {
        Ok(())
    }

    fn poll_read(&self, alloc: Global, _read: &mut ()) -> Polled<Vec<u8>> {
        unsupported(
            alloc,
            "file reading not supported: no file reader configured",
        )
    }
}
