//! What has files, and the home folder in which some of them stand.
ghost use Rattle.std.specs.Prelude.{◌≡◌, ◌≢◌, ℕ, List, Option, IfOk, option_map, string_bytes};
ghost use Rattle.credentials.specs.declared.polled.Polled.{Polled};
ghost use Rattle.credentials.specs.Home.{expanded_path};
ghost use Rattle.credentials.specs.Polled.{CanBePolledAgain, polled_map};

use aws_credentials::ClockedContext;
use credentials::{CommandExecute, Context, Env, FileRead, HttpSend, Polled};
use sign_base::NoMemory;
use std::alloc::Global;

/// A context that reads files, and knows the home folder. Its calls are those of `Context`.
pub trait HasFiles: Drop {
    /// A read that was begun.
    type Read: Drop;

    /// The path of the home folder, where there is one.
    ghost home: { Self → Option (List ℕ) };

    /// The read was begun here at this path, and has not answered yet.
    ghost begun: { Self → List ℕ → Self.Read → Type 0 };

    /// The read answers at the next poll.
    ghost read_ready: { Self → Self.Read → Type 0 };

    /// What a poll of a read may answer: the path, the answer with the file's bytes.
    ghost reads: { Self → List ℕ → Polled (List ℕ) → Type 0 };

    /// A path that begins with `~/` or `~\` with the home folder in place of every `~`, or None where
    /// there is no home folder. Any other path as it is.
    fn expand_home_dir(&self, alloc: Global, path: &str) -> Result<Option<String>, NoMemory<()>>
        ensures { IfOk result
            (λ text. option_map string_bytes text ≡ expanded_path (home self.now) path.now) };

    /// Begins to read the file at this path.
    fn file_read(&self, alloc: Global, path: &str) -> Result<Self::Read, NoMemory<()>>
        ensures { IfOk result (λ read. begun self.now path.now read) };

    /// Goes on with a read. `Ready` has all bytes of the file, and `Failed` says that it cannot be read, be
    /// it there or not. A read that answered so is polled no more.
    fn poll_file_read(&self, alloc: Global, read: &mut Self::Read) -> Polled<Vec<u8>>
        ensures kept { (path : List ℕ) → begun self.now path read.old → CanBePolledAgain result
            → begun self.now path read.new }
        ensures ready { read_ready self.now read.old → result ≢ Polled.Pending }
        ensures gives { (path : List ℕ) → begun self.now path read.old
            → reads self.now path (polled_map (λ v. v.items) result) };
}

impl<F: FileRead, H: HttpSend, E: Env, C: CommandExecute> HasFiles for Context<F, H, E, C> {
    type Read = F::Read;

    ghost home = { λ ctx. E.home ctx.env };

    ghost begun = { λ ctx path read. F.started ctx.file_read path read };

    ghost read_ready = { λ ctx read. F.ready ctx.file_read read };

    ghost reads = { λ ctx path answer. F.gives ctx.file_read path answer };

    fn expand_home_dir(&self, alloc: Global, path: &str) -> Result<Option<String>, NoMemory<()>> {
        Context::expand_home_dir(self, alloc, path)
    }

    fn file_read(&self, alloc: Global, path: &str) -> Result<F::Read, NoMemory<()>> {
        Context::file_read(self, alloc, path)
    }

    fn poll_file_read(&self, alloc: Global, read: &mut F::Read) -> Polled<Vec<u8>> {
        Context::poll_file_read(self, alloc, read)
    }
}

impl<F: FileRead, H: HttpSend, E: Env, C: CommandExecute, X: Drop> HasFiles
    for ClockedContext<F, H, E, C, X> {
    type Read = F::Read;

    ghost home = { λ ctx. E.home ctx.objects.env };

    ghost begun = { λ ctx path read. F.started ctx.objects.file_read path read };

    ghost read_ready = { λ ctx read. F.ready ctx.objects.file_read read };

    ghost reads = { λ ctx path answer. F.gives ctx.objects.file_read path answer };

    fn expand_home_dir(&self, alloc: Global, path: &str) -> Result<Option<String>, NoMemory<()>> {
        self.objects.expand_home_dir(alloc, path)
    }

    fn file_read(&self, alloc: Global, path: &str) -> Result<F::Read, NoMemory<()>> {
        self.objects.file_read(alloc, path)
    }

    fn poll_file_read(&self, alloc: Global, read: &mut F::Read) -> Polled<Vec<u8>> {
        self.objects.poll_file_read(alloc, read)
    }
}
