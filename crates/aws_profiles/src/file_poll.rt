//! The read of a shared file, whatever is sought there.
ghost use Rattle.std.specs.Prelude.{◌≡◌, ◌≢◌, ℕ, List, IfOk, IfSome, MatchOption, None, Some, option_map};
ghost use Rattle.credentials.specs.declared.polled.Polled.{Polled};
ghost use Rattle.credentials.specs.Polled.{CanBePolledAgain, polled_map};
ghost use Rattle.aws_profiles.specs.Profiles.{path_of};
ghost use Rattle.aws_profiles.specs.Reads.{Begun, FileAnswers};

use crate::{HasFiles, SharedFile};
use aws_credentials::HasVariables;
use credentials::Polled;
use sign_base::NoMemory;
use std::alloc::Global;

/// Polls the open read of a shared file, which is begun first where none is open: what that answers, or None
/// where the file's path is not known. `Failed` says that the file cannot be read, be it there or not.
///
/// The read stays open where it can be polled again. Out of memory may come before a read is begun.
pub(crate) fn poll_shared_file<X: HasVariables + HasFiles>(
    alloc: Global,
    ctx: &X,
    file: SharedFile,
    open_read: &mut Option<X::Read>,
) -> Option<Polled<Vec<u8>>>
    ensures kept { IfSome open_read.old (Begun (X.variables ctx.now) (X.home ctx.now) (X.begun ctx.now) file)
        → IfSome open_read.new (Begun (X.variables ctx.now) (X.home ctx.now) (X.begun ctx.now) file) }
    ensures ready { MatchOption open_read.old
        ((path : List ℕ) (read : X.Read) → X.begun ctx.now path read → X.read_ready ctx.now read)
        (λ read. X.read_ready ctx.now read)
        → result ≢ Some Polled.Pending }
    ensures gives { IfSome open_read.old (Begun (X.variables ctx.now) (X.home ctx.now) (X.begun ctx.now) file)
        → FileAnswers (X.reads ctx.now) (path_of file (X.variables ctx.now) (X.home ctx.now))
        (option_map (polled_map (λ v. v.items)) result) }
{
    let mut read = match open_read.take() {
        Some(read) => read,
        None => match begin(alloc, ctx, file) {
            Ok(Some(read)) => read,
            Ok(None) => return None,
            Err(_) => return Some(Polled::OutOfMemory),
        },
    };
    let bytes = ctx.poll_file_read(alloc, &mut read);
    *open_read = still_open(read, &bytes);
    Some(bytes)
}

/// Begins to read a file, or None where its path is not known.
fn begin<X: HasVariables + HasFiles>(
    alloc: Global,
    ctx: &X,
    file: SharedFile,
) -> Result<Option<X::Read>, NoMemory<()>>
    ensures { IfOk result (λ read. MatchOption read
        (path_of file (X.variables ctx.now) (X.home ctx.now) ≡ None)
        (Begun (X.variables ctx.now) (X.home ctx.now) (X.begun ctx.now) file)) }
{
    match file.path(alloc, ctx)? {
        Some(path) => Ok(Some(ctx.file_read(alloc, path.as_str())?)),
        None => Ok(None),
    }
}

/// The read, if it can be polled again after this answer.
fn still_open<R: Drop, T>(read: R, answer: &Polled<T>) -> Option<R>
    ensures { IfSome result (λ r. (r ≡ read) × CanBePolledAgain answer.now) }
{
    match answer {
        Polled::Pending | Polled::OutOfMemory => Some(read),
        Polled::Ready(_) | Polled::Failed(_) => None,
    }
}
