//! A load of a profile: which file is read, and how far.
ghost use Rattle.std.specs.Prelude.{◌≡◌, ◌≢◌, ℕ, List, IfOk, IfSome, MatchOption, option_map};
ghost use Rattle.std.specs.Prelude.{string_bytes};
ghost use Rattle.credentials.specs.declared.polled.Polled.{Polled};
ghost use Rattle.credentials.specs.Polled.{polled_map};
ghost use Rattle.aws_credentials.specs.Found.{IsFound};
ghost use Rattle.aws_profiles.specs.Profiles.{profile_of, found_in_file};
ghost use Rattle.aws_profiles.specs.Reads.{AnswersRead, Begun, ProfileFileGives};

use crate::file_poll::poll_shared_file;
use crate::shared_file::text_or;
use crate::{HasFiles, SharedFile, profile_session};
use aws_credentials::{HasVariables, SessionCredential, polled_session};
use credentials::Polled;
use sign_base::{Error, NoMemory};
use std::alloc::Global;
use std::marker::Model;

/// A load of a profile: the file that is read, and the read, where one is open.
#[derive(Drop)]
pub struct ProfileLoad<R> {
    pub(crate) file: SharedFile,
    pub(crate) open_read: Option<R>,
}

impl<R> Model for ProfileLoad<R> {
    ghost use Rattle.aws_profiles.specs.Reads.{Progress};

    ghost Value = { Progress R };

    ghost view = { λ load. record { file = load.file; open_read = load.open_read } };
}

/// Polls the open read of a shared file, which is begun first where none is open. What the file has is the
/// answer; where it cannot be read, or its path is not known, there is no credential in it.
pub(crate) fn poll_file<X: HasVariables + HasFiles>(
    alloc: Global,
    ctx: &X,
    chosen: &Option<String>,
    file: SharedFile,
    open_read: &mut Option<X::Read>,
) -> Polled<Option<SessionCredential>>
    ensures kept { IfSome open_read.old (Begun (X.variables ctx.now) (X.home ctx.now) (X.begun ctx.now) file)
        → IfSome open_read.new (Begun (X.variables ctx.now) (X.home ctx.now) (X.begun ctx.now) file) }
    ensures ready { MatchOption open_read.old
        ((path : List ℕ) (read : X.Read) → X.begun ctx.now path read → X.read_ready ctx.now read)
        (λ read. X.read_ready ctx.now read)
        → result ≢ Polled.Pending }
    ensures gives { IfSome open_read.old (Begun (X.variables ctx.now) (X.home ctx.now) (X.begun ctx.now) file)
        → ProfileFileGives (X.variables ctx.now) (X.home ctx.now) (X.reads ctx.now)
        (option_map string_bytes chosen.now) file result }
{
    match poll_shared_file(alloc, ctx, file, open_read) {
        Some(bytes) => answer(alloc, ctx, chosen, file, bytes),
        None => Polled::Ready(None),
    }
}

/// What is answered by a read of the file.
fn answer<X: HasVariables>(
    alloc: Global,
    ctx: &X,
    chosen: &Option<String>,
    file: SharedFile,
    bytes: Polled<Vec<u8>>,
) -> Polled<Option<SessionCredential>>
    ensures gives { AnswersRead
        (found_in_file file (profile_of (option_map string_bytes chosen.now) (X.variables ctx.now)))
        (polled_map (λ v. v.items) bytes) result }
    ensures ready { bytes ≢ Polled.Pending → result ≢ Polled.Pending }
{
    match bytes {
        Polled::Ready(bytes) => {
            polled_session(session_in_bytes(alloc, ctx, chosen, file, bytes.as_slice()))
        }
        Polled::Failed(_) => Polled::Ready(None),
        Polled::Pending => Polled::Pending,
        Polled::OutOfMemory => Polled::OutOfMemory,
    }
}

fn session_in_bytes<X: HasVariables>(
    alloc: Global,
    ctx: &X,
    chosen: &Option<String>,
    file: SharedFile,
    bytes: &[u8],
) -> Result<Option<SessionCredential>, Error>
    ensures { IsFound
        (found_in_file file (profile_of (option_map string_bytes chosen.now) (X.variables ctx.now)) bytes.now)
        result }
{
    let profile = profile_name(alloc, ctx, chosen)?;
    profile_session(alloc, file, profile.as_str(), bytes)
}

/// The name of the profile: the chosen one, else that of `AWS_PROFILE`, else `default`.
pub(crate) fn profile_name<X: HasVariables>(
    alloc: Global,
    ctx: &X,
    chosen: &Option<String>,
) -> Result<String, NoMemory<()>>
    ensures { IfOk result (λ name. string_bytes name
        ≡ profile_of (option_map string_bytes chosen.now) (X.variables ctx.now)) }
{
    match chosen {
        Some(name) => Ok(String::from_str(alloc, name.as_str())?),
        None => {
            let named = ctx.variable(alloc, "AWS_PROFILE")?;
            Ok(String::from_str(alloc, text_or(&named, "default"))?)
        }
    }
}
