//! The line of the process that a profile names in a shared file.
ghost use Rattle.std.specs.Prelude.{◌≡◌, ◌≢◌, ◌⊎◌, ℕ, List, Ok, Some, IfOk, IfErr, IfSome, MatchOption};
ghost use Rattle.std.specs.Prelude.{option_map, string_bytes};
ghost use Rattle.credentials.specs.declared.polled.Polled.{Polled};
ghost use Rattle.credentials.specs.Polled.{polled_map};
ghost use Rattle.aws_profiles.specs.Profiles.{profile_of, process_in_file, IsRefusalOf};
ghost use Rattle.aws_profiles.specs.Reads.{Begun, LineGives, line_polled, line_said};

use crate::file_poll::poll_shared_file;
use crate::profile_load::profile_name;
use crate::{HasFiles, SharedFile, profile_process};
use aws_credentials::HasVariables;
use credentials::Polled;
use sign_base::{Error, ErrorKind};
use std::alloc::Global;

/// Polls the open read of a shared file, which is begun first where none is open, for the profile's setting
/// `credential_process`. The profile is the chosen one, else that of `AWS_PROFILE`, else `default`. None
/// where it has no such setting there, where the file cannot be read, or where its path is not known.
///
/// `CredentialInvalid` as `profile_process`. The read stays open where it can be polled again.
pub fn poll_process_line<X: HasVariables + HasFiles>(
    alloc: Global,
    ctx: &X,
    chosen: &Option<String>,
    file: SharedFile,
    open_read: &mut Option<X::Read>,
) -> Polled<Option<String>>
    ensures kept { IfSome open_read.old (Begun (X.variables ctx.now) (X.home ctx.now) (X.begun ctx.now) file)
        → IfSome open_read.new (Begun (X.variables ctx.now) (X.home ctx.now) (X.begun ctx.now) file) }
    ensures ready { MatchOption open_read.old
        ((path : List ℕ) (read : X.Read) → X.begun ctx.now path read → X.read_ready ctx.now read)
        (λ read. X.read_ready ctx.now read)
        → result ≢ Polled.Pending }
    ensures gives { IfSome open_read.old (Begun (X.variables ctx.now) (X.home ctx.now) (X.begun ctx.now) file)
        → LineGives (X.variables ctx.now) (X.home ctx.now) (X.reads ctx.now)
        (option_map string_bytes chosen.now) file (polled_map (option_map string_bytes) result) }
{
    match poll_shared_file(alloc, ctx, file, open_read) {
        Some(bytes) => line_answered(alloc, ctx, chosen, file, bytes),
        None => Polled::Ready(None),
    }
}

/// What is answered by a read of the file.
fn line_answered<X: HasVariables>(
    alloc: Global,
    ctx: &X,
    chosen: &Option<String>,
    file: SharedFile,
    bytes: Polled<Vec<u8>>,
) -> Polled<Option<String>>
    ensures gives { (polled_map (option_map string_bytes) result ≡ line_said file
        (profile_of (option_map string_bytes chosen.now) (X.variables ctx.now))
        (Some (polled_map (λ v. v.items) bytes)))
        ⊎ (result ≡ Polled.OutOfMemory) }
    ensures ready { bytes ≢ Polled.Pending → result ≢ Polled.Pending }
{
    match bytes {
        Polled::Ready(bytes) => line_polled(alloc, ctx, chosen, file, bytes.as_slice()),
        Polled::Failed(_) => Polled::Ready(None),
        Polled::Pending => Polled::Pending,
        Polled::OutOfMemory => Polled::OutOfMemory,
    }
}

fn line_polled<X: HasVariables>(
    alloc: Global,
    ctx: &X,
    chosen: &Option<String>,
    file: SharedFile,
    bytes: &[u8],
) -> Polled<Option<String>>
    ensures gives { (polled_map (option_map string_bytes) result ≡ line_polled (process_in_file file
        (profile_of (option_map string_bytes chosen.now) (X.variables ctx.now)) bytes.now))
        ⊎ (result ≡ Polled.OutOfMemory) }
    ensures ready { result ≢ Polled.Pending }
{
    match line_in_bytes(alloc, ctx, chosen, file, bytes) {
        Ok(line) => Polled::Ready(line),
        Err(error) if error.kind() == ErrorKind::OutOfMemory => Polled::OutOfMemory,
        Err(error) => Polled::Failed(error),
    }
}

fn line_in_bytes<X: HasVariables>(
    alloc: Global,
    ctx: &X,
    chosen: &Option<String>,
    file: SharedFile,
    bytes: &[u8],
) -> Result<Option<String>, Error>
    ensures ok { IfOk result (λ line. process_in_file file
        (profile_of (option_map string_bytes chosen.now) (X.variables ctx.now)) bytes.now
        ≡ Ok (option_map string_bytes line)) }
    ensures err { IfErr result (IsRefusalOf (process_in_file file
        (profile_of (option_map string_bytes chosen.now) (X.variables ctx.now)) bytes.now)) }
{
    let profile = profile_name(alloc, ctx, chosen)?;
    profile_process(alloc, file, profile.as_str(), bytes)
}
