//! The steps of a load of what a profile's process prints: each goes on with what is open.
ghost use Rattle.std.specs.Prelude.{◌≡◌, ◌≢◌, ◌⊎◌, ℕ, List, Some, IfOk, IfSome, IfNone};
ghost use Rattle.std.specs.Prelude.{option_map, string_bytes};
ghost use Rattle.aws_profiles.specs.Reads.{Begun};
ghost use Rattle.aws_process.specs.CommandLine.{command_in, command_seen};
ghost use Rattle.aws_process.specs.Process.{Command, ProcessGives};
ghost use Rattle.aws_process.specs.ProfileProcess.{GivesBehind, GivesCommand, GivesFrom, LeadsTo};
ghost use Rattle.aws_process.specs.ProfileProcess.{IsRunOf, MayWait, OfOpenCall, ProfileProcessStarted};
ghost use Rattle.aws_process.specs.ProfileProcess.{ProfileProcessGives, StaysStarted};

use crate::command_line::{CommandLine, command_in};
use crate::output::session_polled;
use crate::{HasCommands, ProfileProcessLoad};
use aws_credentials::{HasVariables, SessionCredential};
use aws_profiles::{HasFiles, SharedFile, poll_process_line};
use credentials::Polled;
use sign_base::{Error, ErrorKind, NoMemory};
use std::alloc::Global;
use std::mem;

/// Goes on with a load: reads the credentials file for the profile's process, then the config file, and runs
/// what it finds.
pub(crate) fn poll_stage<X: HasVariables + HasFiles + HasCommands>(
    alloc: Global,
    ctx: &X,
    chosen: &Option<String>,
    load: &mut ProfileProcessLoad<X::Read, X::Run>,
) -> Polled<Option<SessionCredential>>
    ensures kept { ProfileProcessStarted (X.variables ctx.now) (X.home ctx.now) (X.reads ctx.now)
        (X.answers ctx.now) (option_map string_bytes chosen.now) (X.HasFiles.begun ctx.now)
        (X.HasCommands.begun ctx.now) load.old
        → ProfileProcessStarted (X.variables ctx.now) (X.home ctx.now) (X.reads ctx.now)
        (X.answers ctx.now) (option_map string_bytes chosen.now) (X.HasFiles.begun ctx.now)
        (X.HasCommands.begun ctx.now) load.new }
    ensures ready { OfOpenCall load.old (X.read_ready ctx.now) (X.run_ready ctx.now)
        → ((path : List ℕ) (read : X.Read) → X.HasFiles.begun ctx.now path read → X.read_ready ctx.now read)
        → ((program : List ℕ) (args : List (List ℕ)) (run : X.Run)
        → X.HasCommands.begun ctx.now program args run → X.run_ready ctx.now run)
        → result ≢ Polled.Pending }
    ensures gives { ProfileProcessStarted (X.variables ctx.now) (X.home ctx.now) (X.reads ctx.now)
        (X.answers ctx.now) (option_map string_bytes chosen.now) (X.HasFiles.begun ctx.now)
        (X.HasCommands.begun ctx.now) load.old
        → ProfileProcessGives (X.variables ctx.now) (X.home ctx.now) (X.reads ctx.now) (X.answers ctx.now)
        (option_map string_bytes chosen.now) result }
{
    match mem::replace(load, at_start()) {
        ProfileProcessLoad::Reading {
            file: SharedFile::Credentials,
            open_read,
        } => poll_credentials(alloc, ctx, chosen, load, open_read),
        ProfileProcessLoad::Reading {
            file: SharedFile::Config,
            open_read,
        } => poll_config(alloc, ctx, chosen, load, open_read),
        ProfileProcessLoad::Running { run } => poll_run(alloc, ctx, load, run),
    }
}

/// A load that read nothing yet.
pub(crate) fn at_start<R, P>() -> ProfileProcessLoad<R, P>
    ensures { result ≡ ProfileProcessLoad.Reading SharedFile.Credentials None }
{
    ProfileProcessLoad::Reading {
        file: SharedFile::Credentials,
        open_read: None,
    }
}

/// Goes on with the credentials file, and where that names no process, with the config file.
fn poll_credentials<X: HasVariables + HasFiles + HasCommands>(
    alloc: Global,
    ctx: &X,
    chosen: &Option<String>,
    load: &mut ProfileProcessLoad<X::Read, X::Run>,
    open_read: Option<X::Read>,
) -> Polled<Option<SessionCredential>>
    ensures kept { StaysStarted (X.variables ctx.now) (X.home ctx.now) (X.reads ctx.now) (X.answers ctx.now)
        (option_map string_bytes chosen.now) (X.HasFiles.begun ctx.now) (X.HasCommands.begun ctx.now)
        load.old (ProfileProcessLoad.Reading SharedFile.Credentials open_read) load.new }
    ensures ready { IfSome open_read (X.read_ready ctx.now)
        → ((path : List ℕ) (read : X.Read) → X.HasFiles.begun ctx.now path read → X.read_ready ctx.now read)
        → ((program : List ℕ) (args : List (List ℕ)) (run : X.Run)
        → X.HasCommands.begun ctx.now program args run → X.run_ready ctx.now run)
        → result ≢ Polled.Pending }
    ensures gives { IfSome open_read (Begun (X.variables ctx.now) (X.home ctx.now)
        (X.HasFiles.begun ctx.now) SharedFile.Credentials)
        → GivesFrom (X.variables ctx.now) (X.home ctx.now) (X.reads ctx.now) (X.answers ctx.now)
        (option_map string_bytes chosen.now) SharedFile.Credentials result }
{
    match poll_file(alloc, ctx, chosen, load, SharedFile::Credentials, open_read) {
        Some(answer) => answer,
        None => poll_config(alloc, ctx, chosen, load, None),
    }
}

/// Goes on with the config file, behind which there is no credential.
fn poll_config<X: HasVariables + HasFiles + HasCommands>(
    alloc: Global,
    ctx: &X,
    chosen: &Option<String>,
    load: &mut ProfileProcessLoad<X::Read, X::Run>,
    open_read: Option<X::Read>,
) -> Polled<Option<SessionCredential>>
    ensures kept { StaysStarted (X.variables ctx.now) (X.home ctx.now) (X.reads ctx.now) (X.answers ctx.now)
        (option_map string_bytes chosen.now) (X.HasFiles.begun ctx.now) (X.HasCommands.begun ctx.now)
        load.old (ProfileProcessLoad.Reading SharedFile.Config open_read) load.new }
    ensures ready { IfSome open_read (X.read_ready ctx.now)
        → ((path : List ℕ) (read : X.Read) → X.HasFiles.begun ctx.now path read → X.read_ready ctx.now read)
        → ((program : List ℕ) (args : List (List ℕ)) (run : X.Run)
        → X.HasCommands.begun ctx.now program args run → X.run_ready ctx.now run)
        → result ≢ Polled.Pending }
    ensures gives { IfSome open_read (Begun (X.variables ctx.now) (X.home ctx.now)
        (X.HasFiles.begun ctx.now) SharedFile.Config)
        → GivesFrom (X.variables ctx.now) (X.home ctx.now) (X.reads ctx.now) (X.answers ctx.now)
        (option_map string_bytes chosen.now) SharedFile.Config result }
{
    match poll_file(alloc, ctx, chosen, load, SharedFile::Config, open_read) {
        Some(answer) => answer,
        None => Polled::Ready(None),
    }
}

/// Goes on with a file, and runs the process that it names for the profile; or None where it names none.
fn poll_file<X: HasVariables + HasFiles + HasCommands>(
    alloc: Global,
    ctx: &X,
    chosen: &Option<String>,
    load: &mut ProfileProcessLoad<X::Read, X::Run>,
    file: SharedFile,
    mut open_read: Option<X::Read>,
) -> Option<Polled<Option<SessionCredential>>>
    ensures kept { StaysStarted (X.variables ctx.now) (X.home ctx.now) (X.reads ctx.now) (X.answers ctx.now)
        (option_map string_bytes chosen.now) (X.HasFiles.begun ctx.now) (X.HasCommands.begun ctx.now)
        load.old (ProfileProcessLoad.Reading file open_read) load.new }
    ensures ready { IfSome open_read (X.read_ready ctx.now)
        → ((path : List ℕ) (read : X.Read) → X.HasFiles.begun ctx.now path read → X.read_ready ctx.now read)
        → ((program : List ℕ) (args : List (List ℕ)) (run : X.Run)
        → X.HasCommands.begun ctx.now program args run → X.run_ready ctx.now run)
        → result ≢ Some Polled.Pending }
    ensures none { IfSome open_read
        (Begun (X.variables ctx.now) (X.home ctx.now) (X.HasFiles.begun ctx.now) file)
        → IfNone result (LeadsTo
        (GivesBehind (X.variables ctx.now) (X.home ctx.now) (X.reads ctx.now) (X.answers ctx.now)
        (option_map string_bytes chosen.now) file)
        (GivesFrom (X.variables ctx.now) (X.home ctx.now) (X.reads ctx.now) (X.answers ctx.now)
        (option_map string_bytes chosen.now) file)) }
    ensures gives { IfSome open_read
        (Begun (X.variables ctx.now) (X.home ctx.now) (X.HasFiles.begun ctx.now) file)
        → IfSome result (GivesFrom (X.variables ctx.now) (X.home ctx.now) (X.reads ctx.now)
        (X.answers ctx.now) (option_map string_bytes chosen.now) file) }
{
    match poll_process_line(alloc, ctx, chosen, file, &mut open_read) {
        Polled::Ready(Some(line)) => {
            Some(run_line(alloc, ctx, load, file.place(), line.as_str()))
        }
        Polled::Ready(None) => None,
        Polled::Pending => {
            *load = ProfileProcessLoad::Reading { file, open_read };
            Some(Polled::Pending)
        }
        Polled::Failed(error) => Some(Polled::Failed(error)),
        Polled::OutOfMemory => Some(Polled::OutOfMemory),
    }
}

/// Runs the command of a line, and keeps the run in the load where it is pending.
fn run_line<X: HasFiles + HasCommands>(
    alloc: Global,
    ctx: &X,
    load: &mut ProfileProcessLoad<X::Read, X::Run>,
    place: &str,
    line: &str,
) -> Polled<Option<SessionCredential>>
    ensures kept { MayWait load.old load.new
        (IsRunOf (X.HasCommands.begun ctx.now) (command_in place.now line.now)) }
    ensures ready { ((program : List ℕ) (args : List (List ℕ)) (run : X.Run)
        → X.HasCommands.begun ctx.now program args run → X.run_ready ctx.now run)
        → result ≢ Polled.Pending }
    ensures gives { GivesCommand (X.answers ctx.now) (command_in place.now line.now) result
        ⊎ (result ≡ Polled.OutOfMemory) }
{
    let command = match command_in(alloc, place, line) {
        Ok(command) => command,
        Err(error) => return failed(error),
    };
    match begin(alloc, ctx, &command) {
        Ok(run) => poll_run(alloc, ctx, load, run),
        Err(_) => Polled::OutOfMemory,
    }
}

/// What is answered to an error.
fn failed(error: Error) -> Polled<Option<SessionCredential>>
    ensures memory { error.kind ≡ ErrorKind.OutOfMemory → result ≡ Polled.OutOfMemory }
    ensures other { error.kind ≢ ErrorKind.OutOfMemory → result ≡ Polled.Failed error }
    ensures over { result ≢ Polled.Pending }
{
    if error.kind() == ErrorKind::OutOfMemory {
        drop(error);
        return Polled::OutOfMemory;
    }
    Polled::Failed(error)
}

fn begin<X: HasCommands>(
    alloc: Global,
    ctx: &X,
    command: &CommandLine,
) -> Result<X::Run, NoMemory<()>>
    ensures { IfOk result (X.begun ctx.now (command_seen command.now).program
        (command_seen command.now).args) }
{
    ctx.command_execute(alloc, command.program.as_str(), command.args.as_slice())
}

/// Goes on with a run, and keeps it in the load where it is pending.
fn poll_run<X: HasFiles + HasCommands>(
    alloc: Global,
    ctx: &X,
    load: &mut ProfileProcessLoad<X::Read, X::Run>,
    mut run: X::Run,
) -> Polled<Option<SessionCredential>>
    ensures kept { MayWait load.old load.new (λ kept. (program : List ℕ) (args : List (List ℕ))
        → X.HasCommands.begun ctx.now program args run → X.HasCommands.begun ctx.now program args kept) }
    ensures ready { X.run_ready ctx.now run → result ≢ Polled.Pending }
    ensures gives { (command : Command) → X.HasCommands.begun ctx.now command.program command.args run
        → ProcessGives (X.answers ctx.now) command result }
{
    match ctx.poll_command(alloc, &mut run) {
        Polled::Pending => {
            *load = ProfileProcessLoad::Running { run };
            Polled::Pending
        }
        polled => session_polled(alloc, polled),
    }
}
