//! What a command left, and the credential of it.
ghost use Rattle.std.specs.Prelude.{◌≡◌, ◌⊎◌, ◌++◌, ◌≢◌, pos, codes, IfOk, string_bytes};
ghost use Rattle.std.specs.Fmt.{signed_decimal};
ghost use Rattle.std.specs.Str.Lossy.{utf8_lossy};
ghost use Rattle.sign_base.specs.Refusal.{IsErrorOf};
ghost use Rattle.sign_base.specs.declared.error_kind.ErrorKind.TheVariants.{CredentialInvalid};
ghost use Rattle.aws_credentials.specs.Found.{IsFound};
ghost use Rattle.aws_process.specs.Process.{found_in_output, found_in_print, GivesRun};

use aws_credentials::{SessionCredential, polled_session};
use aws_json::{DocumentForm, session_of_json};
use credentials::{CommandOutput, Polled};
use sign_base::{Error, ErrorKind, NoMemory};
use std::alloc::Global;

const PLACE: &str = "the output of the process";

/// The most bytes that a process may print.
const MOST_BYTES: usize = 1_048_576;

/// What is answered by a poll of the run.
pub(crate) fn session_polled(
    alloc: Global,
    polled: Polled<CommandOutput>,
) -> Polled<Option<SessionCredential>>
    ensures gives { GivesRun polled result ⊎ (result ≡ Polled.OutOfMemory) }
    ensures pending { polled ≢ Polled.Pending → result ≢ Polled.Pending }
{
    match polled {
        Polled::Ready(output) => polled_session(session_in_output(alloc, output)),
        Polled::Pending => Polled::Pending,
        Polled::Failed(error) => Polled::Failed(error),
        Polled::OutOfMemory => Polled::OutOfMemory,
    }
}

/// The credential of what a command left.
fn session_in_output(
    alloc: Global,
    output: CommandOutput,
) -> Result<Option<SessionCredential>, Error>
    ensures { IsFound (found_in_output output) result }
{
    if output.status != 0 {
        let status = output.status;
        drop(output);
        return Err(refused_status(alloc, status));
    }
    session_in_print(alloc, output.stdout.as_slice())
}

fn session_in_print(alloc: Global, stdout: &[u8]) -> Result<Option<SessionCredential>, Error>
    ensures { IsFound (found_in_print stdout.now) result }
{
    if stdout.len() > MOST_BYTES {
        return Err(Error::credential_invalid(
            alloc,
            "more than 1 MiB in the output of the process",
        )?);
    }
    let text = text_of(alloc, stdout)?;
    session_of_json(alloc, DocumentForm::Process, PLACE, text.as_str())
}

fn refused_status(alloc: Global, status: i32) -> Error
    ensures { IsErrorOf CredentialInvalid
        (codes "status " ++ (signed_decimal status ++ codes " of the process")) result }
{
    match format!(in alloc; "status {status} of the process") {
        Ok(message) => Error::of(ErrorKind::CredentialInvalid, message),
        Err(_) => Error::out_of_memory(),
    }
}

/// The bytes as text, with U+FFFD for what is not UTF-8.
pub(crate) fn text_of(alloc: Global, bytes: &[u8]) -> Result<String, NoMemory<()>>
    ensures { IfOk result (λ text. string_bytes text ≡ utf8_lossy bytes.now) }
{
    Ok(String::from_utf8_lossy(alloc, bytes)?)
}
