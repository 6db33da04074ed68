//! The errors that refusals become, where they have none of their own: of a signer and of a granter.
ghost use Rattle.std.specs.Prelude.{◌≡◌, ◌++◌, ◌∷◌, [], IfOk};
ghost use Rattle.std.specs.String.{string_bytes};
ghost use Rattle.desk_driver.specs.RefusalText.{credential_error, credential_error_with, range_error};
ghost use Rattle.desk_driver.specs.RefusalText.{type_line, moment_line};

use sign_base::{Error, NoMemory, Timestamp};
use std::alloc::Global;

const RANGE: &str = "operation deadline is out of range";

/// A credential of this type is refused, with this message.
pub fn credential_refused(alloc: Global, message: &str, name: &str) -> Result<Error, NoMemory<()>>
    ensures { IfOk result (λ e. e ≡ credential_error message.now name.now) }
{
    with_type(alloc, Error::credential_invalid(alloc, message)?, name)
}

/// The same, for what holds or does not at a moment, which a line more names in whole seconds, under this
/// label.
pub fn credential_refused_at(
    alloc: Global,
    message: &str,
    name: &str,
    label: &str,
    moment: Timestamp,
) -> Result<Error, NoMemory<()>>
    ensures { IfOk result
        (λ e. e ≡ credential_error_with message.now name.now (moment_line label.now moment)) }
{
    let e = credential_refused(alloc, message, name)?;
    let line = moment_text(alloc, label, moment)?;
    with_line(alloc, e, line.as_str())
}

fn moment_text(alloc: Global, label: &str, moment: Timestamp) -> Result<String, NoMemory<()>>
    ensures { IfOk result (λ text. string_bytes text ≡ moment_line label.now moment) }
{
    let second = moment.as_second();
    Ok(format!(in alloc; "{label}: {second}")?)
}

/// The deadline of an operation with a credential of this type is out of the range of moments.
pub fn range_refused(alloc: Global, name: &str) -> Result<Error, NoMemory<()>>
    ensures { IfOk result (λ e. e ≡ range_error name.now) }
{
    with_type(alloc, Error::request_invalid(alloc, RANGE)?, name)
}

/// The error with the line that names the type of the credentials.
fn with_type(alloc: Global, e: Error, name: &str) -> Result<Error, NoMemory<()>>
    ensures { IfOk result (λ with. with ≡ record e { context = e.context ++ type_line name.now ∷ [] }) }
{
    let line = format!(in alloc; "credential_type: {name}")?;
    with_line(alloc, e, line.as_str())
}

fn with_line(alloc: Global, e: Error, line: &str) -> Result<Error, NoMemory<()>>
    ensures { IfOk result (λ with. with ≡ record e { context = e.context ++ line.now ∷ [] }) }
{
    match e.with_context(alloc, line) {
        Ok(e) => Ok(e),
        Err(_) => Err(NoMemory { back: () }),
    }
}
