//! What a profile has in the bytes of a shared file: its credential, or the process that prints one.
ghost use Rattle.std.specs.Prelude.{◌≡◌, Ok, IfOk, IfErr, option_map, string_bytes};
ghost use Rattle.aws_credentials.specs.Found.{IsFound};
ghost use Rattle.aws_profiles.specs.Settings.{settings_texts};
ghost use Rattle.aws_profiles.specs.Profiles.{found_in_file, found_in_settings, process_in_file, IsRefusalOf};

use crate::{Setting, SharedFile, read_settings, value_of};
use aws_credentials::{KeyTexts, SessionCredential, session_in};
use sign_base::{Error, NoMemory};
use std::alloc::Global;

/// The credential that the profile has in the bytes of this file, or None where it has no access key there.
/// It does not expire.
///
/// `CredentialInvalid`, with the file's place in its message and nothing of its bytes, where the file cannot
/// be read as settings, where there is no secret key, or where a value has not the form of what it is for.
pub fn profile_session(
    alloc: Global,
    file: SharedFile,
    profile: &str,
    bytes: &[u8],
) -> Result<Option<SessionCredential>, Error>
    ensures { IsFound (found_in_file file profile.now bytes.now) result }
{
    match read_settings(alloc, bytes) {
        Ok(settings) => session_of(alloc, file, profile, settings.as_slice()),
        Err(fault) => Err(fault.error_in(alloc, file.place())?),
    }
}

fn session_of(
    alloc: Global,
    file: SharedFile,
    profile: &str,
    settings: &[Setting<'_>],
) -> Result<Option<SessionCredential>, Error>
    ensures { IsFound (found_in_settings file profile.now (settings_texts settings.now)) result }
{
    let texts = KeyTexts {
        access: copied(
            alloc,
            value_of(settings, file, profile, "aws_access_key_id"),
        )?,
        secret: copied(
            alloc,
            value_of(settings, file, profile, "aws_secret_access_key"),
        )?,
        token: copied(
            alloc,
            value_of(settings, file, profile, "aws_session_token"),
        )?,
    };
    session_in(alloc, file.place(), texts, None)
}

/// The profile's setting `credential_process` in the bytes of this file, or None where it has none there: the
/// line of a process that prints its credential.
///
/// `CredentialInvalid`, with the file's place in its message and nothing of its bytes, where the file cannot
/// be read as settings.
pub fn profile_process(
    alloc: Global,
    file: SharedFile,
    profile: &str,
    bytes: &[u8],
) -> Result<Option<String>, Error>
    ensures ok { IfOk result
        (λ line. process_in_file file profile.now bytes.now ≡ Ok (option_map string_bytes line)) }
    ensures err { IfErr result (IsRefusalOf (process_in_file file profile.now bytes.now)) }
{
    match read_settings(alloc, bytes) {
        Ok(settings) => Ok(copied(
            alloc,
            value_of(settings.as_slice(), file, profile, "credential_process"),
        )?),
        Err(fault) => Err(fault.error_in(alloc, file.place())?),
    }
}

fn copied(alloc: Global, text: Option<&str>) -> Result<Option<String>, NoMemory<()>>
    ensures { IfOk result (λ copy. option_map string_bytes copy ≡ option_map (λ t. t.now) text.entry) }
{
    match text {
        Some(text) => Ok(Some(String::from_str(alloc, text)?)),
        None => Ok(None),
    }
}
