//! The settings of a shared file, read from its bytes.
ghost use Rattle.std.specs.Prelude.{◌≡◌, ◌++◌, ◌∷◌, IfOk, IfErr, OnOk, Some, None, Ok, false, string_bytes};
ghost use Rattle.aws_profiles.specs.Lines.{Sets, read_as, lines_read_as, lines_said};
ghost use Rattle.aws_profiles.specs.Settings.{added, settings_from, settings_of, settings_texts};
ghost use Rattle.aws_profiles.specs.Settings.{IsFaultOf, IsBadFor, settings_with};

use crate::line::{Line, lines_of};
use crate::{FileFault, Setting};
use std::alloc::{AllocError, Global};

/// How many bytes a shared file may have.
const MAX_LENGTH: usize = 1_048_576;

/// The settings of a shared file, in order.
///
/// The format is that of AWS's page "Shared config and credentials files". A line `[NAME]` opens a section,
/// and `KEY = VALUE` is a setting of it. A line that begins with white space belongs to the value of the
/// setting before it, where it is a line of its own. A line whose first visible byte is `#` or `;` is a
/// comment, and so is what begins with one of these behind white space in a value. White space round names,
/// keys and values goes. `BadLine` where a line is none of these, or has no section or no setting before it
/// to belong to; `TooLong` for more than 1 MiB, and `NotUtf8`.
pub fn read_settings(alloc: Global, bytes: &[u8]) -> Result<Vec<Setting<'_>>, FileFault>
    ensures ok { IfOk result (λ settings. settings_of bytes.now ≡ Ok (settings_texts settings.items)) }
    ensures err { IfErr result (λ fault. IsFaultOf (settings_of bytes.now) fault) }
{
    if bytes.len() > MAX_LENGTH {
        return Err(FileFault::TooLong);
    }
    match str::from_utf8(bytes) {
        Ok(text) => text_settings(alloc, text),
        Err(_) => Err(FileFault::NotUtf8),
    }
}

fn text_settings(alloc: Global, text: &str) -> Result<Vec<Setting<'_>>, FileFault>
    ensures ok { IfOk result (λ settings. settings_from None false (lines_said text.now)
        ≡ Some (settings_texts settings.items)) }
    ensures err { IfErr result (λ fault.
        IsBadFor (settings_from None false (lines_said text.now)) fault) }
{
    let lines = lines_of(alloc, text)?;
    settings_in(alloc, lines.as_slice())
}

fn settings_in<'a>(alloc: Global, lines: &[Line<'a>]) -> Result<Vec<Setting<'a>>, FileFault>
    ensures ok { IfOk result (λ settings. settings_from None false (lines_read_as lines.now)
        ≡ Some (settings_texts settings.items)) }
    ensures err { IfErr result (λ fault.
        IsBadFor (settings_from None false (lines_read_as lines.now)) fault) }
{
    let mut reading = Reading {
        section: None,
        behind: false,
        settings: Vec::new(alloc),
    };
    for i in 0..lines.len() {
        reading.take(alloc, lines[i], &lines[i + 1..])?;
    }
    Ok(reading.settings)
}

/// What was read so far: the section in which the next line stands, whether it stands behind a setting of
/// that, and the settings.
#[derive(Drop)]
struct Reading<'a> {
    section: Option<&'a str>,
    behind: bool,
    settings: Vec<Setting<'a>>,
}

impl<'a> Reading<'a> {
    /// Takes a line, which others follow.
    fn take(&mut self, alloc: Global, line: Line<'a>, later: &[Line<'a>]) -> Result<(), FileFault>
        ensures ok { OnOk result (settings_with self.old (read_as line.entry ∷ lines_read_as later.now)
            ≡ settings_with self.new (lines_read_as later.now)) }
        ensures err { IfErr result (λ fault.
            IsBadFor (settings_with self.old (read_as line.entry ∷ lines_read_as later.now)) fault) }
    {
        match line {
            Line::Section(name) => {
                self.section = Some(name);
                self.behind = false;
                Ok(())
            }
            Line::Setting { key, value } => self.push(alloc, key, value, later),
            Line::Continuation(_) if self.behind => Ok(()),
            Line::Continuation(_) | Line::Malformed => Err(FileFault::BadLine),
        }
    }

    fn push(
        &mut self,
        alloc: Global,
        key: &'a str,
        value: &str,
        later: &[Line<'a>],
    ) -> Result<(), FileFault>
        ensures ok { OnOk result (settings_with self.old (Sets key.now value.now ∷ lines_read_as later.now)
            ≡ settings_with self.new (lines_read_as later.now)) }
        ensures err { IfErr result (λ fault. IsBadFor
            (settings_with self.old (Sets key.now value.now ∷ lines_read_as later.now)) fault) }
    {
        let Some(section) = self.section else {
            return Err(FileFault::BadLine);
        };
        let value = with_added(alloc, value, later)?;
        self.settings.push(Setting {
            section,
            key,
            value,
        })?;
        self.behind = true;
        Ok(())
    }
}

/// A value with what the lines right behind it add, each on a line of its own.
fn with_added(alloc: Global, value: &str, later: &[Line<'_>]) -> Result<String, AllocError>
    ensures { IfOk result (λ text. string_bytes text ≡ value.now ++ added (lines_read_as later.now)) }
{
    let mut text = String::from_str(alloc, value)?;
    for line in later {
        let Line::Continuation(more) = line else {
            return Ok(text);
        };
        text.push('\n')?;
        text.push_str(more)?;
    }
    Ok(text)
}
