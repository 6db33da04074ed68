//! The lines of a shared file, each by itself.
ghost use Rattle.std.specs.Prelude.{◌≡◌, IfOk};
ghost use Rattle.aws_profiles.specs.Lines.{section_said, setting_said, said, lines_said};
ghost use Rattle.aws_profiles.specs.Lines.{read_as, lines_read_as};

use crate::texts::{begins_with_space, is_silent, trimmed, uncommented};
use std::alloc::{AllocError, Global};

/// What a line says that is not empty and no comment.
#[derive(Clone, Copy)]
pub(crate) enum Line<'a> {
    /// `[NAME]`: the settings behind it are of this section.
    Section(&'a str),
    /// `KEY = VALUE`.
    Setting { key: &'a str, value: &'a str },
    /// It begins with white space: more of the value of the setting before it.
    Continuation(&'a str),
    /// None of these.
    Malformed,
}

/// The lines of a text, in order, without those that are empty or a comment.
pub(crate) fn lines_of(alloc: Global, text: &str) -> Result<Vec<Line<'_>>, AllocError>
    ensures { IfOk result (λ lines. lines_read_as lines.items ≡ lines_said text.now) }
{
    let mut lines = Vec::new(alloc);
    for line in text.split('\n') {
        if !is_silent(line) {
            lines.push(read_line(line))?;
        }
    }
    Ok(lines)
}

fn read_line(line: &str) -> Line<'_>
    ensures { read_as result ≡ said line.now }
{
    if begins_with_space(line) {
        return Line::Continuation(trimmed(line));
    }
    match line.strip_prefix('[') {
        Some(rest) => read_section(rest),
        None => read_setting(line),
    }
}

/// What stands behind the `[` of a line.
fn read_section(text: &str) -> Line<'_>
    ensures { read_as result ≡ section_said text.now }
{
    match text.split_once(']') {
        Some((name, behind)) if is_silent(behind) => Line::Section(trimmed(name)),
        _ => Line::Malformed,
    }
}

fn read_setting(line: &str) -> Line<'_>
    ensures { read_as result ≡ setting_said line.now }
{
    match line.split_once('=') {
        Some((key, value)) => Line::Setting {
            key: trimmed(key),
            value: trimmed(uncommented(value)),
        },
        None => Line::Malformed,
    }
}
