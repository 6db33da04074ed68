//! The two files that AWS's tools share, where they stand, and which of their sections are a profile's.
ghost use Rattle.std.specs.Prelude.{◌≡◌, IfOk, option_map, string_bytes, unwrap_or};
ghost use Rattle.aws_credentials.specs.Found.{unless_empty};
ghost use Rattle.aws_profiles.specs.Profiles.{path_of, path_variable, usual_path};
ghost use Rattle.aws_profiles.specs.Sections.{place_of, is_section_of, are_default, is_named_section};

use crate::HasFiles;
use crate::texts::trimmed;
use aws_credentials::HasVariables;
use sign_base::NoMemory;
use std::alloc::Global;

/// A file that AWS's tools share.
#[derive(Clone, Copy, Debug, PartialEq, Eq)]
pub enum SharedFile {
    /// `~/.aws/credentials`, or that of `AWS_SHARED_CREDENTIALS_FILE`. The section of a profile is its name.
    Credentials,
    /// `~/.aws/config`, or that of `AWS_CONFIG_FILE`. The section of a profile is `profile` and its name;
    /// that of `default` may be `default` alone.
    Config,
}

impl SharedFile {
    /// What messages call it.
    pub fn place(self) -> &'static str
        ensures { result.now ≡ place_of self }
    {
        match self {
            SharedFile::Credentials => "the shared credentials file",
            SharedFile::Config => "the shared config file",
        }
    }

    /// Whether the section of this name is the profile's.
    pub fn has_section(self, section: &str, profile: &str) -> bool
        ensures { result ≡ is_section_of self section.now profile.now }
    {
        match self {
            SharedFile::Credentials => section == profile,
            SharedFile::Config => {
                are_default(section, profile) || is_named_section(section, profile)
            }
        }
    }

    /// Where it stands, or None where the context has no home folder.
    pub fn path<X: HasVariables + HasFiles>(
        self,
        alloc: Global,
        ctx: &X,
    ) -> Result<Option<String>, NoMemory<()>>
        ensures { IfOk result (λ path. option_map string_bytes path
            ≡ path_of self (X.variables ctx.now) (X.home ctx.now)) }
    {
        let named = ctx.variable(alloc, self.path_variable())?;
        ctx.expand_home_dir(alloc, text_or(&named, self.usual_path()))
    }

    fn path_variable(self) -> &'static str
        ensures { result.now ≡ path_variable self }
    {
        match self {
            SharedFile::Credentials => "AWS_SHARED_CREDENTIALS_FILE",
            SharedFile::Config => "AWS_CONFIG_FILE",
        }
    }

    fn usual_path(self) -> &'static str
        ensures { result.now ≡ usual_path self }
    {
        match self {
            SharedFile::Credentials => "~/.aws/credentials",
            SharedFile::Config => "~/.aws/config",
        }
    }
}

fn are_default(section: &str, profile: &str) -> bool
    ensures { result ≡ are_default section.now profile.now }
{
    section == "default" && profile == "default"
}

fn is_named_section(section: &str, profile: &str) -> bool
    ensures { result ≡ is_named_section section.now profile.now }
{
    let (word, name) = section.split_once(' ').unwrap_or((section, ""));
    word == "profile" && trimmed(name) == profile
}

/// A text that is not empty, or else this one.
pub(crate) fn text_or<'a>(text: &'a Option<String>, other: &'a str) -> &'a str
    ensures { result.now ≡ unwrap_or (unless_empty (option_map string_bytes text.now)) other.now }
{
    match text {
        Some(text) if !text.is_empty() => text.as_str(),
        _ => other,
    }
}
