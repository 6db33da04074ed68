//! A setting of a shared file, and which of them counts.
ghost use Rattle.std.specs.Prelude.{◌≡◌, None, option_map};
ghost use Rattle.aws_profiles.specs.Settings.{setting_texts, settings_texts};
ghost use Rattle.aws_profiles.specs.Sections.{is_setting_of, is_key, value_of};

use crate::SharedFile;

/// A setting: the section in which it stands, its key as it is written, and its value, which may be a secret.
/// It has no debug form.
#[derive(Drop)]
pub struct Setting<'a> {
    pub section: &'a str,
    pub key: &'a str,
    pub value: String,
}

/// The value of a key of the profile, in any case of letters: that of the last setting, wherever the
/// profile's sections stand in the file.
pub fn value_of<'s>(
    settings: &'s [Setting<'_>],
    file: SharedFile,
    profile: &str,
    key: &str,
) -> Option<&'s str>
    ensures { option_map (λ v. v.now) result
        ≡ value_of file profile.now key.now (settings_texts settings.now) }
{
    let mut last = None;
    for setting in settings {
        if is_setting_of(setting, file, profile, key) {
            last = Some(setting.value.as_str());
        }
    }
    last
}

fn is_setting_of(setting: &Setting<'_>, file: SharedFile, profile: &str, key: &str) -> bool
    ensures { result ≡ is_setting_of file profile.now key.now (setting_texts setting.now) }
{
    file.has_section(setting.section, profile) && is_key(setting.key, key)
}

fn is_key(key: &str, other: &str) -> bool
    ensures { result ≡ is_key key.now other.now }
{
    key.eq_ignore_ascii_case(other)
}
