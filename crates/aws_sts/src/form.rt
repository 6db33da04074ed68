//! The form that asks for a role.
ghost use Rattle.std.specs.Prelude.{◌≡◌, ◌++◌, IfOk, OnOk, option_map};
ghost use Rattle.std.specs.Duration.{as_nanos};
ghost use Rattle.aws_sts.specs.Role.{role_form, duration_pair, is_session_length, is_length_allowed};

use crate::Role;
use sign_base::NoMemory;
use sigv4_core::encode;
use std::alloc::Global;
use std::time::Duration;

impl Role {
    /// The form that asks for the role for so long.
    #[tactic(auto, unfolding(crate::specs::Role::role_form))]
    pub(crate) fn form(
        &self,
        alloc: Global,
        expires_in: Option<Duration>,
    ) -> Result<Vec<u8>, NoMemory<()>>
        ensures { IfOk result (λ form. form.items ≡ role_form self.now (option_map as_nanos expires_in)) }
    {
        let mut form = Vec::from_slice(
            alloc,
            b"Action=AssumeRole&Version=2011-06-15&RoleArn=".as_slice(),
        )?;
        form.extend_from_slice(encode(alloc, self.arn.as_slice())?.as_slice())?;
        form.extend_from_slice(b"&RoleSessionName=")?;
        form.extend_from_slice(encode(alloc, self.session_name.as_slice())?.as_slice())?;
        push_duration(alloc, &mut form, expires_in)?;
        Ok(form)
    }
}

fn push_duration(
    alloc: Global,
    form: &mut Vec<u8>,
    expires_in: Option<Duration>,
) -> Result<(), NoMemory<()>>
    ensures { OnOk result
        (form.new.items ≡ form.old.items ++ duration_pair (option_map as_nanos expires_in)) }
{
    if let Some(duration) = expires_in {
        let seconds = duration.as_secs();
        let pair = format!(in alloc; "&DurationSeconds={seconds}")?;
        form.extend_from_slice(pair.as_bytes())?;
    }
    Ok(())
}

/// Whether a session may last so long, or is to last as long as the role says.
pub(crate) fn is_length_allowed(expires_in: Option<Duration>) -> bool
    ensures { result ≡ is_length_allowed (option_map as_nanos expires_in) }
{
    match expires_in {
        Some(duration) => is_session_length(duration.as_secs()),
        None => true,
    }
}

fn is_session_length(seconds: u64) -> bool
    ensures { result ≡ is_session_length seconds }
{
    900 <= seconds && seconds <= 43_200
}
