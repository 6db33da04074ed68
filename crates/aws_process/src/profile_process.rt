//! The provider of what a profile's process prints.
ghost use Rattle.std.specs.Prelude.{◌≡◌, ℕ, List, None, Some, string_bytes};
ghost use Rattle.aws_process.specs.ProfileProcess.{OfOpenCall, ProfileProcessGives, ProfileProcessStarted};

use crate::profile_steps::{at_start, poll_stage};
use crate::{HasCommands, ProfileProcessLoad};
use aws_credentials::{HasVariables, SessionCredential};
use aws_profiles::HasFiles;
use credentials::{Polled, ProvideCredential};
use sign_base::NoMemory;
use std::alloc::Global;
use std::marker::{Model, PhantomData};

/// Runs the process that a profile names by the setting `credential_process` in the files that AWS's tools
/// share, and finds the credential that it prints as JSON. The credentials file is read first, and where
/// that has no such setting for the profile, the config file. A file that cannot be read has none.
///
/// The line is split as Python's `shlex` splits it; the first word is the program, and no shell reads them.
///
/// `CredentialInvalid` where a file cannot be read as settings, where the line has no words or does not end a
/// quotation or an escape, and as `ProcessProvider` of what the process leaves. No message shows anything of
/// a file or of what is printed. What the context answers to a run that fails is answered as it is.
///
/// The files are read at each load anew, and where an allocation failed, at the next poll.
#[derive(Drop)]
pub struct ProfileProcessProvider<X> {
    chosen: Option<String>,
    context: PhantomData<X>,
}

impl<X> Model for ProfileProcessProvider<X> {
    ghost use Rattle.std.specs.Prelude.{ℕ, List, Option, option_map, string_bytes};

    ghost Value = { Option (List ℕ) };

    ghost view = { λ provider. option_map string_bytes provider.chosen };
}

impl<X> ProfileProcessProvider<X> {
    /// Of the profile that `AWS_PROFILE` names at the load, or else of `default`.
    pub fn new() -> ProfileProcessProvider<X>
        ensures { result ≡ None }
    {
        ProfileProcessProvider {
            chosen: None,
            context: PhantomData,
        }
    }

    /// Of the profile of this name, whatever `AWS_PROFILE` says.
    pub fn of_profile(name: String) -> ProfileProcessProvider<X>
        ensures { result ≡ Some (string_bytes name) }
    {
        ProfileProcessProvider {
            chosen: Some(name),
            context: PhantomData,
        }
    }
}

impl<X: HasVariables + HasFiles + HasCommands> ProvideCredential for ProfileProcessProvider<X> {
    type Credential = SessionCredential;

    type Ctx = X;

    type Load = ProfileProcessLoad<X::Read, X::Run>;

    ghost started = { λ provider ctx load. ProfileProcessStarted (X.variables ctx) (X.home ctx) (X.reads ctx)
        (X.answers ctx) provider (X.HasFiles.begun ctx) (X.HasCommands.begun ctx) load };

    ghost ready = { λ provider ctx load. OfOpenCall load (X.read_ready ctx) (X.run_ready ctx)
        × ((path : List ℕ) (read : X.Read) → X.HasFiles.begun ctx path read → X.read_ready ctx read)
        × ((program : List ℕ) (args : List (List ℕ)) (run : X.Run)
        → X.HasCommands.begun ctx program args run → X.run_ready ctx run) };

    ghost gives = { λ provider ctx answer. ProfileProcessGives (X.variables ctx) (X.home ctx) (X.reads ctx)
        (X.answers ctx) provider answer };

    fn provide_credential(
        &self,
        _alloc: Global,
        _ctx: &X,
    ) -> Result<ProfileProcessLoad<X::Read, X::Run>, NoMemory<()>> {
        Ok(at_start())
    }

    fn poll_load(
        &self,
        alloc: Global,
        ctx: &X,
        load: &mut ProfileProcessLoad<X::Read, X::Run>,
    ) -> Polled<Option<SessionCredential>> {
        poll_stage(alloc, ctx, &self.chosen, load)
    }
}
