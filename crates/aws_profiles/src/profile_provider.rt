//! The provider of a profile's key.
ghost use Rattle.std.specs.Prelude.{◌≡◌, ◌≢◌, ℕ, List, IfSome, None, Some, option_map, string_bytes};
ghost use Rattle.aws_profiles.specs.Reads.{Begun, LoadStarted, ProfileFileGives, ProfileGives, is_missing};

use crate::profile_load::poll_file;
use crate::{HasFiles, ProfileLoad, SharedFile};
use aws_credentials::{HasVariables, SessionCredential};
use credentials::{Polled, ProvideCredential};
use sign_base::NoMemory;
use std::alloc::Global;
use std::marker::{Model, PhantomData};

/// Finds the key of a profile in the files that AWS's tools share, which does not expire. The credentials
/// file is read first, and where that has no access key for the profile, the config file. A file that
/// cannot be read has none.
///
/// It answers `CredentialInvalid` where a file is no text or has a bad line, and where a profile has half
/// a key, or a value that has not the form of what it is for. The files are read at each load anew.
#[derive(Drop)]
pub struct ProfileProvider<X> {
    chosen: Option<String>,
    context: PhantomData<X>,
}

impl<X> Model for ProfileProvider<X> {
    ghost use Rattle.std.specs.Prelude.{ℕ, List, Option, option_map, string_bytes};

    ghost Value = { Option (List ℕ) };

    ghost view = { λ provider. option_map string_bytes provider.chosen };
}

impl<X> ProfileProvider<X> {
    /// Of the profile that `AWS_PROFILE` names at the load, or else of `default`.
    pub fn new() -> ProfileProvider<X>
        ensures { result ≡ None }
    {
        ProfileProvider {
            chosen: None,
            context: PhantomData,
        }
    }

    /// Of the profile of this name, whatever `AWS_PROFILE` says.
    pub fn of_profile(name: String) -> ProfileProvider<X>
        ensures { result ≡ Some (string_bytes name) }
    {
        ProfileProvider {
            chosen: Some(name),
            context: PhantomData,
        }
    }
}

impl<X: HasVariables + HasFiles> ProvideCredential for ProfileProvider<X> {
    type Credential = SessionCredential;

    type Ctx = X;

    type Load = ProfileLoad<X::Read>;

    ghost started = { λ provider ctx load. LoadStarted (Begun (X.variables ctx) (X.home ctx) (X.begun ctx))
        (ProfileFileGives (X.variables ctx) (X.home ctx) (X.reads ctx) provider) load.file load.open_read };

    ghost ready = { λ provider ctx load. IfSome load.open_read (λ read. X.read_ready ctx read)
        × ((path : List ℕ) (read : X.Read) → X.begun ctx path read → X.read_ready ctx read) };

    ghost gives = { λ provider ctx answer.
        ProfileGives (X.variables ctx) (X.home ctx) (X.reads ctx) provider answer };

    fn provide_credential(
        &self,
        _alloc: Global,
        _ctx: &X,
    ) -> Result<ProfileLoad<X::Read>, NoMemory<()>> {
        Ok(ProfileLoad {
            file: SharedFile::Credentials,
            open_read: None,
        })
    }

    fn poll_load(
        &self,
        alloc: Global,
        ctx: &X,
        load: &mut ProfileLoad<X::Read>,
    ) -> Polled<Option<SessionCredential>> {
        match load.file {
            SharedFile::Credentials => poll_both(alloc, ctx, &self.chosen, load),
            SharedFile::Config => poll_file(
                alloc,
                ctx,
                &self.chosen,
                SharedFile::Config,
                &mut load.open_read,
            ),
        }
    }
}

/// Polls the read of the credentials file, and where that has no access key, that of the config file.
fn poll_both<X: HasVariables + HasFiles>(
    alloc: Global,
    ctx: &X,
    chosen: &Option<String>,
    load: &mut ProfileLoad<X::Read>,
) -> Polled<Option<SessionCredential>>
    requires { load.old.file ≡ SharedFile.Credentials }
    ensures kept { IfSome load.old.open_read
        (Begun (X.variables ctx.now) (X.home ctx.now) (X.begun ctx.now) load.old.file)
        → LoadStarted (Begun (X.variables ctx.now) (X.home ctx.now) (X.begun ctx.now))
        (ProfileFileGives (X.variables ctx.now) (X.home ctx.now) (X.reads ctx.now)
        (option_map string_bytes chosen.now)) load.new.file load.new.open_read }
    ensures ready { IfSome load.old.open_read (λ read. X.read_ready ctx.now read)
        → ((path : List ℕ) (read : X.Read) → X.begun ctx.now path read → X.read_ready ctx.now read)
        → result ≢ Polled.Pending }
    ensures gives { IfSome load.old.open_read
        (Begun (X.variables ctx.now) (X.home ctx.now) (X.begun ctx.now) load.old.file)
        → ProfileGives (X.variables ctx.now) (X.home ctx.now) (X.reads ctx.now)
        (option_map string_bytes chosen.now) result }
{
    let answer = poll_file(
        alloc,
        ctx,
        chosen,
        SharedFile::Credentials,
        &mut load.open_read,
    );
    if !is_missing(&answer) {
        return answer;
    }
    load.file = SharedFile::Config;
    load.open_read = None;
    poll_file(alloc, ctx, chosen, SharedFile::Config, &mut load.open_read)
}

fn is_missing<C>(answer: &Polled<Option<C>>) -> bool
    ensures { result ≡ is_missing answer.now }
{
    match answer {
        Polled::Ready(None) => true,
        Polled::Ready(Some(_)) | Polled::Failed(_) | Polled::Pending | Polled::OutOfMemory => false,
    }
}
