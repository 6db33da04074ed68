//! The provider of what a process prints.
ghost use Rattle.std.specs.Prelude.{◌≡◌, ◌≢◌, ℕ, List, IfSome, map, string_bytes};
ghost use Rattle.aws_process.specs.Process.{ProcessGives};

use crate::HasCommands;
use crate::output::session_polled;
use aws_credentials::SessionCredential;
use credentials::{Polled, ProvideCredential};
use sign_base::NoMemory;
use std::alloc::Global;
use std::marker::{Model, PhantomData};

/// Runs a program, and finds the credential that it prints as JSON: what the setting `credential_process` of
/// AWS's tools names.
///
/// `CredentialInvalid` where its status is not 0, where it prints more than 1 MiB, and what `session_of_json`
/// refuses. Nothing of what it prints stands in a message, and what it writes to its standard error is passed
/// over. What the context answers to a run that fails is answered as it is.
///
/// Where an allocation failed, the next poll may run it anew.
#[derive(Drop)]
pub struct ProcessProvider<X> {
    program: String,
    args: Vec<String>,
    context: PhantomData<X>,
}

impl<X> Model for ProcessProvider<X> {
    ghost use Rattle.std.specs.Prelude.{map, string_bytes};
    ghost use Rattle.aws_process.specs.Process.{Command};

    ghost Value = { Command };

    ghost view = { λ provider. record {
      program = string_bytes provider.program;
      args = map string_bytes provider.args.items;
    } };
}

impl<X> ProcessProvider<X> {
    /// Of this program with these arguments: the words of the setting. No shell reads them.
    pub fn new(program: String, args: Vec<String>) -> ProcessProvider<X>
        ensures { result ≡ record { program = string_bytes program; args = map string_bytes args.items } }
    {
        ProcessProvider {
            program,
            args,
            context: PhantomData,
        }
    }
}

/// A load of what a process prints: the run, where one is open.
#[derive(Drop)]
pub struct ProcessLoad<R> {
    open_run: Option<R>,
}

impl<X: HasCommands> ProvideCredential for ProcessProvider<X> {
    type Credential = SessionCredential;

    type Ctx = X;

    type Load = ProcessLoad<X::Run>;

    ghost started = { λ provider ctx load.
        IfSome load.open_run (X.begun ctx provider.program provider.args) };

    ghost ready = { λ provider ctx load. IfSome load.open_run (X.run_ready ctx)
        × ((program : List ℕ) (args : List (List ℕ)) (run : X.Run)
        → X.begun ctx program args run → X.run_ready ctx run) };

    ghost gives = { λ provider ctx answer. ProcessGives (X.answers ctx) provider answer };

    fn provide_credential(
        &self,
        _alloc: Global,
        _ctx: &X,
    ) -> Result<ProcessLoad<X::Run>, NoMemory<()>> {
        Ok(ProcessLoad { open_run: None })
    }

    fn poll_load(
        &self,
        alloc: Global,
        ctx: &X,
        load: &mut ProcessLoad<X::Run>,
    ) -> Polled<Option<SessionCredential>> {
        let mut run = match load.open_run.take() {
            Some(run) => run,
            None => match ctx.command_execute(alloc, self.program.as_str(), self.args.as_slice()) {
                Ok(run) => run,
                Err(_) => return Polled::OutOfMemory,
            },
        };
        let polled = ctx.poll_command(alloc, &mut run);
        if let Polled::Pending = polled {
            load.open_run = Some(run);
        }
        session_polled(alloc, polled)
    }
}
