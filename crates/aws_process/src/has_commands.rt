//! What runs commands.
ghost use Rattle.std.specs.Prelude.{◌≡◌, ◌≢◌, ℕ, List, IfOk, map, string_bytes};
ghost use Rattle.credentials.specs.declared.command_execute.CommandOutput.{CommandOutput};
ghost use Rattle.credentials.specs.declared.polled.Polled.{Polled};
ghost use Rattle.credentials.specs.Polled.{CanBePolledAgain};

use aws_credentials::ClockedContext;
use credentials::{CommandExecute, CommandOutput, Context, Env, FileRead, HttpSend, Polled};
use sign_base::NoMemory;
use std::alloc::Global;

/// A context that runs commands. Its calls are those of `Context`.
pub trait HasCommands: Drop {
    /// A command that was begun.
    type Run: Drop;

    /// The run was begun here for this program with these arguments, and has not answered yet.
    ghost begun: { Self → List ℕ → List (List ℕ) → Self.Run → Type 0 };

    /// The run answers at the next poll.
    ghost run_ready: { Self → Self.Run → Type 0 };

    /// What a poll of a run may answer: the program, its arguments, the answer.
    ghost answers: { Self → List ℕ → List (List ℕ) → Polled CommandOutput → Type 0 };

    /// Begins to run a program with these arguments.
    fn command_execute(
        &self,
        alloc: Global,
        program: &str,
        args: &[String],
    ) -> Result<Self::Run, NoMemory<()>>
        ensures { IfOk result (λ run. begun self.now program.now (map string_bytes args.now) run) };

    /// Goes on with a run. A command that ended is `Ready`, whatever its status. A run that answered `Ready`
    /// or `Failed` is polled no more.
    fn poll_command(&self, alloc: Global, run: &mut Self::Run) -> Polled<CommandOutput>
        ensures kept { (program : List ℕ) (args : List (List ℕ)) → begun self.now program args run.old
            → CanBePolledAgain result → begun self.now program args run.new }
        ensures ready { run_ready self.now run.old → result ≢ Polled.Pending }
        ensures gives { (program : List ℕ) (args : List (List ℕ)) → begun self.now program args run.old
            → answers self.now program args result };
}

impl<F: FileRead, H: HttpSend, E: Env, C: CommandExecute> HasCommands for Context<F, H, E, C> {
    type Run = C::Run;

    ghost begun = { λ ctx program args run. C.started ctx.command_execute program args run };

    ghost run_ready = { λ ctx run. C.ready ctx.command_execute run };

    ghost answers = { λ ctx program args answer. C.gives ctx.command_execute program args answer };

    fn command_execute(
        &self,
        alloc: Global,
        program: &str,
        args: &[String],
    ) -> Result<C::Run, NoMemory<()>> {
        Context::command_execute(self, alloc, program, args)
    }

    fn poll_command(&self, alloc: Global, run: &mut C::Run) -> Polled<CommandOutput> {
        Context::poll_command(self, alloc, run)
    }
}

impl<F: FileRead, H: HttpSend, E: Env, C: CommandExecute, X: Drop> HasCommands
    for ClockedContext<F, H, E, C, X> {
    type Run = C::Run;

    ghost begun = { λ ctx program args run. C.started ctx.objects.command_execute program args run };

    ghost run_ready = { λ ctx run. C.ready ctx.objects.command_execute run };

    ghost answers = { λ ctx program args answer.
        C.gives ctx.objects.command_execute program args answer };

    fn command_execute(
        &self,
        alloc: Global,
        program: &str,
        args: &[String],
    ) -> Result<C::Run, NoMemory<()>> {
        self.objects.command_execute(alloc, program, args)
    }

    fn poll_command(&self, alloc: Global, run: &mut C::Run) -> Polled<CommandOutput> {
        self.objects.poll_command(alloc, run)
    }
}
