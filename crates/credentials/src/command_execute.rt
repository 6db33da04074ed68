//! Where commands are run.
ghost use Rattle.std.specs.Prelude.{◌≡◌, ◌≢◌, ◌↔◌, ℕ, ℤ, pos, List, map, IfOk, IsOk, IsTrue, Some, ⊤, codes};
ghost use Rattle.std.specs.Fmt.{WritesOnOk, WritesStyledOnOk};
ghost use Rattle.std.specs.String.{string_bytes};
ghost use Rattle.credentials.specs.declared.command_execute.CommandOutput.{CommandOutput};
ghost use Rattle.credentials.specs.declared.polled.Polled.{Polled};
ghost use Rattle.credentials.specs.Polled.{CanBePolledAgain};
ghost use Rattle.credentials.specs.Unsupported.{FailsWith};

use crate::Polled;
use crate::unsupported::unsupported;
use sign_base::NoMemory;
use std::alloc::Global;
use std::fmt;

/// What a command left. `Debug` shows nothing of it, since commands print credentials.
#[derive(Drop)]
pub struct CommandOutput {
    /// Its exit status, 0 where it succeeded.
    pub status: i32,
    /// All that it wrote to its standard output.
    pub stdout: Vec<u8>,
    /// All that it wrote to its standard error.
    pub stderr: Vec<u8>,
}

impl CommandOutput {
    /// Whether the command succeeded: its status is 0.
    pub fn success(&self) -> bool
        ensures { IsTrue result ↔ (self.now.status ≡ pos 0) }
    {
        self.status == 0
    }
}

impl fmt::Debug for CommandOutput {
    ghost debug_output = { λ _. Some (codes "CommandOutput(***)") };

    fn fmt<W: fmt::Write>(&self, f: &mut fmt::Formatter<W>) -> fmt::Result
        ensures writes { WritesOnOk W.write_str_gives f.old result (codes "CommandOutput(***)") f.new }
        ensures styled { WritesStyledOnOk W.write_str_gives f.old result (codes "CommandOutput(***)") f.new }
    {
        f.write_str("CommandOutput(***)")
    }
}

/// Runs commands. A run is begun by `command_execute` and polled until it answers `Ready` or `Failed`;
/// it is not polled again after that, which is its caller's duty. After `Pending` and after
/// `OutOfMemory` it can be polled again.
///
/// Whoever implements it keeps what commands write out of debug texts, errors and logs.
pub trait CommandExecute: Drop {
    /// A command that was begun.
    type Run: Drop;

    /// The run was begun by this object for this program with these arguments, and has not answered
    /// yet.
    ghost started: { Self → List ℕ → List (List ℕ) → Self.Run → Type 0 };

    /// The run answers at the next poll: the object, the run.
    ghost ready: { Self → Self.Run → Type 0 };

    /// What a poll of a run may answer: the object, the program, its arguments, the answer.
    ghost gives: { Self → List ℕ → List (List ℕ) → Polled CommandOutput → Type 0 };

    /// Begins to run a program with these arguments.
    fn command_execute(
        &self,
        alloc: Global,
        program: &str,
        args: &[String],
    ) -> Result<Self::Run, NoMemory<()>>
        ensures { IfOk result (λ run. started self.now program.now (map string_bytes args.now) run) };

    /// Goes on with a run, as far as it can now. A command that ended is `Ready`, whatever its status.
    fn poll_run(&self, alloc: Global, run: &mut Self::Run) -> Polled<CommandOutput>
        ensures kept { (program : List ℕ) (args : List (List ℕ)) → started self.now program args run.old
            → CanBePolledAgain result → started self.now program args run.new }
        ensures ready { ready self.now run.old → result ≢ Polled.Pending }
        ensures gives { (program : List ℕ) (args : List (List ℕ)) → started self.now program args run.old
            → gives self.now program args result };
}

/// Runs no commands: each run fails at its poll.
#[derive(Clone, Copy, Debug)]
pub struct NoopCommandExecute;

impl CommandExecute for NoopCommandExecute {
    type Run = ();

    ghost started = { λ object program args run. ⊤ };

    ghost ready = { λ object run. ⊤ };

    ghost gives = { λ object program args answer.
        FailsWith (codes "command execution not supported: no command executor configured") answer };

    fn command_execute(
        &self,
        _alloc: Global,
        _program: &str,
        _args: &[String],
    ) -> Result<(), NoMemory<()>>
        ensures started { IfOk result (λ run. ⊤) }
        ensures succeeds { IsOk result }
    {
        Ok(())
    }

    fn poll_run(&self, alloc: Global, _run: &mut ()) -> Polled<CommandOutput> {
        unsupported(
            alloc,
            "command execution not supported: no command executor configured",
        )
    }
}
