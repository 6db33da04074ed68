//! What has the variables of an environment.
ghost use Rattle.std.specs.Prelude.{◌≡◌, ℕ, List, Option, IfOk, option_map, string_bytes};

use crate::ClockedContext;
use credentials::{CommandExecute, Context, Env, FileRead, HttpSend};
use sign_base::NoMemory;
use std::alloc::Global;

/// A context that has the variables of an environment.
pub trait HasVariables: Drop {
    /// The value of a name, where there is one.
    ghost variables: { Self → List ℕ → Option (List ℕ) };

    /// The value of a variable, or None where there is no such variable.
    fn variable(&self, alloc: Global, name: &str) -> Result<Option<String>, NoMemory<()>>
        ensures { IfOk result (λ value. option_map string_bytes value ≡ variables self.now name.now) };
}

impl<F: FileRead, H: HttpSend, E: Env, C: CommandExecute> HasVariables for Context<F, H, E, C> {
    ghost variables = { λ ctx. E.variables ctx.env };

    fn variable(&self, alloc: Global, name: &str) -> Result<Option<String>, NoMemory<()>> {
        self.env_var(alloc, name)
    }
}

impl<F: FileRead, H: HttpSend, E: Env, C: CommandExecute, X: Drop> HasVariables
    for ClockedContext<F, H, E, C, X> {
    ghost variables = { λ ctx. E.variables ctx.objects.env };

    fn variable(&self, alloc: Global, name: &str) -> Result<Option<String>, NoMemory<()>> {
        self.objects.env_var(alloc, name)
    }
}
