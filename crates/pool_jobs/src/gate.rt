//! The gate of a pool: its provider and its service answer at once, and its clock stands still.
ghost use Rattle.std.specs.Prelude.{◌≡◌, ◌≤◌, ◌*◌, IfOk, pos};
ghost use Rattle.line_words.specs.Moments.{nanos_of_second, last_second};
ghost use Rattle.pool_jobs.specs.Meaning.{pool_meaning, pool_credential, accepted_head};

use crate::head::added_field;
use sequential_signer::{Answer, Verdict};
use sign_base::{CallId, Head, NoMemory, Timestamp};
use signctl_format::ScriptCredential;
use signer_shared::{Gate, GateLoad};
use std::alloc::Global;

/// Answers each load at once with the credential of generation 7, accepts each head with one header more,
/// and gives the moment 0. What it accepts is allocated there.
#[derive(Clone, Copy, Debug)]
pub struct PoolGate {
    pub alloc: Global,
}

impl Gate<ScriptCredential> for PoolGate {
    ghost meaning = { λ gate. pool_meaning };

    fn load(&self, _call: CallId, _provider: u32, _turn: u64) -> GateLoad<ScriptCredential> {
        GateLoad::Answer(Answer::Found(pool_credential()))
    }

    fn verdict(
        &self,
        _call: CallId,
        _credential: &ScriptCredential,
        head: &Head,
    ) -> Result<Verdict, NoMemory<()>> {
        Ok(Verdict::Accepted(accepted_head(self.alloc, head)?))
    }

    fn now(&self) -> Timestamp {
        at_second(0)
    }
}

/// The credential of generation 7, which is fresh and lasts to the last moment of scripts.
fn pool_credential() -> ScriptCredential
    ensures { result ≡ pool_credential }
{
    ScriptCredential {
        generation: 7,
        fresh: at_second(253_402_207_200),
        expires: at_second(253_402_207_200),
        required: at_second(0),
    }
}

/// The head with the header that the service adds, behind its own.
fn accepted_head(alloc: Global, head: &Head) -> Result<Head, NoMemory<()>>
    ensures { IfOk result (λ accepted. accepted ≡ accepted_head head.now) }
{
    let mut accepted = head.try_clone(alloc)?;
    match accepted.headers.push(added_field(alloc)?) {
        Ok(()) => Ok(accepted),
        Err(_) => Err(NoMemory { back: () }),
    }
}

fn at_second(second: u64) -> Timestamp
    requires { second ≤ last_second }
    ensures { result ≡ pos (second * nanos_of_second) }
{
    match Timestamp::from_nanos(second as i128 * 1_000_000_000) {
        Some(moment) => moment,
        None => unreachable!(),
    }
}
