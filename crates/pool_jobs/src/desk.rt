//! The desk of a pool.
ghost use Rattle.std.specs.Prelude.{◌≡◌, ◌<◌, [], IfOk};
ghost use Rattle.desk_parts.specs.Tables.{setup_of};
ghost use Rattle.sign_desk.specs.DeskState.{Represents};
ghost use Rattle.signctl_format.specs.Policy.{script_policy};
ghost use Rattle.pool_jobs.specs.Setup.{pool_setup};

use sequential_signer::Loader;
use sign_base::NoMemory;
use sign_desk::Desk;
use signctl_format::{ScriptCredential, ScriptRule};
use std::alloc::Global;

/// A desk with one cache of one provider, and a handle on it for each worker, with the rule `now`.
///
/// Errors: an allocation failed.
pub fn pool_desk(
    alloc: Global,
    workers: u32,
) -> Result<Desk<ScriptCredential, ScriptRule>, NoMemory<()>>
    ensures setup { IfOk result (λ desk. setup_of desk ≡ pool_setup workers) }
    ensures fresh { IfOk result (λ desk. Represents script_policy desk []) }
{
    let mut desk = desk_without_handles(alloc)?;
    for _worker in 0..workers {
        if desk.add_handle(0, 0).is_err() {
            return Err(NoMemory { back: () });
        }
    }
    Ok(desk)
}

/// A desk with one cache of one provider, and the rule `now`.
fn desk_without_handles(alloc: Global) -> Result<Desk<ScriptCredential, ScriptRule>, NoMemory<()>>
    ensures setup { IfOk result (λ desk. setup_of desk ≡ pool_setup 0) }
    ensures fresh { IfOk result (λ desk. Represents script_policy desk []) }
{
    let mut desk = Desk::new(alloc);
    if desk.add_cache(Loader::Single).is_err() {
        return Err(NoMemory { back: () });
    }
    if desk.add_rule(ScriptRule::Now).is_err() {
        return Err(NoMemory { back: () });
    }
    Ok(desk)
}
