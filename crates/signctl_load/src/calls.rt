//! The calls of a round, and those of them that were signed.
ghost use Rattle.std.specs.Prelude.{◌≡◌, ◌≤◌, ◌<◌, ◌*◌, IfOk, filter};
ghost use Rattle.sign_base.specs.Calls.{is_among};
ghost use Rattle.signctl_load.specs.LoadRound.{calls_in_round};

use sign_base::{CallId, NoMemory};
use std::alloc::Global;

/// The calls of a round, out of so many.
pub(crate) fn calls_in_round(
    alloc: Global,
    calls: u64,
    round: u64,
) -> Result<Vec<CallId>, NoMemory<()>>
    requires within { 8 * round < calls }
    requires few { calls ≤ 100000 }
    ensures { IfOk result (λ list. list.items ≡ calls_in_round calls round) }
{
    let first = 8 * round + 1;
    let count = (calls - 8 * round).min(8);
    Ok(
        (first..first + count)
            .map(|number| CallId { handle: 0, number })
            .collect(alloc)?,
    )
}

/// Those of the calls that were signed, in order.
pub(crate) fn signed_among(
    alloc: Global,
    signed: &[CallId],
    calls: &[CallId],
) -> Result<Vec<CallId>, NoMemory<()>>
    ensures { IfOk result (λ list. list.items ≡ filter (λ call. is_among call signed.now) calls.now) }
{
    Ok(
        calls
            .iter()
            .copied()
            .filter(|call| is_among(*call, signed))
            .collect(alloc)?,
    )
}

fn is_among(call: CallId, calls: &[CallId]) -> bool
    ensures { result ≡ is_among call calls.now }
{
    calls.iter().any(|other| call.handle == other.handle && call.number == other.number)
}
