//! A lock with a holder and two waiters, one of which leaves.
ghost use Rattle.std.specs.Prelude.{◌≡◌};

use sign_base::CallId;
use wake_lock::{Entered, Left, WaitLock};

fn call(number: u64) -> CallId
    ensures { result ≡ record { handle = 0; number = number } }
{
    CallId { handle: 0, number }
}

#[test]
fn the_waiters_are_served_in_order(rt: HostRuntime) {
    let mut lock = WaitLock::new(rt.alloc());
    assert!(rt; lock.reserve(3).is_ok());
    let entered = [
        lock.enter(call(1)),
        lock.enter(call(2)),
        lock.enter(call(3)),
    ];
    assert!(rt; entered == [Entered::Granted, Entered::Queued, Entered::Queued]);
    let left = [lock.cancel(call(2)), lock.cancel(call(9))];
    assert!(rt; left == [Left::Waiter, Left::Absent]);
    let served = [lock.release(), lock.release()];
    assert!(rt; served == [Some(call(3)), None]);
}
