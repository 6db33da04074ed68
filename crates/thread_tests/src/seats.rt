//! Which handles get a worker.
use crate::signers::{KeyPool, pool_of};
use sign_pool::WorkerRefused;
use sign_pool::WorkerRefused::{HandleTaken, NoHandle};

/// A handle, and why it has no worker. The rows are asked of one pool, in turn; it has two handles.
static ROWS: [(u32, Option<WorkerRefused>); 7] = [
    (2, Some(NoHandle(2))),
    (1, None),
    (1, Some(HandleTaken(1))),
    (0, None),
    (0, Some(HandleTaken(0))),
    (1, Some(HandleTaken(1))),
    (4_294_967_295, Some(NoHandle(4_294_967_295))),
];

/// Whether each handle is answered as its row says.
fn workers_are_made(pool: &mut KeyPool) -> bool {
    for (handle, why) in &ROWS {
        if pool.worker(*handle).err() != *why {
            return false;
        }
    }
    true
}

#[test]
fn a_handle_has_one_worker(rt: HostRuntime) {
    let mut pool = pool_of(rt.alloc(), 1).expect(&rt, "memory");
    assert!(rt; workers_are_made(&mut pool));
}
