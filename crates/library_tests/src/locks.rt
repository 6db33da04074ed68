//! How much room a lock can take.
use wake_lock::WaitLock;

/// Numbers of calls, and whether there is room for so many.
static ROOM: [(usize, bool); 4] = [
    (2, true),
    (1_000, true),
    (4_294_967_296, false),
    (usize::MAX, false),
];

#[test]
fn room_can_be_taken(rt: HostRuntime) {
    let mut lock = WaitLock::new(rt.alloc());
    for (n, taken) in &ROOM {
        assert!(rt; lock.reserve(*n).is_ok() == *taken);
    }
}
