//! The driver on a small command of the tests: what it answers, and how often it reads and writes.
mod lengths;
pub(crate) mod watched;

use crate::ran::{NONE, bytes, filled};
use lengths::Lengths;
use sign_io::{MemorySink, MemorySource};
use signctl_driver::{Status, drive};
use std::alloc::Global;
use std::process::Abort;
use std::sync::atomic::AtomicU64;
use watched::{CountingSink, WatchedSource};

/// An input, what it is answered, and how that ends.
static ROWS: [(&str, &str, Status); 8] = [
    ("", "0 lines\n", Status::Done),
    ("\n", "1 lines\n", Status::Done),
    ("ab\n\ncdef\ng", "1: 2\n3: 4\n4: 1\n4 lines\n", Status::Done),
    ("ab\ncdef\n", "1: 2\n2: 4\n2 lines\n", Status::Done),
    ("!", "line 1: not allowed\n", Status::Refused),
    (
        "ab\n\n!\nc\n",
        "1: 2\nline 3: not allowed\n",
        Status::Refused,
    ),
    ("ab\n!c", "1: 2\nline 2: not allowed\n", Status::Refused),
    ("ab\n!c\n!", "1: 2\nline 2: not allowed\n", Status::Refused),
];

fn is_answered(rt: &impl Abort, alloc: Global, row: &(&str, &str, Status)) {
    let mut source = MemorySource::new(bytes(rt, alloc, row.0));
    let mut sink = MemorySink::new(alloc, 64).ok().expect(rt, "memory");
    let status = drive(alloc, Lengths::new(), &mut source, &mut sink);
    assert!(rt; sink.written() == row.1.as_bytes() && status == row.2);
}

#[test]
fn inputs_are_answered(rt: HostRuntime) {
    for row in &ROWS {
        is_answered(&rt, rt.alloc(), row);
    }
}

/// How often a run reads and writes, and how it ends: of an input in pieces of so many bytes, whose read and
/// whose write of these numbers fail.
fn counted(alloc: Global, input: &[u8], piece: usize, fails: (u64, u64)) -> (u64, u64, Status) {
    let written = AtomicU64::new(0);
    let mut source = WatchedSource::new(input, piece, fails.0, &[], &written);
    let mut sink = CountingSink::new(&written, fails.1);
    let status = drive(alloc, Lengths::new(), &mut source, &mut sink);
    (source.reads(), sink.writes(), status)
}

/// An input, the length of its pieces, the read and the write that fail, and how often it reads and writes. A
/// bad line stands in the first piece, or the source says once that it is at its end.
static COUNTS: [(&str, usize, (u64, u64), (u64, u64, Status)); 12] = [
    ("ab\n!c\nde\n", 6, (NONE, NONE), (1, 1, Status::Refused)),
    ("ab\ncd\nef\n", 3, (NONE, NONE), (4, 4, Status::Done)),
    ("ab\ncd", 3, (NONE, NONE), (3, 2, Status::Done)),
    ("", 3, (NONE, NONE), (1, 1, Status::Done)),
    ("ab\ncd\nef\n", 3, (0, NONE), (1, 0, Status::ReadFault)),
    ("ab\ncd\nef\n", 3, (1, NONE), (2, 1, Status::ReadFault)),
    ("ab\ncd\nef\n", 3, (2, NONE), (3, 2, Status::ReadFault)),
    ("ab\ncd\nef\n", 3, (3, NONE), (4, 3, Status::ReadFault)),
    ("ab\ncd\nef\n", 3, (NONE, 0), (1, 1, Status::WriteFault)),
    ("ab\ncd\nef\n", 3, (NONE, 2), (3, 3, Status::WriteFault)),
    ("ab\ncd\nef\n", 3, (NONE, 3), (4, 4, Status::WriteFault)),
    ("ab\n!c\nde\n", 6, (NONE, 0), (1, 1, Status::WriteFault)),
];

/// Nothing is read behind a bad line, the end or a fault, and nothing is written behind a fault.
#[test]
fn nothing_follows_an_end_or_a_fault(rt: HostRuntime) {
    for (input, piece, fails, wanted) in &COUNTS {
        assert!(rt; counted(rt.alloc(), input.as_bytes(), *piece, *fails) == *wanted);
    }
}

/// Answers of more than 65,536 bytes are written before the next read is due.
#[test]
fn many_answers_do_not_wait(rt: HostRuntime) {
    let input = filled(&rt, rt.alloc(), "", b'a', (32_768, 2));
    let (reads, writes, status) = counted(rt.alloc(), input.as_slice(), input.len(), (NONE, NONE));
    assert!(rt;
        reads < writes && status == Status::Done,
        "{reads} reads, {writes} writes"
    );
}
