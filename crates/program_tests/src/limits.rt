//! Lines and inputs of exactly the limit, and of one byte more.
use crate::ran::{NONE, Run, ends_as, filled};
use signctl_core::Status;
use std::alloc::Global;
use std::process::Abort;

/// No line is so long.
const ONE_LINE: usize = 100_000_000;

/// A read asks for no more bytes.
const MOST_READ: usize = 32_768;

const TOO_LONG: &str = "line 1: too long\n";

const NO_NUMBER: &str = "line 2: not understood\n";

/// A command, how its input begins, and the byte that fills it up to so many bytes; whether the read behind
/// them fails; what is written, and how that ends.
type Line = (
    &'static str,
    &'static str,
    u8,
    usize,
    bool,
    &'static str,
    Status,
);

/// A line that is too long is so also where a read fails behind it, and before a claim that is missing before
/// it. A number of thousands of digits is none.
static LINES: [Line; 16] = [
    ("script", "", b'#', 65_536, false, "", Status::Done),
    ("script", "", b'#', 65_536, true, "", Status::ReadFault),
    ("script", "", b'#', 65_537, false, TOO_LONG, Status::Refused),
    ("script", "", b'#', 65_537, true, TOO_LONG, Status::Refused),
    ("script", "", b'x', 65_537, false, TOO_LONG, Status::Refused),
    ("script", "# \0\r", 0xff, 65_536, false, "", Status::Done),
    (
        "script",
        "accept 0 1 GET / 1.1 a:",
        b'9',
        65_536,
        false,
        "not now\n",
        Status::Done,
    ),
    (
        "script",
        "accept 0 1 GET / 1.1 a:",
        b'9',
        65_537,
        false,
        TOO_LONG,
        Status::Refused,
    ),
    (
        "script",
        "signctl 2\npoll 0 1 ",
        b'0',
        65_546,
        false,
        NO_NUMBER,
        Status::Refused,
    ),
    (
        "script",
        "signctl 2\npoll 0 1 ",
        b'9',
        65_546,
        false,
        NO_NUMBER,
        Status::Refused,
    ),
    (
        "script",
        "signctl 2\npoll 0 1 5.",
        b'0',
        65_546,
        false,
        NO_NUMBER,
        Status::Refused,
    ),
    (
        "script",
        "signctl 2\npoll 0 1 5.",
        b'9',
        65_546,
        false,
        NO_NUMBER,
        Status::Refused,
    ),
    (
        "script",
        "signctl 2\nbegin 0 1 ",
        b'0',
        65_546,
        false,
        NO_NUMBER,
        Status::Refused,
    ),
    (
        "script",
        "signctl 2\nbegin 0 1 ",
        b'9',
        65_546,
        false,
        NO_NUMBER,
        Status::Refused,
    ),
    (
        "audit",
        "cache single\n",
        b'#',
        65_549,
        false,
        "line 1: no claim\n",
        Status::Refused,
    ),
    (
        "audit",
        "cache single\n",
        b'#',
        65_550,
        false,
        "line 2: too long\n",
        Status::Refused,
    ),
];

/// Whether a line is answered so, in pieces of so many bytes.
fn is_answered(rt: &impl Abort, alloc: Global, row: &Line, piece: usize) {
    let (words, begin, byte, count, fails, output, status) = *row;
    let behind = count.div_ceil(piece.min(MOST_READ).max(1)) as u64;
    let run = Run {
        words,
        piece,
        read: if fails { behind } else { NONE },
        write: NONE,
    };
    let input = filled(rt, alloc, begin, byte, (count, ONE_LINE));
    ends_as(rt, alloc, run, input, (output.as_bytes(), status));
}

#[test]
fn lines_may_be_so_long(rt: HostRuntime) {
    for piece in [1, 4_096, 67_108_864] {
        for row in &LINES {
            is_answered(&rt, rt.alloc(), row, piece);
        }
    }
}

const TOO_MUCH: &str = "input too long\n";

/// A byte that a script has so often, and the length of its lines, with their newlines; what is written, and
/// how that ends.
static INPUTS: [(u8, usize, usize, &str, Status); 6] = [
    (b'\n', 67_108_865, 1, TOO_MUCH, Status::Refused),
    (b'#', 67_108_864, 64, "", Status::Done),
    (b'#', 67_108_865, 64, TOO_MUCH, Status::Refused),
    (b'#', 67_108_864, 65_537, "", Status::Done),
    (b'#', 67_108_865, 65_537, TOO_MUCH, Status::Refused),
    (b'#', 67_108_865, ONE_LINE, TOO_LONG, Status::Refused),
];

#[test]
fn inputs_may_be_so_long(rt: HostRuntime) {
    let run = Run {
        words: "script",
        piece: 4_096,
        read: NONE,
        write: NONE,
    };
    for (byte, count, line, output, status) in &INPUTS {
        let input = filled(&rt, rt.alloc(), "", *byte, (*count, *line));
        ends_as(&rt, rt.alloc(), run, input, (output.as_bytes(), *status));
    }
}
