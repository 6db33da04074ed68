//! Inputs in pieces of one byte, with a fault at each read and at each write in turn; a script that is cut at
//! each byte; and what a sink holds at each read.
use crate::driver::watched::{CountingSink, WatchedSource};
use crate::ran::{NONE, Run, bytes, ends_as, words_of};
use signctl_core::{HeaderSeeds, Status, run};
use std::alloc::Global;
use std::process::Abort;
use std::sync::atomic::{AtomicU64, Ordering};

/// Three calls, of which two wait. Each line but the last is answered by one line.
const WAITING: &str = "cache single\nhandle 0 now\nbegin 0 1 - GET https://e.x/ 1.1\n\
    begin 0 2 - GET https://e.x/ 1.1\nbegin 0 3 - GET https://e.x/ 1.1\npoll 0 1 5\npoll 0 2 5\npoll 0 3 5\n\
    found 0 1 6 1 900 1000 0\npoll 0 2 7\npoll 0 3 7\n#\n";

const WAITING_ANSWERS: &str =
    "cache 0\nhandle 0\nbegun\nbegun\nbegun\nask 0\npending\npending\nsign 1 wake 0 2\nsign 1 wake 0 3\nsign 1\n";

/// The answers, and what is cached in the end.
const WAITING_OUTPUT: &str =
    "cache 0\nhandle 0\nbegun\nbegun\nbegun\nask 0\npending\npending\nsign 1 wake 0 2\nsign 1 wake 0 3\nsign 1\n\
    final 0 1 900 1000 0\n";

/// One call, whose head is signed.
const SIGNED: &str = "cache single\nhandle 0 cred\nbegin 0 1 - GET https://e.x/a 1.1 x-original:v\n\
    poll 0 1 500\nfound 0 1 501 7 900 1000 600\n\
    accept 0 1 POST https://e.x/a?auth=1 2 authorization:signed\n";

const SIGNED_OUTPUT: &str = "cache 0\nhandle 0\nbegun\nask 0\nsign 7\n\
    done GET https://e.x/a?auth=1 1.1 authorization:signed\nfinal 0 7 900 1000 600\n";

/// The log of a call that loads and of one that waits for it, legal from its first line to its last claim.
const LOG: &str =
    "cache single\n= cache 0\nhandle 0 now\n= handle 0\nbegin 0 1 - GET https://e.x/ 1.1\n= begun\n\
    begin 0 2 - GET https://e.x/ 1.1\n= begun\npoll 0 1 5\n= ask 0\npoll 0 2 5\n= pending\n";

const LOG_OUTPUT: &str = "legal 4\ncache 0 asks 1 signs 0 refused 0 cancelled 0 missed 0\n";

const LOAD_OUTPUT: &str = "begun 8 pending 7 ask 1 sign 8 done 8 refused 0 cancelled 0 not-now 0\n";

/// A command, its input, and the replies to its lines: of some commands one to each of the first lines, of
/// others none. Then what is written where the read behind the last byte fails, and how that ends.
struct Input {
    words: &'static str,
    input: &'static str,
    replies: &'static str,
    output: &'static str,
    status: Status,
}

/// A line that a fault cuts is not answered, whatever its bytes. A line that stands whole before a fault is
/// bad before the read fails. A command line that reads nothing meets no fault.
static INPUTS: [Input; 9] = [
    Input {
        words: "script",
        input: WAITING,
        replies: WAITING_ANSWERS,
        output: WAITING_ANSWERS,
        status: Status::ReadFault,
    },
    Input {
        words: "script",
        input: "cache single\nhandle 0 now\nbegin 0 1 - GET https://e.x/ 1.1\npoll 0 01 5\n",
        replies: "cache 0\nhandle 0\nbegun\n",
        output: "cache 0\nhandle 0\nbegun\nline 4: not understood\n",
        status: Status::Refused,
    },
    Input {
        words: "grant",
        input: "cache single\nhandle 0 cred\nbegin 0 1 -\n",
        replies: "cache 0\nhandle 0\nbegun\n",
        output: "cache 0\nhandle 0\nbegun\n",
        status: Status::ReadFault,
    },
    Input {
        words: "audit",
        input: LOG,
        replies: "",
        output: "",
        status: Status::ReadFault,
    },
    Input {
        words: "audit",
        input: "cache single\n= cache 1\n",
        replies: "",
        output: "line 2: due cache 0\n",
        status: Status::Refused,
    },
    Input {
        words: "audit",
        input: "cache single\nhandle 0 now\n",
        replies: "",
        output: "line 1: no claim\n",
        status: Status::Refused,
    },
    Input {
        words: "audit",
        input: "cache single\n",
        replies: "",
        output: "",
        status: Status::ReadFault,
    },
    Input {
        words: "load 8",
        input: "",
        replies: "",
        output: LOAD_OUTPUT,
        status: Status::Done,
    },
    Input {
        words: "--help",
        input: "",
        replies: "",
        output: "",
        status: Status::Usage,
    },
];

/// How many lines are whole.
fn lines_in(text: &[u8]) -> usize {
    let mut lines: usize = 0;
    for byte in text {
        if *byte == b'\n' {
            lines = lines.saturating_add(1);
        }
    }
    lines
}

/// So many lines of a text, or all of them.
fn first_lines(text: &str, count: usize) -> &[u8] {
    let text = text.as_bytes();
    let mut left = count;
    for (at, byte) in text.iter().enumerate() {
        if left == 0 {
            return text.get(..at).unwrap_or(text);
        }
        if *byte == b'\n' {
            left = left.saturating_sub(1);
        }
    }
    text
}

/// So many bytes of a text, or all of them.
fn first_bytes(text: &str, count: usize) -> &[u8] {
    text.as_bytes().get(..count).unwrap_or(text.as_bytes())
}

/// What is written where the read behind so many bytes fails, and how that ends.
fn at_read(of: &Input, read: usize) -> (&'static [u8], Status) {
    if read < of.input.len() {
        let lines = lines_in(first_bytes(of.input, read));
        (first_lines(of.replies, lines), Status::ReadFault)
    } else {
        (of.output.as_bytes(), of.status)
    }
}

fn stops_at_read(rt: &impl Abort, alloc: Global, of: &Input, read: usize) {
    let run = Run {
        words: of.words,
        piece: 1,
        read: read as u64,
        write: NONE,
    };
    ends_as(
        rt,
        alloc,
        run,
        bytes(rt, alloc, of.input),
        at_read(of, read),
    );
}

/// The lines before the fault are answered, and the one that it cuts is not.
#[test]
fn each_read_fails_in_turn(rt: HostRuntime) {
    for of in &INPUTS {
        for read in 0..=of.input.len() {
            stops_at_read(&rt, rt.alloc(), of, read);
        }
    }
}

/// A command, its input, and all that it writes.
static OUTPUTS: [(&str, &str, &str); 4] = [
    ("script", WAITING, WAITING_OUTPUT),
    ("script", SIGNED, SIGNED_OUTPUT),
    ("audit", LOG, LOG_OUTPUT),
    ("load 8", "", LOAD_OUTPUT),
];

fn stops_at_write(rt: &impl Abort, alloc: Global, row: &(&str, &str, &str), write: usize) {
    let run = Run {
        words: row.0,
        piece: 1,
        read: NONE,
        write: write as u64,
    };
    let wanted = (first_bytes(row.2, write), Status::WriteFault);
    ends_as(rt, alloc, run, bytes(rt, alloc, row.1), wanted);
}

/// The sink holds all bytes before the write that failed.
#[test]
fn each_write_fails_in_turn(rt: HostRuntime) {
    for row in &OUTPUTS {
        for write in 0..row.2.len() {
            stops_at_write(&rt, rt.alloc(), row, write);
        }
    }
}

/// What is cached in the end, after so many lines.
fn final_after(lines: usize) -> &'static str {
    match lines {
        0 => "",
        1..=8 => "final 0 empty\n",
        _ => "final 0 1 900 1000 0\n",
    }
}

/// The script in front of this byte is answered by the replies to so many lines, and then this.
fn is_cut(rt: &impl Abort, alloc: Global, at: usize, lines: usize, end: (&str, Status)) {
    let run = Run {
        words: "script",
        piece: 4_096,
        read: NONE,
        write: NONE,
    };
    let input = Vec::from_slice(alloc, first_bytes(WAITING, at)).expect(rt, "memory");
    let mut output = Vec::from_slice(alloc, first_lines(WAITING_ANSWERS, lines)).expect(
        rt, "memory",
    );
    output
        .extend_from_slice(end.0.as_bytes())
        .expect(rt, "memory");
    ends_as(rt, alloc, run, input, (output.as_slice(), end.1));
}

/// The script in front of this byte is answered up to there.
fn is_answered_where_cut(rt: &impl Abort, alloc: Global, at: usize) {
    let taken = first_bytes(WAITING, at);
    let whole = lines_in(taken);
    let next = whole.saturating_add(1);
    if taken.is_empty() || taken.ends_with(b"\n") {
        is_cut(rt, alloc, at, whole, (final_after(whole), Status::Done));
    } else if WAITING.as_bytes().get(at) == Some(&b'\n') {
        is_cut(rt, alloc, at, next, (final_after(next), Status::Done));
    } else {
        let report = format!(in alloc; "line {next}: not understood\n").expect(rt, "memory");
        is_cut(rt, alloc, at, whole, (report.as_str(), Status::Refused));
    }
}

#[test]
fn a_script_is_cut_at_each_byte(rt: HostRuntime) {
    for at in 0..=WAITING.len() {
        is_answered_where_cut(&rt, rt.alloc(), at);
    }
}

/// How many bytes the sink is to hold behind each number of bytes of the script.
fn allowed(rt: &impl Abort, alloc: Global) -> Vec<u64> {
    let mut lengths = Vec::new(alloc);
    for at in 0..=WAITING.len() {
        let replies = first_lines(WAITING_ANSWERS, lines_in(first_bytes(WAITING, at)));
        lengths.push(replies.len() as u64).expect(rt, "memory");
    }
    lengths
}

/// At each read of the script, in pieces of so many bytes, the sink holds every answer that the bytes given
/// so far allow, and no other.
fn is_in_time(rt: &impl Abort, alloc: Global, piece: usize) {
    let written = AtomicU64::new(0);
    let allowed = allowed(rt, alloc);
    let script = WAITING.as_bytes();
    let mut source = WatchedSource::new(script, piece, NONE, allowed.as_slice(), &written);
    let mut sink = CountingSink::new(&written, NONE);
    let words = words_of(rt, alloc, "script");
    let keys = HeaderSeeds::default();
    let status = run(alloc, words.as_slice(), &mut source, &mut sink, keys);
    assert!(rt; source.late() == 0 && status == Status::Done);
    assert!(rt; written.load(Ordering::SeqCst) == WAITING_OUTPUT.len() as u64);
}

#[test]
fn answers_are_written_before_the_next_read(rt: HostRuntime) {
    for piece in [1, 2, 7, 64, 4_096] {
        is_in_time(&rt, rt.alloc(), piece);
    }
}
