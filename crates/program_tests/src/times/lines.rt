//! Lines that come a byte at a time: a reader that moves what it holds at every read would move a thousand
//! times as many bytes of long lines as of short ones.
use crate::ran::filled;
use crate::times::{Work, is_alike, time};
use sign_io::{FaultySource, LineReader, Next};
use std::alloc::Global;
use std::process::Abort;

/// The length of each input.
const BYTES: usize = 1_048_576;

/// An input in lines of so many bytes, with their newlines.
#[derive(Drop)]
struct Lines(usize);

/// How many lines are read.
fn count_lines(reader: &mut LineReader, source: &mut FaultySource) -> usize {
    for lines in 0..BYTES {
        match reader.next(source) {
            Next::Line(_) => {}
            _ => return lines,
        }
    }
    BYTES
}

impl Work for Lines {
    fn is_done(&mut self, rt: &impl Abort, alloc: Global) -> bool {
        let input = filled(rt, alloc, "", b'a', (BYTES, self.0));
        let mut source = FaultySource::new(input, 1, Vec::new(alloc));
        let mut reader = LineReader::new(alloc).ok().expect(rt, "memory");
        count_lines(&mut reader, &mut source) == BYTES / self.0.max(1)
    }
}

#[test]
fn a_long_line_is_read_like_short_ones(rt: HostRuntime) {
    let long = time(&rt, rt.alloc(), &mut Lines(65_536));
    is_alike(&rt, long, time(&rt, rt.alloc(), &mut Lines(64)));
}
