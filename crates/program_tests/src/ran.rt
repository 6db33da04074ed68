//! One run of a command over a source and a sink in memory.
use sign_io::{FaultySink, FaultySource};
use signctl_core::{HeaderSeeds, Status, run};
use std::alloc::Global;
use std::process::Abort;

/// The bytes that a sink has room for.
const ROOM: usize = 16_384;

/// No read and no write has this number.
pub(crate) const NONE: u64 = u64::MAX;

/// The words of a command, parted by spaces, the most bytes that are read or written at once, and the read
/// and the write that fail, by their numbers.
#[derive(Clone, Copy)]
pub(crate) struct Run<'a> {
    pub(crate) words: &'a str,
    pub(crate) piece: usize,
    pub(crate) read: u64,
    pub(crate) write: u64,
}

/// The words of a command line.
pub(crate) fn words_of(rt: &impl Abort, alloc: Global, line: &str) -> Vec<String> {
    let mut words = Vec::new(alloc);
    for word in line.split(' ') {
        let word = String::from_str(alloc, word).expect(rt, "memory");
        words.push(word).expect(rt, "memory");
    }
    words
}

/// The source of a run.
fn source_of(rt: &impl Abort, alloc: Global, run: Run<'_>, input: Vec<u8>) -> FaultySource {
    let fails = vec![in alloc; run.read].expect(rt, "memory");
    FaultySource::new(input, run.piece.max(1), fails)
}

/// The sink of a run.
fn sink_of(rt: &impl Abort, alloc: Global, run: Run<'_>) -> FaultySink {
    let fails = vec![in alloc; run.write].expect(rt, "memory");
    FaultySink::new(alloc, ROOM, run.piece.max(1), fails)
        .ok()
        .expect(rt, "memory")
}

/// Whether a run writes this and ends so.
pub(crate) fn ends_as(
    rt: &impl Abort,
    alloc: Global,
    of: Run<'_>,
    input: Vec<u8>,
    wanted: (&[u8], Status),
) {
    let words = words_of(rt, alloc, of.words);
    let mut source = source_of(rt, alloc, of, input);
    let mut sink = sink_of(rt, alloc, of);
    let keys = HeaderSeeds::default();
    let status = run(alloc, words.as_slice(), &mut source, &mut sink, keys);
    assert!(rt;
        sink.written() == wanted.0 && status == wanted.1,
        "{}: {status:?}",
        of.words
    );
}

/// The bytes of a text.
pub(crate) fn bytes(rt: &impl Abort, alloc: Global, text: &str) -> Vec<u8> {
    Vec::from_slice(alloc, text.as_bytes()).expect(rt, "memory")
}

/// A text that is filled up with one byte, to so many bytes, of which the last of each line is a newline,
/// where lines have this length.
pub(crate) fn filled(
    rt: &impl Abort,
    alloc: Global,
    begin: &str,
    byte: u8,
    (count, length): (usize, usize),
) -> Vec<u8> {
    let mut bytes = bytes(rt, alloc, begin);
    bytes.resize(count, byte).expect(rt, "memory");
    for line in bytes.chunks_mut(length.max(1)) {
        if let Some(last) = line.get_mut(length.wrapping_sub(1)) {
            *last = b'\n';
        }
    }
    bytes
}
