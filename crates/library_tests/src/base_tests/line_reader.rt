//! Lines of an input that fails: nothing is read after a fault.
use crate::told::is_told;
use sign_io::{Failed, FaultySource, LineReader, Source};
use std::alloc::Global;
use std::process::Abort;

/// Two short lines, a byte at a time, whose fifth read fails, and then the seventh.
fn with_two_faults(alloc: Global) -> Option<FaultySource> {
    let input = Vec::from_slice(alloc, b"ab\ncdef\n").ok()?;
    let fails = Vec::from_array(alloc, [4, 6]).ok()?;
    Some(FaultySource::new(input, 1, fails))
}

/// The first three answers, and how many bytes were taken for them.
fn answers(alloc: Global, reader: &mut LineReader, source: &mut FaultySource) -> Option<String> {
    let mut text = String::new(alloc);
    for _ in 0..3 {
        write!(text, "{:?}, ", reader.next(source)).ok()?;
    }
    write!(text, "{} bytes", reader.taken()).ok()?;
    Some(text)
}

/// Whether the source gives the byte `d`, and then fails.
fn gives_d_and_fails(source: &mut FaultySource) -> bool {
    let mut buf = [0];
    source.read(&mut buf) == Ok(1) && buf[0] == b'd' && source.read(&mut buf) == Err(Failed)
}

/// The fifth read fails inside the second line. Were there one more, the seventh would be next: the
/// source gives one byte more, and then fails.
#[test]
fn nothing_is_read_after_a_fault(rt: HostRuntime) {
    let mut source = with_two_faults(rt.alloc()).expect(&rt, "memory");
    stops_at_the_first(&rt, rt.alloc(), &mut source);
    assert!(rt; gives_d_and_fails(&mut source));
}

fn stops_at_the_first(rt: &impl Abort, alloc: Global, source: &mut FaultySource) {
    let mut reader = LineReader::new(alloc).expect(rt, "memory");
    let answers = answers(alloc, &mut reader, source);
    is_told(rt, answers, "Line(***), Fault, Fault, 4 bytes");
}
