//! The system's clock, reader and writer where they fail: the last reading stands, and nothing is
//! tried again.
use crate::told::{is_told, shown};
use sign_base::{Clock, SystemClock};
use sign_io::{Failed, Sink, Source, StdSink, StdSource};
use std::alloc::Global;
use std::cell::Cell;
use std::io::{Read, Write};
use std::process::Abort;
use std::time::Duration;
use std::{io, time};

/// A clock of whole seconds since 1970, of which some readings fail.
#[derive(Drop)]
struct Readings {
    at: Cell<usize>,
    seconds: [Option<u64>; 5],
}

impl time::Clock for Readings {
    fn monotonic(&self) -> io::Result<Duration> {
        Ok(Duration::ZERO)
    }

    fn since_1970(&self) -> io::Result<Duration> {
        let at = self.at.get();
        self.at.set(at.wrapping_add(1));
        match self.seconds.get(at) {
            Some(Some(second)) => Ok(Duration::from_secs(*second)),
            _ => Err(io::ErrorKind::Other.into()),
        }
    }
}

#[test]
fn a_clock_that_cannot_be_read_stands(rt: HostRuntime) {
    let mut clock = SystemClock::new(Readings {
        at: Cell::new(0),
        seconds: [None, Some(7), None, Some(u64::MAX), Some(5)],
    });
    for second in &[0, 7, 7, 7, 5, 5] {
        assert!(rt; clock.now().as_second() == *second);
    }
}

#[test]
fn the_systems_clock_is_past_1970(rt: HostRuntime) {
    assert!(rt; SystemClock::new(&rt).now().as_second() > 0);
}

/// A reader and writer whose first call is interrupted, and which has then no fault.
#[derive(Drop)]
struct InterruptedOnce {
    interrupted: bool,
}

impl InterruptedOnce {
    fn answer(&mut self) -> io::Result<usize> {
        if self.interrupted {
            return Ok(1);
        }
        self.interrupted = true;
        Err(io::ErrorKind::Interrupted.into())
    }
}

impl Read for InterruptedOnce {
    fn read(&mut self, buf: &mut [u8]) -> io::Result<usize> {
        let count = self.answer()?;
        Ok(count.min(buf.len()))
    }
}

impl Write for InterruptedOnce {
    fn write(&mut self, buf: &[u8]) -> io::Result<usize> {
        let count = self.answer()?;
        Ok(count.min(buf.len()))
    }

    fn flush(&mut self) -> io::Result<()> {
        Ok(())
    }
}

#[test]
fn an_interrupted_call_is_not_tried_again(rt: HostRuntime) {
    reads_at_the_second_call(&rt, rt.alloc());
    writes_at_the_second_call(&rt, rt.alloc());
}

fn reads_at_the_second_call(rt: &impl Abort, alloc: Global) {
    let mut source = StdSource::new(InterruptedOnce { interrupted: false });
    let mut buf = [0; 4];
    assert!(rt; source.read(&mut buf) == Err(Failed));
    assert!(rt; source.read(&mut buf) == Ok(1));
    is_told(rt, shown(alloc, &source), "StdSource { faults: 1, .. }");
}

fn writes_at_the_second_call(rt: &impl Abort, alloc: Global) {
    let mut sink = StdSink::new(InterruptedOnce { interrupted: false });
    assert!(rt; sink.write(b"abcd") == Err(Failed));
    assert!(rt; sink.write(b"abcd") == Ok(1));
    is_told(rt, shown(alloc, &sink), "StdSink { faults: 1, .. }");
}
