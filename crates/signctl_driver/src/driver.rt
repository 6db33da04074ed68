//! The one driver of commands over lines: it reads, has the command answer, writes, and says how the
//! run ended.
ghost use Rattle.std.specs.Prelude.{◌≡◌, ◌+◌, ◌≤◌, [], ℕ, List, length};
ghost use Rattle.std.specs.Io.KnownBytes.{Appends, Consumes};
ghost use Rattle.sign_io.specs.Faults.{CountsFault};
ghost use Rattle.sign_io.specs.Lines.{input_limit};
ghost use Rattle.signctl_driver.specs.Status.{is_read_fault, is_write_fault};
ghost use Rattle.signctl_driver.specs.Run.{RunAdds};

use crate::command::LineCommand;
use crate::service::Service;
use crate::status::Status;
use sign_io::{LineReader, Sink, Source};
use std::alloc::Global;

/// Runs a command over the lines of a source, and writes its output to a sink. The answers are written
/// before the next read. Nothing is read after a bad line, and nothing is read or written after a
/// fault. It takes at most 67,108,865 bytes.
///
/// It never answers `Usage`. At `Done`, `Refused` and `ReadFault` the whole output to the bytes taken
/// was written; at `WriteFault` and `OutOfMemory` a prefix of it was.
pub fn drive<C: LineCommand, S: Source, D: Sink>(
    alloc: Global,
    command: C,
    source: &mut S,
    sink: &mut D,
) -> Status
    requires { C.represents command [] }
    ensures bytes { (taken : List ℕ) × (added : List ℕ)
        × Consumes (S.left source.old) (S.left source.new) taken × (length taken ≤ input_limit + 1)
        × Appends (D.holds sink.old) (D.holds sink.new) added
        × RunAdds C.command (S.left source.new) result taken added }
    ensures reads { CountsFault (is_read_fault result) (S.faults source.old) (S.faults source.new) }
    ensures writes { CountsFault (is_write_fault result) (D.faults sink.old) (D.faults sink.new) }
{
    let mut reader = match LineReader::new(alloc) {
        Ok(reader) => reader,
        Err(_) => return Status::OutOfMemory,
    };
    let mut service = Service::new(alloc, command);
    'lines: loop {
        if service.write_out(reader.needs_read(), sink).is_err() {
            return Status::WriteFault;
        }
        match service.take(alloc, reader.next(source)) {
            Err(_) => return Status::OutOfMemory,
            Ok(None) => {}
            Ok(Some(status)) => return service.finish(status, sink),
        }
    }
}
