//! How a command ends, by its exit status and the line on standard error, and the words of a program's
//! command line, whatever its commands are.
ghost use Rattle.std.specs.Prelude.{◌≡◌, map, drop, string_bytes};
ghost use Rattle.signctl_driver.specs.Reasons.{usage_line, reason_line};
ghost use Rattle.signctl_driver.specs.Streams.{WritesOnce};

use crate::output::write_all;
use sign_io::Sink;

/// How a command ended.
#[derive(Clone, Copy, Debug, PartialEq, Eq)]
pub enum Status {
    /// All was read and answered.
    Done,
    /// The words name no command. Nothing was read or written.
    Usage,
    /// A line was bad, or the input too long. The output ends with the line that says so.
    Refused,
    /// A read failed. The output is that to the lines before.
    ReadFault,
    /// A write failed.
    WriteFault,
    /// An allocation failed.
    OutOfMemory,
}

impl Status {
    ghost use Rattle.std.specs.Prelude.{◌≡◌};
    ghost use Rattle.signctl_driver.specs.Status.{exit_status};

    /// The exit status of the program.
    pub fn exit_status(self) -> u8
        ensures { result ≡ exit_status self }
    {
        match self {
            Status::Done => 0,
            Status::Usage => 2,
            Status::Refused => 3,
            Status::ReadFault => 4,
            Status::WriteFault => 5,
            Status::OutOfMemory => 6,
        }
    }
}

/// The words after the program's name.
pub fn after_name(all: &[String]) -> &[String]
    ensures { map string_bytes result.now ≡ drop 1 (map string_bytes all.now) }
{
    match all {
        [_, words @ ..] => words,
        [] => all,
    }
}

/// Writes the line that says why a run ended early, where there is one. Where it can't be written a prefix of
/// it stands there.
pub fn report<E: Sink>(status: Status, errors: &mut E)
    ensures { WritesOnce (reason_line status)
        (record { holds = E.holds; faults = E.faults; old = errors.old; new = errors.new }) }
{
    let _ = write_all(errors, reason_line(status).as_bytes());
}

fn reason_line(status: Status) -> &'static str
    ensures { result.now ≡ reason_line status }
{
    match status {
        Status::Done | Status::Refused => "",
        Status::Usage => usage_line(),
        Status::ReadFault => "signctl: a read failed\n",
        Status::WriteFault => "signctl: a write failed\n",
        Status::OutOfMemory => "signctl: out of memory\n",
    }
}

/// The usage line, and what stands after it.
#[macro_export]
macro_rules! usage_line {
    ($($more:literal)?) => {
        concat!("usage: signctl script|view|hmac|grant|load N|pool W J\n" $(, $more)?)
    };
}

fn usage_line() -> &'static str
    ensures { result.now ≡ usage_line }
{
    usage_line!()
}
