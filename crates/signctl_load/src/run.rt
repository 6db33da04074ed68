//! `signctl load`: generated events on a desk, and one line that counts its replies. It reads nothing.
ghost use Rattle.std.specs.Prelude.{◌≡◌, ◌≤◌, ◌<◌, ◌++◌, [], ℕ, List, IfOk, OnOk, false};
ghost use Rattle.std.specs.Io.KnownBytes.{Appends};
ghost use Rattle.sign_io.specs.Faults.{CountsFault};
ghost use Rattle.signctl_driver.specs.Status.{is_read_fault, is_write_fault};
ghost use Rattle.signctl_load.specs.Load.{LoadAdds, load_output, most_calls};

use crate::counts::push_counts;
use crate::rounds::Rounds;
use sign_base::NoMemory;
use sign_io::Sink;
use signctl_driver::Status;
use signctl_driver::output::write_all;
use std::alloc::Global;

/// Runs so many calls, and writes the line of counts.
pub fn run_load<D: Sink>(alloc: Global, calls: u64, sink: &mut D) -> Status
    requires { calls ≤ most_calls }
    ensures added { (added : List ℕ) × Appends (D.holds sink.old) (D.holds sink.new) added
        × LoadAdds calls result added }
    ensures reads { is_read_fault result ≡ false }
    ensures writes { CountsFault (is_write_fault result) (D.faults sink.old) (D.faults sink.new) }
{
    let line = match load_line(alloc, calls) {
        Ok(line) => line,
        Err(_) => return Status::OutOfMemory,
    };
    match write_all(sink, line.as_slice()) {
        Ok(()) => Status::Done,
        Err(_) => Status::WriteFault,
    }
}

/// The line of counts of so many calls.
fn load_line(alloc: Global, calls: u64) -> Result<Vec<u8>, NoMemory<()>>
    requires { calls ≤ most_calls }
    ensures { IfOk result (λ line. line.items ≡ load_output calls) }
{
    let mut rounds = Rounds::new(alloc)?;
    rounds.play_all(alloc, calls)?;
    let mut text = Vec::new(alloc);
    push_counts(&mut text, &rounds.counts)?;
    Ok(text)
}
