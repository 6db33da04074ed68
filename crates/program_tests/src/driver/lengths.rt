//! A command for tests: it answers each line by its number and its length, and an empty line by
//! nothing. A line that begins with an exclamation mark is bad. In the end it says how many lines
//! there were.
ghost use Rattle.std.specs.Prelude.{◌≡◌, ◌+◌, ◌==◌, ◌∷◌, ◌++◌, [], None, Ok, Err, length, codes, decimal};
ghost use Rattle.std.specs.Prelude.{slice_index, if◌then◌else◌};
ghost use Rattle.sign_base.specs.Bytes.{newline};

use itoa::Buffer;
use sign_base::NoMemory;
use signctl_driver::LineCommand;
use std::alloc::Global;

/// The number of lines so far.
#[derive(Drop)]
pub struct Lengths {
    lines: u64,
}

impl Lengths {
    pub fn new() -> Lengths
        ensures { result.lines ≡ 0 }
    {
        Lengths { lines: 0 }
    }
}

impl LineCommand for Lengths {
    /// The length of a line.
    type Item = u64;

    /// There is one cause alone.
    type Cause = ();

    ghost command = { record {
      read = λ items line. if slice_index line 0 == 33 then Err tt else Ok (length line);
      cause_text = λ cause. codes "not allowed";
      cause_line = λ cause. None;
      answer = λ items item. if item == 0 then []
          else decimal (length items + 1) ++ (codes ": " ++ (decimal item ++ newline ∷ []));
      closing = λ items. Ok (decimal (length items) ++ codes " lines\n");
    } };

    ghost represents = { λ command items. command.lines ≡ length items };

    fn read(&self, alloc: Global, line: &[u8]) -> Result<Result<u64, ()>, NoMemory<()>> {
        let _ = alloc;
        match line {
            [b'!', ..] => Ok(Err(())),
            _ => Ok(Ok(line.len() as u64)),
        }
    }

    fn answer(&mut self, alloc: Global, item: u64, text: &mut Vec<u8>) -> Result<(), NoMemory<()>> {
        let _ = alloc;
        self.lines += 1;
        if item > 0 {
            text.extend_from_slice(Buffer::new().format(self.lines).as_bytes())?;
            text.extend_from_slice(b": ")?;
            text.extend_from_slice(Buffer::new().format(item).as_bytes())?;
            text.push(b'\n')?;
        }
        Ok(())
    }

    fn push_cause(cause: (), text: &mut Vec<u8>) -> Result<(), NoMemory<()>> {
        let () = cause;
        text.extend_from_slice(b"not allowed")?;
        Ok(())
    }

    fn cause_line(_cause: &()) -> Option<u64> {
        None
    }

    fn close(&self, alloc: Global, text: &mut Vec<u8>) -> Result<Result<(), ()>, NoMemory<()>> {
        let _ = alloc;
        text.extend_from_slice(Buffer::new().format(self.lines).as_bytes())?;
        text.extend_from_slice(b" lines\n")?;
        Ok(Ok(()))
    }
}
