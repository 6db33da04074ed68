//! A source of bytes that somebody else holds.
ghost use Rattle.std.specs.Prelude.{◌≡◌, ◌++◌, ◌<◌, Some, length, take, drop, min, is_err};
ghost use Rattle.std.specs.Io.KnownBytes.{ReadConsumes};
ghost use Rattle.std.specs.Io.{ReadsAtMost};
ghost use Rattle.sign_io.specs.Faults.{CountsFault};

use sign_io::{Failed, Source};

/// Bytes that are lent. Reading them never fails.
#[derive(Drop)]
pub(crate) struct LentBytes<'a> {
    pub(crate) left: &'a [u8],
}

impl Source for LentBytes<'_> {
    ghost left = { λ s. Some s.left.now };

    ghost faults = { λ _. 0 };

    fn read(&mut self, buf: &mut [u8]) -> Result<usize, Failed>
        requires { 0 < length buf.old }
        ensures bound { ReadsAtMost result buf.new }
        ensures bytes { ReadConsumes (Some self.old.left.now) (Some self.new.left.now) result buf.new }
        ensures faults { CountsFault (is_err result) 0 0 }
    {
        let all = self.left;
        let n = copy_front(all, buf);
        self.left = &all[n..];
        Ok(n)
    }
}

/// Copies as many bytes as there are and fit, from the front of one slice to that of the other.
fn copy_front(from: &[u8], to: &mut [u8]) -> usize
    ensures count { result ≡ min (length from.now) (length to.old) }
    ensures copied { take result to.new ++ drop result from.now ≡ from.now }
{
    let n = from.len().min(to.len());
    to[..n].copy_from_slice(&from[..n]);
    n
}
