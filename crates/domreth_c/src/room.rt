//! A text, handed over where there is room for it.
ghost use Rattle.std.specs.Prelude.{◌≡◌};
ghost use Rattle.domreth_c.specs.Call.{HandsText, status_of};

/// Puts the text in front of the bytes where they have room for it, and says how many it needs. The status
/// is `done`, or 5 where there is no room.
pub(crate) fn hand_over(text: &[u8], done: u8, output: &mut [u8], needed: &mut usize) -> u8
    ensures { HandsText done text.now result
        (record { old = output.old; new = output.new; needed = needed.new }) }
{
    *needed = text.len();
    if output.len() < text.len() {
        return 5;
    }
    output[..text.len()].copy_from_slice(text);
    done
}

/// The status of a text that a command answers: 0, or 3 where a line is bad.
pub(crate) fn status_of(is_good: bool) -> u8
    ensures { result ≡ status_of is_good }
{
    if is_good { 0 } else { 3 }
}
