//! How the reading of an input ended.

/// Why no further line of an input is handed out.
#[derive(Clone, Copy, Debug, PartialEq, Eq)]
pub enum InputEnd {
    /// A line has more bytes than a line may have.
    TooLong,
    /// The input has more bytes than are looked at.
    TooMuch,
    /// All was handed out.
    End,
    /// A read failed.
    Fault,
}
