//! The words of a line, as Python's `shlex.split` takes them apart, and with it AWS's tools on Linux.
ghost use Rattle.std.specs.Prelude.{◌≡◌, ◌++◌, Ok, IfOk, IfErr, OnOk, flat_map, map};
ghost use Rattle.aws_process.specs.Words.{behind, part_of, keeps_backslash, read_as, fault_at, is_blank};
ghost use Rattle.aws_process.specs.Words.{is_mark, is_double_mark, is_gap, letter_in, words_in};
ghost use Rattle.aws_process.specs.Words.{split_words, IsSplitFault};
ghost use Rattle.aws_process.specs.declared.words.SplitFault.TheVariants as fault;

use std::alloc::{AllocError, AllocFailed, Global};

/// Why a line was not split into words.
#[derive(Clone, Copy, Debug, PartialEq, Eq)]
pub enum SplitFault {
    OutOfMemory,
    /// A quotation does not end.
    Quote,
    /// A backslash stands at the end, and escapes nothing.
    Escape,
}

/// How a byte of a line stands, by what is before it.
#[derive(Clone, Copy)]
pub(crate) enum Quoting {
    /// In no quotation.
    Bare,
    /// Behind a backslash in no quotation.
    Escaped,
    /// Between `'` and `'`.
    Single,
    /// Between `"` and `"`.
    Double,
    /// Behind a backslash between these.
    DoubleEscaped,
}

/// What a byte is read as.
#[derive(Clone, Copy)]
pub(crate) enum Part {
    Letter(u8),
    /// White space between words.
    Gap,
    /// It opens or ends a quotation, or escapes the next byte.
    Mark,
}

/// The words of a line. White space (a space, a tab, `\n`, `\r`) stands between them. All bytes between `'`
/// and `'` are letters. Between `"` and `"` a backslash escapes `"` and `\`, and is a letter before any
/// other byte; in no quotation it makes the next byte a letter, whatever that is. Empty quotations make an
/// empty word, where nothing stands beside them. There are no comments, no variables and no patterns.
pub fn split_words(alloc: Global, line: &[u8]) -> Result<Vec<Vec<u8>>, SplitFault>
    ensures ok { IfOk result (λ words. split_words line.now ≡ Ok (map (λ w. w.items) words.items)) }
    ensures err { IfErr result (IsSplitFault (split_words line.now)) }
{
    let mut quoting = Quoting::Bare;
    let mut parts = Vec::new(alloc);
    for b in line {
        push_read(&mut parts, quoting, *b)?;
        quoting = behind(quoting, *b);
    }
    match fault_at(quoting) {
        Some(fault) => Err(fault),
        None => Ok(words_in(alloc, parts.as_slice())?),
    }
}

/// Pushes what a byte is read as that stands so.
fn push_read(parts: &mut Vec<Part>, quoting: Quoting, b: u8) -> Result<(), AllocError>
    ensures { OnOk result (parts.new.items ≡ parts.old.items ++ read_as quoting b) }
{
    if keeps_backslash(quoting, b) {
        parts.push(Part::Letter(b'\\'))?;
    }
    parts.push(part_of(quoting, b))?;
    Ok(())
}

fn keeps_backslash(quoting: Quoting, b: u8) -> bool
    ensures { result ≡ keeps_backslash quoting b }
{
    match quoting {
        Quoting::DoubleEscaped => !is_double_mark(b),
        Quoting::Bare | Quoting::Escaped | Quoting::Single | Quoting::Double => false,
    }
}

fn part_of(quoting: Quoting, b: u8) -> Part
    ensures { result ≡ part_of quoting b }
{
    match quoting {
        Quoting::Bare if is_blank(b) => Part::Gap,
        Quoting::Bare if is_mark(b) => Part::Mark,
        Quoting::Single if b == b'\'' => Part::Mark,
        Quoting::Double if is_double_mark(b) => Part::Mark,
        _ => Part::Letter(b),
    }
}

/// How the next byte stands.
fn behind(quoting: Quoting, b: u8) -> Quoting
    ensures { result ≡ behind quoting b }
{
    match (quoting, b) {
        (Quoting::Bare, b'\'') => Quoting::Single,
        (Quoting::Bare, b'"') => Quoting::Double,
        (Quoting::Bare, b'\\') => Quoting::Escaped,
        (Quoting::Single, b'\'') | (Quoting::Double, b'"') => Quoting::Bare,
        (Quoting::Double, b'\\') => Quoting::DoubleEscaped,
        (Quoting::Escaped, _) => Quoting::Bare,
        (Quoting::DoubleEscaped, _) => Quoting::Double,
        (open, _) => open,
    }
}

/// Why a line cannot end here.
fn fault_at(quoting: Quoting) -> Option<SplitFault>
    ensures { result ≡ fault_at quoting }
{
    match quoting {
        Quoting::Bare => None,
        Quoting::Single | Quoting::Double => Some(SplitFault::Quote),
        Quoting::Escaped | Quoting::DoubleEscaped => Some(SplitFault::Escape),
    }
}

fn is_blank(b: u8) -> bool
    ensures { result ≡ is_blank b }
{
    b == b' ' || b == b'\t' || b == b'\n' || b == b'\r'
}

fn is_mark(b: u8) -> bool
    ensures { result ≡ is_mark b }
{
    b == b'\'' || is_double_mark(b)
}

fn is_double_mark(b: u8) -> bool
    ensures { result ≡ is_double_mark b }
{
    b == b'"' || b == b'\\'
}

fn is_gap(part: Part) -> bool
    ensures { result ≡ is_gap part }
{
    matches!(part, Part::Gap)
}

/// The words of parts: the letters of each run between gaps.
fn words_in(alloc: Global, parts: &[Part]) -> Result<Vec<Vec<u8>>, AllocError>
    ensures { IfOk result (λ words. map (λ w. w.items) words.items ≡ words_in parts.now) }
{
    let mut words = Vec::new(alloc);
    for run in parts.split(|part| is_gap(*part)) {
        if !run.is_empty() {
            words.push(letters_in(alloc, run)?)?;
        }
    }
    Ok(words)
}

fn letters_in(alloc: Global, run: &[Part]) -> Result<Vec<u8>, AllocError>
    ensures { IfOk result (λ word. word.items ≡ flat_map letter_in run.now) }
{
    let mut word = Vec::new(alloc);
    for part in run {
        if let Part::Letter(b) = part {
            word.push(*b)?;
        }
    }
    Ok(word)
}

impl From<AllocError> for SplitFault {
    ghost from_gives = { λ _ cause. cause ≡ fault.OutOfMemory };

    fn from(_: AllocError) -> SplitFault {
        SplitFault::OutOfMemory
    }
}

impl<T: Drop> From<AllocFailed<T>> for SplitFault {
    ghost from_gives = { λ _ cause. cause ≡ fault.OutOfMemory };

    fn from(_: AllocFailed<T>) -> SplitFault {
        SplitFault::OutOfMemory
    }
}
