//! One run of the command over a source and sinks in memory.
ghost use Rattle.std.specs.Prelude.{◌<◌};

use sign_io::{FaultySink, FaultySource};
use signctl_core::{HeaderSeeds, run_program};
use std::alloc::{AllocError, Global};

/// The bytes that a sink has room for.
const ROOM: usize = 8_192;

/// Adds a line and a newline.
pub fn push_line(text: &mut String, line: &str) -> Result<(), AllocError> {
    text.push_str(line)?;
    text.push('\n')
}

/// Whether the program writes this answer, in pieces of so many bytes at the most.
pub fn is_answered(alloc: Global, words: &str, input: &[u8], piece: usize, answer: &[u8]) -> bool
    requires { 0 < piece }
{
    match written(alloc, words, input, piece) {
        Some(written) => written.as_slice() == answer,
        None => false,
    }
}

/// What the program writes, with its exit status. None where memory is lacking.
pub fn written(alloc: Global, words: &str, input: &[u8], piece: usize) -> Option<Vec<u8>>
    requires { 0 < piece }
{
    let mut source = source(alloc, input, piece)?;
    let mut output = sink(alloc, piece)?;
    let mut errors = sink(alloc, piece)?;
    let exit = run_program(
        alloc,
        Some(command_line(alloc, words).ok()?),
        &mut source,
        &mut output,
        &mut errors,
        HeaderSeeds::default(),
    );
    transcript(alloc, output.written(), errors.written(), exit).ok()
}

fn source(alloc: Global, input: &[u8], piece: usize) -> Option<FaultySource>
    requires { 0 < piece }
{
    let bytes = Vec::from_slice(alloc, input).ok()?;
    Some(FaultySource::new(bytes, piece, Vec::new(alloc)))
}

fn sink(alloc: Global, piece: usize) -> Option<FaultySink>
    requires { 0 < piece }
{
    FaultySink::new(alloc, ROOM, piece, Vec::new(alloc)).ok()
}

/// The words of a command line, parted by `|`, from the program's name on.
fn command_line(alloc: Global, line: &str) -> Result<Vec<String>, AllocError> {
    let mut words = Vec::new(alloc);
    for word in line.split('|') {
        words.push(String::from_str(alloc, word)?)?;
    }
    Ok(words)
}

/// What was written, as a row spells it.
fn transcript(
    alloc: Global,
    output: &[u8],
    errors: &[u8],
    exit: u8,
) -> Result<Vec<u8>, AllocError> {
    let mut bytes = Vec::from_slice(alloc, output)?;
    if !errors.is_empty() {
        bytes.extend_from_slice(b"! ")?;
        bytes.extend_from_slice(errors)?;
    }
    let exit = format!(in alloc; "= {exit}\n")?;
    bytes.extend_from_slice(exit.as_bytes())?;
    Ok(bytes)
}
