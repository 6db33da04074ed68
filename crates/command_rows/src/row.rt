//! A row: words of a command line, an input, and what these are to be answered.
use crate::log::audited_claims;
use crate::run::{is_answered, push_line};
use std::alloc::{AllocError, Global};
use std::fmt;

/// What the lines of a row say so far.
#[derive(Drop)]
pub struct Row {
    alloc: Global,
    /// What the row shows.
    shows: String,
    /// The words after the program's name, parted by `|`.
    words: String,
    input: String,
    /// What is written to standard output, and then the other marked lines as they stand.
    answer: String,
}

impl Row {
    pub fn new(alloc: Global) -> Row {
        Row {
            alloc,
            shows: String::new(alloc),
            words: String::new(alloc),
            input: String::new(alloc),
            answer: String::new(alloc),
        }
    }

    /// Takes the next line, and tells whether it is the last of its row.
    pub fn is_whole_with(&mut self, line: &str) -> Result<bool, AllocError> {
        let (mark, rest) = line.split_once(' ').unwrap_or((line, ""));
        match mark {
            "#" => self.begin(rest)?,
            "$" => self.words = String::from_str(self.alloc, rest)?,
            ">" => push_line(&mut self.input, rest)?,
            "-" => self.input.push_str(rest)?,
            "<" => push_line(&mut self.answer, rest)?,
            "!" | "=" => push_line(&mut self.answer, line)?,
            _ => {}
        }
        Ok(mark == "=")
    }

    fn begin(&mut self, shows: &str) -> Result<(), AllocError> {
        self.shows = String::from_str(self.alloc, shows)?;
        self.input.clear();
        self.answer.clear();
        Ok(())
    }

    /// Whether the command answers so, read and written a byte at a time, a page at a time and at once.
    pub fn is_answered(&self) -> bool {
        for piece in [1, 4_096, 67_108_864] {
            if !is_answered(
                self.alloc,
                self.words.as_str(),
                self.input.as_bytes(),
                piece,
                self.answer.as_bytes(),
            ) {
                return false;
            }
        }
        true
    }

    /// How many of its answers an audit was told as claims, one by one changed and all of them as they stand:
    /// those of a script. None where it answers otherwise than it is to.
    pub fn audited_claims(&self) -> Result<Option<u64>, AllocError> {
        if self.words.as_str() != "signctl|script" {
            return Ok(Some(0));
        }
        audited_claims(self.alloc, self.input.as_str(), self.answer.as_str())
    }
}

impl fmt::Display for Row {
    fn fmt<W: fmt::Write>(&self, f: &mut fmt::Formatter<W>) -> fmt::Result {
        write!(f, "{}: {}", self.words, self.shows)
    }
}
