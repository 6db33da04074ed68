//! How the tests compare: what a call told, as a text, with the text that is wanted.
use std::alloc::Global;
use std::fmt::{self, Write};
use std::process::Abort;

/// What a row of a table asks. `None` says that memory was lacking.
pub(crate) trait Question {
    fn answer(&self, alloc: Global) -> Option<String>;
}

/// Whether each question of a table has the answer that stands beside it.
pub(crate) fn are_answered<Q: Question>(rt: &impl Abort, alloc: Global, rows: &[(Q, &str)]) {
    for (question, wanted) in rows {
        is_told(rt, question.answer(alloc), *wanted);
    }
}

/// Whether this was told. None says that memory was lacking.
pub(crate) fn is_told(rt: &impl Abort, told: Option<String>, wanted: &str) {
    let told = told.expect(rt, "memory");
    is_same(rt, told.as_str(), wanted);
}

fn is_same(rt: &impl Abort, told: &str, wanted: &str) {
    assert!(rt; told == wanted, "{told}\nis not\n{wanted}");
}

/// The debug text of a value: of an error its kind, its message, what it came through, and whether the same
/// call may pass later.
pub(crate) fn shown<T: fmt::Debug>(alloc: Global, value: &T) -> Option<String> {
    format!(in alloc; "{value:?}").ok()
}

/// What no debug text of a test's value may have: words, their first byte as a number, and numbers.
static SECRETS: [&str; 4] = ["sesame", "115", "5551234", "736573"];

/// A writer that takes so many texts, and then fails.
#[derive(Drop)]
struct Few {
    left: usize,
    taken: String,
}

impl Write for Few {
    fn write_str(&mut self, text: &str) -> fmt::Result {
        if self.left == 0 {
            return Err(fmt::Error);
        }
        self.left -= 1;
        match self.taken.push_str(text) {
            Ok(()) => Ok(()),
            Err(_) => Err(fmt::Error),
        }
    }
}

/// Whether no debug text of a value has a secret, in one line, in several, under other options, or cut off by
/// a writer that fails, and the first is this.
pub(crate) fn hides_as<T: fmt::Debug>(rt: &impl Abort, alloc: Global, value: &T, wanted: &str) {
    let text = format!(in alloc;
        "{value:?} {value:#?} {value:4?} {value:<64?} {value:.2?} {value:+09?}"
    );
    is_hidden(rt, text.expect(rt, "memory").as_str());
    for left in 0..8 {
        is_hidden(rt, cut_off(alloc, value, left).as_str());
    }
    is_told(rt, shown(alloc, value), wanted);
}

/// What a writer has that takes so many texts of a value.
fn cut_off<T: fmt::Debug>(alloc: Global, value: &T, left: usize) -> String {
    let mut few = Few {
        left,
        taken: String::new(alloc),
    };
    let _ = write!(few, "{value:?}");
    few.taken
}

fn is_hidden(rt: &impl Abort, text: &str) {
    for secret in &SECRETS {
        assert!(rt; !text.contains(*secret), "{text}");
    }
}
