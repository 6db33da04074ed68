//! What becomes of a call, told in words.
use sign_base::Error;
use std::alloc::Global;
use std::fmt;
use std::process::Abort;

/// A text. Words for which there is no memory are left out.
#[derive(Drop)]
pub(crate) struct Told {
    alloc: Global,
    pub(crate) text: String,
}

impl Told {
    pub(crate) fn new(alloc: Global) -> Told {
        Told {
            alloc,
            text: String::new(alloc),
        }
    }

    pub(crate) fn alloc(&self) -> Global {
        self.alloc
    }

    pub(crate) fn push(&mut self, words: &str) {
        let _ = self.text.push_str(words);
    }

    /// Tells of an error, which is there unless an allocation failed.
    pub(crate) fn push_error(&mut self, error: Option<Error>) -> Option<()> {
        let error = error?;
        let (kind, context) = (error.kind(), error.context());
        let told = write!(self.text, "{kind:?} {error} {context:?}");
        drop(error);
        told.ok()
    }

    /// Says so where a debug form shows a secret. Secrets begin with the same digits.
    pub(crate) fn push_secrets<T: fmt::Debug>(&mut self, value: &T) {
        if shows_secret(self.alloc, value) {
            self.push("a secret, ");
        }
    }
}

fn shows_secret<T: fmt::Debug>(alloc: Global, value: &T) -> bool {
    match format!(in alloc; "{value:?} {value:#?}") {
        Ok(text) => text.as_str().contains("5551"),
        Err(_) => true,
    }
}

/// Whether these words were told, and then this.
pub(crate) fn is_told(rt: &impl Abort, told: Option<Told>, words: &str, last: &str) {
    let told = told.expect(rt, "memory");
    assert!(rt;
        told.text.as_str().strip_prefix(words) == Some(last),
        "{}",
        told.text
    );
}
