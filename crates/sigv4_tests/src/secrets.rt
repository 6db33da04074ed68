//! No debug form shows a secret or a derived key, whatever the formatter, and whether or not it is written
//! to the end.
use crate::signed_heads::derived;
use crate::suite::{PLAIN, published, request_to};
use std::alloc::Global;
use std::fmt::{self, Write};
use std::process::Abort;

/// Parts of the secrets, and of the key that Python's `hmac` derives of the suite's: its start in
/// hexadecimal and as numbers, and a byte of each as a number.
static HIDDEN: [&str; 6] = ["wJal", "EKEY", "119", "938127b5", "147", "0x93"];

#[test]
fn debug_forms_show_no_secret(rt: HostRuntime) {
    suite_is_hidden(&rt, rt.alloc());
    published_is_hidden(&rt, rt.alloc());
}

fn suite_is_hidden(rt: &impl Abort, alloc: Global) {
    let by = request_to(rt, alloc, PLAIN);
    is_hidden(rt, alloc, &by.credential);
    is_hidden(rt, alloc, &by.scope);
    let key = derived(rt, alloc, &by);
    is_hidden(rt, alloc, &key);
    drop(key);
    drop(by);
}

/// Whose access key is longer, as AWS's are.
fn published_is_hidden(rt: &impl Abort, alloc: Global) {
    let by = published(rt, alloc);
    is_hidden(rt, alloc, &by.credential);
    drop(by);
}

/// No form of a value shows a secret.
fn is_hidden<T: fmt::Debug>(rt: &impl Abort, alloc: Global, value: &T) {
    hides(rt, forms(rt, alloc, value));
}

/// In one line and in several, under a width, a precision and a sign, and inside another.
fn forms<T: fmt::Debug>(rt: &impl Abort, alloc: Global, value: &T) -> String {
    let some = Some(value);
    let text = format!(in alloc;
        "{value:?} {value:#?} {value:60?} {value:.99?} {value:+?} {some:?} {some:#?}"
    );
    text.expect(rt, "memory")
}

fn hides(rt: &impl Abort, text: String) {
    for hidden in &HIDDEN {
        assert!(rt; !text.as_str().contains(*hidden), "{text}");
    }
}

/// A writer that takes so many pieces and refuses the next.
#[derive(Drop)]
struct Cut {
    text: String,
    pieces: usize,
}

impl Write for Cut {
    fn write_str(&mut self, s: &str) -> fmt::Result {
        if self.pieces == 0 {
            return Err(fmt::Error);
        }
        self.pieces -= 1;
        self.text.push_str(s).map_err(|_| fmt::Error)
    }
}

#[test]
fn a_debug_form_that_fails_shows_no_secret(rt: HostRuntime) {
    for pieces in 0..3 {
        cut_key_is_hidden(&rt, rt.alloc(), pieces);
        cut_credential_is_hidden(&rt, rt.alloc(), pieces);
    }
}

fn cut_credential_is_hidden(rt: &impl Abort, alloc: Global, pieces: usize) {
    let by = published(rt, alloc);
    hides(rt, written_to(alloc, &by.credential, pieces));
    drop(by);
}

fn cut_key_is_hidden(rt: &impl Abort, alloc: Global, pieces: usize) {
    let by = request_to(rt, alloc, PLAIN);
    let key = derived(rt, alloc, &by);
    hides(rt, written_to(alloc, &key, pieces));
    drop(key);
    drop(by);
}

/// What was written before the writer failed.
fn written_to<T: fmt::Debug>(alloc: Global, value: &T, pieces: usize) -> String {
    let mut cut = Cut {
        text: String::new(alloc),
        pieces,
    };
    // Where it fails, what it has taken is looked at.
    let _ = write!(cut, "{value:?}");
    cut.text
}
