//! The script examples/waiting_calls.script through a book: three calls need a credential, one of them loads
//! it, and the others wait. The journal is then the transcript.
use pool_jobs::pool_desk;
use sequential_signer::{Entry, Event, Reply};
use signctl_format::{
    Item, ScriptCredential, ScriptEvent, ScriptRule, ScriptVersion, push_reply, read_line,
};
use signer_book::{Book, Pass, Settled};
use std::alloc::Global;
use std::process::Abort;

/// The events of the script, each with the reply that `signctl script` prints. They follow `cache single` and
/// `handle 0 now`.
static LINES: [(&str, &str); 9] = [
    ("begin 0 1 - GET https://e.x/ 1.1", "begun"),
    ("begin 0 2 - GET https://e.x/ 1.1", "begun"),
    ("begin 0 3 - GET https://e.x/ 1.1", "begun"),
    ("poll 0 1 5", "ask 0"),
    ("poll 0 2 5", "pending"),
    ("poll 0 3 5", "pending"),
    ("found 0 1 6 1 900 1000 0", "sign 1 wake 0 2"),
    ("poll 0 2 7", "sign 1 wake 0 3"),
    ("poll 0 3 7", "sign 1"),
];

/// A book of the script's setup.
type ScriptBook = Book<ScriptCredential, ScriptRule>;

/// The event of a line.
fn event_of<R: Abort>(rt: &R, alloc: Global, line: &str) -> ScriptEvent {
    let item = read_line(alloc, ScriptVersion::One, line.as_bytes());
    match item.ok().expect(rt, "an item") {
        Item::Event(event) => event,
        _ => panic!(rt; "no event"),
    }
}

/// The text of a reply.
fn text_of<R: Abort>(rt: &R, alloc: Global, reply: &Reply<ScriptCredential>) -> Vec<u8> {
    let mut text = Vec::new(alloc);
    push_reply(&mut text, reply).ok().expect(rt, "memory");
    text
}

/// What is shown of an event.
fn shown<R: Abort>(rt: &R, alloc: Global, event: &Event<ScriptCredential>) -> String {
    format!(in alloc; "{event:?}").ok().expect(rt, "memory")
}

/// Applies the event of a line, and compares the reply.
fn apply<R: Abort>(
    rt: &R,
    alloc: Global,
    book: &mut ScriptBook,
    pass: &mut Pass<ScriptCredential>,
    line: &(&str, &str),
) {
    let event = event_of(rt, alloc, line.0);
    let reply = book.apply(pass, event.as_event());
    assert!(rt;
        text_of(rt, alloc, &reply).as_slice() == line.1.as_bytes(),
        "{}",
        line.0
    );
}

/// Whether an entry is a line's event with its reply.
fn is_of_line<R: Abort>(
    rt: &R,
    alloc: Global,
    entry: &Entry<ScriptCredential>,
    line: &(&str, &str),
) -> bool {
    let event = event_of(rt, alloc, line.0);
    let same = shown(rt, alloc, &entry.event) == shown(rt, alloc, event.as_event());
    same && text_of(rt, alloc, &entry.reply).as_slice() == line.1.as_bytes()
}

/// Compares entries with the lines.
fn are_lines<R: Abort>(rt: &R, alloc: Global, journal: &[Entry<ScriptCredential>]) {
    assert!(rt; journal.len() == LINES.len());
    for (entry, line) in journal.iter().zip(&LINES) {
        assert!(rt; is_of_line(rt, alloc, entry, line), "{}", line.0);
    }
}

/// Compares receipts with the lines.
fn are_receipts<R: Abort>(rt: &R, alloc: Global, pass: &Pass<ScriptCredential>) {
    assert!(rt; pass.receipts().len() == LINES.len());
    for (place, receipt) in pass.receipts().iter().enumerate() {
        assert!(rt;
            receipt.place == place as u64 && is_of_line(rt, alloc, &receipt.entry, &LINES[place])
        );
    }
}

/// The lines, applied to a book, which is settled with the receipts.
fn settled<R: Abort>(
    rt: &R,
    alloc: Global,
    mut book: ScriptBook,
) -> Settled<ScriptCredential, ScriptRule> {
    let mut pass = Pass::new(alloc);
    for line in &LINES {
        apply(rt, alloc, &mut book, &mut pass, line);
    }
    are_lines(rt, alloc, book.journal());
    are_receipts(rt, alloc, &pass);
    let passes = vec![in alloc; pass].ok().expect(rt, "memory");
    let plan = pool_desk(alloc, 1).ok().expect(rt, "memory");
    book.close(plan, passes).ok().expect(rt, "a closed book")
}

#[test]
fn the_journal_is_the_transcript(rt: HostRuntime) {
    let desk = pool_desk(rt.alloc(), 1).ok().expect(&rt, "memory");
    let settled = settled(&rt, rt.alloc(), Book::new(desk));
    are_lines(&rt, rt.alloc(), settled.journal.as_slice());
}
