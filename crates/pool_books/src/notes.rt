//! What the journal has of calls: the last entry of each, and how it was begun. The journal is read once.
ghost use Rattle.std.specs.Prelude.{◌≡◌, ◌<◌, ◌+◌, IfOk, IsSome, IsSomeAnd, MatchBool, slice_get, take};
ghost use Rattle.sequential_signer.specs.Transcript.{call_of};
ghost use Rattle.sign_base.specs.declared.call_id.CallId.{CallId};
ghost use Rattle.pool_books.specs.Notes.{AreBegins, AreBlank, AreRead, HaveNotes, IsBeginWith, IsNoteOf};
ghost use Rattle.pool_books.specs.Notes.{note_of};

use crate::answer::Answer;
use sequential_signer::{Entry, Event};
use sign_base::{CallId, Head, NoMemory};
use sign_desk::same_head;
use std::collections::HashMap;
use std::time::Duration;

/// How the journal begins a call.
#[derive(Clone, Copy, Debug)]
pub enum Begins {
    /// There is none.
    Never,
    /// Each has the head and the duration of the one at this place of the journal.
    Like(u64),
    /// Two have another head or duration.
    Differ,
}

/// What the journal has of a call: the place of its last entry, and its begins.
#[derive(Clone, Copy, Debug)]
pub struct CallNote {
    pub last: Option<u64>,
    pub begins: Begins,
}

/// What the journal has of calls, by their names.
pub type CallNotes = HashMap<CallId, CallNote>;

/// A note without an entry for the call of each of these answers.
pub fn add_blank_notes(notes: &mut CallNotes, answers: &[Answer]) -> Result<(), NoMemory<()>>
    requires { AreBlank notes.old }
    ensures blank { AreBlank notes.new }
    ensures kept { (call : CallId) → IsSome (note_of notes.old call) → IsSome (note_of notes.new call) }
    ensures has { IfOk result (λ _. HaveNotes answers.now notes.new) }
{
    for answer in answers {
        let blank = CallNote {
            last: None,
            begins: Begins::Never,
        };
        let _before = notes.insert(answer.call, blank)?;
    }
    Ok(())
}

/// Notes what the journal has of each call that has a note.
pub(crate) fn note_journal<K>(notes: &mut CallNotes, journal: &[Entry<K>])
    requires { AreBlank notes.old }
    ensures read { AreRead journal.now notes.new }
    ensures kept { (call : CallId) → IsSome (note_of notes.old call) → IsSome (note_of notes.new call) }
{
    for (place, entry) in journal.iter().enumerate() {
        let call = entry.event.call();
        if let Some(note) = notes.get(&call).copied() {
            let _before = notes.insert(call, note_after(note, call, journal, place));
        }
    }
}

/// The call's note with the entry at this place, which is about it.
fn note_after<K>(note: CallNote, call: CallId, journal: &[Entry<K>], place: usize) -> CallNote
    requires about { IsSomeAnd (slice_get journal.now place) (λ e. call_of e.event ≡ call) }
    requires note { IsNoteOf (take place journal.now) call note }
    ensures { IsNoteOf (take (place + 1) journal.now) call result }
{
    CallNote {
        last: Some(place as u64),
        begins: begins_after(note.begins, call, journal, place),
    }
}

fn begins_after<K>(begins: Begins, call: CallId, journal: &[Entry<K>], place: usize) -> Begins
    requires about { IsSomeAnd (slice_get journal.now place) (λ e. call_of e.event ≡ call) }
    requires begins { AreBegins call (take place journal.now) begins }
    ensures { AreBegins call (take (place + 1) journal.now) result }
{
    let Event::Begin {
        head,
        expires_in,
        ..
    } = &journal[place].event
    else {
        return begins;
    };
    match begins {
        Begins::Never => Begins::Like(place as u64),
        Begins::Like(first) if is_begin_with(&journal[first as usize].event, head, *expires_in) => {
            begins
        }
        _ => Begins::Differ,
    }
}

/// Whether the event is a begin with this head and duration.
pub(crate) fn is_begin_with<K>(event: &Event<K>, head: &Head, expires_in: Option<Duration>) -> bool
    ensures { MatchBool result (IsBeginWith head.now expires_in event.now)
        (IsBeginWith head.now expires_in event.now → ⊥) }
{
    match event {
        Event::Begin {
            head: mine,
            expires_in: how_long,
            ..
        } => *how_long == expires_in && same_head(mine, head),
        _ => false,
    }
}
