//! The events of `load` on a desk of the test's own. What `load` prints are rows of `command_rows`.
ghost use Rattle.std.specs.Prelude.{◌≤◌, ◌<◌};

use sequential_signer::{Loader, Reply};
use sign_desk::Desk;
use signctl_format::{Item, ScriptCredential, ScriptEvent, ScriptRule, ScriptVersion, read_line};
use std::alloc::{AllocError, Global};
use std::process::Abort;

/// A desk with one handle, and how often it gave each kind of reply.
#[derive(Drop)]
struct Tally {
    alloc: Global,
    desk: Desk<ScriptCredential, ScriptRule>,
    counts: [u64; 9],
}

/// The place of a kind of reply among the counts.
fn kind(reply: &Reply<ScriptCredential>) -> usize
    ensures { result < 9 }
{
    match reply {
        Reply::Begun => 0,
        Reply::Pending => 1,
        Reply::Ask { .. } => 2,
        Reply::Sign { .. } => 3,
        Reply::Done { .. } => 4,
        Reply::Refused { .. } => 5,
        Reply::Cancelled { .. } => 6,
        Reply::NotNow => 7,
        Reply::OutOfMemory => 8,
    }
}

/// The event that a line spells.
fn event_of(alloc: Global, line: &str) -> Option<ScriptEvent> {
    match read_line(alloc, ScriptVersion::One, line.as_bytes()) {
        Ok(Item::Event(event)) => Some(event),
        _ => None,
    }
}

impl Tally {
    /// The place of the reply that the desk gives to an event.
    fn reply_kind(&mut self, event: &ScriptEvent) -> usize
        ensures { result < 9 }
    {
        kind(&self.desk.step(event.as_event()))
    }

    /// Steps the desk with the event of a line.
    fn step(&mut self, rt: &impl Abort, line: Result<String, AllocError>) {
        let line = line.expect(rt, "memory");
        let event = event_of(self.alloc, line.as_str()).expect(rt, "an event");
        let kind = self.reply_kind(&event);
        self.counts[kind] = self.counts[kind].saturating_add(1);
    }

    fn poll(&mut self, rt: &impl Abort, call: u64, moment: u64) {
        self.step(rt, format!(in self.alloc; "poll 0 {call} {moment}"));
    }

    /// The credential is found for a call, and those after it are polled again.
    fn find(&mut self, rt: &impl Abort, round: u64, call: u64)
        requires early { round < 12500 }
        requires few { call ≤ 100000 }
    {
        let begins = 100 * round;
        let found = begins + 1;
        let fresh = begins + 150;
        let expires = begins + 1000;
        let line = format!(in self.alloc; "found 0 {call} {found} {round} {fresh} {expires} 0");
        self.step(rt, line);
        for other in call + 1..=8 * round + 8 {
            self.poll(rt, other, begins + 2);
        }
    }

    /// The first call of a round is cancelled, and the next finds the credential.
    fn cancel(&mut self, rt: &impl Abort, round: u64)
        requires early { round < 12500 }
    {
        let call = 8 * round + 1;
        self.step(rt, format!(in self.alloc; "cancel 0 {call}"));
        self.poll(rt, call + 1, 100 * round + 1);
        self.find(rt, round, call + 1);
    }

    /// Calls are begun and polled, in each second round one finds a credential, and all that are signed are
    /// accepted.
    fn round(&mut self, rt: &impl Abort, round: u64)
        requires early { round < 12500 }
    {
        let first = 8 * round + 1;
        for call in first..first + 8 {
            self.step(
                rt,
                format!(in self.alloc; "begin 0 {call} - GET https://e.x/c 1.1"),
            );
        }
        for call in first..first + 8 {
            self.poll(rt, call, 100 * round);
        }
        match round % 4 {
            0 => self.find(rt, round, first),
            2 => self.cancel(rt, round),
            _ => {}
        }
        let signed = if round % 4 == 2 { first + 1 } else { first };
        for call in signed..first + 8 {
            self.step(
                rt,
                format!(in self.alloc; "accept 0 {call} GET https://e.x/c 1.1 a:b"),
            );
        }
    }
}

/// A desk with one cache and one handle.
fn desk_of_one_handle(alloc: Global) -> Option<Desk<ScriptCredential, ScriptRule>> {
    let mut desk = Desk::new(alloc);
    desk.add_cache(Loader::Single).ok()?;
    desk.add_rule_and_handle(0, ScriptRule::Now).ok()?;
    Some(desk)
}

/// The events of the greatest load, on a desk.
#[test]
fn a_desk_gives_the_counted_replies(rt: HostRuntime) {
    let alloc = rt.alloc();
    let mut tally = Tally {
        alloc,
        desk: desk_of_one_handle(alloc).expect(&rt, "a desk"),
        counts: [0; 9],
    };
    for round in 0..12_500 {
        tally.round(&rt, round);
    }
    assert_eq!(rt;
        tally.counts,
        [100_000, 43_750, 9_375, 96_875, 96_875, 0, 3_125, 0, 0]
    );
    assert_eq!(rt; tally.desk.live(), 0);
}
