//! The rounds of `load`, played on one desk event by event, and the counts of all replies.
ghost use Rattle.std.specs.Prelude.{◌≡◌, ◌≤◌, ◌<◌, ◌++◌, ◌∷◌, [], List, OnOk, IfOk, map};
ghost use Rattle.sequential_signer.specs.Transcript.{call_of};
ghost use Rattle.sequential_signer.specs.Replies.{is_sign};
ghost use Rattle.sequential_signer.specs.declared.event.Entry.{Entry};
ghost use Rattle.sequential_signer.specs.declared.event.Event.{Event};
ghost use Rattle.sign_desk.specs.DeskState.{Represents};
ghost use Rattle.desk_parts.specs.Tables.{setup_of};
ghost use Rattle.signctl_format.specs.declared.credential.ScriptCredential.{ScriptCredential};
ghost use Rattle.signctl_format.specs.Policy.{script_policy};
ghost use Rattle.signctl_load.specs.Load.{load_setup, signed_calls, entries_in_round, load_transcript};
ghost use Rattle.signctl_load.specs.Load.{most_calls};
ghost use Rattle.signctl_load.specs.LoadRound.{begin_event, poll_event, accepted_event, find_events};
ghost use Rattle.signctl_load.specs.LoadRound.{take_over_events, cancel_events, refresh_events};
ghost use Rattle.signctl_load.specs.LoadRound.{asking_events};
ghost use Rattle.signctl_load.specs.LoadState.{RoundsRepresent, Plays};

use crate::calls::{calls_in_round, signed_among};
use crate::counts::Counts;
use crate::event::{accepted_event, begin_event, found_event, poll_event};
use sequential_signer::{Event, Loader, Reply};
use sign_base::{CallId, NoMemory};
use sign_desk::Desk;
use signctl_format::{ScriptCredential, ScriptRule};
use std::alloc::Global;

/// A desk with one handle, the counts of its replies, and the calls of this round that were answered `Sign`.
#[derive(Drop)]
pub(crate) struct Rounds {
    pub(crate) desk: Desk<ScriptCredential, ScriptRule>,
    pub(crate) counts: Counts,
    pub(crate) signed: Vec<CallId>,
}

impl Rounds {
    /// The rounds before the first one.
    pub(crate) fn new(alloc: Global) -> Result<Rounds, NoMemory<()>>
        ensures { IfOk result (λ rounds. RoundsRepresent rounds []) }
    {
        let desk = load_desk(alloc)?;
        let counts = Counts::new();
        let signed = Vec::new(alloc);
        Ok(Rounds {
            desk,
            counts,
            signed,
        })
    }

    /// Plays the rounds of so many calls.
    pub(crate) fn play_all(&mut self, alloc: Global, calls: u64) -> Result<(), NoMemory<()>>
        requires { calls ≤ most_calls }
        ensures { OnOk result
            (RoundsRepresent self.old [] → RoundsRepresent self.new (load_transcript calls)) }
    {
        for round in 0..(calls + 7) / 8 {
            let list = calls_in_round(alloc, calls, round)?;
            self.play_round(alloc, round, list.as_slice())?;
        }
        Ok(())
    }

    /// Plays a round with these calls: they ask, and then those that were signed are accepted.
    fn play_round(
        &mut self,
        alloc: Global,
        round: u64,
        calls: &[CallId],
    ) -> Result<(), NoMemory<()>>
        requires { round ≤ 100000 }
        ensures { OnOk result ((entries : List (Entry ScriptCredential)) → RoundsRepresent self.old entries
            → RoundsRepresent self.new (entries ++ entries_in_round entries round calls.now)) }
    {
        self.signed.clear();
        self.ask(alloc, round, calls)?;
        let accepted = signed_among(alloc, self.signed.as_slice(), calls)?;
        self.accept_each(alloc, accepted.as_slice())
    }

    /// All calls of a round begin, then each is polled, then the round's refresh.
    fn ask(&mut self, alloc: Global, round: u64, calls: &[CallId]) -> Result<(), NoMemory<()>>
        requires { round ≤ 100000 }
        ensures { OnOk result (Plays (asking_events round calls.now) self.old self.new) }
    {
        self.begin_each(alloc, calls)?;
        self.poll_each(round, 0, calls)?;
        self.refresh(round, calls)
    }

    /// What happens once all calls were polled.
    fn refresh(&mut self, round: u64, calls: &[CallId]) -> Result<(), NoMemory<()>>
        requires { round ≤ 100000 }
        ensures { OnOk result (Plays (refresh_events round calls.now) self.old self.new) }
    {
        match round % 4 {
            0 => self.find(round, calls),
            2 => self.cancel_first(round, calls),
            _ => Ok(()),
        }
    }

    /// The credential is found for the first call, and the others are polled again.
    fn find(&mut self, round: u64, calls: &[CallId]) -> Result<(), NoMemory<()>>
        requires { round ≤ 100000 }
        ensures { OnOk result (Plays (find_events round calls.now) self.old self.new) }
    {
        let [first, others @ ..] = calls else {
            return Ok(());
        };
        self.play(found_event(round, *first))?;
        self.poll_each(round, 2, others)
    }

    /// The first call is cancelled, and the next takes over.
    fn cancel_first(&mut self, round: u64, calls: &[CallId]) -> Result<(), NoMemory<()>>
        requires { round ≤ 100000 }
        ensures { OnOk result (Plays (cancel_events round calls.now) self.old self.new) }
    {
        let [first, others @ ..] = calls else {
            return Ok(());
        };
        self.play(Event::Cancel { call: *first })?;
        self.take_over(round, others)
    }

    /// The first call is polled, and the credential is found for it.
    fn take_over(&mut self, round: u64, calls: &[CallId]) -> Result<(), NoMemory<()>>
        requires { round ≤ 100000 }
        ensures { OnOk result (Plays (take_over_events round calls.now) self.old self.new) }
    {
        let [first, ..] = calls else {
            return Ok(());
        };
        self.play(poll_event(round, 1, *first))?;
        self.find(round, calls)
    }

    fn begin_each(&mut self, alloc: Global, calls: &[CallId]) -> Result<(), NoMemory<()>>
        ensures { OnOk result (Plays (map begin_event calls.now) self.old self.new) }
    {
        for call in calls {
            self.play(begin_event(alloc, *call)?)?;
        }
        Ok(())
    }

    fn accept_each(&mut self, alloc: Global, calls: &[CallId]) -> Result<(), NoMemory<()>>
        ensures { OnOk result (Plays (map accepted_event calls.now) self.old self.new) }
    {
        for call in calls {
            self.play(accepted_event(alloc, *call)?)?;
        }
        Ok(())
    }

    /// A poll of each call, so many seconds after the round began.
    fn poll_each(&mut self, round: u64, seconds: u64, calls: &[CallId]) -> Result<(), NoMemory<()>>
        requires early { round ≤ 100000 }
        requires inside { seconds ≤ 1000 }
        ensures { OnOk result (Plays (map (poll_event round seconds) calls.now) self.old self.new) }
    {
        for call in calls {
            self.play(poll_event(round, seconds, *call))?;
        }
        Ok(())
    }

    /// Steps the desk, counts the reply, and notes the call where it was answered `Sign`.
    fn play(&mut self, event: Event<ScriptCredential>) -> Result<(), NoMemory<()>>
        ensures { OnOk result (Plays (event ∷ []) self.old self.new) }
    {
        let call = event.call();
        let reply = self.desk.step_owned(event);
        if reply.is_out_of_memory() {
            return Err(NoMemory { back: () });
        }
        self.counts = self.counts.with_reply(&reply);
        note_signed(&mut self.signed, call, &reply)
    }
}

/// A desk with one cache, and one handle with the rule `now`.
fn load_desk(alloc: Global) -> Result<Desk<ScriptCredential, ScriptRule>, NoMemory<()>>
    ensures setup { IfOk result (λ desk. setup_of desk ≡ load_setup) }
    ensures fresh { IfOk result (λ desk. Represents script_policy desk []) }
{
    let mut desk = Desk::new(alloc);
    if desk.add_cache(Loader::Single).is_err() {
        return Err(NoMemory { back: () });
    }
    if desk.add_rule(ScriptRule::Now).is_err() {
        return Err(NoMemory { back: () });
    }
    if desk.add_handle(0, 0).is_err() {
        return Err(NoMemory { back: () });
    }
    Ok(desk)
}

/// Notes the call whose event was answered `Sign`.
fn note_signed(
    signed: &mut Vec<CallId>,
    call: CallId,
    reply: &Reply<ScriptCredential>,
) -> Result<(), NoMemory<()>>
    ensures { OnOk result ((event : Event ScriptCredential) → call_of event ≡ call → signed.new.items
        ≡ signed.old.items ++ signed_calls (record { event = event; reply = reply.now } ∷ [])) }
{
    if !is_sign(reply) {
        return Ok(());
    }
    Ok(signed.push(call)?)
}

/// Whether a reply hands out a credential.
fn is_sign(reply: &Reply<ScriptCredential>) -> bool
    ensures { result ≡ is_sign reply.now }
{
    matches!(reply, Reply::Sign { .. })
}
