//! A volume of a history that goes on: a book that is opened at a desk with a past. It keeps a copy of what
//! that desk was, by which the plan is compared with it when it is closed.
ghost use Rattle.std.specs.Prelude.{◌≡◌, ◌≢◌, ◌++◌, ◌∷◌, [], ◌<◌, true, IfOk, IfErr, IfSome, IsOk};
ghost use Rattle.std.specs.Prelude.{IsSome, IsTrue, MatchBool, MatchOption, MatchResult, length};
ghost use Rattle.sign_base.specs.declared.call_id.CallId.{CallId};
ghost use Rattle.sequential_signer.specs.Policy.{policy_of};
ghost use Rattle.sequential_signer.specs.declared.event.Event.TheVariants.{Cancel};
ghost use Rattle.sequential_signer.specs.declared.event.Reply.TheVariants.{OutOfMemory};
ghost use Rattle.desk_parts.specs.Tables.{setup_of};
ghost use Rattle.desk_parts.specs.LiveCallView.{find_view};
ghost use Rattle.sign_desk.specs.Idle.{desk_at};
ghost use Rattle.sign_desk.specs.ReplyKinds.{is_reply_to};
ghost use Rattle.signer_book.specs.OpenBegins.{is_open};
ghost use Rattle.signer_book.specs.Settled.{IsSettled};
ghost use Rattle.signer_book.specs.VolumeState.{Continues, IsVolume};
ghost use Rattle.signer_book.specs.Rotate.{IsVolumeCause, IsRotateCause};

use crate::journaled_desk::JournaledDesk;
use crate::next_volume::{NextVolume, RotateError, RotateRefused, VolumeError, VolumeRefused};
use crate::pass::Pass;
use crate::settled::Settled;
use sequential_signer::{DeadlineRule, Entry, Event, Reply, SigningCredential};
use sign_base::{EqualByValue, NoMemory};
use sign_desk::{Desk, IdleDesk};
use std::marker::Model;

/// A desk, what it kept when the volume was opened, and the journal since. Whatever transcript the desk
/// represented then, it represents that with the journal behind it.
#[derive(Drop)]
pub struct Volume<K: SigningCredential, D: DeadlineRule<Credential = K>> {
    kept: JournaledDesk<K, D>,
    opened: IdleDesk<K>,
}

impl<K: SigningCredential, D: DeadlineRule<Credential = K>> Model for Volume<K, D> {
    ghost use Rattle.signer_book.specs.VolumeState.{VolumeState};

    ghost Value = { VolumeState K D };

    ghost use Rattle.sequential_signer.specs.Policy.{policy_of};
    ghost use Rattle.signer_book.specs.VolumeState.{volume_of, IsVolume};

    ghost view = { λ volume. volume_of volume.opened volume.kept };

    ghost invariant = { λ volume. IsVolume (policy_of K.valid K.valid_at D.deadline)
        (volume_of volume.opened volume.kept) };
}

impl<K: SigningCredential, D: DeadlineRule<Credential = K>> Volume<K, D> {
    /// A volume of a desk without live calls, with an empty journal. It takes room for a copy of the
    /// credential in each cache, and of a number for each handle.
    ///
    /// Errors: `NoMemory`, which hands the desk back.
    pub fn open(desk: Desk<K, D>) -> Result<Volume<K, D>, NoMemory<Desk<K, D>>>
        requires { length desk.calls ≡ 0 }
        ensures opened { IfOk result
            (λ volume. volume ≡ record { opened = desk; desk = desk; journal = [] }) }
        ensures back { IfErr result (λ failed. failed.back ≡ desk) }
    {
        match desk.copy_idle() {
            Ok(opened) => Ok(Volume {
                kept: JournaledDesk::new(desk),
                opened,
            }),
            Err(_) => Err(NoMemory { back: desk }),
        }
    }

    /// One event, as `Book::apply` takes it. What the volume was opened at stays.
    pub fn apply(&mut self, pass: &mut Pass<K>, event: &Event<K>) -> Reply<K>
        ensures continues { IsVolume (policy_of K.valid K.valid_at D.deadline) self.new }
        ensures opened { self.new.opened ≡ self.old.opened }
        ensures journal { result ≢ OutOfMemory
            → self.new.journal ≡ self.old.journal ++ record { event = event.now; reply = result } ∷ [] }
        ensures receipt { result ≢ OutOfMemory → pass.new ≡ pass.old ++ record {
          place = length self.old.journal;
          entry = record { event = event.now; reply = result };
        } ∷ [] }
        ensures setup { setup_of self.new.desk ≡ setup_of self.old.desk }
        ensures volume_unchanged { result ≡ OutOfMemory → self.new ≡ self.old }
        ensures pass_unchanged { result ≡ OutOfMemory → pass.new ≡ pass.old }
        ensures kind { IsTrue (is_reply_to event.now result) }
        ensures cancel { (call : CallId) → event.now ≡ Cancel call → IsSome (find_view self.old.desk call)
            → is_open call pass.old ≡ true → result ≢ OutOfMemory }
    {
        self.kept.apply(pass, event)
    }

    /// The entries since the volume was opened, in order.
    pub fn journal(&self) -> &[Entry<K>]
        ensures journal { result.now ≡ self.now.journal }
        ensures continues { IsVolume (policy_of K.valid K.valid_at D.deadline) self.now }
    {
        self.kept.journal()
    }

    /// The desk as it is now.
    pub fn desk(&self) -> &Desk<K, D>
        ensures desk { result.now ≡ self.now.desk }
        ensures continues { IsVolume (policy_of K.valid K.valid_at D.deadline) self.now }
    {
        self.kept.desk()
    }

    /// A pass without receipts. It takes no memory, so it never fails.
    pub fn pass(&self) -> Result<Pass<K>, NoMemory<()>>
        ensures empty { IfOk result (λ pass. pass ≡ []) }
        ensures memory { IsOk result }
    {
        Ok(Pass::new(self.kept.desk().alloc()))
    }
}

impl<K, D> Volume<K, D>
where
    K: SigningCredential + EqualByValue,
    D: DeadlineRule<Credential = K> + EqualByValue,
{
    /// Closes the volume with the passes of its steps, as a book is closed. `plan` is a desk like the one
    /// that the volume was opened at: whatever that represented, the journal is legal behind it.
    ///
    /// Errors: the first of `VolumeError` that holds, with everything handed back as it was.
    pub fn close(
        mut self,
        plan: Desk<K, D>,
        passes: Vec<Pass<K>>,
    ) -> Result<Settled<K, D>, VolumeRefused<K, D>>
        requires { length passes.items < 4294967295 }
        ensures settled { IfOk result (λ s. IsSettled s.journal.items s.passes.items) }
        ensures continues { IfOk result (λ s.
            Continues (policy_of K.valid K.valid_at D.deadline) plan s.journal.items s.desk) }
        ensures setup { IfOk result (λ s. setup_of s.desk ≡ setup_of plan) }
        ensures volume { IfOk result (λ s. (s.desk ≡ self.desk) × (s.journal.items ≡ self.journal)) }
        ensures passes { IfOk result (λ s. s.passes.items ≡ passes.items) }
        ensures back { IfErr result
            (λ r. (r.volume ≡ self) × (r.plan ≡ plan) × (r.passes.items ≡ passes.items)) }
        ensures kept { IfErr result (λ r. IsVolume (policy_of K.valid K.valid_at D.deadline) r.volume) }
        ensures why { IfErr result (λ r. IsVolumeCause plan self passes.items r.why) }
    {
        if let Err(why) = self.check(&plan, passes.as_slice()) {
            return Err(VolumeRefused {
                volume: self,
                plan,
                passes,
                why,
            });
        }
        let Volume { kept, opened } = self;
        drop(opened);
        let (desk, journal) = kept.into_parts();
        Ok(Settled {
            desk,
            journal,
            passes,
        })
    }

    /// Closes the volume with the passes of its steps, and opens the next one at its desk, where no call is
    /// live. The plan is made like that desk. It takes room for two copies of the credential in each cache,
    /// and of a number for each handle.
    ///
    /// Errors: the first of `RotateError` that holds, with everything handed back as it was.
    pub fn rotate(
        mut self,
        mut plan: Desk<K, D>,
        passes: Vec<Pass<K>>,
    ) -> Result<NextVolume<K, D>, RotateRefused<K, D>>
        requires { length passes.items < 4294967295 }
        ensures settled { IfOk result (λ n. IsSettled n.journal.items n.passes.items) }
        ensures continues { IfOk result (λ n.
            Continues (policy_of K.valid K.valid_at D.deadline) plan n.journal.items n.plan) }
        ensures setup { IfOk result (λ n. setup_of n.plan ≡ setup_of plan) }
        ensures volume { IfOk result (λ n. (n.plan ≡ self.desk) × (n.journal.items ≡ self.journal)) }
        ensures next { IfOk result (λ n.
            n.volume ≡ record { opened = n.plan; desk = n.plan; journal = [] }) }
        ensures passes { IfOk result (λ n. n.passes.items ≡ passes.items) }
        ensures back { IfErr result
            (λ r. (r.volume ≡ self) × (r.plan ≡ plan) × (r.passes.items ≡ passes.items)) }
        ensures kept { IfErr result (λ r. IsVolume (policy_of K.valid K.valid_at D.deadline) r.volume) }
        ensures why { IfErr result (λ r. IsRotateCause plan self passes.items r.why) }
    {
        match self.turn(&mut plan, passes.as_slice()) {
            Ok(journal) => Ok(NextVolume {
                volume: self,
                plan,
                journal,
                passes,
            }),
            Err(why) => Err(RotateRefused {
                volume: self,
                plan,
                passes,
                why,
            }),
        }
    }

    /// Hands the journal out, opens the volume anew at its desk, and makes the plan like it; or changes
    /// nothing.
    fn turn(
        &mut self,
        plan: &mut Desk<K, D>,
        passes: &[Pass<K>],
    ) -> Result<Vec<Entry<K>>, RotateError>
        requires { length passes.now < 4294967295 }
        ensures turned { IfOk result (λ journal. (journal.items ≡ self.old.journal)
            × (self.new ≡ record { opened = self.old.desk; desk = self.old.desk; journal = [] })
            × (plan.new ≡ self.old.desk)) }
        ensures closed { IfOk result (λ _. (plan.old ≡ self.old.opened)
            × IsSettled self.old.journal passes.now) }
        ensures continues { IsVolume (policy_of K.valid K.valid_at D.deadline) self.old }
        ensures unchanged { IfErr result (λ _. (self.new ≡ self.old) × (plan.new ≡ plan.old)) }
        ensures why { IfErr result (λ why. IsRotateCause plan.old self.old passes.now why) }
    {
        if !self.is_opened_at(plan) {
            return Err(RotateError::Plan);
        }
        let calls = self.kept.desk().live() as u64;
        if calls != 0 {
            return Err(RotateError::Live { calls });
        }
        if let Err(why) = self.kept.check(plan, passes) {
            return Err(RotateError::Close(why));
        }
        let Some(opened) = follow(plan, self.kept.desk()) else {
            return Err(RotateError::OutOfMemory);
        };
        let journal = self.kept.take_journal();
        self.opened = opened;
        Ok(journal)
    }

    /// Whether the volume was opened at this plan and is closed by these passes, or the first cause for which
    /// not.
    fn check(&mut self, plan: &Desk<K, D>, passes: &[Pass<K>]) -> Result<(), VolumeError>
        requires { length passes.now < 4294967295 }
        ensures why { MatchResult result
            (λ _. (plan.now ≡ self.old.opened) × IsSettled self.old.journal passes.now)
            (λ why. IsVolumeCause plan.now self.old passes.now why) }
        ensures unchanged { self.new ≡ self.old }
    {
        if !self.is_opened_at(plan) {
            return Err(VolumeError::Plan);
        }
        match self.kept.check(plan, passes) {
            Ok(()) => Ok(()),
            Err(why) => Err(VolumeError::Close(why)),
        }
    }

    /// Whether the plan is a desk like the one that the volume was opened at: of the same setup, with the
    /// same credential in each cache and the same number for each handle, and without live calls. No memory
    /// is taken.
    pub fn is_opened_at(&self, plan: &Desk<K, D>) -> bool
        ensures { MatchBool result (plan.now ≡ self.now.opened) (plan.now ≢ self.now.opened) }
    {
        self.kept.desk().same_setup(plan) && plan.is_idle_at(&self.opened)
    }
}

/// Makes the plan like the desk, and gives a copy of what that keeps; or changes nothing.
fn follow<K: SigningCredential, D: DeadlineRule<Credential = K>>(
    plan: &mut Desk<K, D>,
    desk: &Desk<K, D>,
) -> Option<IdleDesk<K>>
    requires setup { setup_of plan.old ≡ setup_of desk.now }
    requires plan { length plan.old.calls ≡ 0 }
    requires desk { length desk.now.calls ≡ 0 }
    ensures { MatchOption result (plan.new ≡ plan.old)
        (λ idle. (desk.now ≡ desk_at (setup_of desk.now) idle) × (plan.new ≡ desk.now)) }
{
    let idle = desk.copy_idle().ok()?;
    if plan.catch_up(desk).is_err() {
        drop(idle);
        return None;
    }
    Some(idle)
}
