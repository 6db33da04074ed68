//! A signer that threads share, whose history is written away volume by volume.
ghost use Rattle.std.specs.Prelude.{◌≡◌, ◌≢◌, ◌++◌, ◌∷◌, [], ◌<◌, ℕ, IfOk, IfErr, IsOk, IsTrue, length};
ghost use Rattle.sequential_signer.specs.declared.event.Reply.TheVariants.{OutOfMemory};
ghost use Rattle.sign_desk.specs.ReplyKinds.{is_reply_to};

use crate::turn_lock::TurnLock;
use sequential_signer::{DeadlineRule, Entry, Event, Reply, SigningCredential};
use sign_base::{EqualByValue, NoMemory};
use sign_desk::Desk;
use signer_book::{NextVolume, Pass, RotateRefused, Settled, Volume, VolumeRefused};
use std::marker::Model;
use std::sync::Wait;

/// A volume behind one lock, and beside it the plan: a desk like the one that the volume was opened at, which
/// never changes. Contracts see the plan alone.
#[derive(Drop)]
pub struct RotatingSigner<K: SigningCredential, D: DeadlineRule<Credential = K>> {
    pub(crate) volume: TurnLock<Volume<K, D>>,
    plan: Desk<K, D>,
}

/// A journal that is the steps of these passes and no others, and the signer that goes on behind it.
#[derive(Drop)]
pub struct Rotated<K: SigningCredential, D: DeadlineRule<Credential = K>> {
    pub signer: RotatingSigner<K, D>,
    pub journal: Vec<Entry<K>>,
    pub passes: Vec<Pass<K>>,
}

impl<K: SigningCredential, D: DeadlineRule<Credential = K>> Model for RotatingSigner<K, D> {
    ghost use Rattle.sign_desk.specs.DeskState.{DeskState};

    ghost Value = { DeskState K D };

    ghost view = { λ signer. signer.plan };
}

impl<K: SigningCredential, D: DeadlineRule<Credential = K>> RotatingSigner<K, D> {
    /// A volume with its plan, to be shared.
    pub fn open(volume: Volume<K, D>, plan: Desk<K, D>) -> RotatingSigner<K, D>
        requires { plan ≡ volume.opened }
        ensures { result ≡ plan }
    {
        RotatingSigner {
            volume: TurnLock::new(volume, plan.alloc()),
            plan,
        }
    }

    /// A pass without receipts. It takes no memory, so it never fails.
    pub fn pass(&self) -> Result<Pass<K>, NoMemory<()>>
        ensures empty { IfOk result (λ pass. pass ≡ []) }
        ensures memory { IsOk result }
    {
        Ok(Pass::new(self.plan.alloc()))
    }

    /// Makes one event of a call, and puts its receipt behind the pass, as `SharedSigner::step` does. It may
    /// wait for another thread.
    pub fn step<R: Wait>(&self, rt: &R, pass: &mut Pass<K>, event: &Event<K>) -> Reply<K>
        ensures receipt { result ≢ OutOfMemory → (place : ℕ) × (pass.new ≡ pass.old
            ++ record { place = place; entry = record { event = event.now; reply = result } } ∷ []) }
        ensures unchanged { result ≡ OutOfMemory → pass.new ≡ pass.old }
        ensures kind { IsTrue (is_reply_to event.now result) }
    {
        self.volume.step(rt, pass, event)
    }
}

impl<K, D> RotatingSigner<K, D>
where
    K: SigningCredential + EqualByValue,
    D: DeadlineRule<Credential = K> + EqualByValue,
{
    ghost use Rattle.desk_parts.specs.Tables.{setup_of};
    ghost use Rattle.sequential_signer.specs.Policy.{policy_of};
    ghost use Rattle.signer_book.specs.Settled.{IsSettled};
    ghost use Rattle.signer_book.specs.VolumeState.{Continues, IsVolume};
    ghost use Rattle.signer_book.specs.Rotate.{IsVolumeCause, IsRotateCause};

    /// Closes the journal with the passes of its steps, and hands back a signer that goes on at the desk as
    /// it then is, where no call is live: whatever transcript the plan represented, the next plan represents
    /// that with the journal behind it. It waits for nobody. It takes a time linear in the journal and the
    /// receipts, and room for two copies of the credential in each cache, and of a number for each handle.
    ///
    /// Errors: the first of `RotateError` that holds, with volume, plan and passes handed back. Unless it is
    /// `Plan`, `open` goes on with that volume and that plan.
    pub fn rotate(self, passes: Vec<Pass<K>>) -> Result<Rotated<K, D>, RotateRefused<K, D>>
        requires { length passes.items < 4294967295 }
        ensures settled { IfOk result (λ r. IsSettled r.journal.items r.passes.items) }
        ensures continues { IfOk result (λ r.
            Continues (policy_of K.valid K.valid_at D.deadline) self r.journal.items r.signer) }
        ensures setup { IfOk result (λ r. setup_of r.signer ≡ setup_of self) }
        ensures passes { IfOk result (λ r. r.passes.items ≡ passes.items) }
        ensures back { IfErr result (λ r. (r.plan ≡ self) × (r.passes.items ≡ passes.items)
            × IsVolume (policy_of K.valid K.valid_at D.deadline) r.volume) }
        ensures why { IfErr result (λ r. IsRotateCause self r.volume r.passes.items r.why) }
    {
        let RotatingSigner { volume, plan } = self;
        match volume.into_inner().rotate(plan, passes) {
            Ok(next) => Ok(share_next(next)),
            Err(refused) => Err(refused),
        }
    }

    /// Closes the journal with the passes of its steps, for good; calls may be live. It waits for nobody,
    /// takes no memory, and a time linear in the journal and the receipts.
    ///
    /// Errors: the first of `VolumeError` that holds, with volume, plan and passes handed back.
    pub fn close(self, passes: Vec<Pass<K>>) -> Result<Settled<K, D>, VolumeRefused<K, D>>
        requires { length passes.items < 4294967295 }
        ensures settled { IfOk result (λ s. IsSettled s.journal.items s.passes.items) }
        ensures continues { IfOk result (λ s.
            Continues (policy_of K.valid K.valid_at D.deadline) self s.journal.items s.desk) }
        ensures setup { IfOk result (λ s. setup_of s.desk ≡ setup_of self) }
        ensures passes { IfOk result (λ s. s.passes.items ≡ passes.items) }
        ensures back { IfErr result (λ r. (r.plan ≡ self) × (r.passes.items ≡ passes.items)
            × IsVolume (policy_of K.valid K.valid_at D.deadline) r.volume) }
        ensures why { IfErr result (λ r. IsVolumeCause self r.volume r.passes.items r.why) }
    {
        let RotatingSigner { volume, plan } = self;
        match volume.into_inner().close(plan, passes) {
            Ok(settled) => Ok(settled),
            Err(refused) => Err(refused),
        }
    }
}

/// The next volume, to be shared.
fn share_next<K: SigningCredential, D: DeadlineRule<Credential = K>>(
    next: NextVolume<K, D>,
) -> Rotated<K, D>
    requires { next.plan ≡ next.volume.opened }
    ensures { (result.signer ≡ next.plan) × (result.journal.items ≡ next.journal.items)
        × (result.passes.items ≡ next.passes.items) }
{
    let NextVolume {
        volume,
        plan,
        journal,
        passes,
    } = next;
    Rotated {
        signer: RotatingSigner::open(volume, plan),
        journal,
        passes,
    }
}
