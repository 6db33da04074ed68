//! The auditor: a desk that is given each event whose claim is legal, with the counts of its caches and the
//! order of the open calls of each.
ghost use Rattle.std.specs.Prelude.{◌≡◌, ◌<◌, ◌^◌, [], true, List, Some, length, slice_get};
ghost use Rattle.std.specs.Prelude.{OnOk, IfOk, IfErr, IsTrue};
ghost use Rattle.std.specs.Fn.{FnReturnsAt};
ghost use Rattle.sequential_signer.specs.Legal.{IsLegalEntry, allocates};
ghost use Rattle.sequential_signer.specs.Policy.{policy_for};
ghost use Rattle.sequential_signer.specs.Transcript.{committed_entries};
ghost use Rattle.sequential_signer.specs.declared.event.Entry.{Entry};
ghost use Rattle.sequential_signer.specs.declared.event.Reply.{Reply};
ghost use Rattle.desk_parts.specs.Queue.{with_changed};
ghost use Rattle.desk_parts.specs.Tables.{setup_of};
ghost use Rattle.sign_desk.specs.DeskState.{Represents};
ghost use Rattle.sign_desk.specs.ReplyKinds.{is_reply_to};
ghost use Rattle.sign_audit.specs.AuditState.{AuditRepresents};
ghost use Rattle.sign_audit.specs.Answers.{reply_due, AnswersTest, AnswersMissed, AnswersEntry};
ghost use Rattle.sign_audit.specs.Answers.{HappensOr, AcceptsAll, FailsAt};
ghost use Rattle.sign_audit.specs.Counts.{counts_of, counted};

use crate::allocates::allocates;
use crate::claim::Claim;
use crate::counts::Counts;
use crate::order_change::order_change;
use crate::wait_orders::WaitOrders;
use sequential_signer::{DeadlineRule, Entry, Event, Reply, SigningCredential};
use sign_base::{EqualByValue, NoMemory};
use sign_desk::{Desk, same_reply};
use std::marker::Model;

/// An auditor of the events of one desk. It represents the claims that it accepted.
#[derive(Drop)]
pub struct Audit<K: SigningCredential, D: DeadlineRule<Credential = K>> {
    pub(crate) desk: Desk<K, D>,
    pub(crate) counts: Vec<Counts>,
    pub(crate) orders: WaitOrders,
}

impl<K: SigningCredential, D: DeadlineRule<Credential = K>> Model for Audit<K, D> {
    ghost use Rattle.sign_audit.specs.AuditState.{AuditState};

    ghost Value = { AuditState K D };

    ghost use Rattle.sequential_signer.specs.Policy.{policy_for};
    ghost use Rattle.sign_audit.specs.IsAudit.{IsAudit};

    ghost view = { λ audit. record { desk = audit.desk; counts = audit.counts.items } };

    ghost invariant = { λ audit. IsAudit (policy_for K.SigningCredential D.DeadlineRule)
        (record { desk = audit.desk; counts = audit.counts.items }) audit.orders };
}

impl<K: SigningCredential, D: DeadlineRule<Credential = K>> Audit<K, D> {
    /// The auditor of a fresh desk. It represents no claims.
    ///
    /// Errors: out of memory, with the desk as it was.
    pub fn new(desk: Desk<K, D>) -> Result<Audit<K, D>, NoMemory<Desk<K, D>>>
        requires { Represents (policy_for K.SigningCredential D.DeadlineRule) desk [] }
        ensures desk { IfOk result (λ audit. audit.desk ≡ desk) }
        ensures represents { IfOk result
            (λ audit. AuditRepresents (policy_for K.SigningCredential D.DeadlineRule) audit []) }
        ensures back { IfErr result (λ refused. refused.back ≡ desk) }
    {
        let caches = desk.caches();
        let Ok(orders) = WaitOrders::new(desk.alloc(), caches) else {
            return Err(NoMemory { back: desk });
        };
        let mut counts = Vec::new(desk.alloc());
        if counts.resize(caches as usize, Counts::new()).is_err() {
            return Err(NoMemory { back: desk });
        }
        Ok(Audit {
            desk,
            counts,
            orders,
        })
    }

    /// One claim: that the event was answered by a reply of which `fits` says true, or, where it is `missed`,
    /// that an allocation failed. `Legal` where the event takes memory and the claim is
    /// missed, or where `fits` says true of the expected reply; the event then counts as
    /// happened. Else `Due`, and nothing changes.
    ///
    /// `OutOfMemory` is never the answer to a missed claim, and changes nothing.
    pub fn claim_by<F: Fn(&Reply<K>) -> bool>(
        &mut self,
        event: &Event<K>,
        missed: bool,
        fits: F,
    ) -> Claim<K>
        requires { F.IsAlwaysCallable fits }
        ensures answer { (entries : List (Entry K))
            → AuditRepresents (policy_for K.SigningCredential D.DeadlineRule) self.old entries
            → AnswersTest (policy_for K.SigningCredential D.DeadlineRule) self.old entries
            (FnReturnsAt F.Fn fits) missed event.now result self.new }
        ensures setup { setup_of self.new.desk ≡ setup_of self.old.desk }
    {
        if missed {
            return self.miss(event);
        }
        let reply = self.desk.preview(event);
        if reply.is_out_of_memory() {
            return Claim::OutOfMemory;
        }
        if !fits(&reply) {
            return Claim::Due(reply);
        }
        self.accept(event, &reply)
    }

    /// The expected reply to the event. Nothing changes.
    ///
    /// `OutOfMemory` is answered only where a step could answer it.
    pub fn due(&self, event: &Event<K>) -> Reply<K>
        ensures expected { (entries : List (Entry K))
            → AuditRepresents (policy_for K.SigningCredential D.DeadlineRule) self.now entries
            → IsLegalEntry (policy_for K.SigningCredential D.DeadlineRule) (setup_of self.now.desk)
            (committed_entries entries) (record { event = event.now; reply = result }) }
        ensures kind { IsTrue (is_reply_to event.now result) }
    {
        self.desk.preview(event)
    }

    /// Whether the event may run out of memory now.
    pub fn may_run_out(&self, event: &Event<K>) -> bool
        ensures { (entries : List (Entry K))
            → AuditRepresents (policy_for K.SigningCredential D.DeadlineRule) self.now entries
            → result ≡ allocates (policy_for K.SigningCredential D.DeadlineRule) (setup_of self.now.desk)
            (committed_entries entries) event.now }
    {
        allocates(&self.desk, event)
    }

    /// The counts of the claims that were accepted, of calls of this cache. Each stands
    /// still at the end of its type.
    pub fn counts(&self, cache: u32) -> Counts
        requires { cache < length self.now.desk.loaders }
        ensures kept { Some result ≡ slice_get self.now.counts cache }
        ensures counts { (entries : List (Entry K))
            → AuditRepresents (policy_for K.SigningCredential D.DeadlineRule) self.now entries
            → length entries < 2 ^ 64 → result ≡ counts_of (setup_of self.now.desk) entries cache }
    {
        self.counts[cache as usize]
    }

    /// The desk, to which the accepted events have happened.
    pub fn desk(&self) -> &Desk<K, D>
        ensures { result.now ≡ self.now.desk }
    {
        &self.desk
    }

    /// A claim that an allocation failed.
    fn miss(&mut self, event: &Event<K>) -> Claim<K>
        ensures answer { (entries : List (Entry K))
            → AuditRepresents (policy_for K.SigningCredential D.DeadlineRule) self.old entries
            → AnswersMissed (policy_for K.SigningCredential D.DeadlineRule)
            self.old entries event.now result self.new }
        ensures setup { setup_of self.new.desk ≡ setup_of self.old.desk }
    {
        if !allocates(&self.desk, event) {
            return Claim::Due(self.desk.preview(event));
        }
        let call = event.call();
        let Some(cache) = self.desk.cache_of(call.handle) else {
            // An event of no cache is counted nowhere.
            return Claim::Legal;
        };
        count(&mut self.counts, cache, &Reply::<K>::OutOfMemory);
        Claim::Legal
    }

    /// A claim that fits the expected reply: the event happens, unless an allocation fails.
    fn accept(&mut self, event: &Event<K>, expected: &Reply<K>) -> Claim<K>
        requires expected { (entries : List (Entry K))
            → AuditRepresents (policy_for K.SigningCredential D.DeadlineRule) self.old entries
            → expected.now
            ≡ reply_due (policy_for K.SigningCredential D.DeadlineRule) self.old entries event.now }
        requires kind { is_reply_to event.now expected.now ≡ true }
        ensures answer { (entries : List (Entry K))
            → AuditRepresents (policy_for K.SigningCredential D.DeadlineRule) self.old entries
            → HappensOr (policy_for K.SigningCredential D.DeadlineRule) self.old entries
            (record { event = event.now; reply = expected.now }) result self.new }
        ensures setup { setup_of self.new.desk ≡ setup_of self.old.desk }
    {
        let call = event.call();
        let Some(cache) = self.desk.cache_of(call.handle) else {
            // Such an event does not fit, and is of no cache.
            let _not_now = self.desk.step(event);
            return Claim::Legal;
        };
        let change = order_change(self.desk.stage_of(call), expected);
        if self.orders.before_step(change, cache, call).is_err() {
            return Claim::OutOfMemory;
        }
        let reply = self.desk.step(event);
        if reply.is_out_of_memory() {
            return Claim::OutOfMemory;
        }
        self.orders.after_step(change, cache, call);
        count(&mut self.counts, cache, &reply);
        Claim::Legal
    }
}

impl<K: SigningCredential + EqualByValue, D: DeadlineRule<Credential = K>> Audit<K, D> {
    /// One claim: that the event had this reply; `OutOfMemory` claims that an allocation failed.
    /// `Legal` where the entry is legal after those before it, and the event then counts as happened.
    /// Else `Due`, and nothing changes.
    ///
    /// `OutOfMemory` is never the answer to a claim of that, and changes nothing.
    pub fn claim(&mut self, event: &Event<K>, claimed: &Reply<K>) -> Claim<K>
        ensures answer { (entries : List (Entry K))
            → AuditRepresents (policy_for K.SigningCredential D.DeadlineRule) self.old entries
            → AnswersEntry (policy_for K.SigningCredential D.DeadlineRule) self.old entries
            (record { event = event.now; reply = claimed.now }) result self.new }
        ensures setup { setup_of self.new.desk ≡ setup_of self.old.desk }
    {
        let missed = claimed.is_out_of_memory();
        self.claim_by(event, missed, |reply| same_reply(reply, claimed))
    }

    /// The claims one after another, each as by `claim`, until one is not accepted. So from a new auditor on
    /// it is Ok exactly where the claims are a legal transcript, unless an allocation of the auditor fails.
    ///
    /// Errors: the place of the first claim that is not accepted, and the answer to it. Those before it are
    /// accepted.
    pub fn claim_all(&mut self, claims: &[Entry<K>]) -> Result<(), (usize, Claim<K>)>
        ensures ok { OnOk result ((entries : List (Entry K))
            → AuditRepresents (policy_for K.SigningCredential D.DeadlineRule) self.old entries
            → AcceptsAll (policy_for K.SigningCredential D.DeadlineRule)
            self.old entries claims.now self.new) }
        ensures err { IfErr result (λ failed. (entries : List (Entry K))
            → AuditRepresents (policy_for K.SigningCredential D.DeadlineRule) self.old entries
            → FailsAt (policy_for K.SigningCredential D.DeadlineRule)
            self.old entries claims.now failed.0 failed.1 self.new) }
        ensures setup { setup_of self.new.desk ≡ setup_of self.old.desk }
    {
        for (place, entry) in claims.iter().enumerate() {
            match self.claim(&entry.event, &entry.reply) {
                Claim::Legal => {}
                refused => return Err((place, refused)),
            }
        }
        Ok(())
    }
}

/// One more reply at a cache, where there is one.
fn count<K>(counts: &mut Vec<Counts>, cache: u32, reply: &Reply<K>)
    ensures { counts.new.items ≡ with_changed (counted reply.now) cache counts.old.items }
{
    if (cache as usize) < counts.len() {
        counts[cache as usize].add(reply);
    }
}
