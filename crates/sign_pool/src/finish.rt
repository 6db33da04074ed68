//! Finishing a pool: its signer is closed, its queue is emptied, and its books are compared.
ghost use Rattle.std.specs.Prelude.{◌≡◌, All, IfOk, IfErr, MatchResult};
ghost use Rattle.crossbeam_queue.specs.Passes.{IsPassOf, ruled_capacity};
ghost use Rattle.sequential_signer.specs.Policy.{policy_of};
ghost use Rattle.sign_desk.specs.DeskState.{Represents};
ghost use Rattle.signer_book.specs.Close.{IsCloseCause};
ghost use Rattle.pool_books.specs.Finished.{HasExpectedHeads, HasGoodAnswers, IsClearedPool, IsFinishCause};
ghost use Rattle.sign_pool.specs.Finish.{HasAllSeats, HandsOut, IsClosed, IsFinishError};
ghost use Rattle.sign_pool.specs.Finish.{OnEarly, OnNotClosed, OnUncleared};
ghost use Rattle.sign_pool.specs.Room.{HasRoom};

use crate::pool::Pool;
use crate::refused::{FinishError, FinishRefused};
use crate::rest::take_rest;
use crate::room::{FinishRoom, hand_out_submitters, hand_out_workers};
use crate::seats::{Submitter, Worker};
use pool_books::{Finished, finish_cause};
use sequential_signer::{DeadlineRule, SigningCredential};
use sign_base::EqualByValue;
use std::sync::Wait;

impl<K, D> Pool<K, D>
where
    K: SigningCredential + EqualByValue,
    D: DeadlineRule<Credential = K> + EqualByValue,
{
    /// Closes the signer with the workers' passes, takes what is left out of the queue, and compares: each
    /// job that was submitted is answered or left, once, and each answer is what the journal says. It takes a
    /// time linear in jobs, answers and receipts. It may wait for a step at the queue.
    ///
    /// Errors, the first that holds: `Early`, before anything is done, where seats are missing or an
    /// allocation failed, with everything handed back; `Close`, where the signer is not closed; `Uncleared`,
    /// with the first cause for which the books do not balance.
    ///
    /// Requires seats of this pool.
    pub fn finish<R: Wait>(
        self,
        rt: &R,
        submitters: Vec<Submitter>,
        workers: Vec<Worker<K>>,
    ) -> Result<Finished<K, D>, FinishRefused<K, D>>
        requires submitters { All (λ s. IsPassOf self.queue s.seat) submitters.items }
        requires workers { All (λ w. IsPassOf self.queue w.seat) workers.items }
        ensures seats { IfOk result
            (λ f. HasAllSeats self.submitters self.workers submitters.items workers.items) }
        ensures cleared { IfOk result IsClearedPool }
        ensures answers { IfOk result HasGoodAnswers }
        ensures heads { IfOk result (HasExpectedHeads (policy_of K.valid K.valid_at D.deadline)) }
        ensures closed { IfOk result (IsClosed (policy_of K.valid K.valid_at D.deadline) self.shared) }
        ensures values { IfOk result (λ f. HandsOut submitters.items workers.items
            f.settled.passes.items f.answers.items f.submitted.items) }

        ensures back { IfErr result (λ r. OnEarly r (λ pool ss ws why.
            (pool ≡ self) × (ss ≡ submitters) × (ws ≡ workers)
            × IsFinishError self.submitters self.workers submitters.items workers.items why)) }
        ensures close { IfErr result (λ r. OnNotClosed r (λ close answers left submitted.
            HasAllSeats self.submitters self.workers submitters.items workers.items
            × (close.plan ≡ self.shared)
            × Represents (policy_of K.valid K.valid_at D.deadline) close.book.desk close.book.journal
            × IsCloseCause self.shared close.book close.passes.items close.why
            × HandsOut submitters.items workers.items
            close.passes.items answers.items submitted.items)) }
        ensures uncleared { IfErr result (λ r. OnUncleared r (λ f why.
            HasAllSeats self.submitters self.workers submitters.items workers.items
            × IsClosed (policy_of K.valid K.valid_at D.deadline) self.shared f × IsFinishCause f why
            × HandsOut submitters.items workers.items
            f.settled.passes.items f.answers.items f.submitted.items)) }
    {
        match self.take_room(submitters.as_slice(), workers.as_slice()) {
            Ok(room) => self.finish_in(rt, submitters, workers, room),
            Err(why) => Err(FinishRefused::Early {
                pool: self,
                submitters,
                workers,
                why,
            }),
        }
    }

    /// All memory that finishing with these seats takes, where they are as many as were made.
    fn take_room(
        &self,
        submitters: &[Submitter],
        workers: &[Worker<K>],
    ) -> Result<FinishRoom<K>, FinishError>
        ensures { MatchResult result
            (λ room. HasAllSeats self.now.submitters self.now.workers submitters.now workers.now
            × HasRoom (ruled_capacity self.now.queue) submitters.now workers.now room)
            (λ why. IsFinishError self.now.submitters self.now.workers submitters.now workers.now why) }
    {
        if submitters.len() != self.submitters as usize || workers.len() != self.workers as usize {
            return Err(FinishError::Seats {
                submitters: self.submitters,
                workers: self.workers,
            });
        }
        match FinishRoom::new(self.alloc, self.queue.capacity(), submitters, workers) {
            Ok(room) => Ok(room),
            Err(_) => Err(FinishError::OutOfMemory),
        }
    }

    /// Finishes the pool with all its seats, in memory that was taken.
    fn finish_in<R: Wait>(
        self,
        rt: &R,
        submitters: Vec<Submitter>,
        workers: Vec<Worker<K>>,
        room: FinishRoom<K>,
    ) -> Result<Finished<K, D>, FinishRefused<K, D>>
        requires seats { HasAllSeats self.submitters self.workers submitters.items workers.items }
        requires room { HasRoom (ruled_capacity self.queue) submitters.items workers.items room }
        ensures cleared { IfOk result IsClearedPool }
        ensures answers { IfOk result HasGoodAnswers }
        ensures heads { IfOk result (HasExpectedHeads (policy_of K.valid K.valid_at D.deadline)) }
        ensures closed { IfOk result (IsClosed (policy_of K.valid K.valid_at D.deadline) self.shared) }
        ensures values { IfOk result (λ f. HandsOut submitters.items workers.items
            f.settled.passes.items f.answers.items f.submitted.items) }
        ensures back { IfErr result (λ r. OnEarly r (λ pool ss ws why. ⊥)) }
        ensures close { IfErr result (λ r. OnNotClosed r (λ close answers left submitted.
            (close.plan ≡ self.shared)
            × Represents (policy_of K.valid K.valid_at D.deadline) close.book.desk close.book.journal
            × IsCloseCause self.shared close.book close.passes.items close.why
            × HandsOut submitters.items workers.items
            close.passes.items answers.items submitted.items)) }
        ensures uncleared { IfErr result (λ r. OnUncleared r (λ f why.
            IsClosed (policy_of K.valid K.valid_at D.deadline) self.shared f × IsFinishCause f why
            × HandsOut submitters.items workers.items
            f.settled.passes.items f.answers.items f.submitted.items)) }
    {
        // What is taken apart is dropped by name, so that neither answer has to drop it part by part.
        let Pool {
            shared,
            queue,
            taken,
            ..
        } = self;
        drop(taken);
        let (passes, answers) = hand_out_workers(workers, room.passes, room.answers);
        let submitted = hand_out_submitters(submitters, room.submitted);
        let closed = shared.close(passes);
        let left = take_rest(rt, &queue, room.left);
        drop(queue);
        let settled = match closed {
            Ok(settled) => settled,
            Err(refused) => {
                drop(room.index);
                drop(room.notes);
                return Err(FinishRefused::Close {
                    refused,
                    answers,
                    left,
                    submitted,
                });
            }
        };
        let finished = Finished {
            settled,
            answers,
            left,
            submitted,
        };
        match finish_cause(&finished, room.index, room.notes) {
            None => Ok(finished),
            Some(why) => Err(FinishRefused::Uncleared { finished, why }),
        }
    }
}
