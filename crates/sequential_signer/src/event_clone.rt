//! Copies of events.
ghost use Rattle.std.specs.Prelude.{◌≡◌, IfOk, IsOk};
ghost use Rattle.sequential_signer.specs.Clones.{NeedsNoMemory, AnswerNeedsNoMemory, VerdictNeedsNoMemory};

use crate::SigningCredential;
use crate::event::{Answer, Event, Verdict};
use sign_base::NoMemory;
use std::alloc::Global;

impl<K: SigningCredential> Answer<K> {
    /// An equal answer. One without a credential takes no memory.
    pub fn try_clone(&self, alloc: Global) -> Result<Answer<K>, NoMemory<()>>
        ensures equal { IfOk result (λ a. a ≡ self.now) }
        ensures bare { AnswerNeedsNoMemory self.now → IsOk result }
    {
        match self {
            Answer::Found(credential) => {
                let credential = credential.try_clone(alloc)?;
                Ok(Answer::Found(credential))
            }
            Answer::Missing => Ok(Answer::Missing),
            Answer::Failed(e) => Ok(Answer::Failed(*e)),
        }
    }
}

impl Verdict {
    /// An equal answer. A failure takes no memory.
    pub fn try_clone(&self, alloc: Global) -> Result<Verdict, NoMemory<()>>
        ensures equal { IfOk result (λ v. v ≡ self.now) }
        ensures bare { VerdictNeedsNoMemory self.now → IsOk result }
    {
        match self {
            Verdict::Accepted(candidate) => {
                let candidate = candidate.try_clone(alloc)?;
                Ok(Verdict::Accepted(candidate))
            }
            Verdict::Failed(e) => Ok(Verdict::Failed(*e)),
        }
    }
}

impl<K: SigningCredential> Event<K> {
    /// An equal event. One that carries no head and no credential takes no memory.
    pub fn try_clone(&self, alloc: Global) -> Result<Event<K>, NoMemory<()>>
        ensures equal { IfOk result (λ e. e ≡ self.now) }
        ensures bare { NeedsNoMemory self.now → IsOk result }
    {
        match self {
            Event::Begin {
                call,
                head,
                expires_in,
            } => {
                let head = head.try_clone(alloc)?;
                Ok(Event::Begin {
                    call: *call,
                    head,
                    expires_in: *expires_in,
                })
            }
            Event::Poll { call, now } => Ok(Event::Poll {
                call: *call,
                now: *now,
            }),
            Event::Provided { call, now, answer } => {
                let answer = answer.try_clone(alloc)?;
                Ok(Event::Provided {
                    call: *call,
                    now: *now,
                    answer,
                })
            }
            Event::Signed { call, answer } => {
                let answer = answer.try_clone(alloc)?;
                Ok(Event::Signed {
                    call: *call,
                    answer,
                })
            }
            Event::Cancel { call } => Ok(Event::Cancel { call: *call }),
        }
    }
}
