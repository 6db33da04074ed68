//! What the books of a finished pool say.
use fixtures::{Key, UntilNow};
use sequential_signer::{Entry, Reply};
use sign_pool::{Answer, Finished, Outcome, PoolJob};
use std::alloc::Global;

/// What is told of a pool.
#[derive(Drop)]
pub struct Report {
    /// Whether it was finished. If not, there is nothing else.
    pub finished: bool,
    /// The jobs that were submitted.
    pub submitted: u64,
    /// The outcomes of all answers, worker by worker.
    pub outcomes: Vec<Outcome>,
    /// The heads that are done in the journal.
    pub signed: u64,
    /// The tickets of the jobs that are left: of each, its submitter and its number.
    pub left: Vec<(u32, u64)>,
}

impl Report {
    /// That of a pool which was not finished.
    pub fn unfinished(alloc: Global) -> Report {
        Report {
            finished: false,
            submitted: 0,
            outcomes: Vec::new(alloc),
            signed: 0,
            left: Vec::new(alloc),
        }
    }

    /// That of a finished pool. `None` where an allocation failed.
    pub fn of(alloc: Global, finished: &Finished<Key, UntilNow>) -> Option<Report> {
        let outcomes = outcomes_of(alloc, finished.answers.as_slice())?;
        let left = tickets_of(alloc, finished.left.as_slice())?;
        Some(Report {
            finished: true,
            submitted: count_jobs(finished.submitted.as_slice()),
            outcomes,
            signed: count_signed(finished.settled.journal.as_slice()),
            left,
        })
    }

    /// Whether so many jobs were submitted, and each was answered and done in the journal.
    pub fn all_done(&self, jobs: u64) -> bool {
        let done = self
            .outcomes
            .iter()
            .all(|outcome| *outcome == Outcome::Done);
        let counts = self.submitted == jobs && self.signed == jobs;
        done && counts && self.outcomes.len() as u64 == jobs && self.left.is_empty()
    }
}

fn count_jobs(lists: &[Vec<PoolJob>]) -> u64 {
    let mut count: u64 = 0;
    for list in lists {
        count = count.saturating_add(list.len() as u64);
    }
    count
}

fn count_signed(journal: &[Entry<Key>]) -> u64 {
    let mut count: u64 = 0;
    for entry in journal {
        count = count.saturating_add(u64::from(matches!(entry.reply, Reply::Done { .. })));
    }
    count
}

fn outcomes_of(alloc: Global, answers: &[Vec<Answer>]) -> Option<Vec<Outcome>> {
    let mut outcomes = Vec::new(alloc);
    for list in answers {
        for answer in list {
            outcomes.push(answer.outcome).ok()?;
        }
    }
    Some(outcomes)
}

fn tickets_of(alloc: Global, jobs: &[PoolJob]) -> Option<Vec<(u32, u64)>> {
    let mut tickets = Vec::new(alloc);
    for job in jobs {
        tickets
            .push((job.ticket.submitter, job.ticket.number))
            .ok()?;
    }
    Some(tickets)
}
