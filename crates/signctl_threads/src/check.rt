//! Whether an allocation failed, in a thread or in a job.
ghost use Rattle.std.specs.Prelude.{◌≡◌};
ghost use Rattle.std.specs.List.{list_any};
ghost use Rattle.signctl_threads.specs.Served.{ran_out};

use crate::slots::Slot;
use sign_pool::{Answer, Outcome};

/// Whether some thread stopped.
pub(crate) fn any_stopped(slots: &[Slot]) -> bool
    ensures { result ≡ list_any (λ slot. slot.out_of_memory) slots.now }
{
    slots.iter().any(|slot| slot.out_of_memory)
}

/// Whether some job met an allocation that failed.
pub(crate) fn any_ran_out(slots: &[Slot]) -> bool
    ensures { result
        ≡ list_any (λ slot. list_any (λ a. ran_out a.outcome) slot.worker.answers.items) slots.now }
{
    slots
        .iter()
        .any(|slot| answers_ran_out(slot.worker.answers()))
}

fn answers_ran_out(answers: &[Answer]) -> bool
    ensures { result ≡ list_any (λ a. ran_out a.outcome) answers.now }
{
    answers.iter().any(|answer| has_run_out(answer.outcome))
}

fn has_run_out(outcome: Outcome) -> bool
    ensures { result ≡ ran_out outcome }
{
    matches!(outcome, Outcome::OutOfMemory)
}
