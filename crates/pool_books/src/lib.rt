//! The books of a signing pool: which jobs were answered, and whether each answer is what the journal says.
//! No thread and no queue is here.
#![tactic(auto)]

mod answer;
mod begun;
mod check_off;
mod cleared;
mod compare;
mod finished;
mod index;
mod job;
pub mod laws;
mod notes;
mod true_answers;

pub use answer::{Answer, Outcome};
pub use compare::finish_cause;
pub use finished::{FinishCause, Finished};
pub use index::{JobIndex, JobPlace, index_list};
pub use job::{PoolJob, Ticket};
pub use notes::{Begins, CallNote, CallNotes, add_blank_notes};
