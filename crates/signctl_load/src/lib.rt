//! `signctl load`: calls that it makes up, on a desk, and one line that counts the replies.
#![tactic(auto)]

mod calls;
mod counts;
mod event;
mod rounds;
mod run;

pub use run::run_load;
