//! Signing for AWS with the credentials that people have: a service for `Signer` that signs heads and makes
//! links with the token of a session, at the moment of its clock.
#![tactic(auto)]

mod aws_error;
mod content;
mod content_rule;
mod cut;
mod left_out;
mod one_call;
mod service;
mod session_head;
mod session_link;
mod token;
mod uri_text;

pub use aws_error::AwsError;
pub use content_rule::ContentRule;
pub use left_out::LeftOut;
pub use one_call::sign_now;
pub use service::{AwsService, AwsWork};
