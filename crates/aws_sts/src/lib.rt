//! A broker's granting service: the credential of a role, asked of AWS's Security Token Service.
#![tactic(auto)]

mod assume_role;
mod form;
mod grant;
mod granted;
mod request;
mod role_error;
mod role_work;
mod xml;

pub use assume_role::{AssumeRole, Role};
pub use role_error::RoleError;
pub use role_work::RoleWork;
