//! Credentials of AWS in JSON, as processes print them and endpoints answer them.
#![tactic(auto)]

mod document;
mod document_form;
mod members;
mod refused;

pub use document::session_of_json;
pub use document_form::DocumentForm;
