//! How far a log is: its signer is set up, or its events are judged.
use sign_audit::Audit;
use sign_desk::Desk;
use signctl_format::{ScriptCredential, ScriptRule};

/// The cache and handle lines set up a desk; the first event hands it to an audit.
#[derive(Drop)]
pub(crate) enum LogStage {
    Setup(Desk<ScriptCredential, ScriptRule>),
    Judging(Audit<ScriptCredential, ScriptRule>),
}
