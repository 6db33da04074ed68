//! The status of each cause for which a call has no answer.
ghost use Rattle.std.specs.Prelude.{◌≡◌};
ghost use Rattle.domreth_c.specs.Refusals.{refusal_status};

use domreth_sign::Refusal;

/// The status of a cause, as `bindings/c/domreth.h` has it.
pub(crate) fn refusal_status(why: Refusal) -> u8
    ensures { result ≡ refusal_status why }
{
    match why {
        Refusal::OutOfMemory => 6,
        Refusal::Payload => 10,
        Refusal::Second => 11,
        Refusal::Version => 12,
        Refusal::Key => 13,
        Refusal::Scope => 14,
        Refusal::Head => 20,
        Refusal::Authority => 21,
        Refusal::Path => 22,
        Refusal::Moment => 23,
        Refusal::Already => 24,
        Refusal::Expires => 25,
        Refusal::Link => 26,
        Refusal::Shape => 30,
        Refusal::Credential => 31,
        Refusal::Early => 32,
        Refusal::Late => 33,
        Refusal::Signature => 34,
    }
}
