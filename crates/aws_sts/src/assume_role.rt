//! A role to ask for.
ghost use Rattle.std.specs.Prelude.{◌≡◌};

use sign_base::Octets;
use sigv4_core::SigScope;
use std::marker::{Model, PhantomData};

/// A role, and the endpoint at which it is asked for. None of the three is judged here.
#[derive(Drop)]
pub struct Role {
    /// The endpoint's authority, as `sts.us-east-1.amazonaws.com`.
    pub authority: Octets,
    /// The role's name, as `arn:aws:iam::123456789012:role/demo`.
    pub arn: Octets,
    /// The name that the session is to have, by which AWS logs what is done with it.
    pub session_name: Octets,
}

/// Grants the credential of a role, by `AssumeRole` of AWS's Security Token Service, on the strength of a
/// source that may assume it. It works in a context `Z`, and has no debug form.
#[derive(Drop)]
pub struct AssumeRole<Z> {
    pub(crate) scope: SigScope,
    pub(crate) role: Role,
    context: PhantomData<Z>,
}

impl<Z> Model for AssumeRole<Z> {
    ghost use Rattle.aws_sts.specs.Role.{RoleView};

    ghost Value = { RoleView };

    ghost view = { λ a. record { scope = a.scope; role = a.role } };
}

impl<Z> AssumeRole<Z> {
    /// Asks for this role, with requests that are signed for this scope: the endpoint's region, and the
    /// service `sts`.
    pub fn new(scope: SigScope, role: Role) -> AssumeRole<Z>
        ensures { result ≡ record { scope = scope; role = role } }
    {
        AssumeRole {
            scope,
            role,
            context: PhantomData,
        }
    }
}
