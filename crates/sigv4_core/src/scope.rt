//! What a signature is for: a region and a service.
ghost use Rattle.std.specs.Prelude.{◌≡◌, IfOk, IfErr, IsTrue, OnOk, true, false, codes};
ghost use Rattle.std.specs.List.{list_all};
ghost use Rattle.sign_base.specs.declared.error_kind.ErrorKind.TheVariants.{ConfigInvalid};
ghost use Rattle.sigv4_core.specs.Refused.{RefusedWith};
ghost use Rattle.sigv4_core.specs.Scope.{is_scope, is_scope_name, is_scope_byte};

use sign_base::{Error, NoMemory, Octets};
use std::alloc::Global;
use std::marker::Model;

/// A region and a service, as `us-east-1` and `s3`.
#[derive(Debug)]
pub struct SigScope {
    region: Octets,
    service: Octets,
}

impl Drop for SigScope {
    fn drop(self) {
        let SigScope { region, service } = self;
        drop(region);
        drop(service);
    }
}

impl Model for SigScope {
    ghost use Rattle.std.specs.Prelude.{IsTrue};
    ghost use Rattle.sigv4_core.specs.Scope.{Scope, is_scope};

    ghost Value = { Scope };

    ghost view = { λ s. record { region = s.region; service = s.service } };

    ghost invariant = { λ s. IsTrue (is_scope s.region s.service) };
}

impl SigScope {
    /// A region with a service.
    ///
    /// `ConfigInvalid` where one of them is empty or has a byte other than a to z, 0 to 9 and `-`.
    pub fn new(alloc: Global, region: &[u8], service: &[u8]) -> Result<SigScope, Error>
        ensures ok { IfOk result (λ s. s ≡ record { region = region.now; service = service.now }) }
        ensures accepted { OnOk result (is_scope region.now service.now ≡ true) }
        ensures err { IfErr result (RefusedWith ConfigInvalid (codes "invalid scope")
            (is_scope region.now service.now ≡ false)) }
    {
        if !is_scope(region, service) {
            return Err(Error::config_invalid(alloc, "invalid scope")?);
        }
        Ok(SigScope {
            region: Octets::from_slice(alloc, region)?,
            service: Octets::from_slice(alloc, service)?,
        })
    }

    pub fn region(&self) -> &[u8]
        ensures value { result.now ≡ self.now.region }
        ensures accepted { is_scope self.now.region self.now.service ≡ true }
    {
        self.region.as_slice()
    }

    pub fn service(&self) -> &[u8]
        ensures value { result.now ≡ self.now.service }
        ensures accepted { is_scope self.now.region self.now.service ≡ true }
    {
        self.service.as_slice()
    }

    /// Whether the other is an equal scope.
    pub(crate) fn is_same(&self, other: &SigScope) -> bool
        ensures { IsTrue result → self.now ≡ other.now }
    {
        self.region.as_slice() == other.region.as_slice()
            && self.service.as_slice() == other.service.as_slice()
    }

    /// An equal scope.
    pub fn try_clone(&self, alloc: Global) -> Result<SigScope, NoMemory<()>>
        ensures { IfOk result (λ s. s ≡ self.now) }
    {
        Ok(SigScope {
            region: self.region.try_clone(alloc)?,
            service: self.service.try_clone(alloc)?,
        })
    }
}

fn is_scope(region: &[u8], service: &[u8]) -> bool
    ensures { result ≡ is_scope region.now service.now }
{
    is_scope_name(region) && is_scope_name(service)
}

fn is_scope_name(name: &[u8]) -> bool
    ensures { result ≡ is_scope_name name.now }
{
    !name.is_empty() && has_scope_bytes(name)
}

fn has_scope_bytes(name: &[u8]) -> bool
    ensures { result ≡ list_all is_scope_byte name.now }
{
    name.iter().all(|b| is_scope_byte(*b))
}

fn is_scope_byte(b: u8) -> bool
    ensures { result ≡ is_scope_byte b }
{
    b.is_ascii_lowercase() || b.is_ascii_digit() || b == b'-'
}
