//! The head of every job, and the header that the service adds.
ghost use Rattle.std.specs.Prelude.{◌≡◌, IfOk};
ghost use Rattle.pool_jobs.specs.Work.{pool_head};
ghost use Rattle.pool_jobs.specs.Meaning.{added_field};

use sign_base::{Field, Fields, Head, NoMemory, Octets, Version};
use std::alloc::Global;

/// The head of every job.
///
/// Errors: an allocation failed.
pub fn pool_head(alloc: Global) -> Result<Head, NoMemory<()>>
    ensures { IfOk result (λ head. head ≡ pool_head) }
{
    Ok(Head {
        method: Octets::from_slice(alloc, b"GET")?,
        uri: Octets::from_slice(alloc, b"https://e.x/c")?,
        version: Version::V11,
        headers: Fields::new(alloc),
    })
}

/// The header that the service adds.
pub(crate) fn added_field(alloc: Global) -> Result<Field, NoMemory<()>>
    ensures { IfOk result (λ field. field ≡ added_field) }
{
    Ok(Field {
        name: Octets::from_slice(alloc, b"a")?,
        value: Octets::from_slice(alloc, b"b")?,
    })
}
