//! Room for a handle more in what a granter keeps, which is taken before anything is added.
ghost use Rattle.std.specs.Prelude.{◌≡◌, ◌<◌, [], ◌∷◌, length, OnOk, IfOk};
ghost use Rattle.std.specs.Vec.{vec_len, vec_capacity};
ghost use Rattle.desk_parts.specs.Adding.{late_refusal, AddAnswer};

use credentials::Providers;
use desk_parts::AddError;
use grant_desk::GrantDesk;
use sequential_signer::{DeadlineRule, Loader, SigningCredential};
use std::alloc::Global;

/// A desk with one empty cache, and room for the objects of its first handle.
#[derive(Drop)]
pub(crate) struct FirstRoom<P, C, K, D>
where
    K: SigningCredential,
    D: DeadlineRule<Credential = K>,
{
    pub(crate) desk: GrantDesk<K, D>,
    pub(crate) providers: Vec<Providers<P>>,
    pub(crate) provider_places: Vec<usize>,
    pub(crate) contexts: Vec<C>,
    pub(crate) context_places: Vec<usize>,
}

impl<P: Drop, C: Drop, K, D> FirstRoom<P, C, K, D>
where
    K: SigningCredential,
    D: DeadlineRule<Credential = K>,
{
    ghost use Rattle.sequential_signer.specs.Policy.{policy_for};
    ghost use Rattle.grant_desk.specs.GrantDeskState.{GrantRepresents};
    ghost use Rattle.desk_parts.specs.Tables.{setup_of};

    pub(crate) fn new(alloc: Global, loader: Loader) -> Result<Self, AddError>
        ensures setup { IfOk result
            (λ room. setup_of room.desk ≡ record { loaders = loader ∷ []; rules = []; handles = [] }) }
        ensures fresh { IfOk result
            (λ room. GrantRepresents (policy_for K.SigningCredential D.DeadlineRule) room.desk []) }
        ensures providers { IfOk result
            (λ room. (room.providers.items ≡ []) × (vec_len room.providers < vec_capacity room.providers)) }
        ensures provider_places { IfOk result (λ room. (room.provider_places.items ≡ [])
            × (vec_len room.provider_places < vec_capacity room.provider_places)) }
        ensures contexts { IfOk result
            (λ room. (room.contexts.items ≡ []) × (vec_len room.contexts < vec_capacity room.contexts)) }
        ensures places { IfOk result (λ room. (room.context_places.items ≡ [])
            × (vec_len room.context_places < vec_capacity room.context_places)) }
    {
        let mut desk = GrantDesk::new(alloc);
        desk.add_cache(loader)?;
        Ok(FirstRoom {
            desk,
            providers: Vec::with_capacity(alloc, 1)?,
            provider_places: Vec::with_capacity(alloc, 1)?,
            contexts: Vec::with_capacity(alloc, 1)?,
            context_places: Vec::with_capacity(alloc, 1)?,
        })
    }
}

/// Makes room for the objects of one more handle, and returns its number.
///
/// Errors: `Late` where a call was begun, `OutOfMemory`.
pub(crate) fn make_room<P, C, K, D>(
    desk: &GrantDesk<K, D>,
    providers: &mut Vec<Providers<P>>,
    provider_places: &mut Vec<usize>,
    contexts: &mut Vec<C>,
    context_places: &mut Vec<usize>,
) -> Result<u32, AddError>
where
    K: SigningCredential,
    D: DeadlineRule<Credential = K>,
    ensures answer { AddAnswer (late_refusal desk.now) (length desk.now.handles) result }
    ensures providers { providers.new.items ≡ providers.old.items }
    ensures provider_places { provider_places.new.items ≡ provider_places.old.items }
    ensures contexts { contexts.new.items ≡ contexts.old.items }
    ensures places { context_places.new.items ≡ context_places.old.items }
    ensures providers_room { OnOk result (vec_len providers.new < vec_capacity providers.new) }
    ensures provider_places_room { OnOk result
        (vec_len provider_places.new < vec_capacity provider_places.new) }
    ensures contexts_room { OnOk result (vec_len contexts.new < vec_capacity contexts.new) }
    ensures places_room { OnOk result (vec_len context_places.new < vec_capacity context_places.new) }
{
    if !desk.is_fresh() {
        return Err(AddError::Late);
    }
    providers.reserve(1)?;
    provider_places.reserve(1)?;
    contexts.reserve(1)?;
    context_places.reserve(1)?;
    Ok(desk.handles())
}
