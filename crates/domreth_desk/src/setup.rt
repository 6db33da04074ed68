//! What is added to a desk before its first call.
ghost use Rattle.std.specs.Prelude.{◌≡◌, OnOk, OnErr, length};
ghost use Rattle.desk_parts.specs.Adding.{late_refusal, handle_refusal, with_rule, with_handle};
ghost use Rattle.sign_desk.specs.DeskState.{with_cache};
ghost use Rattle.domreth_desk.specs.Setup.{refused_as, IsAdded};

use crate::{Margin, TicketDesk};
use sign_desk::{AddError, Loader};

/// Why nothing was added: the first of these that holds. The desk is as it was.
#[derive(Clone, Copy, Debug)]
pub enum SetupError {
    /// It has as many of these as it may have: 4,294,967,295.
    Full,
    /// A call was begun before.
    Late,
    /// There is no such cache.
    NoCache,
    /// There is no such rule.
    NoRule,
    /// An allocation failed.
    OutOfMemory,
}

/// Adds an empty cache with this loader, and returns its number.
pub fn add_cache(desk: &mut TicketDesk, loader: Loader) -> Result<u32, SetupError>
    ensures answer { IsAdded (late_refusal desk.old.desk) (length desk.old.desk.loaders) result }
    ensures added { OnOk result (desk.new.desk ≡ with_cache loader desk.old.desk) }
    ensures unchanged { OnErr result (desk.new ≡ desk.old) }
{
    if desk.desk.caches() == u32::MAX {
        return Err(SetupError::Full);
    }
    match desk.desk.add_cache(loader) {
        Ok(number) => Ok(number),
        Err(why) => Err(refused_as(why)),
    }
}

/// Adds a rule, and returns its number.
pub fn add_rule(desk: &mut TicketDesk, rule: Margin) -> Result<u32, SetupError>
    ensures answer { IsAdded (late_refusal desk.old.desk) (length desk.old.desk.rules) result }
    ensures added { OnOk result (desk.new.desk ≡ with_rule rule desk.old.desk) }
    ensures unchanged { OnErr result (desk.new ≡ desk.old) }
{
    if desk.desk.rules() == u32::MAX {
        return Err(SetupError::Full);
    }
    match desk.desk.add_rule(rule) {
        Ok(number) => Ok(number),
        Err(refused) => Err(refused_as(refused.why)),
    }
}

/// Adds a handle on this cache with this rule, and returns its number.
pub fn add_handle(desk: &mut TicketDesk, cache: u32, rule: u32) -> Result<u32, SetupError>
    ensures answer { IsAdded (handle_refusal desk.old.desk cache rule) (length desk.old.desk.handles) result }
    ensures added { OnOk result (desk.new.desk ≡ with_handle cache rule desk.old.desk) }
    ensures unchanged { OnErr result (desk.new ≡ desk.old) }
{
    if desk.desk.handles() == u32::MAX {
        return Err(SetupError::Full);
    }
    match desk.desk.add_handle(cache, rule) {
        Ok(number) => Ok(number),
        Err(why) => Err(refused_as(why)),
    }
}

fn refused_as(why: AddError) -> SetupError
    ensures { result ≡ refused_as why }
{
    match why {
        AddError::Late => SetupError::Late,
        AddError::NoCache(_) => SetupError::NoCache,
        AddError::NoRule(_) => SetupError::NoRule,
        AddError::OutOfMemory => SetupError::OutOfMemory,
    }
}
