//! Paths that begin in the home folder.
ghost use Rattle.std.specs.Prelude.{◌≡◌, IfOk};
ghost use Rattle.std.specs.String.{string_bytes};
ghost use Rattle.credentials.specs.Home.{begins_at_home, with_home};

use sign_base::NoMemory;
use std::alloc::Global;

/// Whether a path begins with `~/` or `~\`.
pub(crate) fn begins_at_home(path: &str) -> bool
    ensures { result ≡ begins_at_home path.now }
{
    path.as_bytes().starts_with(b"~/") || path.as_bytes().starts_with(b"~\\")
}

/// The path with the home folder in place of every `~`.
pub(crate) fn with_home(alloc: Global, home: &str, path: &str) -> Result<String, NoMemory<()>>
    ensures { IfOk result (λ expanded. string_bytes expanded ≡ with_home home.now path.now) }
{
    let pieces: Vec<&str> = path.split('~').collect(alloc)?;
    Ok(pieces.join(alloc, home)?)
}
