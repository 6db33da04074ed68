//! Environments: variables, and the home folder.
ghost use Rattle.std.specs.Prelude.{◌≡◌, ℕ, List, Option, None, Some, IfOk, IsOk, codes, option_map};
ghost use Rattle.std.specs.Fmt.{WritesOnOk, WritesStyledOnOk};
ghost use Rattle.std.specs.String.{string_bytes};
ghost use Rattle.credentials.specs.Env.{HasVariables, map_variables, no_variables};

use sign_base::NoMemory;
use std::alloc::Global;
use std::collections::HashMap;
use std::fmt;

/// An environment. Names and values are text.
pub trait Env: Drop {
    /// The path of the home folder, where there is one.
    ghost home: { Self → Option (List ℕ) };

    /// The variables: the value of a name, where there is one.
    ghost variables: { Self → List ℕ → Option (List ℕ) };

    /// The value of a variable, or None where there is no such variable.
    fn var(&self, alloc: Global, key: &str) -> Result<Option<String>, NoMemory<()>>
        ensures { IfOk result (λ value. option_map string_bytes value ≡ variables self.now key.now) };

    /// All variables.
    fn vars(&self, alloc: Global) -> Result<HashMap<String, String>, NoMemory<()>>
        ensures { IfOk result (λ vars. HasVariables vars (variables self.now)) };

    /// The path of the home folder, or None where there is none.
    fn home_dir(&self, alloc: Global) -> Result<Option<String>, NoMemory<()>>
        ensures { IfOk result (λ path. option_map string_bytes path ≡ home self.now) };
}

/// An environment with no variables and no home folder.
#[derive(Clone, Copy, Debug)]
pub struct NoopEnv;

impl Env for NoopEnv {
    ghost home = { λ env. None };

    ghost variables = { λ env. no_variables };

    fn var(&self, _alloc: Global, _key: &str) -> Result<Option<String>, NoMemory<()>>
        ensures value { IfOk result (λ value. option_map string_bytes value ≡ None) }
        ensures succeeds { IsOk result }
    {
        Ok(None)
    }

    fn vars(&self, alloc: Global) -> Result<HashMap<String, String>, NoMemory<()>>
        ensures vars { IfOk result (λ vars. HasVariables vars no_variables) }
        ensures succeeds { IsOk result }
    {
        Ok(HashMap::new(alloc))
    }

    fn home_dir(&self, _alloc: Global) -> Result<Option<String>, NoMemory<()>>
        ensures home { IfOk result (λ path. option_map string_bytes path ≡ None) }
        ensures succeeds { IsOk result }
    {
        Ok(None)
    }
}

/// An environment that is written down, for tests and for settings of one's own. `Debug` shows nothing of it,
/// since a value may be a secret.
#[derive(Drop)]
pub struct StaticEnv {
    /// The path of the home folder.
    pub home_dir: Option<String>,
    /// The variables.
    pub envs: HashMap<String, String>,
}

impl Env for StaticEnv {
    ghost home = { λ env. option_map string_bytes env.home_dir };

    ghost variables = { λ env. map_variables env.envs };

    fn var(&self, alloc: Global, key: &str) -> Result<Option<String>, NoMemory<()>>
        ensures value { IfOk result
            (λ value. option_map string_bytes value ≡ map_variables self.now.envs key.now) }
        ensures absent { map_variables self.now.envs key.now ≡ None → IsOk result }
    {
        copy_of(alloc, self.envs.get(key))
    }

    fn vars(&self, _alloc: Global) -> Result<HashMap<String, String>, NoMemory<()>> {
        Ok(self.envs.clone()?)
    }

    fn home_dir(&self, alloc: Global) -> Result<Option<String>, NoMemory<()>>
        ensures home { IfOk result
            (λ path. option_map string_bytes path ≡ option_map string_bytes self.now.home_dir) }
        ensures absent { self.now.home_dir ≡ None → IsOk result }
    {
        copy_of(alloc, self.home_dir.as_ref())
    }
}

impl fmt::Debug for StaticEnv {
    ghost debug_output = { λ _. Some (codes "StaticEnv(***)") };

    fn fmt<W: fmt::Write>(&self, f: &mut fmt::Formatter<W>) -> fmt::Result
        ensures writes { WritesOnOk W.write_str_gives f.old result (codes "StaticEnv(***)") f.new }
        ensures styled { WritesStyledOnOk W.write_str_gives f.old result (codes "StaticEnv(***)") f.new }
    {
        f.write_str("StaticEnv(***)")
    }
}

/// A copy of a text that may be absent.
pub(crate) fn copy_of(alloc: Global, text: Option<&String>) -> Result<Option<String>, NoMemory<()>>
    ensures ok { IfOk result
        (λ copy. option_map string_bytes copy ≡ option_map (λ t. string_bytes t.now) text.entry) }
    ensures none { option_map (λ t. string_bytes t.now) text.entry ≡ None → IsOk result }
{
    match text {
        Some(text) => Ok(Some(String::from_str(alloc, text.as_str())?)),
        None => Ok(None),
    }
}
