//! The environment that a program hands in.
ghost use Rattle.std.specs.Prelude.{◌≡◌, map, IfOk, IsOk, IsOkAnd, None, Some, codes, option_map};
ghost use Rattle.std.specs.Fmt.{WritesOnOk, WritesStyledOnOk};
ghost use Rattle.std.specs.String.{string_bytes};
ghost use Rattle.credentials.specs.Env.{no_variables, set_variables, variable_of, HasVariables};

use crate::Env;
use crate::env::copy_of;
use sign_base::NoMemory;
use std::alloc::Global;
use std::collections::HashMap;
use std::fmt;
use std::marker::Model;

/// What `from_list` hands back.
type Handed = (Option<String>, Vec<(String, String)>);

/// The environment of a process, as its program read it. Nothing is read again. `Debug` shows nothing of it,
/// since a value may be a secret.
#[derive(Drop)]
pub struct OsEnv {
    home: Option<String>,
    variables: Vec<(String, String)>,
}

impl Model for OsEnv {
    ghost use Rattle.std.specs.Prelude.{map, option_map};
    ghost use Rattle.std.specs.String.{string_bytes};
    ghost use Rattle.credentials.specs.Env.{Listed, variable_of};

    ghost Value = { Listed };

    ghost view = { λ env. record {
      home = option_map string_bytes env.home;
      variables = map variable_of env.variables.items;
    } };
}

impl OsEnv {
    /// The environment with this home folder and these variables, of which the last of a name counts.
    /// The list is kept as it is, which takes no memory, so the answer is always Ok.
    pub fn from_list(
        home: Option<String>,
        vars: Vec<(String, String)>,
    ) -> Result<OsEnv, NoMemory<Handed>>
        ensures { IsOkAnd result (λ env. env ≡ record {
          home = option_map string_bytes home;
          variables = map variable_of vars.items;
        }) }
    {
        Ok(OsEnv {
            home,
            variables: vars,
        })
    }

    /// The value of the last variable of this name.
    fn last_of(&self, name: &str) -> Option<&String>
        ensures { option_map (λ t. string_bytes t.now) result
            ≡ set_variables no_variables self.now.variables name.now }
    {
        let mut last = None;
        for (key, value) in &self.variables {
            if key.as_str() == name {
                last = Some(value);
            }
        }
        last
    }
}

impl Env for OsEnv {
    ghost home = { λ env. env.home };

    ghost variables = { λ env. set_variables no_variables env.variables };

    fn var(&self, alloc: Global, key: &str) -> Result<Option<String>, NoMemory<()>>
        ensures value { IfOk result (λ value. option_map string_bytes value
            ≡ set_variables no_variables self.now.variables key.now) }
        ensures absent { set_variables no_variables self.now.variables key.now ≡ None → IsOk result }
    {
        copy_of(alloc, self.last_of(key))
    }

    fn vars(&self, alloc: Global) -> Result<HashMap<String, String>, NoMemory<()>> {
        let mut vars = HashMap::new(alloc);
        for (name, value) in &self.variables {
            let name = String::from_str(alloc, name.as_str())?;
            let value = String::from_str(alloc, value.as_str())?;
            vars.insert(name, value)?;
        }
        Ok(vars)
    }

    fn home_dir(&self, alloc: Global) -> Result<Option<String>, NoMemory<()>>
        ensures home { IfOk result (λ path. option_map string_bytes path ≡ self.now.home) }
        ensures absent { self.now.home ≡ None → IsOk result }
    {
        copy_of(alloc, self.home.as_ref())
    }
}

impl fmt::Debug for OsEnv {
    ghost debug_output = { λ _. Some (codes "OsEnv(***)") };

    fn fmt<W: fmt::Write>(&self, f: &mut fmt::Formatter<W>) -> fmt::Result
        ensures writes { WritesOnOk W.write_str_gives f.old result (codes "OsEnv(***)") f.new }
        ensures styled { WritesStyledOnOk W.write_str_gives f.old result (codes "OsEnv(***)") f.new }
    {
        f.write_str("OsEnv(***)")
    }
}
