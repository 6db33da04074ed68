//! What a context answers of its environment, and that neither shows a variable's value.
use crate::pairs::owned;
use crate::told::{hides_as, is_told, shown};
use credentials::{Context, Env, NoopCommandExecute, NoopFileRead, NoopHttpSend, OsEnv, StaticEnv};
use std::alloc::Global;
use std::process::Abort;

type In<E> = Context<NoopFileRead, NoopHttpSend, E, NoopCommandExecute>;

/// Whether the home folder, the variable `k`, all variables and a path at home are these.
fn answers<E: Env>(rt: &impl Abort, alloc: Global, ctx: &In<E>, wanted: &[&str; 4]) {
    is_told(rt, shown(alloc, &ctx.home_dir(alloc)), wanted[0]);
    is_told(rt, shown(alloc, &ctx.env_var(alloc, "k")), wanted[1]);
    is_told(rt, shown(alloc, &ctx.env_vars(alloc)), wanted[2]);
    let path = ctx.expand_home_dir(alloc, "~/a~b");
    is_told(rt, shown(alloc, &path), wanted[3]);
}

/// The home folder `/h`, and a variable that is there twice.
fn listed(alloc: Global) -> Option<OsEnv> {
    let variables = owned(alloc, &[("k", "1"), ("k", "5551234")])?;
    let home = String::from_str(alloc, "/h").ok()?;
    OsEnv::from_list(Some(home), variables).ok()
}

static LISTED: [&str; 4] = [
    r#"Ok(Some("/h"))"#,
    r#"Ok(Some("5551234"))"#,
    r#"Ok({"k": "5551234"})"#,
    r#"Ok(Some("/h/a/hb"))"#,
];

#[test]
fn a_listed_environment_answers(rt: HostRuntime) {
    let env = listed(rt.alloc()).expect(&rt, "memory");
    hides_as(&rt, rt.alloc(), &env, "OsEnv(***)");
    let ctx = Context::new().with_env(env);
    answers(&rt, rt.alloc(), &ctx, &LISTED);
    hides_as(&rt, rt.alloc(), &ctx, "Context");
}

/// An environment with the variables of that one, and no home folder.
fn written_down(alloc: Global) -> Option<StaticEnv> {
    let envs = listed(alloc)?.vars(alloc).ok()?;
    Some(StaticEnv {
        home_dir: None,
        envs,
    })
}

static WRITTEN: [&str; 4] = [
    "Ok(None)",
    r#"Ok(Some("5551234"))"#,
    r#"Ok({"k": "5551234"})"#,
    "Ok(None)",
];

#[test]
fn an_environment_that_is_written_down_answers(rt: HostRuntime) {
    let env = written_down(rt.alloc()).expect(&rt, "memory");
    hides_as(&rt, rt.alloc(), &env, "StaticEnv(***)");
    answers(&rt, rt.alloc(), &Context::new().with_env(env), &WRITTEN);
}
