//! The provider of the process that a profile names in the shared files.

use crate::processes::{Login, answered};
use crate::shared_files::{Program, SomeFiles, environment};
use crate::told::{is_text, text_of};
use aws_process::ProfileProcessProvider;
use credentials::{Context, NoopHttpSend, OsEnv};
use std::alloc::Global;
use std::process::Abort;

const HOME: Option<&str> = Some("/home/me");

const USER1: (&str, &str) = ("AWS_PROFILE", "user1");

/// A key for `default`, and processes for others.
const NAMED: (&str, &str) = (
    "/home/me/.aws/credentials",
    "[default]
aws_access_key_id = AKID
[user1]
credential_process = /opt/bin/login 0 '{\"Version\":1,\"AccessKeyId\":\"USER1\",\"SecretAccessKey\":\"hidden\"}'
[open]
credential_process = /opt/bin/login \"hidden
[escaped]
credential_process = /opt/bin/login hidden\\
",
);

const CONFIG: (&str, &str) = (
    "/home/me/.aws/config",
    "[default]
credential_process = \"/opt/bin/login\" 0 {\\\"Version\\\":1,\\\"AccessKeyId\\\":\\\"AKIDEXAMPLE\\\",\\\"SecretAccessKey\\\":\\\"hidden\\\",\\\"SessionToken\\\":\\\"t\\\"}
[profile user1]
credential_process = /opt/bin/login 1 hidden
[profile refused]
credential_process = /opt/bin/login 1 hidden
[profile empty]
credential_process =
",
);

const BAD: (&str, &str) = ("/home/me/.aws/credentials", "[default\n");

/// The home folder, the variables, the files, the chosen profile, and what is told of what its process prints.
static PROFILES: [Program; 9] = [
    (HOME, &[USER1], &[NAMED, CONFIG], None, "USER1 none"),
    (HOME, &[], &[NAMED, CONFIG], None, "AKIDEXAMPLE t"),
    (HOME, &[], &[NAMED], None, "none"),
    (None, &[USER1], &[NAMED, CONFIG], None, "none"),
    (
        HOME,
        &[USER1],
        &[CONFIG],
        Some("refused"),
        "status 1 of the process",
    ),
    (
        HOME,
        &[],
        &[NAMED],
        Some("open"),
        "a credential_process line with an open quotation in the shared credentials file",
    ),
    (
        HOME,
        &[],
        &[NAMED],
        Some("escaped"),
        "a credential_process line with an open escape in the shared credentials file",
    ),
    (
        HOME,
        &[],
        &[NAMED, CONFIG],
        Some("empty"),
        "a credential_process line without words in the shared config file",
    ),
    (
        HOME,
        &[],
        &[BAD, CONFIG],
        None,
        "bad line in the shared credentials file",
    ),
];

#[test]
fn profiles_name_processes(rt: HostRuntime) {
    for program in &PROFILES {
        is_text(&rt, told_by(&rt, rt.alloc(), program), program.4);
    }
}

/// What the provider answers in the end, in words.
fn told_by(rt: &impl Abort, alloc: Global, program: &Program) -> String {
    let context = Context::new()
        .with_file_read(SomeFiles(program.2))
        .with_env(environment(rt, alloc, program))
        .with_command_execute(Login);
    let told = told_in(rt, alloc, program.3, &context);
    drop(context);
    told
}

type Surroundings = Context<SomeFiles, NoopHttpSend, OsEnv, Login>;

fn told_in(
    rt: &impl Abort,
    alloc: Global,
    profile: Option<&str>,
    context: &Surroundings,
) -> String {
    let provider = match profile {
        Some(name) => ProfileProcessProvider::of_profile(text_of(rt, alloc, name.as_bytes())),
        None => ProfileProcessProvider::new(),
    };
    let told = answered(rt, alloc, &provider, context);
    drop(provider);
    told
}
