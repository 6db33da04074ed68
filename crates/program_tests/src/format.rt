//! Debug forms of the items of a script and of `grant`, which show nothing of a head; and moments that no
//! script has, as they are written. That lines are read so is proved, and whole scripts are rows of
//! `command_rows`.
use sign_base::Timestamp;
use signctl_format::{ScriptCredential, ScriptVersion, push_final, read_line};
use signctl_grant::read_grant_line;
use std::alloc::Global;
use std::fmt::Debug;
use std::process::Abort;

/// Lines of a script, and the debug forms of what they spell.
static SCRIPT: [(&str, &str); 12] = [
    ("# poll 0 1 5", "Silent"),
    ("cache chain 4294967295", "Cache(Chain(4294967295))"),
    ("handle 0 now", "Handle { cache: 0, rule: Now }"),
    (
        "begin 0 1 5.5 GET https://e.x/a 1.1 x-original:v",
        r#"Event(ScriptEvent { event: Begin { call: CallId { handle: 0, number: 1 }, head: Head(***), expires_in: Some(5.5s) } })"#,
    ),
    (
        "poll 0 1 253402207200.999999999",
        "Event(ScriptEvent { event: Poll { call: CallId { handle: 0, number: 1 }, now: Timestamp { nanos: 253402207200999999999 } } })",
    ),
    (
        "found 0 1 501 7 900 1000 600",
        "Event(ScriptEvent { event: Provided { call: CallId { handle: 0, number: 1 }, now: Timestamp { nanos: 501000000000 }, answer: Found(ScriptCredential { generation: 7, fresh: Timestamp { nanos: 900000000000 }, expires: Timestamp { nanos: 1000000000000 }, required: Timestamp { nanos: 600000000000 } }) } })",
    ),
    (
        "missing 0 1 0",
        "Event(ScriptEvent { event: Provided { call: CallId { handle: 0, number: 1 }, now: Timestamp { nanos: 0 }, answer: Missing } })",
    ),
    (
        "failed 0 1 5 42",
        "Event(ScriptEvent { event: Provided { call: CallId { handle: 0, number: 1 }, now: Timestamp { nanos: 5000000000 }, answer: Failed(42) } })",
    ),
    (
        "accept 0 1 GET https://bucket.s3.amazonaws.com/key?x=%2F 1.1 date:Tue,%2001%20Mar%202022%2008:12:34%20GMT x-empty:",
        r#"Event(ScriptEvent { event: Signed { call: CallId { handle: 0, number: 1 }, answer: Accepted(Head(***)) } })"#,
    ),
    (
        "accept 0 1 GET / 3 percent:%25 all:%00%0A%7F%80%FF a:::",
        r#"Event(ScriptEvent { event: Signed { call: CallId { handle: 0, number: 1 }, answer: Accepted(Head(***)) } })"#,
    ),
    (
        "reject 0 1 9",
        "Event(ScriptEvent { event: Signed { call: CallId { handle: 0, number: 1 }, answer: Failed(9) } })",
    ),
    (
        "cancel 0 1",
        "Event(ScriptEvent { event: Cancel { call: CallId { handle: 0, number: 1 } } })",
    ),
];

/// Those of lines that `grant` alone has.
static GRANT: [(&str, &str); 3] = [
    (
        "begin 0 1 60",
        "Event(GrantScriptEvent { event: Begin { call: CallId { handle: 0, number: 1 }, expires_in: Some(60s) } })",
    ),
    (
        "made 0 1 5 7 900 1000 600",
        "Event(GrantScriptEvent { event: Granted { call: CallId { handle: 0, number: 1 }, now: Timestamp { nanos: 5000000000 }, answer: Made(ScriptCredential { generation: 7, fresh: Timestamp { nanos: 900000000000 }, expires: Timestamp { nanos: 1000000000000 }, required: Timestamp { nanos: 600000000000 } }) } })",
    ),
    (
        "fail 0 1 9",
        "Event(GrantScriptEvent { event: Granted { call: CallId { handle: 0, number: 1 }, now: Timestamp { nanos: 0 }, answer: Failed(9) } })",
    ),
];

/// Whether an item shows this.
fn shows(rt: &impl Abort, alloc: Global, item: &impl Debug, wanted: &str) {
    let text = format!(in alloc; "{item:?}").expect(rt, "memory");
    assert!(rt; text.as_str() == wanted, "{text}\nis not\n{wanted}");
}

fn is_shown(rt: &impl Abort, alloc: Global, line: &str, wanted: &str) {
    match read_line(alloc, ScriptVersion::Two, line.as_bytes()) {
        Ok(item) => {
            shows(rt, alloc, &item, wanted);
            drop(item);
        }
        Err(_) => assert!(rt; false, "{line}"),
    }
}

#[test]
fn items_of_scripts_show_no_header(rt: HostRuntime) {
    for (line, wanted) in &SCRIPT {
        is_shown(&rt, rt.alloc(), *line, *wanted);
    }
}

#[test]
fn items_of_grant_show_themselves(rt: HostRuntime) {
    for (line, wanted) in &GRANT {
        let item = read_grant_line(line.as_bytes());
        shows(&rt, rt.alloc(), &item.expect(&rt, *wanted), *wanted);
    }
}

/// Whether this is written of a cache whose credential has one moment thrice.
fn is_written(rt: &impl Abort, alloc: Global, version: ScriptVersion, nanos: i128, wanted: &str) {
    let moment = Timestamp::from_nanos(nanos).expect(rt, wanted);
    let credential = ScriptCredential {
        generation: 7,
        fresh: moment,
        expires: moment,
        required: moment,
    };
    let mut text = Vec::new(alloc);
    push_final(&mut text, version, 0, Some(credential)).expect(rt, wanted);
    assert!(rt; text.as_slice() == wanted.as_bytes(), "{wanted}");
}

/// Nanoseconds since 1970, and how they are written in each version.
static MOMENTS: [(i128, &str, &str); 4] = [
    (
        600_010_203_000,
        "final 0 7 600 600 600",
        "final 0 7 600.010203 600.010203 600.010203",
    ),
    (
        253_402_207_200_999_999_999,
        "final 0 7 253402207200 253402207200 253402207200",
        "final 0 7 253402207200.999999999 253402207200.999999999 253402207200.999999999",
    ),
    (
        -1_500_000_000,
        "final 0 7 -1 -1 -1",
        "final 0 7 -1.5 -1.5 -1.5",
    ),
    (-500_000_000, "final 0 7 0 0 0", "final 0 7 -0.5 -0.5 -0.5"),
];

#[test]
fn moments_are_written_in_each_version(rt: HostRuntime) {
    for (nanos, one, two) in &MOMENTS {
        is_written(&rt, rt.alloc(), ScriptVersion::One, *nanos, *one);
        is_written(&rt, rt.alloc(), ScriptVersion::Two, *nanos, *two);
    }
}
