//! Moments: printed in four formats, read, and refused.
use crate::told::{Question, are_answered, is_told, shown};
use sign_base::{Error, Timestamp};
use sign_time::{FormatMoment, ReadMoment};
use std::alloc::Global;
use std::process::Abort;

/// Seconds since 1970, and the four texts of the moment.
static MOMENTS: [(i64, [&str; 4]); 12] = [
    (
        1_646_122_354,
        [
            "20220301",
            "20220301T081234Z",
            "2022-03-01T08:12:34Z",
            "Tue, 01 Mar 2022 08:12:34 GMT",
        ],
    ),
    (
        784_111_777,
        [
            "19941106",
            "19941106T084937Z",
            "1994-11-06T08:49:37Z",
            "Sun, 06 Nov 1994 08:49:37 GMT",
        ],
    ),
    (
        0,
        [
            "19700101",
            "19700101T000000Z",
            "1970-01-01T00:00:00Z",
            "Thu, 01 Jan 1970 00:00:00 GMT",
        ],
    ),
    (
        -1,
        [
            "19691231",
            "19691231T235959Z",
            "1969-12-31T23:59:59Z",
            "Wed, 31 Dec 1969 23:59:59 GMT",
        ],
    ),
    (
        951_782_400,
        [
            "20000229",
            "20000229T000000Z",
            "2000-02-29T00:00:00Z",
            "Tue, 29 Feb 2000 00:00:00 GMT",
        ],
    ),
    (
        1_709_164_800,
        [
            "20240229",
            "20240229T000000Z",
            "2024-02-29T00:00:00Z",
            "Thu, 29 Feb 2024 00:00:00 GMT",
        ],
    ),
    (
        -2_203_891_201,
        [
            "19000228",
            "19000228T235959Z",
            "1900-02-28T23:59:59Z",
            "Wed, 28 Feb 1900 23:59:59 GMT",
        ],
    ),
    (
        -2_203_891_200,
        [
            "19000301",
            "19000301T000000Z",
            "1900-03-01T00:00:00Z",
            "Thu, 01 Mar 1900 00:00:00 GMT",
        ],
    ),
    (
        -62_135_596_800,
        [
            "00010101",
            "00010101T000000Z",
            "0001-01-01T00:00:00Z",
            "Mon, 01 Jan 0001 00:00:00 GMT",
        ],
    ),
    (
        -62_167_219_200,
        [
            "00000101",
            "00000101T000000Z",
            "0000-01-01T00:00:00Z",
            "Sat, 01 Jan 0000 00:00:00 GMT",
        ],
    ),
    (
        253_402_207_200,
        [
            "99991230",
            "99991230T220000Z",
            "9999-12-30T22:00:00Z",
            "Thu, 30 Dec 9999 22:00:00 GMT",
        ],
    ),
    (
        -377_705_023_201,
        [
            "-99990102",
            "-99990102T015959Z",
            "-9999-01-02T01:59:59Z",
            "Tue, 02 Jan -9999 01:59:59 GMT",
        ],
    ),
];

/// The text of a moment in one of the four formats.
fn formatted(alloc: Global, moment: Timestamp, format: usize) -> Option<String> {
    let text = match format {
        0 => moment.format_date(alloc),
        1 => moment.format_iso8601(alloc),
        2 => moment.format_rfc3339_zulu(alloc),
        _ => moment.format_http_date(alloc),
    };
    text.ok()
}

/// Whether these are the four texts of a moment.
fn prints_as(rt: &impl Abort, alloc: Global, row: &(i64, [&str; 4])) {
    let moment = Timestamp::from_second(alloc, row.0).expect(rt, "a moment");
    for format in 0..4 {
        is_told(rt, formatted(alloc, moment, format), row.1[format]);
    }
}

#[test]
fn moments_print_in_four_formats(rt: HostRuntime) {
    for row in &MOMENTS {
        prints_as(&rt, rt.alloc(), row);
    }
}

/// What a moment is read from.
#[derive(Clone, Copy)]
enum From {
    Second(i64),
    Millisecond(i64),
    Rfc3339(&'static str),
    Rfc2822(&'static str),
    Civil(&'static str),
}

fn read(alloc: Global, from: From) -> Result<Timestamp, Error> {
    match from {
        From::Second(second) => Timestamp::from_second(alloc, second),
        From::Millisecond(millisecond) => Timestamp::from_millisecond(alloc, millisecond),
        From::Rfc3339(text) => Timestamp::parse(alloc, text),
        From::Rfc2822(text) => Timestamp::parse_rfc2822(alloc, text),
        From::Civil(text) => Timestamp::parse_datetime_utc(alloc, text),
    }
}

/// What is read, and the moment or the refusal.
static READ: [(From, &str); 23] = [
    (
        From::Rfc3339("2022-03-01T08:12:34Z"),
        "Ok(Timestamp { nanos: 1646122354000000000 })",
    ),
    (
        From::Rfc3339("2022-03-01T08:12:34+00:00"),
        "Ok(Timestamp { nanos: 1646122354000000000 })",
    ),
    (
        From::Rfc3339("2022-03-01T08:12:34.00+00:00"),
        "Ok(Timestamp { nanos: 1646122354000000000 })",
    ),
    (
        From::Rfc3339("2022-03-01T10:12:34+02:00[Europe/Paris]"),
        "Ok(Timestamp { nanos: 1646122354000000000 })",
    ),
    (
        From::Rfc3339("2016-12-31T23:59:60Z"),
        "Ok(Timestamp { nanos: 1483228799000000000 })",
    ),
    (
        From::Rfc3339("-009999-01-02T01:59:59Z"),
        "Ok(Timestamp { nanos: -377705023201000000000 })",
    ),
    (
        From::Rfc3339("1969-12-31T23:59:58.25Z"),
        "Ok(Timestamp { nanos: -1750000000 })",
    ),
    (
        From::Rfc2822("Sat, 13 Jul 2024 15:09:59 -0400"),
        "Ok(Timestamp { nanos: 1720897799000000000 })",
    ),
    (
        From::Rfc2822("Mon, 15 Aug 2022 16:50:12 GMT"),
        "Ok(Timestamp { nanos: 1660582212000000000 })",
    ),
    (
        From::Civil("2023-10-31 21:59:10.000000"),
        "Ok(Timestamp { nanos: 1698789550000000000 })",
    ),
    (
        From::Millisecond(253_402_207_200_999),
        "Ok(Timestamp { nanos: 253402207200999000000 })",
    ),
    (
        From::Second(-377_705_023_202),
        r#"Err(Error { kind: Unexpected, message: "convert '-377705023202' seconds into timestamp failed", retryable: false })"#,
    ),
    (
        From::Second(253_402_207_201),
        r#"Err(Error { kind: Unexpected, message: "convert '253402207201' seconds into timestamp failed", retryable: false })"#,
    ),
    (
        From::Second(i64::MIN),
        r#"Err(Error { kind: Unexpected, message: "convert '-9223372036854775808' seconds into timestamp failed", retryable: false })"#,
    ),
    (
        From::Millisecond(253_402_207_201_000),
        r#"Err(Error { kind: Unexpected, message: "convert '253402207201000' milliseconds into timestamp failed", retryable: false })"#,
    ),
    (
        From::Rfc3339("x"),
        r#"Err(Error { kind: Unexpected, message: "parse 'x' into timestamp failed", retryable: false })"#,
    ),
    (
        From::Rfc3339(""),
        r#"Err(Error { kind: Unexpected, message: "parse '' into timestamp failed", retryable: false })"#,
    ),
    (
        From::Rfc3339("-009999-01-01T00:00:00Z"),
        r#"Err(Error { kind: Unexpected, message: "parse '-009999-01-01T00:00:00Z' into timestamp failed", retryable: false })"#,
    ),
    (
        From::Rfc3339("2022-02-29T00:00:00Z"),
        r#"Err(Error { kind: Unexpected, message: "parse '2022-02-29T00:00:00Z' into timestamp failed", retryable: false })"#,
    ),
    (
        From::Rfc3339("2022-03-01T08:12:34"),
        r#"Err(Error { kind: Unexpected, message: "parse '2022-03-01T08:12:34' into timestamp failed", retryable: false })"#,
    ),
    (
        From::Rfc2822("Sun, 13 Jul 2024 15:09:59 -0400"),
        r#"Err(Error { kind: Unexpected, message: "parse 'Sun, 13 Jul 2024 15:09:59 -0400' into rfc2822 failed", retryable: false })"#,
    ),
    (
        From::Civil("x"),
        r#"Err(Error { kind: Unexpected, message: "parse 'x' into datetime failed", retryable: false })"#,
    ),
    (
        From::Civil("9999-12-31T23:59:59"),
        r#"Err(Error { kind: Unexpected, message: "convert '9999-12-31T23:59:59' into timestamp failed", retryable: false })"#,
    ),
];

impl Question for From {
    fn answer(&self, alloc: Global) -> Option<String> {
        shown(alloc, &read(alloc, *self))
    }
}

#[test]
fn moments_are_read_or_refused(rt: HostRuntime) {
    are_answered(&rt, rt.alloc(), &READ);
}
