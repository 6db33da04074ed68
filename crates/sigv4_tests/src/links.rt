//! Links at moments that no line has, with fractions and before 1970, and the longest link. The values are
//! published, or those of Python's `hmac`.
use crate::suite::{PUBLISHED, Suite, moment, published, request_to};
use crate::told::{is_text, str_of, text_of, word};
use sigv4_presign::presign;
use std::alloc::Global;
use std::process::Abort;

/// The signature of the published link.
const SIGNED: &str = "aeeed9bbccd4d02ee5c0109b86d86835f995330da4c265957d157751f604d404";

/// Of the link that is made in the last second before 1970.
const LAST_OF_1969: &str = "f45c3ca301c67d5d3912d9804fb4e22266b8f3b6f2da42bbe9813632bfa9167b";

/// The last moment before the year 0.
const BEFORE_YEAR_0: i128 = -62_167_219_200_000_000_001;

/// Moments, and the signature of the link that is made then, or why there is none.
static MADE: [(i128, &str); 5] = [
    (PUBLISHED, SIGNED),
    (PUBLISHED + 999_999_999, SIGNED),
    (-1, LAST_OF_1969),
    (-1_000_000_000, LAST_OF_1969),
    (BEFORE_YEAR_0, "Moment"),
];

#[test]
fn a_link_is_made_for_the_whole_second_before(rt: HostRuntime) {
    let by = published(&rt, rt.alloc());
    for (nanos, wanted) in &MADE {
        is_text(&rt, made_at(&rt, rt.alloc(), &by, *nanos), *wanted);
    }
    drop(by);
}

/// The signature at the end of a link for a day that is made at this moment, or why there is none.
fn made_at(rt: &impl Abort, alloc: Global, by: &Suite, nanos: i128) -> String {
    let now = moment(rt, nanos);
    match presign(alloc, &by.head, &by.credential, &by.scope, 86_400, now) {
        Ok(link) => {
            let told = last_of(rt, alloc, link.uri.as_slice());
            drop(link);
            told
        }
        Err(why) => word(rt, alloc, why),
    }
}

/// What stands behind the last `=`.
pub(crate) fn last_of(rt: &impl Abort, alloc: Global, text: &[u8]) -> String {
    text_of(rt, alloc, last_part(rt, text).as_bytes())
}

pub(crate) fn last_part<'a>(rt: &impl Abort, text: &'a [u8]) -> &'a str {
    let (_, signature) = str_of(rt, text).rsplit_once('=').expect(rt, "a pair");
    signature
}

/// The longest path whose link `http` takes: with the link's other parts it has 65,534 bytes.
const LONGEST: usize = 65_252;

/// The signature of its link.
const LONGEST_SIGNED: &str = "2a10b1bd2de44a2f3bab5263bf2ebae0e173fb40b8d8f8d6b4a467527b969210";

#[test]
fn a_link_has_at_most_65534_bytes(rt: HostRuntime) {
    is_text(&rt, long_link(&rt, rt.alloc(), LONGEST), LONGEST_SIGNED);
    is_text(&rt, long_link(&rt, rt.alloc(), LONGEST + 1), "Link");
}

/// What is told of the link to a path of so many bytes.
fn long_link(rt: &impl Abort, alloc: Global, bytes: usize) -> String {
    let uri = long_uri(rt, alloc, bytes);
    let by = request_to(rt, alloc, uri.as_str());
    drop(uri);
    let told = made_at(rt, alloc, &by, PUBLISHED);
    drop(by);
    told
}

fn long_uri(rt: &impl Abort, alloc: Global, bytes: usize) -> String {
    let path = "a".repeat(alloc, bytes).expect(rt, "memory");
    let uri = format!(in alloc; "https://h.example/{path}").expect(rt, "memory");
    drop(path);
    uri
}
