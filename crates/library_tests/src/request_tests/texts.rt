//! Pairs, sorted and joined.
use crate::pairs::{Pairs, owned};
use crate::told::{Question, are_answered};
use sign_request::SigningRequest;
use std::alloc::Global;

/// Pairs, and how they are joined.
#[derive(Clone, Copy)]
struct Sorted(Pairs<'static>, Joined);

#[derive(Clone, Copy)]
enum Joined {
    Query,
    Headers,
    DecodedQuery,
}

impl Question for Sorted {
    fn answer(&self, alloc: Global) -> Option<String> {
        let pairs = owned(alloc, self.0)?;
        match self.1 {
            Joined::Query => SigningRequest::query_to_string(alloc, pairs, "=", "&").ok(),
            Joined::Headers => SigningRequest::header_to_string(alloc, pairs, ":", "\n").ok(),
            Joined::DecodedQuery => {
                SigningRequest::query_to_percent_decoded_string(alloc, pairs, "=", "&").ok()
            }
        }
    }
}

const PLAIN: Pairs<'static> = &[("c", "d"), ("e", ""), ("a", "b")];

const ESCAPED: Pairs<'static> = &[("b%2F", "%2F"), ("a", "x")];

static JOINED: [(Sorted, &str); 3] = [
    (Sorted(PLAIN, Joined::Query), "a=b&c=d&e"),
    (Sorted(PLAIN, Joined::Headers), "a:b\nc:d\ne:"),
    (Sorted(ESCAPED, Joined::DecodedQuery), "a=x&b%2F=/"),
];

#[test]
fn pairs_are_sorted_and_joined(rt: HostRuntime) {
    are_answered(&rt, rt.alloc(), &JOINED);
}
