//! Requests that botocore signs otherwise than `sign_head` and `presign`, and such beside them that all sign
//! alike, as docs/GUIDE.md tells. Our values are those of Python's `hmac`, computed from AWS's rules; botocore's
//! are those of its release 1.43.11.
use crate::everyday::{linked, signed};
use crate::suite::{Asked, object, plain, request_of};
use crate::told::is_text;
use std::alloc::Global;
use std::process::Abort;

/// URI, service, the signature in the head or the cause why there is none, and botocore's signature, or that
/// it is alike.
static HEADS: [(&str, &[u8], &str, &str); 13] = [
    // A `+`, which botocore leaves in the query as it is.
    (
        "https://example.amazonaws.com/?a=b+c",
        b"service",
        "d7eba43676d0fb2680ba89fcfc66a9c5056820bf0a5b2ead7d3db03642ab11c3",
        "a96c8d9dfd8dfe317da8aa74c6b504833f1db72634ec5d670757911ed06d919e",
    ),
    (
        "https://example.amazonaws.com/?a=b%2Bc",
        b"service",
        "d7eba43676d0fb2680ba89fcfc66a9c5056820bf0a5b2ead7d3db03642ab11c3",
        "alike",
    ),
    (
        "https://example.amazonaws.com/?a=b%20c",
        b"service",
        "2e33241dd0ebf9f6efed1ccaa6a9b4cf90da6f22f2ba3ce40589aa681b76412c",
        "alike",
    ),
    // The host as it is spelled; botocore's is that of the suite's request.
    (
        "https://example.amazonaws.com:443/",
        b"service",
        "fd5a2ac302647754a4f7a0b30d8871340c1101a19642ebba6ef8c5e72d4a0253",
        "5fa00fa31553b73ebf1942676e86291e8372ff2a2260956d9b8aae1d763fbf31",
    ),
    (
        "https://EXAMPLE.amazonaws.com/",
        b"service",
        "170838e427b359b22ccdc246e8ed0938100f3dbf5d7f7f54c49c382f7266c229",
        "5fa00fa31553b73ebf1942676e86291e8372ff2a2260956d9b8aae1d763fbf31",
    ),
    // Segments that AWS drops where it encodes twice.
    (
        "https://example.amazonaws.com/a/../b",
        b"service",
        "fd9690a31d909ddadc5771ee3f261e52f2cb37cb59898576f9f31723430d95d2",
        "d79eb99afe136ad265b63a5249b1f6a245be1ebc34592d1c9b2affe73cb6b6e7",
    ),
    (
        "https://example.amazonaws.com/a//b",
        b"service",
        "331592e3713778217a230767215764ffdd5e9b1f1e41e1cf411155abcb5ca53a",
        "a3ef7f40b9d3367140c9a7b8049aaddc77c79d96e9cf97b49a21702dfe72eaf5",
    ),
    (
        "https://example.amazonaws.com/a//b",
        b"s3",
        "beada6f546bafe142d4f420f78dca097039c7371b02b7e12e72362d5c2e419f1",
        "alike",
    ),
    // Escapes, which AWS encodes once more but for S3.
    (
        "https://example.amazonaws.com/a%20b",
        b"service",
        "Path",
        "08c33fd523b5dc18699a2c38863929f12203a282c033d442d45b59a096458aa6",
    ),
    (
        "https://example.amazonaws.com/a%20b",
        b"s3",
        "e106a250d9924571bd826689f824bcf77f59f48f392087791f97bde0baeff06e",
        "alike",
    ),
    (
        "https://example.amazonaws.com/a:b@c",
        b"service",
        "57f6e9b66f9382f699e8dea99ecde528229e72799f5b72b7dc6116a550076aed",
        "alike",
    ),
    (
        "https://example.amazonaws.com/a%2Fb",
        b"s3",
        "1ca5a2bdaa41a47dc8bf410f0932557dc704e8d4445f33cfc6544c948daa2bd5",
        "alike",
    ),
    // A `+` of a path, which botocore leaves as it is.
    (
        "https://example.amazonaws.com/a+b",
        b"s3",
        "bcda3cc8d77c283d5aba126807a6d0e187953fd23e70e4189f9d9b97afad0a11",
        "a07453a2908c8468e376856c11744bd07c9bc5f8de9f8bcb9268c30aa6493430",
    ),
];

#[test]
fn heads_are_read_otherwise_or_alike(rt: HostRuntime) {
    for (uri, service, wanted, botocore) in &HEADS {
        let told = head_told(&rt, rt.alloc(), *uri, *service);
        is_other(&rt, told, *wanted, *botocore);
    }
}

fn head_told(rt: &impl Abort, alloc: Global, uri: &str, service: &[u8]) -> String {
    let asked = Asked {
        service,
        ..plain(uri)
    };
    let by = request_of(rt, alloc, &asked);
    let told = signed(rt, alloc, &by);
    drop(by);
    told
}

/// URI, the link's signature with what its check finds, and botocore's signature, or that it is alike.
static LINKS: [(&str, &str, &str); 7] = [
    // The host of a link is signed as it is spelled, and botocore's as agents send it.
    (
        "https://examplebucket.s3.amazonaws.com:443/test.txt",
        "bc2c848cc8a13f5c872c5746f62d22aa133562cbf22502591ceb422525a06483 Valid",
        "aeeed9bbccd4d02ee5c0109b86d86835f995330da4c265957d157751f604d404 Valid",
    ),
    (
        "http://examplebucket.s3.amazonaws.com:80/test.txt",
        "c62b9649205d7d2df0331a9da57cee23e4bd0a37aabdf8934456f543855d8c9d Valid",
        "aeeed9bbccd4d02ee5c0109b86d86835f995330da4c265957d157751f604d404 Valid",
    ),
    (
        "https://examplebucket.s3.amazonaws.com:80/test.txt",
        "c62b9649205d7d2df0331a9da57cee23e4bd0a37aabdf8934456f543855d8c9d Valid",
        "alike",
    ),
    (
        "https://ExampleBucket.s3.amazonaws.com/test.txt",
        "9b53feb9e015748a4e793323301f2b23dfaec43d48bf7ac7ba99e9906d2afd96 Valid",
        "aeeed9bbccd4d02ee5c0109b86d86835f995330da4c265957d157751f604d404 Valid",
    ),
    // A `+` is a plus sign, and to botocore the space of a form.
    (
        "https://examplebucket.s3.amazonaws.com/test.txt?prefix=a+b",
        "898ca8a50cef819b513b31d3e1c92dbcd48e8a5e88fbc99984fa8c9c56eab3a5 Valid",
        "ebb80a28c43990c4767337daab38de1f792a12fa95dce25cd58feaa80873c4b3 Valid",
    ),
    (
        "https://examplebucket.s3.amazonaws.com/test.txt?prefix=a%2Bb",
        "898ca8a50cef819b513b31d3e1c92dbcd48e8a5e88fbc99984fa8c9c56eab3a5 Valid",
        "alike",
    ),
    (
        "https://examplebucket.s3.amazonaws.com/test.txt?prefix=a%20b",
        "ebb80a28c43990c4767337daab38de1f792a12fa95dce25cd58feaa80873c4b3 Valid",
        "alike",
    ),
];

#[test]
fn links_are_read_otherwise_or_alike(rt: HostRuntime) {
    for (uri, wanted, botocore) in &LINKS {
        is_other(&rt, link_told(&rt, rt.alloc(), *uri), *wanted, *botocore);
    }
}

fn link_told(rt: &impl Abort, alloc: Global, uri: &str) -> String {
    let by = request_of(rt, alloc, &object(uri));
    let told = linked(rt, alloc, &by, 86_400);
    drop(by);
    told
}

/// This was told, and nothing that botocore has otherwise.
fn is_other(rt: &impl Abort, told: String, wanted: &str, botocore: &str) {
    assert!(rt; told.as_str() != botocore, "{told}");
    is_text(rt, told, wanted);
}
