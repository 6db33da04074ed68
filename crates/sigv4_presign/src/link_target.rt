//! The parts of a target that a link is made of, beside its authority and its path.
ghost use Rattle.std.specs.Prelude.{◌≡◌, codes, unwrap_or};
ghost use Rattle.http_uri.specs.Uri.{uri_scheme};
ghost use Rattle.sign_request.specs.PlainTarget.{plain_target};
ghost use Rattle.sigv4_presign.specs.PresignedLink.{raw_query};

use http_uri::Uri;

/// The scheme, or `http`.
pub(crate) fn scheme_of(uri: &Uri) -> &str
    ensures { result.now ≡ unwrap_or (uri_scheme uri.now) (codes "http") }
{
    uri.scheme_str().unwrap_or("http")
}

/// The query as it is spelled, or the empty text.
pub(crate) fn query_of(uri: &Uri) -> &str
    ensures { result.now ≡ raw_query (plain_target uri.now) }
{
    uri.query().unwrap_or("")
}
