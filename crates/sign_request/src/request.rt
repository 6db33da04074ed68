//! The view of a request head for a service that signs it, with the headers that the service stages.
ghost use Rattle.std.specs.Prelude.{◌≡◌, ◌↔◌, ◌⊎◌, IfOk, IfErr, OnOk, OnErr, IsTrue};
ghost use Rattle.std.specs.Prelude.{IsSome, None, Some, codes, string_bytes};
ghost use Rattle.std.specs.Fmt.{WritesOnOk, WritesStyledOnOk};
ghost use Rattle.http_uri.specs.Uri.{uri_authority};
ghost use Rattle.sign_request.specs.Query.{text_pairs};
ghost use Rattle.sign_request.specs.Refusal.{IsOutOfMemory, RefusedFor, no_authority, view_modified};
ghost use Rattle.sign_request.specs.Target.{target_scheme, target_path, target_pairs};

use crate::query::same_pairs;
use crate::refusal::refusal;
use crate::target::{TargetView, is_scheme_of, pairs_of, path_of, target_view};
use http::Method;
use http::header::HeaderMap;
use http::request::Parts;
use http::uri::{Authority, Scheme, Uri};
use sign_base::{Error, NoMemory};
use std::alloc::Global;
use std::fmt;
use std::time::Duration;

const NO_AUTHORITY: &str = "request without authority is invalid for signing";

const VIEW_MODIFIED: &str = "signing request method or URI working view was modified";

/// Where a service puts its authentication. Which place applies is the service's choice.
#[derive(Clone, Copy, PartialEq, Eq)]
pub enum SigningMethod {
    /// In a header.
    Header,
    /// In the query, for a link that is good for this long.
    Query(Duration),
}

/// The view of a request head that a service signs, and the headers that it stages.
///
/// Method, scheme, authority, path and query are there to be read. A service makes its canonical
/// texts of them, and a new URI of the head's own one; `apply` refuses a view in which one of the
/// five was changed, and commits the headers alone.
///
/// `Debug` shows nothing of it: a query or a header may have a secret. To log a request, print the
/// parts of it that may be known.
#[derive(Drop)]
pub struct SigningRequest {
    pub method: Method,
    /// `http` where the head names none.
    pub scheme: Scheme,
    pub authority: Authority,
    /// The path as the head spells it, percent escapes and all; `/` where it names none.
    pub path: String,
    /// The pairs of the query in their order, each side decoded once. `+` stays.
    pub query: Vec<(String, String)>,
    /// The headers that `apply` commits.
    pub headers: HeaderMap,
}

impl fmt::Debug for SigningRequest {
    ghost debug_output = { λ _. Some (codes "SigningRequest(***)") };

    fn fmt<W: fmt::Write>(&self, f: &mut fmt::Formatter<W>) -> fmt::Result
        ensures writes { WritesOnOk W.write_str_gives f.old result (codes "SigningRequest(***)") f.new }
        ensures styled { WritesStyledOnOk W.write_str_gives f.old result (codes "SigningRequest(***)") f.new }
    {
        f.write_str("SigningRequest(***)")
    }
}

impl SigningRequest {
    ghost use Rattle.sign_request.specs.Request.{IsViewOf, StillFits};

    /// The view of a head.
    ///
    /// `RequestInvalid` where the head's URI has no authority.
    pub fn build(alloc: Global, parts: &Parts) -> Result<SigningRequest, Error>
        ensures ok { IfOk result (IsViewOf parts.now) }
        ensures err { IfErr result (λ e. IsOutOfMemory e
            ⊎ RefusedFor no_authority (uri_authority parts.now.uri ≡ None) e) }
    {
        let Some(authority) = parts.uri.authority() else {
            return Err(refusal(alloc, NO_AUTHORITY));
        };
        Ok(SigningRequest::view(alloc, parts, authority)?)
    }

    /// Answers what `build` does, and takes the head, so that method and headers are not copied.
    pub(crate) fn from_parts(alloc: Global, parts: Parts) -> Result<SigningRequest, Error>
        ensures ok { IfOk result (IsViewOf parts) }
        ensures err { IfErr result (λ e. IsOutOfMemory e
            ⊎ RefusedFor no_authority (uri_authority parts.uri ≡ None) e) }
    {
        match named_target(alloc, &parts.uri) {
            Ok(target) => Ok(SigningRequest::new(parts.method, target, parts.headers)),
            Err(e) => {
                drop(parts);
                Err(e)
            }
        }
    }

    fn view(
        alloc: Global,
        parts: &Parts,
        authority: &Authority,
    ) -> Result<SigningRequest, NoMemory<()>>
        requires { uri_authority parts.now.uri ≡ Some authority.now }
        ensures { IfOk result (IsViewOf parts.now) }
    {
        let target = target_view(alloc, &parts.uri, authority)?;
        match copies_of(parts) {
            Ok((method, headers)) => Ok(SigningRequest::new(method, target, headers)),
            Err(e) => {
                drop(target);
                Err(e)
            }
        }
    }

    fn new(method: Method, target: TargetView, headers: HeaderMap) -> SigningRequest
        ensures { result ≡ record {
          method = method;
          scheme = target.scheme;
          authority = target.authority;
          path = target.path;
          query = target.query;
          headers = headers;
        } }
    {
        SigningRequest {
            method,
            scheme: target.scheme,
            authority: target.authority,
            path: target.path,
            query: target.query,
            headers,
        }
    }

    /// Commits the staged headers to the head that this is a view of.
    ///
    /// `RequestInvalid` where the head has no authority, or where its method, scheme, authority,
    /// path or query is no longer what the view shows. The case of letters does not count in the
    /// scheme and the authority, nor the spelling of the query where it reads alike. A refusal
    /// leaves the head as it was.
    pub fn apply(self, parts: &mut Parts) -> Result<(), Error>
        ensures fits { OnOk result (StillFits parts.old self) }
        ensures ok { OnOk result (parts.new ≡ record parts.old { headers = self.headers }) }
        ensures unchanged { OnErr result (parts.new ≡ parts.old) }
        ensures err { IfErr result (λ e. IsOutOfMemory e
            ⊎ (RefusedFor no_authority (uri_authority parts.old.uri ≡ None) e
            ⊎ RefusedFor view_modified (IsSome (uri_authority parts.old.uri)
            × ¬ (StillFits parts.old self)) e)) }
    {
        match self.check(parts) {
            Ok(()) => {
                parts.headers = self.into_headers();
                Ok(())
            }
            Err(e) => {
                drop(self);
                Err(e)
            }
        }
    }

    /// Fails where this is no longer a view of the head.
    fn check(&self, parts: &Parts) -> Result<(), Error>
        ensures fits { OnOk result (StillFits parts.now self.now) }
        ensures err { IfErr result (λ e. IsOutOfMemory e
            ⊎ (RefusedFor no_authority (uri_authority parts.now.uri ≡ None) e
            ⊎ RefusedFor view_modified (IsSome (uri_authority parts.now.uri)
            × ¬ (StillFits parts.now self.now)) e)) }
    {
        let alloc = *self.query.allocator();
        let Some(authority) = parts.uri.authority() else {
            return Err(refusal(alloc, NO_AUTHORITY));
        };
        if self.still_fits(parts, authority)? {
            Ok(())
        } else {
            Err(refusal(alloc, VIEW_MODIFIED))
        }
    }

    fn into_headers(self) -> HeaderMap
        ensures { result ≡ self.headers }
    {
        self.headers
    }

    pub(crate) fn into_query(self) -> Vec<(String, String)>
        ensures { result ≡ self.query }
    {
        self.query
    }

    /// Whether the head is still what the view shows, but for its headers.
    fn still_fits(&self, parts: &Parts, authority: &Authority) -> Result<bool, NoMemory<()>>
        requires { uri_authority parts.now.uri ≡ Some authority.now }
        ensures { IfOk result (λ fits. IsTrue fits ↔ StillFits parts.now self.now) }
    {
        if self.method != parts.method
            || !is_scheme_of(&self.scheme, &parts.uri)
            || !self.authority.eq_str(authority.as_str())
            || self.path.as_str() != path_of(&parts.uri)
        {
            return Ok(false);
        }
        let pairs = pairs_of(*self.query.allocator(), &parts.uri)?;
        Ok(same_pairs(&self.query, &pairs))
    }
}

/// The view of a target, which has to name an authority.
fn named_target(alloc: Global, uri: &Uri) -> Result<TargetView, Error>
    ensures authority { IfOk result (λ view. Some view.authority ≡ uri_authority uri.now) }
    ensures scheme { IfOk result (λ view. view.scheme ≡ target_scheme uri.now) }
    ensures path { IfOk result (λ view. string_bytes view.path ≡ target_path uri.now) }
    ensures query { IfOk result (λ view. text_pairs view.query.items ≡ target_pairs uri.now) }
    ensures err { IfErr result (λ e. IsOutOfMemory e
        ⊎ RefusedFor no_authority (uri_authority uri.now ≡ None) e) }
{
    let Some(authority) = uri.authority() else {
        return Err(refusal(alloc, NO_AUTHORITY));
    };
    Ok(target_view(alloc, uri, authority)?)
}

/// What a view copies of a head.
fn copies_of(parts: &Parts) -> Result<(Method, HeaderMap), NoMemory<()>>
    ensures method { IfOk result (λ copies. copies.0 ≡ parts.now.method) }
    ensures headers { IfOk result (λ copies. copies.1 ≡ parts.now.headers) }
{
    let method = parts.method.clone()?;
    match parts.headers.clone() {
        Ok(headers) => Ok((method, headers)),
        Err(_) => {
            drop(method);
            Err(NoMemory { back: () })
        }
    }
}
