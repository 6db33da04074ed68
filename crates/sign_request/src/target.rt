//! Reading a request target, once for a view and again for the test that the view still fits.
ghost use Rattle.std.specs.Prelude.{◌≡◌, ◌↔◌, IfOk, IsTrue, Some, string_bytes};
ghost use Rattle.http_uri.specs.ByteClasses.{lowercase};
ghost use Rattle.http_uri.specs.Uri.{uri_authority};
ghost use Rattle.sign_request.specs.Query.{text_pairs};
ghost use Rattle.sign_request.specs.Target.{target_scheme, target_path, target_pairs};

use crate::query::read_query;
use http::uri::{Authority, Scheme, Uri};
use sign_base::NoMemory;
use std::alloc::{AllocError, Global};

/// What a view shows of a target.
#[derive(Drop)]
pub(crate) struct TargetView {
    pub(crate) scheme: Scheme,
    pub(crate) authority: Authority,
    pub(crate) path: String,
    pub(crate) query: Vec<(String, String)>,
}

/// The view of a target that names this authority.
pub(crate) fn target_view(
    alloc: Global,
    uri: &Uri,
    authority: &Authority,
) -> Result<TargetView, NoMemory<()>>
    requires { uri_authority uri.now ≡ Some authority.now }
    ensures scheme { IfOk result (λ view. view.scheme ≡ target_scheme uri.now) }
    ensures authority { IfOk result (λ view. Some view.authority ≡ uri_authority uri.now) }
    ensures path { IfOk result (λ view. string_bytes view.path ≡ target_path uri.now) }
    ensures query { IfOk result (λ view. text_pairs view.query.items ≡ target_pairs uri.now) }
{
    let (path, query) = texts_of(alloc, uri)?;
    match names_of(uri, authority) {
        Ok((scheme, authority)) => Ok(TargetView {
            scheme,
            authority,
            path,
            query,
        }),
        Err(_) => {
            drop(path);
            drop(query);
            Err(NoMemory { back: () })
        }
    }
}

/// Scheme and authority.
fn names_of(uri: &Uri, authority: &Authority) -> Result<(Scheme, Authority), AllocError>
    ensures scheme { IfOk result (λ names. names.0 ≡ target_scheme uri.now) }
    ensures authority { IfOk result (λ names. names.1 ≡ authority.now) }
{
    let scheme = scheme_of(uri)?;
    let authority = authority.clone()?;
    Ok((scheme, authority))
}

/// Path and pairs.
fn texts_of(alloc: Global, uri: &Uri) -> Result<(String, Vec<(String, String)>), AllocError>
    ensures path { IfOk result (λ texts. string_bytes texts.0 ≡ target_path uri.now) }
    ensures query { IfOk result (λ texts. text_pairs texts.1.items ≡ target_pairs uri.now) }
{
    let path = String::from_str(alloc, path_of(uri))?;
    let query = pairs_of(alloc, uri)?;
    Ok((path, query))
}

/// The scheme, or `http`.
pub(crate) fn scheme_of(uri: &Uri) -> Result<Scheme, AllocError>
    ensures { IfOk result (λ scheme. scheme ≡ target_scheme uri.now) }
{
    match uri.scheme() {
        Some(scheme) => scheme.clone(),
        None => Ok(Scheme::HTTP),
    }
}

/// Whether this is the scheme of the target, in any case.
pub(crate) fn is_scheme_of(scheme: &Scheme, uri: &Uri) -> bool
    ensures { IsTrue result ↔ (lowercase scheme.now ≡ lowercase (target_scheme uri.now)) }
{
    scheme.eq_str(uri.scheme_str().unwrap_or("http"))
}

/// The path as it is spelled, or `/`.
pub(crate) fn path_of(uri: &Uri) -> &str
    ensures { result.now ≡ target_path uri.now }
{
    let path = uri.path();
    if path.is_empty() { "/" } else { path }
}

/// The pairs of the query.
pub(crate) fn pairs_of(alloc: Global, uri: &Uri) -> Result<Vec<(String, String)>, AllocError>
    ensures { IfOk result (λ pairs. text_pairs pairs.items ≡ target_pairs uri.now) }
{
    read_query(alloc, uri.query().unwrap_or(""))
}
