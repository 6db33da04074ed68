//! The view of a plain head, to be printed: what a signer would see of the request.
ghost use Rattle.std.specs.Prelude.{◌≡◌, ◌≢◌, ◌⊎◌, Ok, Err, IfOk, IfErr, Some, codes, map, string_bytes};
ghost use Rattle.std.specs.Fmt.{WritesOnOk, WritesStyledOnOk};
ghost use Rattle.sign_base.specs.declared.error_kind.ErrorKind.TheVariants.{OutOfMemory};
ghost use Rattle.sign_request.specs.Query.{text_pairs, query_length};

use crate::plain_head::parts_of_seeded;
use crate::{HeaderSeeds, SigningRequest};
use sign_base::{Error, ErrorKind, Head, NoMemory};
use std::alloc::Global;
use std::fmt;
use std::marker::Model;

/// Why a plain head has no view.
#[derive(Clone, Copy, Debug, PartialEq, Eq)]
pub enum ViewRefusal {
    /// `http` does not accept the method, the URI or a header, or the header map is full.
    Head,
    /// The URI names no authority.
    Authority,
    /// An allocation failed.
    OutOfMemory,
}

/// The view of a plain head. It shows the bytes of the head alone, and changes nothing. `Debug` shows
/// none of them.
#[derive(Drop)]
pub struct HeadView {
    request: SigningRequest,
}

impl fmt::Debug for HeadView {
    ghost debug_output = { λ _. Some (codes "HeadView(***)") };

    fn fmt<W: fmt::Write>(&self, f: &mut fmt::Formatter<W>) -> fmt::Result
        ensures writes { WritesOnOk W.write_str_gives f.old result (codes "HeadView(***)") f.new }
        ensures styled { WritesStyledOnOk W.write_str_gives f.old result (codes "HeadView(***)") f.new }
    {
        f.write_str("HeadView(***)")
    }
}

impl Model for HeadView {
    ghost use Rattle.sign_request.specs.PlainView.{PlainView, plain_view, QuerySizeFits};

    ghost Value = { PlainView };

    ghost view = { λ v. plain_view v.request };

    ghost invariant = { λ v. QuerySizeFits (plain_view v.request) };
}

impl HeadView {
    ghost use Rattle.sign_request.specs.PlainView.{view_of, view_query};

    /// The view of a head.
    ///
    /// `Head` exactly where `http` does not accept the head, and `Authority` exactly where an
    /// accepted head names no authority, unless an allocation failed.
    pub fn build(alloc: Global, head: &Head) -> Result<HeadView, ViewRefusal>
        ensures ok { IfOk result (λ view. view_of head.now ≡ Ok view) }
        ensures err { IfErr result (λ why. (why ≡ ViewRefusal.OutOfMemory)
            ⊎ (view_of head.now ≡ Err why)) }
    {
        HeadView::build_seeded(alloc, head, HeaderSeeds::default())
    }

    /// Answers what `build` does, whatever the keys. It is the call for a head whose names of
    /// headers come from outside.
    pub fn build_seeded(
        alloc: Global,
        head: &Head,
        keys: HeaderSeeds,
    ) -> Result<HeadView, ViewRefusal>
        ensures ok { IfOk result (λ view. view_of head.now ≡ Ok view) }
        ensures err { IfErr result (λ why. (why ≡ ViewRefusal.OutOfMemory)
            ⊎ (view_of head.now ≡ Err why)) }
    {
        let parts = match parts_of_seeded(alloc, head, keys) {
            Ok(parts) => parts,
            Err(e) => return Err(refused_as(ViewRefusal::Head, e)),
        };
        match SigningRequest::from_parts(alloc, parts) {
            Ok(request) => Ok(HeadView { request }),
            Err(e) => Err(refused_as(ViewRefusal::Authority, e)),
        }
    }

    pub fn method(&self) -> &str
        ensures { result.now ≡ self.now.method }
    {
        self.request.method.as_str()
    }

    /// The scheme, or `http` where the head names none.
    pub fn scheme(&self) -> &str
        ensures { result.now ≡ self.now.scheme }
    {
        self.request.scheme.as_str()
    }

    pub fn authority(&self) -> &str
        ensures { result.now ≡ self.now.authority }
    {
        self.request.authority.as_str()
    }

    /// The path as the head spells it, or `/` where it names none.
    pub fn path(&self) -> &str
        ensures { result.now ≡ self.now.path }
    {
        self.request.path.as_str()
    }

    /// The pairs of the query in their order, each side decoded once.
    pub fn pairs(&self) -> &[(String, String)]
        ensures { text_pairs result.now ≡ self.now.pairs }
    {
        self.request.query.as_slice()
    }

    /// How many bytes the keys and values have together.
    pub fn query_size(&self) -> usize
        ensures { result ≡ query_length self.now.pairs }
    {
        self.request.query_size().unwrap()
    }

    /// Each name of the headers once, in lower case and sorted.
    pub fn names(&self) -> Result<Vec<&str>, NoMemory<()>>
        ensures { IfOk result (λ names. map (λ name. name.now) names.items ≡ self.now.names) }
    {
        self.request.header_name_to_vec_sorted()
    }

    /// The query as one text: its pairs sorted, key and value joined by `=`, pairs by `&`, and no
    /// `=` before an empty value.
    pub fn into_query_text(self, alloc: Global) -> Result<String, NoMemory<()>>
        ensures { IfOk result (λ text. string_bytes text ≡ view_query self) }
    {
        let query = self.request.into_query();
        SigningRequest::query_to_string(alloc, query, "=", "&").map_err(|_| NoMemory { back: () })
    }
}

/// The refusal for this cause, or out of memory where that was the error.
fn refused_as(cause: ViewRefusal, error: Error) -> ViewRefusal
    ensures memory { error.kind ≡ OutOfMemory → result ≡ ViewRefusal.OutOfMemory }
    ensures other { error.kind ≢ OutOfMemory → result ≡ cause }
{
    match error.kind() {
        ErrorKind::OutOfMemory => ViewRefusal::OutOfMemory,
        _ => cause,
    }
}
