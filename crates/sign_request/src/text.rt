//! Canonical texts: pairs sorted by key, then value, and written one after another.
ghost use Rattle.std.specs.Prelude.{◌≡◌, IfOk, IfErr, map, string_bytes};
ghost use Rattle.sign_request.specs.Query.{text_pairs};
ghost use Rattle.sign_request.specs.CanonicalText.{canonical_text, header_text, parameter_text};
ghost use Rattle.sign_request.specs.CanonicalText.{decoded_parameter_text, sorted_pairs};
ghost use Rattle.sign_request.specs.PairForm.{pair_text};

use crate::SigningRequest;
use crate::pair_form::{PairForm, write_pairs};
use crate::sort::sort_pairs;
use sign_base::NoMemory;
use std::alloc::Global;

/// Names and values, in any order.
type Pairs = Vec<(String, String)>;

/// The canonical text of some pairs. Without memory the pairs come back, sorted.
type Canonical = Result<String, NoMemory<Pairs>>;

impl SigningRequest {
    /// The query as one text: sorted by key, then value, each as key, `sep` and value, joined by
    /// `join`. Before an empty value `sep` is left out.
    pub fn query_to_string(alloc: Global, query: Pairs, sep: &str, join: &str) -> Canonical
        ensures ok { IfOk result (λ text. string_bytes text
            ≡ canonical_text (parameter_text sep.now) join.now (text_pairs query.items)) }
        ensures back { IfErr result (λ e. text_pairs e.back.items
            ≡ sorted_pairs (text_pairs query.items)) }
    {
        canonical(alloc, query, PairForm::Parameter, sep, join)
    }

    /// The same, each value decoded once more after the sort. The pairs of a view are decoded
    /// already, so this is right only for a protocol that asks for it. Keys are not decoded.
    pub fn query_to_percent_decoded_string(
        alloc: Global,
        query: Pairs,
        sep: &str,
        join: &str,
    ) -> Canonical
        ensures ok { IfOk result (λ text. string_bytes text
            ≡ canonical_text (decoded_parameter_text sep.now) join.now (text_pairs query.items)) }
        ensures back { IfErr result (λ e. text_pairs e.back.items
            ≡ sorted_pairs (text_pairs query.items)) }
    {
        canonical(alloc, query, PairForm::DecodedParameter, sep, join)
    }

    /// Headers as one text: sorted by name, then value, each as name, `sep` and value, joined by
    /// `join`.
    pub fn header_to_string(alloc: Global, headers: Pairs, sep: &str, join: &str) -> Canonical
        ensures ok { IfOk result (λ text. string_bytes text
            ≡ canonical_text (header_text sep.now) join.now (text_pairs headers.items)) }
        ensures back { IfErr result (λ e. text_pairs e.back.items
            ≡ sorted_pairs (text_pairs headers.items)) }
    {
        canonical(alloc, headers, PairForm::Header, sep, join)
    }
}

/// Sorts in place, which takes no memory, and writes.
#[tactic(auto, unfolding(crate::specs::CanonicalText::canonical_text))]
fn canonical(alloc: Global, pairs: Pairs, form: PairForm, sep: &str, join: &str) -> Canonical
    ensures ok { IfOk result (λ text. string_bytes text
        ≡ canonical_text (pair_text form sep.now) join.now (text_pairs pairs.items)) }
    ensures back { IfErr result (λ e. text_pairs e.back.items
        ≡ sorted_pairs (text_pairs pairs.items)) }
{
    let pairs = sort_pairs(pairs);
    match write_pairs(alloc, pairs.as_slice(), form, sep, join) {
        Ok(text) => Ok(text),
        Err(_) => Err(NoMemory { back: pairs }),
    }
}
