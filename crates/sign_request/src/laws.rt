//! What follows for a caller from what the calls promise. Each function does nothing: its contract
//! is the law.
ghost use Rattle.std.specs.Prelude.{◌≡◌, ◌↔◌, ℕ, true, false, List, None, Some};
ghost use Rattle.std.specs.List.Sorted.{IsPermutation};
ghost use Rattle.http.specs.declared.request.Parts.{Parts};
ghost use Rattle.http_uri.specs.Uri.{Spells, SpellsNone, uri_authority};
ghost use Rattle.http_uri.specs.declared.uri.Uri.{Uri};
ghost use Rattle.sign_base.specs.declared.head.Head.{Head};
ghost use Rattle.sign_request.specs.AcceptedHead.{is_accepted_head};
ghost use Rattle.sign_request.specs.PlainHead.{IsHeadOf, ArePartsOf, RefusesHead};
ghost use Rattle.sign_request.specs.PlainTarget.{plain_target, target_of};
ghost use Rattle.sign_request.specs.PlainView.{plain_view, head_view};
ghost use Rattle.sign_request.specs.Query.{Pair, query_pairs};
ghost use Rattle.sign_request.specs.CanonicalText.{canonical_text, header_text, parameter_text};
ghost use Rattle.sign_request.specs.CanonicalText.{decoded_parameter_text};
ghost use Rattle.sign_request.specs.Escaped.{escaped_query, AreTexts};
ghost use Rattle.sign_request.specs.Headers.{trimmed_value};
ghost use Rattle.sign_request.specs.Request.{IsViewOf, StillFits};
ghost use Rattle.sign_request.specs.RoundTrip.{IsParsed, ComesBack};
ghost use Rattle.sign_request.specs.declared.request.SigningRequest.{SigningRequest};

/// A query has one text, plain or decoded, for every order of the same pairs.
pub fn query_text_knows_no_order()
    ensures plain { (sep join : List ℕ) (pairs others : List Pair) → IsPermutation pairs others
        → canonical_text (parameter_text sep) join pairs
        ≡ canonical_text (parameter_text sep) join others }
    ensures decoded_text { (sep join : List ℕ) (pairs others : List Pair) → IsPermutation pairs others
        → canonical_text (decoded_parameter_text sep) join pairs
        ≡ canonical_text (decoded_parameter_text sep) join others }
{}

/// Headers have one text for every order of the same pairs.
pub fn header_text_knows_no_order()
    ensures { (sep join : List ℕ) (pairs others : List Pair) → IsPermutation pairs others
        → canonical_text (header_text sep) join pairs ≡ canonical_text (header_text sep) join others }
{}

/// A view in which nothing was changed fits the head that it was built of, and committing it
/// leaves that head.
pub fn an_unchanged_view_changes_nothing()
    ensures fits { (parts : Parts) (request : SigningRequest) → IsViewOf parts request
        → StillFits parts request }
    ensures same { (parts : Parts) (request : SigningRequest) → IsViewOf parts request
        → record parts { headers = request.headers } ≡ parts }
{}

/// Pairs of texts that are written into a query with every byte escaped are read back, in order.
pub fn an_escaped_query_reads_back()
    ensures { (pairs : List Pair) → AreTexts pairs → query_pairs (escaped_query pairs) ≡ pairs }
{}

/// Normalizing a header value twice is normalizing it once.
pub fn normalizing_twice_is_once()
    ensures { (bytes : List ℕ) → trimmed_value (trimmed_value bytes) ≡ trimmed_value bytes }
{}

/// A request target is a function of its text: reading it gives the parts of the URI that the text
/// spells, and none where it spells none.
pub fn a_target_is_read_from_its_text()
    ensures some { (text : List ℕ) (uri : Uri)
        → Spells text uri ↔ (target_of text ≡ Some (plain_target uri)) }
    ensures none { (text : List ℕ) → SpellsNone text ↔ (target_of text ≡ None) }
{}

/// Whether `http` refuses a plain head is a function of its bytes.
pub fn a_head_is_accepted_or_refused()
    ensures refused { (head : Head) → RefusesHead head ↔ (is_accepted_head head ≡ false) }
    ensures accepted { (head : Head) → ¬ (RefusesHead head) ↔ (is_accepted_head head ≡ true) }
{}

/// What a view shows of a plain head is a function of the head's bytes: it is the view of whatever
/// head of `http` has its four values, and there is none where that head has no authority.
pub fn a_view_is_read_from_its_head()
    ensures some { (head : Head) (parts : Parts) (request : SigningRequest)
        → ArePartsOf head parts → IsViewOf parts request
        → head_view head ≡ Some (plain_view request) }
    ensures none { (head : Head) (parts : Parts)
        → ArePartsOf head parts → uri_authority parts.uri ≡ None → head_view head ≡ None }
{}

/// A head of `http` that crosses to a plain head and back is the same, but for how its URI is
/// spelled and for the marks that keep values out of logs.
pub fn a_head_crosses_and_comes_back()
    ensures { (parts again : Parts) (head : Head) → IsParsed parts → IsHeadOf parts head
        → ArePartsOf head again → ComesBack parts again }
{}
