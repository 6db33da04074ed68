//! The working copy of a query. It is no part of the head: `apply` refuses a view whose query was
//! changed.
ghost use Rattle.std.specs.Prelude.{◌≡◌, ◌++◌, ◌∷◌, [], ◌<◌, Bool, List, IfOk, IsOkAnd};
ghost use Rattle.std.specs.Prelude.{OnOk, OnErr, MatchOption, string_bytes};
ghost use Rattle.std.specs.Cow.{cow_str_bytes};
ghost use Rattle.percent_encoding.specs.Cow.{IsBorrowedStr};
ghost use Rattle.std.specs.Fn.{FnReturnsAt};
ghost use Rattle.std.specs.List.{AllZip, items_where_true};
ghost use Rattle.sign_request.specs.Query.{decoded_text, text_pairs, query_length, HasNoEscape};

use crate::SigningRequest;
use crate::decode::decode;
use crate::pair::push_texts;
use sign_base::NoMemory;
use std::alloc::Global;
use std::borrow::CowStr;

impl SigningRequest {
    /// How many bytes the decoded keys and values have together, or `None` where that is more than
    /// `usize::MAX`. It is not the length of the query as it was sent.
    pub fn query_size(&self) -> Option<usize>
        ensures { MatchOption result (usize.MAX < query_length (text_pairs self.now.query.items))
            (λ size. size ≡ query_length (text_pairs self.now.query.items)) }
    {
        let mut size = 0usize;
        for (key, value) in &self.query {
            size = size.checked_add(key.len() + value.len())?;
        }
        Some(size)
    }

    /// Appends a pair to the view. The head's URI stays as it is.
    pub fn query_push(&mut self, key: &str, value: &str) -> Result<(), NoMemory<()>>
        ensures ok { OnOk result (text_pairs self.new.query.items
            ≡ text_pairs self.old.query.items ++ (key.now, value.now) ∷ []) }
        ensures others { self.new ≡ record self.old { query = self.new.query } }
        ensures err { OnErr result (self.new.query.items ≡ self.old.query.items) }
    {
        push_texts(&mut self.query, key, value)
    }

    /// Appends a text as a key with an empty value. The head's URI stays as it is.
    pub fn query_append(&mut self, query: &str) -> Result<(), NoMemory<()>>
        ensures ok { OnOk result (text_pairs self.new.query.items
            ≡ text_pairs self.old.query.items ++ (query.now, []) ∷ []) }
        ensures others { self.new ≡ record self.old { query = self.new.query } }
        ensures err { OnErr result (self.new.query.items ≡ self.old.query.items) }
    {
        self.query_push(query, "")
    }

    /// The pairs whose key passes the test, in order.
    pub fn query_to_vec_with_filter<F: Fn(&str) -> bool + Drop>(
        &self,
        filter: F,
    ) -> Result<Vec<(String, String)>, NoMemory<()>>
        requires { F.IsAlwaysCallable filter }
        ensures { IfOk result (λ kept. (answers : List Bool)
            × AllZip (λ pair answer. FnReturnsAt F.Fn filter pair.0 answer)
            (text_pairs self.now.query.items) answers
            × (text_pairs kept.items ≡ items_where_true answers (text_pairs self.now.query.items))) }
    {
        let mut kept = Vec::new(*self.query.allocator());
        for (key, value) in &self.query {
            if filter(key.as_str()) {
                push_texts(&mut kept, key.as_str(), value.as_str())?;
            }
        }
        Ok(kept)
    }

    /// The whole path decoded once, with U+FFFD for each sequence that is not UTF-8. An escaped
    /// slash becomes a slash, so where slashes are data a service decodes each segment on its own.
    /// A path without `%` is lent, and takes no memory.
    pub fn path_percent_decoded(&self) -> Result<CowStr<'_, Global>, NoMemory<()>>
        ensures value { IfOk result (λ path. cow_str_bytes path
            ≡ decoded_text (string_bytes self.now.path)) }
        ensures lends { HasNoEscape (string_bytes self.now.path) → IsOkAnd result IsBorrowedStr }
    {
        Ok(decode(*self.path.allocator(), self.path.as_str())?)
    }
}
