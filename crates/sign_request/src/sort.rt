//! Pairs sorted by key, then by value, in place.
//!
//! The keys are sorted first, and then the values of each key. So a comparison reads one text, and
//! a long key that many pairs have is not read again for each comparison of their values.
ghost use Rattle.std.specs.Prelude.{◌≡◌, ◌++◌, ◌<◌, ◌≤◌, length, take, drop};
ghost use Rattle.sign_request.specs.Query.{text_pairs};
ghost use Rattle.sign_request.specs.CanonicalText.{sorted_pairs};
ghost use Rattle.sign_request.specs.KeyOrder.{Ascends, key_cmp, BeginsWithKey};

/// The pairs in order.
pub(crate) fn sort_pairs(mut pairs: Vec<(String, String)>) -> Vec<(String, String)>
    ensures { text_pairs result.items ≡ sorted_pairs (text_pairs pairs.items) }
{
    pairs.sort_unstable_by(|x, y| x.0.cmp(&y.0));
    sort_values(pairs.as_mut_slice());
    pairs
}

/// Sorts the values of each key.
fn sort_values(pairs: &mut [(String, String)])
    requires { Ascends key_cmp (text_pairs pairs.old) }
    ensures len { length pairs.new ≡ length pairs.old }
    ensures sorted { text_pairs pairs.new ≡ sorted_pairs (text_pairs pairs.old) }
{
    let mut start = 0;
    while start < pairs.len() {
        start += sort_first_values(&mut pairs[start..]);
    }
}

/// Sorts the values of the first key, and answers how many they are.
fn sort_first_values(pairs: &mut [(String, String)]) -> usize
    requires not_empty { 0 < length pairs.old }
    requires ascends { Ascends key_cmp (text_pairs pairs.old) }
    ensures bound { (0 < result) × (result ≤ length pairs.old) }
    ensures len { length pairs.new ≡ length pairs.old }
    ensures first_key { BeginsWithKey result (text_pairs pairs.old) }
    ensures sorted { text_pairs pairs.new ≡ sorted_pairs (take result (text_pairs pairs.old))
        ++ drop result (text_pairs pairs.old) }
{
    let count = count_first_key(pairs);
    pairs[..count].sort_unstable_by(|x, y| x.1.cmp(&y.1));
    count
}

/// How many pairs have the first key.
fn count_first_key(pairs: &[(String, String)]) -> usize
    requires not_empty { 0 < length pairs.now }
    requires ascends { Ascends key_cmp (text_pairs pairs.now) }
    ensures bound { (0 < result) × (result ≤ length pairs.now) }
    ensures first_key { BeginsWithKey result (text_pairs pairs.now) }
{
    let key = &pairs[0].0;
    let other = pairs.iter().position(|pair| pair.0 != *key);
    other.unwrap_or(pairs.len())
}
