//! Pairs of texts, as the calls that take them by value want them.
use std::alloc::Global;

pub(crate) type Pairs<'a> = &'a [(&'a str, &'a str)];

fn push_pair(
    alloc: Global,
    pairs: &mut Vec<(String, String)>,
    key: &str,
    value: &str,
) -> Option<()> {
    let key = String::from_str(alloc, key).ok()?;
    let value = String::from_str(alloc, value).ok()?;
    pairs.push((key, value)).ok()
}

pub(crate) fn owned(alloc: Global, texts: Pairs<'_>) -> Option<Vec<(String, String)>> {
    let mut pairs = Vec::new(alloc);
    for (key, value) in texts {
        push_pair(alloc, &mut pairs, *key, *value)?;
    }
    Some(pairs)
}
