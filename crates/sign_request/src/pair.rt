//! Pairs of texts, appended.
ghost use Rattle.std.specs.Prelude.{◌≡◌, ◌++◌, ◌∷◌, [], OnOk, OnErr};
ghost use Rattle.sign_request.specs.Query.{text_pairs};

use sign_base::NoMemory;

/// Appends a pair of copies. Without memory the pairs stay as they were.
pub(crate) fn push_texts(
    pairs: &mut Vec<(String, String)>,
    key: &str,
    value: &str,
) -> Result<(), NoMemory<()>>
    ensures ok { OnOk result (text_pairs pairs.new.items
        ≡ text_pairs pairs.old.items ++ (key.now, value.now) ∷ []) }
    ensures err { OnErr result (pairs.new.items ≡ pairs.old.items) }
{
    let alloc = *pairs.allocator();
    let key = String::from_str(alloc, key)?;
    let value = String::from_str(alloc, value)?;
    pairs.push((key, value))?;
    Ok(())
}
