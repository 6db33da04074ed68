//! The comparison of two signatures. It looks at every byte before it answers, so that its way does not
//! depend on where they differ. No contract sees time, and nothing is claimed about it.
ghost use Rattle.std.specs.Prelude.{◌≡◌, ◌↔◌, bytes_eq, length};

/// Whether a claimed signature is this one. Its length is no secret: another one answers at once.
pub fn is_same_signature(claimed: &[u8], signature: &[u8]) -> bool
    ensures { result ≡ bytes_eq claimed.now signature.now }
{
    claimed.len() == signature.len() && difference(claimed, signature) == 0
}

/// The bits in which two texts of one length differ at some byte.
fn difference(claimed: &[u8], signature: &[u8]) -> u8
    requires { length claimed.now ≡ length signature.now }
    ensures { (result ≡ 0) ↔ (claimed.now ≡ signature.now) }
{
    let mut difference = 0u8;
    for i in 0..claimed.len() {
        difference |= claimed[i] ^ signature[i];
    }
    difference
}
