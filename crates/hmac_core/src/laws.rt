//! What holds of the definitions themselves, each as the contract of a call that does nothing.
ghost use Rattle.hmac_core.specs.Law.{LongKeys};

/// HMAC under a key that is longer than a block is HMAC under that key's digest.
pub fn long_keys_are_hashed()
    ensures { LongKeys }
{}
