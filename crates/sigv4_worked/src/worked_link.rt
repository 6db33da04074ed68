//! The published link.
ghost use Rattle.sigv4_worked.specs.WorkedSignature.{LinkPresigned};

/// `presigning_of` gives the published link.
pub fn link_is_as_published()
    ensures { LinkPresigned }
{}
