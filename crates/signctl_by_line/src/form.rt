//! The forms of a line of `sigv4`, by their first word.
ghost use Rattle.std.specs.Prelude.{◌≡◌};
ghost use Rattle.signctl_by_line.specs.Sigv4Reading.{form_named};

/// What the first word of a line asks for.
#[derive(Clone, Copy, Debug)]
pub(crate) enum Form {
    Sign,
    Presign,
    Verify,
}

/// The form of this name.
pub(crate) fn form_named(name: &[u8]) -> Option<Form>
    ensures { result ≡ form_named name.now }
{
    if name == b"sign".as_slice() {
        Some(Form::Sign)
    } else if name == b"presign".as_slice() {
        Some(Form::Presign)
    } else if name == b"verify".as_slice() {
        Some(Form::Verify)
    } else {
        None
    }
}
