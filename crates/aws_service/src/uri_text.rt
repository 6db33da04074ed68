//! Where agents or AWS read a URI otherwise than a signature does.
ghost use Rattle.std.specs.Prelude.{◌≡◌, drop};
ghost use Rattle.std.specs.List.{list_any};
ghost use Rattle.aws_service.specs.UriText.{has_plus, has_other_host, link_authority, default_port};
ghost use Rattle.aws_service.specs.UriText.{is_changed_in_host};

use crate::cut::{after_first, before_first};

/// Whether the query of a URI has a `+`.
pub(crate) fn has_plus(uri: &[u8]) -> bool
    ensures { result ≡ has_plus uri.now }
{
    let uri = before_first(uri, b'#');
    after_first(uri, b'?').iter().any(|b| *b == b'+')
}

/// Whether agents send another `host` for a link than it was signed for.
pub(crate) fn has_other_host(link: &[u8]) -> bool
    ensures { result ≡ has_other_host link.now }
{
    let authority = link_authority(link);
    is_changed_in_host(authority) || authority.ends_with(default_port(before_first(link, b':')))
}

fn link_authority(link: &[u8]) -> &[u8]
    ensures { result.now ≡ link_authority link.now }
{
    before_first(behind_two(after_first(link, b':')), b'/')
}

/// What stands behind the first two bytes.
fn behind_two(text: &[u8]) -> &[u8]
    ensures { result.now ≡ drop 2 text.now }
{
    match text {
        [_, _, behind @ ..] => behind,
        _ => &[],
    }
}

fn default_port(scheme: &[u8]) -> &'static [u8]
    ensures { result.now ≡ default_port scheme.now }
{
    if scheme == b"https".as_slice() {
        b":443"
    } else {
        b":80"
    }
}

fn is_changed_in_host(authority: &[u8]) -> bool
    ensures { result ≡ list_any is_changed_in_host authority.now }
{
    authority
        .iter()
        .any(|b| b.is_ascii_uppercase() | (*b == b'@'))
}
