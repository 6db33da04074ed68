//! Headers that are left out of what is signed, since agents on the way add or change them.
ghost use Rattle.std.specs.Prelude.{◌≡◌, ◌++◌, ◌∷◌, [], IfOk, map, codes, bytes_eq};
ghost use Rattle.http_header.specs.Token.{lowercase};
ghost use Rattle.aws_service.specs.LeftOut.{agent_headers, is_left_out, left_out, kept};

use sign_base::{Field, Fields, NoMemory, Octets};
use std::alloc::Global;
use std::marker::Model;

/// Names of headers that are left out of what is signed, in any case of letters.
#[derive(Drop)]
pub struct LeftOut {
    names: Vec<Octets>,
}

impl Model for LeftOut {
    ghost use Rattle.std.specs.Prelude.{ℕ, List};

    ghost Value = { List (List ℕ) };

    ghost view = { λ l. l.names.items };
}

impl LeftOut {
    /// None: all headers are signed. It takes no memory.
    pub fn none(alloc: Global) -> LeftOut
        ensures { result ≡ [] }
    {
        LeftOut {
            names: Vec::new(alloc),
        }
    }

    /// Those that clients and proxies on the way add or change, so that botocore and other signers of AWS
    /// leave most of them out: `accept-encoding`, `connection`, `expect`, `transfer-encoding`, `user-agent`
    /// and `x-amzn-trace-id`.
    pub fn agents(alloc: Global) -> Result<LeftOut, NoMemory<()>>
        ensures { IfOk result (λ l. l ≡ agent_headers) }
    {
        let mut names = Vec::new(alloc);
        names.push(Octets::from_slice(alloc, b"accept-encoding")?)?;
        names.push(Octets::from_slice(alloc, b"connection")?)?;
        names.push(Octets::from_slice(alloc, b"expect")?)?;
        names.push(Octets::from_slice(alloc, b"transfer-encoding")?)?;
        names.push(Octets::from_slice(alloc, b"user-agent")?)?;
        names.push(Octets::from_slice(alloc, b"x-amzn-trace-id")?)?;
        Ok(LeftOut { names })
    }

    /// These. A name of which AWS wants the header signed, as `host`, is none to leave out.
    pub fn from_vec(names: Vec<Octets>) -> LeftOut
        ensures { result ≡ names.items }
    {
        LeftOut { names }
    }

    /// The headers that are left out, in order.
    pub fn headers_of(&self, alloc: Global, headers: &Fields) -> Result<Vec<Field>, NoMemory<()>>
        ensures { IfOk result (λ fields. fields.items ≡ left_out self.now headers.now) }
    {
        let mut fields = Vec::new(alloc);
        for field in headers.as_slice() {
            if self.has(field) {
                fields.push(field.try_clone(alloc)?)?;
            }
        }
        Ok(fields)
    }

    /// The headers that are not, in order.
    pub fn others_of(&self, alloc: Global, headers: &Fields) -> Result<Vec<Field>, NoMemory<()>>
        ensures { IfOk result (λ fields. fields.items ≡ kept self.now headers.now) }
    {
        let mut fields = Vec::new(alloc);
        for field in headers.as_slice() {
            if !self.has(field) {
                fields.push(field.try_clone(alloc)?)?;
            }
        }
        Ok(fields)
    }

    /// Whether the header has one of the names.
    fn has(&self, field: &Field) -> bool
        ensures { result ≡ is_left_out self.now field.now }
    {
        self.names.iter().any(|name| is_called(field, name))
    }
}

fn is_called(field: &Field, name: &Octets) -> bool
    ensures { result ≡ bytes_eq (lowercase field.now.name) (lowercase name.now) }
{
    field.name.as_slice().eq_ignore_ascii_case(name.as_slice())
}
