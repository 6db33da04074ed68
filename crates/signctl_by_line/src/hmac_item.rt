//! What a line of `hmac` says.
use sign_base::Octets;

/// A call of `hash` on bytes alone.
#[derive(Clone, Copy, Debug, PartialEq, Eq)]
pub enum UnkeyedCall {
    Base64Encode,
    HexSha1,
    HexSha256,
}

/// A call of `hash` on bytes under a key.
#[derive(Clone, Copy, Debug, PartialEq, Eq)]
pub enum KeyedCall {
    HmacSha256,
    HexHmacSha1,
    HexHmacSha256,
    Base64HmacSha1,
    Base64HmacSha256,
}

/// A call of `hash`, by its arguments.
#[derive(Clone, Copy, Debug, PartialEq, Eq)]
pub enum HashCall {
    Unkeyed(UnkeyedCall),
    Keyed(KeyedCall),
    Base64Decode,
}

/// What a good line says: a call of `hash` with its arguments.
#[derive(Debug, Drop)]
pub enum HmacItem {
    Unkeyed {
        call: UnkeyedCall,
        content: Octets,
    },
    Keyed {
        call: KeyedCall,
        key: Octets,
        content: Octets,
    },
    Base64Decode {
        content: Octets,
    },
}
