//! What a caller hands in: bytes that it lends, in the layout of C, where a slice is its pointer and then
//! its length.

/// A header.
#[repr(C)]
#[derive(Drop)]
pub struct GivenField<'a> {
    pub name: &'a [u8],
    pub value: &'a [u8],
}

/// A request head. None of it is judged here.
#[repr(C)]
#[derive(Drop)]
pub struct GivenHead<'a> {
    pub method: &'a [u8],
    pub uri: &'a [u8],
    pub headers: &'a [GivenField<'a>],
    /// The version of HTTP: ten times its major number and its minor one, as 11 for HTTP/1.1.
    pub version: u8,
}

/// An access key with its secret, and the region and the service to sign for.
#[repr(C)]
#[derive(Drop)]
pub struct GivenKey<'a> {
    pub access: &'a [u8],
    pub secret: &'a [u8],
    pub region: &'a [u8],
    pub service: &'a [u8],
}

/// A signing key that was derived before, with the access key, the region and the service that it is for.
#[repr(C)]
#[derive(Drop)]
pub struct GivenDerived<'a> {
    pub access: &'a [u8],
    /// 32 bytes. Who has them can sign for that day, region and service.
    pub key: &'a [u8],
    pub region: &'a [u8],
    pub service: &'a [u8],
}
