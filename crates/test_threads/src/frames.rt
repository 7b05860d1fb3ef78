//! Messages of tests, each without its ID, and their frames.

use std::alloc::{AllocError, Global};

/// The query for the type A of www.example.test., and its reply (RFC 1035, 4.1).
pub(crate) const QUERY: &[u8] =
    b"\x01\x00\x00\x01\x00\x00\x00\x00\x00\x00\x03www\x07example\x04test\x00\x00\x01\x00\x01";

pub(crate) const REPLY: &[u8] =
    b"\x85\x00\x00\x01\x00\x02\x00\x00\x00\x00\x03www\x07example\x04test\x00\x00\x01\x00\x01\xc0\x0c\x00\x05\x00\x01\x00\x00\x0e\x10\x00\x06\x03web\xc0\x10\xc0\x2e\x00\x01\x00\x01\x00\x00\x0e\x10\x00\x04\xc0\x00\x02\x0a";

/// The frame of a message: its length, its ID, and the rest (RFC 1035, 4.1.1 and 4.2.2).
pub(crate) fn frame_of(alloc: Global, id: u16, rest: &[u8]) -> Result<Vec<u8>, AllocError> {
    let length = u16::try_from(rest.len().saturating_add(2)).unwrap_or(u16::MAX);
    let mut octets = length.to_be_bytes().to_vec(alloc)?;
    octets.extend_from_slice(&id.to_be_bytes())?;
    octets.extend_from_slice(rest)?;
    Ok(octets)
}
