//! HMAC over SHA-256, SHA-384 and SHA-512 (RFC 2104; FIPS 180-4), which TSIG signs messages by (RFC 8945, 6).
//!
//! Contracts see a [`Key`] as its hash function and its block, and a MAC as its octets: [`Key::mac_of`] gives RFC 2104's function of the text. [`is_same`]
//! compares MACs without an end where they differ: that it gives the right answer is proved, how long it takes is not. No call takes memory. A
//! secret isn't cleared from memory.
#![tactic(auto)]

mod algorithm;
mod hasher;
mod key;
mod same;

pub use algorithm::Algorithm;
pub use key::{Key, MAX_MAC, Mac};
pub use same::is_same;
