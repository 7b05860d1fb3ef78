//! Signed messages: TSIG (RFC 8945).
//!
//! Contracts see the shared keys as a list of names and secrets, and say of a message's octets what of them is digested, in RFC 8945's terms. [`verify`] judges a
//! request by its TSIG in the RFC's order, [`write_without_tsig`] gives the request without it, [`sign`] and [`sign_later`] sign what is sent, and [`add_error_tsig`] tells of a key
//! that isn't known, or a MAC that isn't right. [`verify_reply`] judges the reply to a request that was signed. Where a TSIG stands is told by [`dns_message::tsig_place`]. SHA-1 and MD5 are left out, which RFC 8945, 6
//! advises against.
#![tactic(auto)]

mod digest;
mod error_tsig;
mod fields;
mod key;
mod keys;
mod laws;
mod octets;
mod record;
mod reply;
mod request_tsig;
mod signing;
mod stamp;
mod tsig_error;
mod verifying;
mod without_tsig;

pub use error_tsig::{MAX_ERROR_TSIG, add_error_tsig};
pub use key::{Key, MAX_KEY_NAME};
pub use keys::{Keys, MAX_KEYS};
pub use laws::{fields_are_read_back, signed_alone, what_is_signed};
pub use record::Tsig;
pub use reply::verify_reply;
pub use request_tsig::RequestTsig;
pub use signing::{MAX_TSIG, sign, sign_later};
pub use stamp::{FUDGE, Stamp};
pub use tsig_error::TsigError;
pub use verifying::{Verification, is_unsigned, verify};
pub use without_tsig::write_without_tsig;
