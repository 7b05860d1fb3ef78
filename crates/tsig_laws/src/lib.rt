//! What the holder of a key signs is taken as signed (RFC 8945, 5.2), the contract of a function that does nothing. The definitions are those of `tsig`. Nothing here runs.
#![tactic(auto)]

mod laws;

pub use laws::signed_is_taken;
