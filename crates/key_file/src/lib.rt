//! Key files: the keys that a server shares with the clients that sign (RFC 8945, 4.2).
//!
//! [`parse_keys`] reads the statements that `tsig-keygen` prints, and lines `ALGORITHM:NAME:SECRET`. An error has a line and no word of the file, so that
//! it never has a secret.
#![tactic(auto)]

mod fault;
mod keys;
mod statements;
mod tokens;

pub use fault::{KeyFault, KeyFileFault};
pub use keys::{KeyFile, MAX_SECRET, parse_keys};
