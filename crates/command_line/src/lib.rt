//! Parsing the program's command line, and printing the zone of a store.
//!
//! [`parse_words`] returns the [`Task`] of a command line, or the reason why it is refused, which [`tell_fault`] reports. The commands and their
//! arguments are one table, in `program`. Each number in a task is within its option's bounds. Nothing here opens a file or a socket.
//!
//! [`print_store`] prints the zone that a start from a zone text and its journal would serve, or, if batches that were already on the disk are damaged,
//! the zone with those before them. It also works while a server holds the store (own). [`PrintedFault`] describes in a sentence why a store cannot be
//! started from.
#![tactic(auto)]

mod command;
mod fault;
mod key_rules;
mod may;
mod options;
mod program;
mod secondaries;
mod start_fault;
mod store_options;
mod stored_zone;

pub use command::{Change, Control, Deploy, Stored, Task, parse_words};
pub use fault::{BAD_COMMAND, CommandFault, tell_fault};
pub use key_rules::KeyRules;
pub use may::Trial;
pub use options::{MAX_THREADS, Serve};
pub use secondaries::{Secondary, is_routed, source_of};
pub use start_fault::PrintedFault;
pub use store_options::StorePlan;
pub use stored_zone::{Part, PrintFault, print_store};
