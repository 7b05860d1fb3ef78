//! The files of a store, and a file as a disk (own).
//!
//! A store is a directory that is locked by one process ([`open_store`]). `zone-N` has a zone text, and is never changed; `journal` begins with a head that names its N and the text's
//! SHA-256 (`journal`), and is appended to; `lock` has no octets, and is a file of its own because `journal` is replaced. [`begin_pair`] writes the first text and journal, and [`NewText`] and
//! [`replace_journal`] the next; one rename decides which journal a start finds. [`read_store`] reads a store that another process may have locked.
//!
//! A [`FileDisk`] makes one system call for each call of [`journal::Disk`], and notes it with its result in a list that only clauses read. Contracts speak of the octets that follow
//! from this list: that the file has them is a premise.
#![tactic(auto)]

mod file;
mod files;
mod kept;
mod list;
mod names;
mod open;
mod pair;
mod read;
mod unbegun;

pub use file::{BEGUN, FileDisk, NOT_CUT, NOT_SYNCED};
pub use kept::{drop_others, keep_torn};
pub use list::CallList;
pub use names::FIRST_TEXT;
pub use open::{OpenedFolder, Pair, StoreLock, open_store};
pub use pair::{NewText, PairFault, begin_pair, is_in_place, remove_text, replace_journal};
pub use read::read_store;
