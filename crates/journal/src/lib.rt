//! A journal of updates, as octets and on a disk (own). This crate opens no file, and doesn't look into a message.
//!
//! A journal is a head and frames, each a batch of updates that were synced to the disk together. A head says which zone text the journal belongs to ([`Head`], [`write_head`],
//! [`read_head`]). A frame has a mark, the length of its body, its number, its body, and an SHA-256 that is salted with the head's ([`write_frame`], [`read_frame`], [`read_all`]); its body is
//! a batch ([`put_request`], [`read_batch`]) of requests, each of one message or more ([`RequestMessages`]). [`tail_of`] distinguishes what a crash leaves from damage: a later frame is looked for only where its mark occurs, so that no octet is digested
//! twice for it. [`recover`] gives what a start reads from a zone text and a journal, or why it refuses them.
//!
//! A [`Disk`] is what a journal is written to; what a crash leaves of it begins with what was synced. A [`Log`] appends to one: at Ok the batch is on the disk; at an error the journal has
//! what it had, or nothing more can be appended. That a file is such a disk is a premise, and no contract can say it.
#![tactic(auto)]

mod batch;
mod disk;
mod frame;
mod frames;
mod head_octets;
mod heads;
mod laws;
mod log;
mod parts;
mod request;
mod start;
mod tails;

pub use batch::{put_request, read_batch, write_request};
pub use disk::Disk;
pub use frame::{BODY_LIMIT, SUM, read_frame, write_frame};
pub use frames::read_all;
pub use head_octets::{read_head, write_head};
pub use heads::{Head, HeadFault, TextSum};
pub use laws::{
    each_cut_is_a_beginning, no_later_frame_is_torn, octets_are_read_once, one_frame, one_head,
    what_is_written_is_read, what_is_written_is_recovered, what_was_synced_is_read_first,
    what_was_synced_is_recovered_first,
};
pub use log::{Log, LogFault};
pub use request::RequestMessages;
pub use start::{Recovered, Refused, recover, recover_counted};
pub use tails::{Tail, tail_of};
