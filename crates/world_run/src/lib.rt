//! A script's model of the server: strong and weak owners of zone versions, by name, while further versions are published, with calls that are made one
//! step on a word at a time. Whatever the lines, each request is answered in the one version that was the last one at the load which gave its name.
//!
//! Contracts see the words of the cell, the names in use with their owners, the versions that are kept, the window's entries, and the
//! calls under way (`World`), and a line by the world that it leads to (`turn`). Calls as steps are in `Phases`, the window in `Entries`, and what
//! a transfer gets, by the versions it got, in `Transfers`; the words' own steps are `cell_core`'s. The outcome of an update is `judged`, and that the
//! versions are the replays of updates is a law (`Replays`). The lines are our own; the answers to requests are those of RFC 1034, RFC 1035,
//! RFC 1995, RFC 2136 and RFC 5936. This crate doesn't parse lines.
#![tactic(auto)]

mod asked;
mod calls;
mod entries;
mod fault;
mod following;
mod judged;
mod kept_owners;
mod lent;
mod message_list;
mod names;
mod options;
mod owner_list;
mod phase;
mod play;
mod published;
mod sending;
mod start;
mod step;
mod transfer;
mod words;
mod world;

pub use fault::WorldFault;
pub use lent::{Handle, Request};
pub use message_list::MessageList;
pub use options::Options;
pub use step::{Answer, Call, Octets, StepName, WorldReply, WorldStep};
pub use world::run;
