//! A server of one zone: queries, updates and transfers, over a cell of versions and its engine, with no device and no thread (RFC 1035; RFC 2136; RFC 5936; RFC 1995).
//!
//! [`answer_request`] answers a request with the version that it loads, [`start_transfer`] starts a transfer in that version, and [`serve_update`] gives an update to the engine,
//! which a [`Server`] keeps behind a lock: each reply is that of one version, the first zone with updates replayed (`IsReplied`). A [`DatagramHandler`] answers datagrams so. A
//! [`ServiceLog`] gets each change.
//!
//! If updates are to survive a restart, [`submit_stream`] puts them into the queue of the update thread (`update_batches`). A request on a connection gets a ticket of the
//! [`ServerState`], which keeps its [`UpdateResult`] until it is fetched. The result is about versions that are published: a reader that fetches it and meets what is published
//! has seen the version that the update was judged in, and the one that it makes.
//!
//! A [`ServerPublisher`] publishes for the update thread. It begins a batch in the version published last ([`ServerState::begin_batch`]), and finishes it under one lock: it publishes
//! what the batch makes ([`ServerState::publish_batch`]) and puts each result at its ticket ([`ServerState::put_results`]). Then it has a [`ReplySender`] wake the workers, or
//! replies by datagram. It holds the lock only briefly, twice a batch, and never while updates are judged or written to the disk.
#![tactic(auto)]

mod answer;
mod datagram_handler;
mod local_updates;
mod notifying;
mod open_ticket;
mod outgoing;
mod pending_replies;
mod reply_sender;
mod request_answer;
mod right;
mod served;
mod server;
mod server_publisher;
mod server_state;
mod service_log;
mod signs_later;
mod submit;
mod telling;
mod transfer;
mod transfer_start;
mod tsig_lines;
mod tsig_log;
mod update_result;

pub use answer::{Now, UpdateOutcome, answer_now, serve_update};
pub use datagram_handler::DatagramHandler;
pub use local_updates::LocalUpdates;
pub use notifying::{NextTurn, Notifying};
pub use open_ticket::{OpenTicket, TicketPoll, WaitingTicket};
pub use outgoing::Outgoing;
pub use pending_replies::AtTicket;
pub use reply_sender::ReplySender;
pub use request_answer::{Answer, answer_request};
pub use right::{PublishRight, ServerLedgers, ServerName};
pub use served::{Served, serve_one};
pub use server::Server;
pub use server_publisher::ServerPublisher;
pub use server_state::{BatchStart, ServerState};
pub use service_log::{Event, JobEnd, Losses, ServiceLog, Wanted};
pub use signs_later::SignsLater;
pub use submit::{
    DatagramSubmitted, Submitted, UpdateSender, submit_datagram, submit_stream, write_done,
};
pub use telling::{tell_refused, tell_served, tell_signed, tell_update};
pub use transfer::write_transfer;
pub use transfer_start::start_transfer;
pub use tsig_lines::TsigLines;
pub use tsig_log::{TsigFault, TsigLog};
pub use update_batches::{QueuedUpdate, ReplyTo, Serials};
pub use update_result::{Poll, QueuedResult, UpdateResult};
