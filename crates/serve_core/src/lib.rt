//! What a request gets: the reply's octets in a zone, over what carries them (RFC 1034, 4.3.2; RFC 1035, 4.1 and 4.2).
//!
//! Contracts see a zone as the list of its records, a request and its reply as octets, and the reply as one function of
//! them (`got`): what the request says, the first refusal that holds, the sections of the zone's answer, and what fits
//! into the limit of the [`Transport`] and of the request's OPT (RFC 6891). An update gets a code and makes the next zone. Only an update takes memory. A
//! question for a transfer that is permitted gets its messages by [`transfer_reply`]. Frames on a connection aren't here; each
//! OPCODE but 0 and 5 gets NOTIMP.
#![tactic(auto)]

mod heading;
mod peer;
mod replies;
mod reply;
mod served;
mod transfer;
mod transport;

pub use heading::{Heading, reply_opt, write_code, write_code_by};
pub use peer::Peer;
pub use replies::replies_by_cases;
pub use served::{Responded, respond};
pub use transfer::{
    is_permitted, list_for, respond_by, respond_to, respond_to_peer, transfer_reply, transfer_start,
};
pub use transport::{TCP_LIMIT, Transport, UDP_LIMIT};
