//! Messages: how a request is read, how a reply is written, and their frames over TCP (RFC 1035, 4.1 and 4.2; RFC 2136, 2).
//!
//! Contracts see a request as what its octets say ([`Parsed`]), and a reply as its header, its question, the lists of its
//! records and its OPT (RFC 6891). Names are read through pointers, and written with pointers to names before them (RFC 1035, 4.1.4).
//! No call takes memory but that which reads an update. What is written is read again, and worked examples: `message_laws`.
#![tactic(auto)]

mod answers;
mod count;
mod data;
mod edns;
mod entry;
mod frame;
mod octets;
mod query;
mod read;
mod received;
mod records;
mod reply;
mod sent;
mod tsig;
mod update;
mod write;

pub use answers::{RecordList, SentRecord, write_answers};
pub use edns::{Edns, MAX_UDP, Opt, udp_limit};
pub use frame::{put_frame, take_frame};
pub use query::{Head, Parsed, Query, Question, Said};
pub use read::{HEADER, OPCODE_UPDATE, QR, is_update, parse, parse_into, parse_other};
pub use received::received_records;
pub use reply::Reply;
pub use tsig::{Place, tsig_place};
pub use update::{RawRecords, Update, ZoneEntry};
pub use write::{MAX_LIMIT, MIN_LIMIT, write_reply, write_reply_by};
