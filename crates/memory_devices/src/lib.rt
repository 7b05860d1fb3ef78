//! Support for tests: disks, streams and datagrams held in memory, a gate that holds no request, zones from tables of records, cells of versions
//! for a test to run in, updates as the queue takes them, and logs.
//!
//! Contracts can name the octets of streams and datagrams, and say what is written. [`answer_stream`] answers the requests of a [`MemoryStream`]
//! by `tcp_connections::serve_stream`. Its contract says that the stream, given its octets before and after, ends as it should (`EndsAs`): the
//! frames of the replies are written, in order (RFC 1035, 4.2.2). [`answer_datagrams`] answers the datagrams of a [`MemoryDatagrams`] by
//! `requests::serve_udp` (`EndsBy`; RFC 1035, 4.2.1).
//!
//! A [`MemoryDisk`] is a disk for logs of `journal`: it fails as planned, and a crash of it drops, keeps, or changes what wasn't synced.
//!
//! [`is_played`] makes a cell in which only the first version of a zone is published, runs a test in it and closes it; [`server_of`] makes a
//! server over a cell.
#![tactic(auto)]

mod answer;
mod cells;
mod copy;
mod datagram;
mod gate;
mod logs;
mod memory_datagrams;
mod memory_disk;
mod memory_stream;
mod updates;
mod zones;

pub use answer::{answer_datagrams, answer_stream};
pub use cells::{
    NamedParts, Play, Played, end, is_played, is_played_by, last_of, limited_parts_of, named_parts,
    parts_of, server_of,
};
pub use datagram::Datagram;
pub use gate::OpenGate;
pub use logs::{Kept, NoLog, asker, rule_of, rules_if};
pub use memory_datagrams::MemoryDatagrams;
pub use memory_disk::{DiskFault, MemoryDisk};
pub use memory_stream::MemoryStream;
pub use updates::request_of;
pub use zones::{SetRow, octets_of, version_of, zone, zone_of};
