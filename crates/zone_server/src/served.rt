//! The answer to a request that is not answered at once: an update by the engine, and a transfer from the versions that it keeps (RFC 2136, 3; RFC 1995, 4; RFC 5936, 2.2).
ghost use Rattle.std.specs.Prelude.{◌≤◌, ◌⊎◌, length};
ghost use Rattle.serve_core.specs.Transport.{room_of};
ghost use Rattle.zone_server.specs.Replied.{IsUpdate, IsTransfer};
ghost use Rattle.zone_server.specs.ServeOne.{IsServed};

use crate::answer::{UpdateOutcome, serve_update};
use crate::request_answer::{Answer, answer_request};
use crate::right::ServerName;
use crate::server::Server;
use crate::transfer_start::start_transfer;
use dns_engine::{FirstZone, SharedVersion, VersionChain, VersionReader};
use dns_message::Query;
use serve_core::Peer;
use std::alloc::Global;
use std::sync::Wait;
use wire_names::NameWriter;

/// The answer to a request that was not answered at once.
#[derive(Drop)]
pub enum Served {
    /// A reply of so many bytes to a query whose transfer is not permitted in the version that is loaded.
    Reply(usize),
    /// A reply of so many bytes to an update, and the update's outcome.
    Updated(usize, UpdateOutcome),
    /// A transfer of this version for a query, with the versions since the client's.
    Transfer(SharedVersion, VersionChain, Query),
    /// The reader has too few grants for a transfer: none, or not one for each version since the client's.
    Spent,
}

/// Answers a request for which [`answer_now`](crate::answer_now) gives `Later`. For an update it writes the reply to the front of `out` (RFC 2136, 3.8), and gives its outcome. For
/// a transfer it gives the version that is loaded and the query, and for IXFR the versions since the client's, as the engine has them when its lock is held: the messages are made
/// from these after the lock is free. A query takes one load.
pub fn serve_one<R: Wait, Z: FirstZone, N: ServerName>(
    rt: &R,
    alloc: Global,
    server: &Server<'_, Z, N>,
    reader: &mut VersionReader<N>,
    peer: Peer,
    request: &[u8],
    out: &mut [u8],
) -> Served
    requires later { IsUpdate request.now ⊎ IsTransfer Z.zone peer request.now }
    requires room { room_of peer.transport ≤ length out.old }
    ensures { IsServed Z.zone peer request.now reader.old reader.new out.new result }
{
    let mut query = Query::blank();
    let mut names = NameWriter::new();
    let cell = server.cell();
    match answer_request(cell, reader, &mut query, &mut names, peer, request, out) {
        Answer::Bytes(len) => Served::Reply(len),
        Answer::Silent => unreachable!(),
        Answer::Update => {
            let (len, outcome) = serve_update(rt, alloc, server, reader, peer, request, out);
            Served::Updated(len, outcome)
        }
        Answer::Transfer(strong) => match start_transfer(rt, server, reader, strong, &query) {
            Ok((version, chain)) => Served::Transfer(version, chain, query),
            Err(_) => Served::Spent,
        },
        Answer::Spent => Served::Spent,
    }
}
