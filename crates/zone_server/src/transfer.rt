//! Transfers by datagrams (RFC 1995, 2).
ghost use Rattle.std.specs.Prelude.{◌≡◌, ◌≤◌, true, length, IfOk, IfSome, OnErr};
ghost use Rattle.serve_core.specs.Transfers.{is_permitted, messages_to};
ghost use Rattle.dns_engine.specs.Chain.{changes_by};
ghost use Rattle.zone_tree.specs.Zone.{soa_of};
ghost use Rattle.requests.specs.Octets.{messages_in};
ghost use Rattle.dns_engine.specs.Held.{IsLatest};
ghost use Rattle.zone_server.specs.Answer.{IsStarted};
ghost use Rattle.zone_server.specs.Known.{HasTooFew};

use crate::right::ServerName;
use crate::server::Server;
use crate::transfer_start::start_transfer;
use dns_engine::{FirstZone, VersionChain, VersionOwner, VersionReader};
use dns_message::Query;
use serve_core::{Peer, Transport, transfer_reply};
use snapshot_cell::Spent;
use std::sync::Wait;
use transfer_core::MAX_MESSAGE;
use zone_tree::Version;

/// Writes the only message of a transfer by datagram to the front of `out` (RFC 1995, 2).
pub fn write_transfer(
    version: &Version,
    chain: &VersionChain,
    query: &Query,
    peer: Peer,
    out: &mut [u8],
) -> Option<usize>
    requires permitted { is_permitted version.now.zone peer query.now ≡ true }
    requires datagram { peer.transport ≡ Transport.Udp }
    requires room { MAX_MESSAGE ≤ length out.old }
    ensures messages { messages_in result out.new ≡ messages_to version.now.zone (changes_by (soa_of version.now.zone) chain.now) peer query.now }
    ensures bound { IfSome result (λ len. len ≤ MAX_MESSAGE) }
{
    let mut packer = transfer_reply(version, chain, query, peer);
    packer.next_message(out)
}

/// Starts a transfer by datagram in the version that it was permitted in, and writes its only message to the front of `out`. [`Spent`] if the reader lacks a grant for one of the
/// versions since the client's.
pub(crate) fn answer_transfer<R: Wait, Z: FirstZone, N: ServerName>(
    rt: &R,
    server: &Server<'_, Z, N>,
    reader: &mut VersionReader<N>,
    strong: VersionOwner<'_, Z, N>,
    query: &Query,
    peer: Peer,
    out: &mut [u8],
) -> Result<Option<usize>, Spent>
    requires latest { IsLatest Z.zone reader.old.seen strong.value × (strong.value.number ≡ strong.number) }
    requires permitted { is_permitted strong.value.zone peer query.now ≡ true }
    requires datagram { peer.transport ≡ Transport.Udp }
    requires room { MAX_MESSAGE ≤ length out.old }
    ensures started { IfOk result (λ len. IsStarted Z.zone peer query.now strong.entry.value reader.old reader.new (messages_in len out.new)) }
    ensures bound { IfOk result (λ len. IfSome len (λ n. n ≤ MAX_MESSAGE)) }
    ensures spent { OnErr result (HasTooFew Z.zone query.now strong.entry.value reader.old reader.new) }
{
    match start_transfer(rt, server, reader, strong, query) {
        Ok((version, chain)) => Ok(write_transfer(version.get(), &chain, query, peer, out)),
        Err(spent) => Err(spent),
    }
}
