//! The reply to a query for a transfer over a connection, which is started (RFC 1995, 4; RFC 5936, 2.2).
ghost use Rattle.std.specs.Prelude.{◌≡◌, ◌≢◌, ◌≤◌, ℕ, true, length, IfOk, IfErr, OnErr};
ghost use Rattle.dns_message.specs.Message.{message_limit};
ghost use Rattle.serve_core.specs.Transfers.{is_permitted, messages_to};
ghost use Rattle.zone_tree.specs.Zone.{soa_of};
ghost use Rattle.dns_engine.specs.Chain.{changes_by};
ghost use Rattle.dns_engine.specs.Held.{IsLatest};
ghost use Rattle.tcp_connections.specs.Kept.{messages_of};
ghost use Rattle.tcp_connections.specs.declared.handler.Reply.{Reply as ReplyOf};
ghost use Rattle.requests.specs.declared.stream_end.StreamEnd.{StreamEnd as EndOf};
ghost use Rattle.zone_server.specs.Answer.{IsStarted};
ghost use Rattle.zone_server.specs.Known.{HasTooFew};
ghost use Rattle.zone_replies.specs.Going.{transfer_left};

use crate::transfer::Transfer;
use dns_engine::{FirstZone, SharedVersion, VersionChain, VersionOwner, VersionReader};
use dns_message::Query;
use requests::StreamEnd;
use serve_core::{Peer, Transport};
use std::sync::Wait;
use tcp_connections::Reply;
use zone_server::{Server, ServerName, start_transfer, write_transfer};

/// The reply to a query for a transfer that is permitted in a version. The chain has the versions since the client's. Over a stream the reply is a
/// [`Transfer`], which makes the messages. Over UDP it is one message.
fn reply_transfer(
    version: SharedVersion,
    chain: VersionChain,
    query: Query,
    peer: Peer,
    out: &mut [u8],
) -> Reply<Transfer>
    requires permitted { is_permitted version.zone peer query ≡ true }
    requires room { message_limit ≤ length out.old }
    ensures made { result ≢ ReplyOf.Later }
    ensures bound { (len : ℕ) → result ≡ ReplyOf.One len → (len ≤ message_limit) × (len ≤ length out.new) }
    ensures messages { messages_of transfer_left result out.new ≡ messages_to version.zone (changes_by (soa_of version.zone) chain) peer query }
{
    match peer.transport {
        Transport::Tcp => Reply::Many(Transfer::new(version, chain, query)),
        Transport::Udp => match write_transfer(version.get(), &chain, &query, peer, out) {
            Some(len) => Reply::One(len),
            None => Reply::Silent,
        },
    }
}

/// Starts the transfer that a query asks for in the version that it was permitted in: the reply to it. `Spent` where the reader lacks a grant for one of
/// the versions since the client's.
pub(crate) fn begin_transfer<R: Wait, Z: FirstZone, N: ServerName>(
    rt: &R,
    server: &Server<'_, Z, N>,
    reader: &mut VersionReader<N>,
    strong: VersionOwner<'_, Z, N>,
    query: Query,
    peer: Peer,
    out: &mut [u8],
) -> Result<Reply<Transfer>, StreamEnd>
    requires latest { IsLatest Z.zone reader.old.seen strong.value × (strong.value.number ≡ strong.number) }
    requires permitted { is_permitted strong.value.zone peer query ≡ true }
    requires room { message_limit ≤ length out.old }
    ensures made { IfOk result (λ reply. reply ≢ ReplyOf.Later) }
    ensures bound { IfOk result (λ reply. (len : ℕ) → reply ≡ ReplyOf.One len → (len ≤ message_limit) × (len ≤ length out.new)) }
    ensures started { IfOk result (λ reply. IsStarted Z.zone peer query strong.entry.value reader.old reader.new (messages_of transfer_left reply out.new)) }
    ensures end { IfErr result (λ end. end ≡ EndOf.Spent) }
    ensures spent { OnErr result (HasTooFew Z.zone query strong.entry.value reader.old reader.new) }
{
    match start_transfer(rt, server, reader, strong, &query) {
        Ok((version, chain)) => Ok(reply_transfer(version, chain, query, peer, out)),
        Err(_) => Err(StreamEnd::Spent),
    }
}
