//! A transfer of several messages that continues from a position, compared with the messages of the same transfer made all at once.
use dns_engine::{FirstZone, VersionCell, VersionChain, VersionPublisher, VersionReader};
use dns_message::{Parsed, is_update, parse_other, take_frame};
use dns_name::Name;
use dns_rdata::{RData, RRset, RType, Ttl};
use memory_devices::{
    Kept, MemoryStream, OpenGate, Play, Played, answer_stream, asker, is_played, octets_of,
    rules_if, server_of,
};
use requests::Allowed;
use serve_core::{Peer, Transport, is_permitted, respond_to_peer, transfer_reply};
use std::alloc::Global;
use std::sync::Wait;
use zone_replies::ConnectionHandler;
use zone_server::{Server, ServerLedgers, ServerName};
use zone_tree::{Version, Zone};

/// An RRset of one record, whose owner is absolute or relative to `example.test.`.
fn set_of(alloc: Global, owner: &str, rtype: u16, octets: &[u8]) -> Option<RRset> {
    let origin = Name::from_text(b"example.test.", &Name::root()).ok()?;
    let owner = Name::from_text(owner.as_bytes(), &origin).ok()?;
    let data = RData::from_wire(alloc, RType(rtype), octets).ok()?;
    RRset::new(alloc, &owner, Ttl(3600), data).ok()
}

/// A TXT record with fifteen strings of 255 octets, and one of 200.
fn long_text(alloc: Global) -> Option<Vec<u8>> {
    let mut octets = Vec::new(alloc);
    for _string in 0..15 {
        octets.push(255).ok()?;
        octets.extend_from_slice(&[b'x'; 255]).ok()?;
    }
    octets.push(200).ok()?;
    octets.extend_from_slice(&[b'y'; 200]).ok()?;
    Some(octets)
}

/// A zone of a hundred kilobytes.
fn big_zone(alloc: Global) -> Option<Zone> {
    let mut sets = Vec::new(alloc);
    let soa =
        "036e7331076578616d706c650474657374000561646d696e076578616d706c650474657374000000000100001c2000000384001275000000012c";
    let ns = octets_of(alloc, "036e7331076578616d706c65047465737400")?;
    sets.push(set_of(alloc, "example.test.", 2, &ns)?).ok()?;
    sets.push(set_of(alloc, "example.test.", 6, &octets_of(alloc, soa)?)?)
        .ok()?;
    let text = long_text(alloc)?;
    for letter in b'a'..=b'z' {
        let owner = [letter];
        let owner = str::from_utf8(&owner).ok()?;
        sets.push(set_of(alloc, owner, 1, &[192, 0, 2, letter])?)
            .ok()?;
        sets.push(set_of(alloc, owner, 16, &text)?).ok()?;
    }
    Zone::new(alloc, sets).ok()
}

/// An AXFR, a query for the SOA, and an AXFR again (RFC 5936, 2.1).
const REQUESTS: &str =
    "001e123400000001000000000000076578616d706c6504746573740000fc0001001e123401000001000000000000076578616d706c6504746573740000060001001e123500000001000000000000076578616d706c6504746573740000fc0001";

/// The number of octets that can be written.
const ROOM: usize = 300_000;

/// The maximum number of messages in a transfer of the zone.
const MESSAGES: usize = 100;

/// Appends the frame of a message to octets (RFC 1035, 4.2.2).
fn put_frame(message: &[u8], written: &mut Vec<u8>) -> Option<()> {
    let length = u16::try_from(message.len()).ok()?;
    written.extend_from_slice(&length.to_be_bytes()).ok()?;
    written.extend_from_slice(message).ok()
}

/// Appends the frames of the messages that a query gets in a version to octets, all at once.
fn put_replies(version: &Version, request: &[u8], peer: Peer, written: &mut Vec<u8>) -> Option<()> {
    let mut out = [0u8; 65_535];
    if is_update(request) {
        return None;
    }
    let Parsed::Query(query) = parse_other(request) else {
        return None;
    };
    if !is_permitted(version, &query, peer) {
        let len = respond_to_peer(version.zone(), &query, peer, &mut out);
        return put_frame(out.get(..len)?, written);
    }
    let chain = VersionChain::none();
    let mut packer = transfer_reply(version, &chain, &query, peer);
    for _message in 0..MESSAGES {
        let Some(len) = packer.next_message(&mut out) else {
            return Some(());
        };
        put_frame(out.get(..len)?, written)?;
    }
    None
}

/// The frames of all messages that the requests get in a version.
fn at_once(alloc: Global, version: &Version, peer: Peer) -> Option<Vec<u8>> {
    let requests = octets_of(alloc, REQUESTS)?;
    let mut written = Vec::new(alloc);
    let mut left = requests.as_slice();
    for _request in 0..3 {
        let (request, rest) = take_frame(left)?;
        put_replies(version, request, peer, &mut written)?;
        left = rest;
    }
    Some(written)
}

/// The octets that a connection writes. It uses one of the readers and puts it back.
fn by_places<R: Wait, Z: FirstZone, N: ServerName>(
    rt: &R,
    alloc: Global,
    server: &Server<'_, Z, N>,
    readers: &mut Vec<VersionReader<N>>,
    peer: Peer,
) -> Option<MemoryStream> {
    let stream = MemoryStream::new(alloc, octets_of(alloc, REQUESTS)?, ROOM, 1_000).ok()?;
    let rules = rules_if(alloc, peer.may_transfer)?;
    let log = Kept::new(alloc);
    let mut replies = ConnectionHandler::new(
        alloc,
        server,
        readers.pop()?,
        &log,
        peer,
        asker(4711),
    );
    let mut room = [0u8; 4_096];
    let mut out = [0u8; 65_535];
    let (_end, stream) = answer_stream(
        rt,
        alloc,
        &mut replies,
        Allowed::new(alloc, &rules),
        asker(4711),
        stream,
        &OpenGate,
        &mut room,
        &mut out,
    );
    readers.push(replies.into_reader(rt)).ok()?;
    Some(stream)
}

/// Whether a connection writes the messages that are made all at once, and these are longer than two zones.
fn is_same<R: Wait, Z: FirstZone, N: ServerName>(
    rt: &R,
    alloc: Global,
    server: &Server<'_, Z, N>,
    readers: &mut Vec<VersionReader<N>>,
) -> Option<bool> {
    let peer = Peer::over(Transport::Tcp, true);
    let mut reader = readers.pop()?;
    let one = match server.cell().load(&mut reader) {
        Ok(strong) => at_once(alloc, strong.get().get(), peer),
        Err(_) => None,
    };
    readers.push(reader).ok()?;
    let (one, other) = (one?, by_places(rt, alloc, server, readers, peer)?);
    Some(one.as_slice() == other.written() && one.len() > 200_000)
}

/// The test with both ways to make the messages.
struct BothWays;

impl Play for BothWays {
    fn play<R: Wait, Z: FirstZone, N: ServerName>(
        &self,
        rt: &R,
        alloc: Global,
        cell: &VersionCell<Z, N>,
        publisher: VersionPublisher<Z, N>,
        mut readers: Vec<VersionReader<N>>,
        ledgers: ServerLedgers,
    ) -> Played<Z, N> {
        let Some(reader) = readers.pop() else {
            return Played {
                outcome: None,
                publisher,
                readers,
            };
        };
        let (outcome, publisher, reader) = match server_of(
            alloc, cell, publisher, reader, ledgers,
        ) {
            Ok(server) => {
                let outcome = is_same(rt, alloc, &server, &mut readers);
                let (publisher, reader) = server.finish();
                (outcome, publisher, reader)
            }
            Err(refused) => (None, refused.publisher, refused.reader),
        };
        let _ = readers.push(reader);
        Played {
            outcome,
            publisher,
            readers,
        }
    }
}

#[test]
fn a_transfer_goes_on_from_its_places(rt: HostRuntime) {
    let outcome = match big_zone(rt.alloc()) {
        Some(zone) => is_played(&rt, rt.alloc(), zone, &BothWays),
        None => None,
    };
    assert_eq!(rt; outcome, Some(true));
}
