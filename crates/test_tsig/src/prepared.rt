//! Requests of connections that other programs signed, which a handler gets before their turn, after one that knows TSIG.
ghost use Rattle.std.specs.Prelude.{◌≡◌, [], map};

use crate::answered::{NoLog, Still, client};
use crate::made::keys;
use crate::messages::{QUERY, UNKNOWN, UPDATE, UPDATE_BARE, WRONG};
use dns_message::is_update;
use requests::StreamEnd;
use rights::parse_rule;
use serve_core::{Peer, Transport};
use signed_replies::{KeyRights, KeyRing, PlainRoom, RingKeys, SignedConnections};
use std::alloc::Global;
use std::marker::Brand;
use std::net::SocketAddr;
use std::sync::Wait;
use std::test::Fail;
use tcp_connections::{Handler, Messages, Reply};
use tsig::Keys;

/// No messages.
#[derive(Drop)]
struct NoMessages;

impl Messages for NoMessages {
    ghost left = { λ none. [] };

    fn next_message(&mut self, _out: &mut [u8]) -> Option<usize> {
        None
    }
}

/// A handler that takes up the updates of who may, and keeps the last one, and how many requests were before it. It answers each request later.
#[derive(Drop)]
struct TakesUp {
    alloc: Global,
    peer: Peer,
    asker: usize,
    taken: Vec<u8>,
    between: usize,
}

impl Handler<NoMessages> for TakesUp {
    ghost seen = { λ _ _. record { asked = record { published = []; buried = [] }; latest = record { published = []; buried = [] } } };

    ghost peer = { λ takes. takes.peer };

    ghost asker = { λ takes. takes.asker };

    ghost is_reply = { λ peer known later request messages. Unit {0} };

    ghost is_later = { λ peer request. Unit {0} };

    ghost spent = { λ takes. Unit {0} };

    #[tactic(auto, using(tcp_connections::proofs::RequestLemmas::each_itself))]
    fn turn_to(&mut self, _from: SocketAddr, key: usize) {
        self.asker = key;
    }

    fn set_peer(&mut self, other: Peer) {
        self.peer = other;
    }

    #[tactic(auto, using(tcp_connections::proofs::RequestLemmas::each_itself))]
    fn reply<R: Wait>(
        &mut self,
        _rt: &R,
        _request: &[u8],
        _out: &mut [u8],
    ) -> Result<Reply<NoMessages>, StreamEnd> {
        Ok(Reply::Later)
    }

    #[tactic(auto, using(tcp_connections::proofs::RequestLemmas::each_itself))]
    fn prepare<R: Wait>(
        &mut self,
        _rt: &R,
        between: usize,
        request: &[u8],
        _out: &mut [u8],
    ) -> bool {
        if !self.peer.may_update || !is_update(request) {
            return false;
        }
        let Ok(taken) = request.to_vec(self.alloc) else {
            return false;
        };
        self.taken = taken;
        self.between = between;
        true
    }
}

/// A request, a time, and as what the handler is to take it up; no octets where it isn't to.
struct Offer(&'static str, u64, &'static str);

/// The requests: signed; signed, but late; without a TSIG, from an address that may nothing; a query; by a key that isn't known; and with another MAC.
const OFFERS: [Offer; 6] = [
    Offer(UPDATE, 1_700_000_001, UPDATE_BARE),
    Offer(UPDATE, 1_700_001_000, ""),
    Offer(UPDATE_BARE, 1_700_000_001, ""),
    Offer(QUERY, 1_700_000_001, ""),
    Offer(UNKNOWN, 1_700_000_001, ""),
    Offer(WRONG, 1_700_000_001, ""),
];

/// What is taken up of a request at a time, with three requests before it, and whether it is.
fn taken_up<R: Wait, K: KeyRing>(
    rt: &R,
    alloc: Global,
    keys: &Keys,
    rights: &[KeyRights<'_>],
    now: u64,
    request: &[u8],
) -> Result<(Vec<u8>, bool), Fail>
    requires keys { keys.now ≡ K.keys }
    requires rights { map (λ own. own.rules.now) rights.now ≡ K.rights }
{
    let ring: RingKeys<'_, K> = RingKeys::new(alloc, keys, rights);
    let peer = Peer::over(Transport::Tcp, false);
    let inner = TakesUp {
        alloc,
        peer,
        asker: 0,
        taken: Vec::new(alloc),
        between: 0,
    };
    let room = PlainRoom::new(alloc)?;
    let clock = Still(now);
    let from = client();
    let mut handler: SignedConnections<'_, '_, K, NoMessages, TakesUp, Still, NoLog> =
        SignedConnections::new(alloc, inner, &ring, clock, NoLog, room, peer, from);
    let mut out = Vec::new(alloc);
    out.resize(65535, 0)?;
    let is_taken = handler.prepare(rt, 3, request, &mut out);
    let inner = handler.into_inner();
    let is_right = is_taken && inner.between == 3;
    Ok((inner.taken, is_right))
}

/// Whether a request is taken up as it is to be.
fn is_right<R: Wait>(rt: &R, alloc: Global, offer: &Offer) -> Result<bool, Fail> {
    let Offer(request, now, plain) = offer;
    let keys = keys(alloc)?;
    let Ok(rule) = parse_rule(alloc, "key key.example.test: update") else {
        return Ok(false);
    };
    let rules = [rule];
    let rights = [KeyRights { rules: &rules }];
    let request = hex::decode(alloc, request)?;
    let plain = hex::decode(alloc, plain)?;
    let (taken, is_taken) = taken_up::<R, Brand>(rt, alloc, &keys, &rights, *now, &request)?;
    Ok(taken.as_slice() == plain.as_slice() && is_taken != plain.is_empty())
}

/// The number of the first request that is taken up otherwise.
fn first_wrong<R: Wait>(rt: &R, alloc: Global) -> Result<Option<usize>, Fail> {
    for (i, offer) in OFFERS.iter().enumerate() {
        if !is_right(rt, alloc, offer)? {
            return Ok(Some(i));
        }
    }
    Ok(None)
}

#[test]
fn requests_are_taken_up(rt: HostRuntime) -> Result<(), Fail> {
    assert_eq!(rt; first_wrong(&rt, rt.alloc())?, None);
    Ok(())
}
