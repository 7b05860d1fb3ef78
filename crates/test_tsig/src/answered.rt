//! Requests that other programs signed, answered by a handler that knows nothing of TSIG, after one that does.
ghost use Rattle.std.specs.Prelude.{◌≡◌, [], map};

use crate::made::keys;
use crate::messages::{
    ANSWER, ANSWER_BARE, OLD, OLD_TOLD, QUERY, QUERY_BARE, SHORT, SHORT_TOLD, UNKNOWN,
    UNKNOWN_TOLD, UPDATE, UPDATE_BARE, UPDATED, UPDATED_BARE, WRONG, WRONG_TOLD,
};
use dns_message::{Head, is_update};
use dns_name::Name;
use requests::Handler;
use rights::parse_rule;
use serve_core::{Peer, Transport};
use signed_replies::{KeyRights, KeyRing, PlainRoom, RingKeys, SignedDatagrams, UnixClock};
use snapshot_cell::Spent;
use std::alloc::Global;
use std::marker::Brand;
use std::net::{IpAddr, Ipv4Addr, SocketAddr};
use std::sync::Wait;
use std::test::Fail;
use tsig::{Keys, RequestTsig};
use zone_server::{SignsLater, TsigFault, TsigLog};

/// A clock that stands still.
#[derive(Drop)]
pub(crate) struct Still(pub u64);

impl UnixClock for Still {
    fn now(&self) -> u64 {
        self.0
    }
}

/// A log that keeps nothing.
#[derive(Drop)]
pub(crate) struct NoLog;

impl TsigLog for NoLog {
    fn tell_fault<R: Wait>(
        &self,
        _rt: &R,
        _from: SocketAddr,
        _key: &Name,
        _fault: TsigFault,
        _is_update: bool,
    ) {}
}

/// A handler that has a reply to one request, if an update one of who may, and none to any other.
#[derive(Drop)]
struct Fixed {
    request: Vec<u8>,
    reply: Vec<u8>,
    peer: Peer,
}

impl Handler for Fixed {
    ghost seen = { λ fixed. record { published = []; buried = [] } };

    ghost peer = { λ fixed. fixed.peer };

    ghost is_reply = { λ peer known later request messages. Unit {0} };

    #[tactic(auto, using(requests::proofs::TurnLemmas::grows_itself))]
    fn turn_to(&mut self, other: Peer, _from: SocketAddr) {
        self.peer = other;
    }

    #[tactic(auto, using(requests::proofs::TurnLemmas::grows_itself))]
    fn answer_unread(&mut self, _request: &[u8], _head: Head, _out: &mut [u8]) -> usize {
        0
    }

    #[tactic(auto, using(requests::proofs::TurnLemmas::grows_itself))]
    fn answer<R: Wait>(
        &mut self,
        _rt: &R,
        request: &[u8],
        out: &mut [u8],
    ) -> Result<Option<usize>, Spent> {
        let len = self.reply.len();
        if is_update(request) && !self.peer.may_update {
            return Ok(None);
        }
        if len > 512 || request != self.request.as_slice() {
            return Ok(None);
        }
        out[..len].copy_from_slice(&self.reply);
        Ok(Some(len))
    }
}

impl SignsLater for Fixed {
    #[tactic(auto, using(requests::proofs::TurnLemmas::grows_itself))]
    fn set_tsig(&mut self, _tsig: Option<RequestTsig>) {}
}

/// The address that the requests come from.
pub(crate) fn client() -> SocketAddr {
    SocketAddr::new(IpAddr::V4(Ipv4Addr::new(192, 0, 2, 7)), 5353)
}

/// What a request gets at a time, from an address that may nothing.
fn reply_to<R: Wait, K: KeyRing>(
    rt: &R,
    alloc: Global,
    keys: &Keys,
    rights: &[KeyRights<'_>],
    now: u64,
    inner: Fixed,
    request: &[u8],
) -> Result<Option<Vec<u8>>, Fail>
    requires keys { keys.now ≡ K.keys }
    requires rights { map (λ own. own.rules.now) rights.now ≡ K.rights }
{
    let ring: RingKeys<'_, K> = RingKeys::new(alloc, keys, rights);
    let peer = Peer::over(Transport::Udp, false);
    let room = PlainRoom::new(alloc)?;
    let clock = Still(now);
    let mut handler = SignedDatagrams::new(inner, &ring, clock, NoLog, room, peer, client());
    let mut out = Vec::new(alloc);
    out.resize(65535, 0)?;
    let Ok(Some(len)) = handler.answer(rt, request, &mut out) else {
        return Ok(None);
    };
    out.truncate(len);
    Ok(Some(out))
}

/// A request, a time, the request as the handler after it is to get it, its reply, and what is to be sent.
struct Exchange(&'static str, u64, &'static str, &'static str, &'static str);

/// The worked messages of other programs.
const EXCHANGES: [Exchange; 6] = [
    Exchange(QUERY, 1_700_000_001, QUERY_BARE, ANSWER_BARE, ANSWER),
    Exchange(UPDATE, 1_700_000_001, UPDATE_BARE, UPDATED_BARE, UPDATED),
    Exchange(UNKNOWN, 1_700_000_001, "", "", UNKNOWN_TOLD),
    Exchange(WRONG, 1_700_000_001, "", "", WRONG_TOLD),
    Exchange(OLD, 1_700_001_000, "", "", OLD_TOLD),
    Exchange(SHORT, 1_700_000_001, "", "", SHORT_TOLD),
];

/// Whether a reply has the header of another, and ends as that does, with the whole MAC: the owner of its TSIG may be compressed there.
fn is_like(own: &[u8], want: &[u8]) -> bool {
    let end = want.get(want.len().saturating_sub(38)..).unwrap_or(want);
    own.get(..12) == want.get(..12) && own.ends_with(end)
}

/// Whether a request gets what it is to get.
fn is_right<R: Wait>(rt: &R, alloc: Global, exchange: &Exchange) -> Result<bool, Fail> {
    let Exchange(request, now, plain, reply, want) = exchange;
    let keys = keys(alloc)?;
    let Ok(rule) = parse_rule(alloc, "key key.example.test: update") else {
        return Ok(false);
    };
    let rules = [rule];
    let rights = [KeyRights { rules: &rules }];
    let inner = Fixed {
        request: hex::decode(alloc, plain)?,
        reply: hex::decode(alloc, reply)?,
        peer: Peer::over(Transport::Udp, false),
    };
    let request = hex::decode(alloc, request)?;
    let want = hex::decode(alloc, want)?;
    let made = reply_to::<R, Brand>(rt, alloc, &keys, &rights, *now, inner, &request)?;
    Ok(made.is_some_and(|own| is_like(&own, &want)))
}

/// The number of the first exchange in which something else is sent.
fn first_wrong<R: Wait>(rt: &R, alloc: Global) -> Result<Option<usize>, Fail> {
    for (i, exchange) in EXCHANGES.iter().enumerate() {
        if !is_right(rt, alloc, exchange)? {
            return Ok(Some(i));
        }
    }
    Ok(None)
}

#[test]
fn requests_are_answered(rt: HostRuntime) -> Result<(), Fail> {
    assert_eq!(rt; first_wrong(&rt, rt.alloc())?, None);
    Ok(())
}
