//! The keys of a server, and what the holder of each may do.
ghost use Rattle.std.specs.Prelude.{◌≡◌, List, [], map, MatchResult};
ghost use Rattle.dns_message.specs.Request.{IsWant};
ghost use Rattle.dns_message.specs.declared.query.Parsed.TheVariants.{NoMemory as no_memory};
ghost use Rattle.requests.specs.Allowed.{IsPeer};
ghost use Rattle.rights.specs.declared.rule.Rule.{Rule as RuleOf};
ghost use Rattle.signed_replies.specs.Rights.{rules_of};
ghost use Rattle.tsig.specs.Keys.{SharedKey};

use dns_message::Head;
use requests::Allowed;
use rights::Rule;
use serve_core::{Peer, Transport};
use std::alloc::Global;
use std::marker::{Brand, Model, PhantomData};
use std::net::SocketAddr;
use tsig::Keys;

/// What the holder of a key may do: the rules that name the key.
#[derive(Clone, Copy)]
pub struct KeyRights<'a> {
    /// The rules.
    pub rules: &'a [Rule],
}

/// The keys of a server and the rules of their holders, which contracts alone see. A type has them that stands for those known only when the program runs.
pub trait KeyRing {
    /// The keys.
    ghost keys: { List SharedKey };

    /// The rules of the holder of each, in the order of the keys.
    ghost rights: { List (List RuleOf) };
}

impl KeyRing for Brand {
    ghost keys = { [] };

    ghost rights = { [] };
}

/// The keys of a server and the rights of their holders. The holder of a key that no rule names has no rights.
#[derive(Drop)]
pub struct RingKeys<'k, K: KeyRing> {
    alloc: Global,
    keys: &'k Keys,
    rights: &'k [KeyRights<'k>],
    ring: PhantomData<K>,
}

impl<'k, K: KeyRing> Model for RingKeys<'k, K> {
    ghost use Rattle.std.specs.Prelude.{◌≡◌, map};

    ghost Value = { Unit {0} };

    ghost view = { λ a. tt };

    ghost invariant = { λ a. (a.keys.now ≡ K.keys) × (map (λ own. own.rules.now) a.rights.now ≡ K.rights) };
}

impl<'k, K: KeyRing> RingKeys<'k, K> {
    /// These keys and these rights.
    pub fn new(alloc: Global, keys: &'k Keys, rights: &'k [KeyRights<'k>]) -> RingKeys<'k, K>
        requires keys { keys.now ≡ K.keys }
        requires rights { map (λ own. own.rules.now) rights.now ≡ K.rights }
    {
        RingKeys {
            alloc,
            keys,
            rights,
            ring: PhantomData,
        }
    }

    /// The keys.
    pub(crate) fn keys(&self) -> &'k Keys
        ensures { result.now ≡ K.keys }
    {
        self.keys
    }

    /// The peer that sends a request from an address, over a transport, by a key: it may what the rules of the key's holder let it. An error is the header of an update that there is no
    /// memory to read.
    pub(crate) fn peer_by(
        &self,
        key: u16,
        from: SocketAddr,
        transport: Transport,
        request: &[u8],
    ) -> Result<Peer, Head>
        ensures { MatchResult result (λ peer. IsPeer (rules_of K.rights key) transport from request.now peer) (λ head. IsWant request.now (no_memory head)) }
    {
        let rules = rules_of(self.rights, key);
        Allowed::new(self.alloc, rules).peer(from, transport, request)
    }
}

/// The rules at an index; none where there are none.
fn rules_of<'k>(rights: &[KeyRights<'k>], key: u16) -> &'k [Rule]
    ensures { result.now ≡ rules_of (map (λ own. own.rules.now) rights.now) key }
{
    match rights.get(usize::from(key)) {
        Some(own) => own.rules,
        None => &[],
    }
}
