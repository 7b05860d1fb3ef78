//! What of a signed message is digested (RFC 8945, 4.3 and 5.3).
ghost use Rattle.std.specs.Prelude.{◌≡◌, ◌≤◌, ◌<◌, ◌^◌, ◌++◌, ℕ, List, length, take, bytes_eq};
ghost use Rattle.hmac.specs.Hmac.{Keyed, hmac_by, mac_size};
ghost use Rattle.hmac.specs.Macs.{IsMac};
ghost use Rattle.tsig.specs.Digested.{without_tsig, front, timers, variables, key_variables, digested, mac_over, mac_later};
ghost use Rattle.tsig.specs.Fields.{with_length};
ghost use Rattle.tsig.specs.Verification.{is_right};

use crate::fields::Data;
use crate::key::Key;
use crate::tsig_error::time_octets;
use crate::without_tsig::add_without_tsig;
use arrayvec::ArrayVec;
use dns_message::HEADER;
use hmac::{MAX_MAC, Mac, is_same};

/// Whether the MAC of the TSIG at a position is the message's, or the beginning of it (RFC 8945, 5.2.2).
#[tactic(auto, unfolding(crate::specs::Verification::is_right))]
pub(crate) fn is_right(key: &Key, prior: &[u8], msg: &[u8], start: usize, fields: &Data<'_>) -> bool
    requires header { HEADER ≤ length msg.now }
    requires few { length prior.now < 2 ^ 16 }
    requires small { length fields.now.other < 2 ^ 16 }
    ensures { result ≡ is_right key.now prior.now msg.now start fields.now }
{
    let own = mac_of(key, prior, msg, start, fields);
    is_front(fields.mac, &own)
}

/// Whether a MAC is the beginning of another.
fn is_front(mac: &[u8], own: &[u8]) -> bool
    ensures { result ≡ bytes_eq mac.now (take (length mac.now) own.now) }
{
    is_same(mac, front_of(own, mac.len()))
}

/// The first octets, so many; all where there are fewer.
fn front_of(octets: &[u8], count: usize) -> &[u8]
    ensures { result.now ≡ take count octets.now }
{
    octets.get(..count).unwrap_or(octets)
}

/// The MAC of a message without its TSIG, which stands at a position, by the fields of that (RFC 8945, 4.3).
fn mac_of(
    key: &Key,
    prior: &[u8],
    msg: &[u8],
    start: usize,
    fields: &Data<'_>,
) -> ArrayVec<u8, MAX_MAC>
    requires header { HEADER ≤ length msg.now }
    requires few { length prior.now < 2 ^ 16 }
    requires small { length fields.now.other < 2 ^ 16 }
    ensures { result.items ≡ mac_over key.now prior.now (without_tsig msg.now start fields.now.original) fields.now }
{
    let mut mac = key.secret().begin();
    add_front(&mut mac, prior);
    add_without_tsig(&mut mac, msg, start, fields.original);
    add_variables(&mut mac, key, fields);
    mac.finish()
}

/// The MAC of a message that has no TSIG, by the fields of the one that it gets (RFC 8945, 4.3).
pub(crate) fn mac_over(
    key: &Key,
    prior: &[u8],
    plain: &[u8],
    fields: &Data<'_>,
) -> ArrayVec<u8, MAX_MAC>
    requires few { length prior.now < 2 ^ 16 }
    requires small { length fields.now.other < 2 ^ 16 }
    ensures mac { result.items ≡ mac_over key.now prior.now plain.now fields.now }
    ensures size { length result.items ≡ mac_size key.now.secret.algorithm }
{
    let mut mac = key.secret().begin();
    add_front(&mut mac, prior);
    mac.add(plain);
    add_variables(&mut mac, key, fields);
    mac.finish()
}

/// The MAC of a later message of a reply (RFC 8945, 5.3.1).
pub(crate) fn mac_later(
    key: &Key,
    prior: &[u8],
    plain: &[u8],
    fields: &Data<'_>,
) -> ArrayVec<u8, MAX_MAC>
    requires { length prior.now < 2 ^ 16 }
    ensures mac { result.items ≡ mac_later key.now prior.now plain.now fields.now }
    ensures size { length result.items ≡ mac_size key.now.secret.algorithm }
{
    let mut mac = key.secret().begin();
    add_front(&mut mac, prior);
    mac.add(plain);
    add_timers(&mut mac, fields);
    mac.finish()
}

/// Adds what comes first: the MAC in front, where there is one (RFC 8945, 4.3.1 and 5.3.1).
fn add_front(mac: &mut Mac, prior: &[u8])
    requires { length prior.now < 2 ^ 16 }
    ensures { (key : Keyed) (text : List ℕ) → IsMac mac.old key text → IsMac mac.new key (text ++ front prior.now) }
{
    if prior.len() == 0 {
        mac.add(&[]);
    } else {
        add_with_length(mac, prior);
    }
}

/// Adds octets behind their number.
fn add_with_length(mac: &mut Mac, octets: &[u8])
    requires { length octets.now < 2 ^ 16 }
    ensures { (key : Keyed) (text : List ℕ) → IsMac mac.old key text → IsMac mac.new key (text ++ with_length octets.now) }
{
    mac.add(&(octets.len() as u16).to_be_bytes());
    mac.add(octets);
}

/// Adds Time Signed and Fudge (RFC 8945, 5.3.1).
#[tactic(auto, unfolding(crate::specs::Digested::timers))]
fn add_timers(mac: &mut Mac, fields: &Data<'_>)
    ensures { (key : Keyed) (text : List ℕ) → IsMac mac.old key text → IsMac mac.new key (text ++ timers fields.now) }
{
    mac.add(&time_octets(fields.time));
    mac.add(&fields.fudge.to_be_bytes());
}

/// Adds the variables that a key determines (RFC 8945, 4.3.3).
#[tactic(auto, unfolding(crate::specs::Digested::key_variables))]
fn add_key(mac: &mut Mac, by: &Key)
    ensures { (key : Keyed) (text : List ℕ) → IsMac mac.old key text → IsMac mac.new key (text ++ key_variables by.now) }
{
    mac.add(by.name().fold().wire());
    mac.add(&[0, 255, 0, 0, 0, 0]);
    mac.add(by.algorithm().wire());
}

/// Adds the variables of a TSIG (RFC 8945, 4.3.3).
#[tactic(auto, unfolding(crate::specs::Digested::variables))]
fn add_variables(mac: &mut Mac, by: &Key, fields: &Data<'_>)
    requires { length fields.now.other < 2 ^ 16 }
    ensures { (key : Keyed) (text : List ℕ) → IsMac mac.old key text → IsMac mac.new key (text ++ variables by.now fields.now) }
{
    add_key(mac, by);
    add_timers(mac, fields);
    mac.add(&fields.error.to_be_bytes());
    add_with_length(mac, fields.other);
}
