//! A message without its TSIG (RFC 8945, 4.3.2).
ghost use Rattle.std.specs.Prelude.{◌≡◌, ◌≤◌, ◌+◌, ◌-◌, ◌++◌, ℕ, List, length, take, drop};
ghost use Rattle.std.specs.Int.{to_be_bytes, w16};
ghost use Rattle.dns_message.specs.Message.{number_at};
ghost use Rattle.hmac.specs.Hmac.{Keyed};
ghost use Rattle.hmac.specs.Macs.{IsMac};
ghost use Rattle.tsig.specs.Digested.{without_tsig};

use crate::octets::{number_at, put_at};
use dns_message::HEADER;
use hmac::Mac;

/// Where a header counts the records of the additional section (RFC 1035, 4.1.1).
pub(crate) const ARCOUNT: usize = 10;

/// Writes a message without its TSIG, which stands at a position, to the front of `out`, with this ID, and gives how many octets it has. What is behind these stays.
#[tactic(auto, unfolding(crate::specs::Digested::without_tsig))]
pub fn write_without_tsig(msg: &[u8], start: usize, id: u16, out: &mut [u8]) -> usize
    requires header { HEADER ≤ length msg.now }
    requires room { length msg.now ≤ length out.old }
    ensures octets { take result out.new ≡ without_tsig msg.now start id }
    ensures within { result ≤ length msg.now }
    ensures behind { drop result out.new ≡ drop result out.old }
{
    let at = put_at(out, 0, &id.to_be_bytes());
    let at = put_at(out, at, &msg[2..ARCOUNT]);
    let at = put_at(out, at, &fewer(msg));
    put_at(out, at, body_of(msg, start))
}

/// Adds a message without its TSIG, which stands at a position, to a MAC's text, with this ID.
#[tactic(auto, unfolding(crate::specs::Digested::without_tsig))]
pub(crate) fn add_without_tsig(mac: &mut Mac, msg: &[u8], start: usize, id: u16)
    requires { HEADER ≤ length msg.now }
    ensures { (key : Keyed) (text : List ℕ) → IsMac mac.old key text → IsMac mac.new key (text ++ without_tsig msg.now start id) }
{
    mac.add(&id.to_be_bytes());
    mac.add(&msg[2..ARCOUNT]);
    mac.add(&fewer(msg));
    mac.add(body_of(msg, start));
}

/// ARCOUNT less one (RFC 8945, 4.3.2).
fn fewer(msg: &[u8]) -> [u8; 2]
    requires { HEADER ≤ length msg.now }
    ensures { result ≡ to_be_bytes w16 (number_at msg.now 10 - 1) }
{
    number_at(msg, ARCOUNT).saturating_sub(1).to_be_bytes()
}

/// What stands behind the header, up to a position.
fn body_of(msg: &[u8], start: usize) -> &[u8]
    requires { HEADER ≤ length msg.now }
    ensures body { result.now ≡ take (start - 12) (drop 12 msg.now) }
    ensures within { HEADER + length result.now ≤ length msg.now }
{
    let body = &msg[HEADER..];
    body.get(..start.saturating_sub(HEADER)).unwrap_or(body)
}
