//! How a message is signed (RFC 8945, 5.3).
ghost use Rattle.std.specs.Prelude.{◌≡◌, ◌≤◌, ◌<◌, ◌+◌, ◌-◌, ◌^◌, [], length, take, drop, max, nat_le, nat_lt, ◌&&◌, Ok, IfSome, option_and_then};
ghost use Rattle.std.specs.Bool.{OnTrue};
ghost use Rattle.dns_name.specs.Name.{Name as Labels};
ghost use Rattle.dns_message.specs.Message.{number_at};
ghost use Rattle.dns_message.specs.Reads.{question_of};
ghost use Rattle.hmac.specs.Hmac.{mac_size};
ghost use Rattle.tsig.specs.Digested.{mac_over, mac_later};
ghost use Rattle.tsig.specs.Fields.{other_of};
ghost use Rattle.tsig.specs.Signing.{stamped, with_record, with_tsig, signed_later, tsig_size, question_end, end_within, cut_middle, cut_to, cut, fitted, signed_within};

use crate::digest::{mac_later, mac_over};
use crate::fields::{Data, FIXED};
use crate::key::Key;
use crate::octets::{number_at, put_at};
use crate::record::{BETWEEN, record_octets};
use crate::stamp::Stamp;
use crate::without_tsig::ARCOUNT;
use arrayvec::ArrayVec;
use dns_message::HEADER;
use hmac::MAX_MAC;
use wire_names::Message;

/// The most octets of a TSIG of ours (own).
pub const MAX_TSIG: usize = 237;

/// Where a header counts the questions (RFC 1035, 4.1.1).
const QDCOUNT: usize = 4;

/// The octets of a question behind its name (RFC 1035, 4.1.2).
const BEHIND_NAME: usize = 4;

/// The most octets of a question: a name of 255, and four (RFC 1035, 2.3.4 and 4.1.2).
const MAX_QUESTION: usize = 259;

/// Signs the message in the first octets of `out` by a key, and gives how many octets it has then. `prior` is the MAC of the request that it replies to, or nothing where it is a
/// request, and becomes the message's own. A reply whose TSIG doesn't fit the limit, or which has 65,535 additional records, is cut to its header, with TC 1 and NOERROR, and its
/// question (RFC 8945, 5.3). What is behind the message and the limit stays. It takes no memory.
pub fn sign(
    key: &Key,
    prior: &mut ArrayVec<u8, MAX_MAC>,
    stamp: &Stamp,
    limit: usize,
    out: &mut [u8],
    len: usize,
) -> usize
    requires header { HEADER ≤ len }
    requires least { 512 ≤ limit }
    requires within { len ≤ length out.old }
    requires room { limit ≤ length out.old }
    ensures octets { take result out.new ≡ signed_within key.now prior.old.items stamp.now limit (take len out.old) }
    ensures mac { let plain = fitted (tsig_size key.now stamp.now) limit (take len out.old) in prior.new.items ≡ mac_over key.now prior.old.items plain (stamped stamp.now plain []) }
    ensures limit { result ≤ limit }
    ensures behind { drop (max len limit) out.new ≡ drop (max len limit) out.old }
{
    let size = tsig_size(key, stamp);
    let len = fit(out, len, size, limit);
    let other = stamp.error.other();
    let fields = data_of(stamp, &out[..len], &[], &other);
    let mac = mac_over(key, prior, &out[..len], &fields);
    append_tsig(key, stamp, &mac, out, len);
    *prior = mac;
    len + size
}

/// Signs a later message of a reply, as [`sign`] does, where `prior` is the MAC of the one before; it is never cut (RFC 8945, 5.3.1).
pub fn sign_later(
    key: &Key,
    prior: &mut ArrayVec<u8, MAX_MAC>,
    stamp: &Stamp,
    out: &mut [u8],
    len: usize,
) -> usize
    requires header { HEADER ≤ len }
    requires room { len + MAX_TSIG ≤ length out.old }
    requires counted { number_at out.old 10 < 2 ^ 16 - 1 }
    ensures octets { take result out.new ≡ signed_later key.now prior.old.items stamp.now (take len out.old) }
    ensures mac { prior.new.items ≡ mac_later key.now prior.old.items (take len out.old) (stamped stamp.now (take len out.old) []) }
    ensures size { result ≤ len + MAX_TSIG }
    ensures behind { drop result out.new ≡ drop result out.old }
{
    let size = tsig_size(key, stamp);
    let other = stamp.error.other();
    let fields = data_of(stamp, &out[..len], &[], &other);
    let mac = mac_later(key, prior, &out[..len], &fields);
    append_tsig(key, stamp, &mac, out, len);
    *prior = mac;
    len + size
}

/// The fields of a message's TSIG with this MAC and this Other Data (RFC 8945, 4.2).
fn data_of<'m>(stamp: &Stamp, plain: &[u8], mac: &'m [u8], other: &'m [u8]) -> Data<'m>
    requires header { HEADER ≤ length plain.now }
    requires tells { other.now ≡ other_of stamp.now.error }
    ensures { result ≡ stamped stamp.now plain.now mac.now }
{
    Data {
        time: stamp.time,
        fudge: stamp.fudge,
        mac,
        original: number_at(plain, 0),
        error: stamp.error.number(),
        other,
    }
}

/// How many octets the TSIG of a key has.
fn tsig_size(key: &Key, stamp: &Stamp) -> usize
    ensures size { result ≡ tsig_size key.now stamp.now }
    ensures most { result ≤ MAX_TSIG }
{
    let names = key.name().wire().len() + BETWEEN + key.algorithm().wire().len();
    names + FIXED + key.secret().mac_size() + stamp.error.other().len()
}

/// Puts a key's TSIG of this MAC behind the message in the first octets of `out`.
fn append_tsig(key: &Key, stamp: &Stamp, mac: &[u8], out: &mut [u8], len: usize)
    requires header { HEADER ≤ len }
    requires whole { length mac.now ≡ mac_size key.now.secret.algorithm }
    requires room { len + tsig_size key.now stamp.now ≤ length out.old }
    requires counted { number_at out.old 10 < 2 ^ 16 - 1 }
    ensures octets { take (len + tsig_size key.now stamp.now) out.new ≡ with_tsig key.now stamp.now mac.now (take len out.old) }
    ensures behind { drop (len + tsig_size key.now stamp.now) out.new ≡ drop (len + tsig_size key.now stamp.now) out.old }
{
    let other = stamp.error.other();
    let fields = data_of(stamp, &out[..len], mac, &other);
    let added = record_octets(key.name(), key.algorithm(), &fields);
    append_record(out, len, &added);
}

/// Puts an additional record behind the message in the first octets of `out`, and gives how many octets it has then.
pub(crate) fn append_record(out: &mut [u8], len: usize, added: &[u8]) -> usize
    requires header { HEADER ≤ len }
    requires room { len + length added.now ≤ length out.old }
    requires counted { number_at out.old 10 < 2 ^ 16 - 1 }
    ensures octets { take result out.new ≡ with_record (take len out.old) added.now }
    ensures size { result ≡ len + length added.now }
    ensures behind { drop result out.new ≡ drop result out.old }
{
    let count = number_at(out, ARCOUNT) + 1;
    put_at(out, ARCOUNT, &count.to_be_bytes());
    put_at(out, len, added)
}

/// Cuts the reply in the first octets of `out`, where it doesn't fit the limit with a TSIG of so many octets, and gives how many octets it has.
fn fit(out: &mut [u8], len: usize, size: usize, limit: usize) -> usize
    requires header { HEADER ≤ len }
    requires least { 512 ≤ limit }
    requires small { size ≤ MAX_TSIG }
    requires within { len ≤ length out.old }
    requires room { limit ≤ length out.old }
    ensures octets { take result out.new ≡ fitted size limit (take len out.old) }
    ensures header { HEADER ≤ result }
    ensures room { result + size ≤ limit }
    ensures counted { number_at out.new 10 < 2 ^ 16 - 1 }
    ensures behind { drop (max len limit) out.new ≡ drop (max len limit) out.old }
{
    if has_room(out, len, size, limit) {
        return len;
    }
    cut(out, len)
}

/// Whether the message in the first octets of a buffer fits a limit with a TSIG of so many octets, and one more additional record can be counted (RFC 1035, 4.1.1).
#[tactic(auto, using(crate::proofs::ListLemmas::number_of_first))]
fn has_room(octets: &[u8], len: usize, size: usize, limit: usize) -> bool
    requires header { HEADER ≤ len }
    requires small { size ≤ MAX_TSIG }
    requires within { len ≤ length octets.now }
    ensures has { result ≡ nat_le (length (take len octets.now) + size) limit && nat_lt (number_at (take len octets.now) 10) (2 ^ 16 - 1) }
    ensures fits { OnTrue result (len + size ≤ limit) }
    ensures counted { OnTrue result (number_at octets.now 10 < 2 ^ 16 - 1) }
{
    len + size <= limit && number_at(octets, ARCOUNT) < u16::MAX
}

/// Cuts the reply in the first octets of `out` to its header, with TC 1 and NOERROR, and its question, and gives how many octets these have (RFC 8945, 5.3).
fn cut(out: &mut [u8], len: usize) -> usize
    requires header { HEADER ≤ len }
    requires within { len ≤ length out.old }
    ensures octets { take result out.new ≡ cut (take len out.old) }
    ensures header { HEADER ≤ result }
    ensures few { result ≤ HEADER + MAX_QUESTION }
    ensures counted { number_at out.new 10 ≡ 0 }
    ensures behind { drop len out.new ≡ drop len out.old }
{
    match question_end(&out[..len]) {
        None => cut_to(out, len, 0, HEADER),
        Some(end) => cut_to(out, len, 1, end),
    }
}

/// Cuts the reply in the first octets of `out` to a position, with the header of a reply that is cut, and so many questions.
fn cut_to(out: &mut [u8], len: usize, asked: u8, end: usize) -> usize
    requires header { HEADER ≤ end }
    requires before { end ≤ len }
    requires within { len ≤ length out.old }
    ensures octets { take result out.new ≡ cut_to (take len out.old) asked end }
    ensures end { result ≡ end }
    ensures counted { number_at out.new 10 ≡ 0 }
    ensures behind { drop len out.new ≡ drop len out.old }
{
    let middle = cut_middle(&out[..len], asked);
    put_at(out, 2, &middle);
    end
}

/// What stands between the ID and the question of a reply that is cut: its flags, and its counts (RFC 8945, 5.3).
fn cut_middle(plain: &[u8], asked: u8) -> [u8; 10]
    requires { HEADER ≤ length plain.now }
    ensures { result ≡ cut_middle plain.now asked }
{
    let first = plain[2] / 4 * 4 + 2 + plain[2] % 2;
    let second = plain[3] / 16 * 16;
    [first, second, 0, asked, 0, 0, 0, 0, 0, 0]
}

/// Where the question of a reply ends that has one; None of another number of questions, and where it can't be read (RFC 1035, 4.1.2).
fn question_end(plain: &[u8]) -> Option<usize>
    requires { HEADER ≤ length plain.now }
    ensures end { result ≡ question_end plain.now }
    ensures within { IfSome result (λ end. (HEADER ≤ end) × (end ≤ length plain.now) × (end ≤ HEADER + MAX_QUESTION)) }
{
    if number_at(plain, QDCOUNT) != 1 {
        return None;
    }
    let Ok((_, at)) = Message::new(plain).read_name(HEADER) else {
        return None;
    };
    end_behind(plain, at)
}

/// Where the question ends whose name ends at a position; None where the octets end before, and of more octets than a question has (RFC 1035, 4.1.2).
fn end_behind(plain: &[u8], at: usize) -> Option<usize>
    ensures end { (name : Labels) → result ≡ option_and_then (λ q. end_within q.1) (question_of plain.now (Ok (name, at))) }
    ensures within { IfSome result (λ end. (HEADER ≤ end) × (end ≤ length plain.now) × (end ≤ HEADER + MAX_QUESTION)) }
{
    let end = at.checked_add(BEHIND_NAME)?;
    if end > plain.len() || end < HEADER || end > HEADER + MAX_QUESTION {
        return None;
    }
    Some(end)
}
