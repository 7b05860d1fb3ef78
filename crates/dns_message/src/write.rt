//! How a reply is written (RFC 1035, 4.1 and 4.2.1).
ghost use Rattle.std.specs.Prelude.{◌≡◌, ◌≤◌, ◌<◌, ◌^◌, true, length, take, drop, MatchOption};
ghost use Rattle.wire_names.specs.Table.{IsTable};
ghost use Rattle.wire_names.specs.Written.{IsOverwritten};
ghost use Rattle.dns_message.specs.Message.{message_of};
ghost use Rattle.dns_message.specs.Encoded.{WritesParts, WritesEncoding};
ghost use Rattle.dns_message.specs.Octets.{bit, counts_in, flags_octets, header_octets, sections_octets, reply_octets, truncated, room_under, fits, fit};

use crate::count::{count_additional, count_section};
use crate::edns::put_opt;
use crate::octets::{put, put_u16};
use crate::read::{OPCODE, QR};
use crate::records::{put_questions, put_section};
use crate::reply::Reply;
use wire_names::NameWriter;

/// The least limit of a reply, in octets: what each UDP reader takes (RFC 1035, 4.2.1).
pub const MIN_LIMIT: usize = 512;

/// The greatest limit of a reply, in octets: what a TCP frame's length can say (RFC 1035, 4.2.2).
pub const MAX_LIMIT: usize = 65535;

/// AA, by its place in the third octet (RFC 1035, 4.1.1).
const AA: u8 = 4;

/// TC, by its place in the third octet (RFC 1035, 4.1.1).
const TC: u8 = 2;

/// Writes a reply to the front of `out`, and gives how many octets it has: the whole reply where it fits the limit, and a
/// message's 65,535 octets; else, unless the last name looked up is at or below a zone cut, the reply without its additional
/// section where that fits; else its header and question alone with TC 1; in each case with its OPT, where it has one
/// (RFC 1035, 4.1, 4.2.1 and 4.2.2; RFC 2181, 9; RFC 6891, 7; own). What is after a whole reply stays, and in any case what
/// is past the limit. It takes no memory.
///
/// The names of the question, of owners and of NS, CNAME, SOA, PTR and MX data have pointers to names before them
/// in the reply (RFC 1035, 4.1.4); the target of an SRV is written in full (RFC 2782).
pub fn write_reply(reply: &Reply<'_>, limit: usize, out: &mut [u8]) -> usize
    requires least { MIN_LIMIT ≤ limit }
    requires room { limit ≤ length out.old }
    ensures octets { take result out.new ≡ fit (message_of reply.now) limit }
    ensures len { result ≤ limit }
    ensures whole { fits (message_of reply.now) limit ≡ true → IsOverwritten out.old out.new 0 (reply_octets (message_of reply.now)) result }
    ensures behind { drop (room_under limit) out.new ≡ drop (room_under limit) out.old }
{
    let mut names = NameWriter::new();
    write_reply_by(&mut names, reply, limit, out)
}

/// Writes a reply, as [`write_reply`] does, by a writer of names that the caller keeps: what it has of another message is forgotten.
pub fn write_reply_by(
    names: &mut NameWriter,
    reply: &Reply<'_>,
    limit: usize,
    out: &mut [u8],
) -> usize
    requires least { MIN_LIMIT ≤ limit }
    requires room { limit ≤ length out.old }
    ensures octets { take result out.new ≡ fit (message_of reply.now) limit }
    ensures len { result ≤ limit }
    ensures whole { fits (message_of reply.now) limit ≡ true → IsOverwritten out.old out.new 0 (reply_octets (message_of reply.now)) result }
    ensures behind { drop (room_under limit) out.new ≡ drop (room_under limit) out.old }
{
    let room = &mut out[..limit.min(MAX_LIMIT)];
    if let Some(len) = put_message(names, room, reply) {
        return len;
    }
    let may_be_shorter = !reply.below_cut;
    if may_be_shorter {
        let shorter = Reply {
            additional: &[],
            ..*reply
        };
        // TC stays 0: it tells of what is needed, and additional data is not (RFC 2181, 9).
        if let Some(len) = put_message(names, room, &shorter) {
            return len;
        }
    }
    put_truncated(names, room, reply)
}

/// Writes a reply's header, question and OPT alone, with TC 1: how many octets they have (RFC 2181, 9; RFC 6891, 7). It is a function of its
/// own, since it is seldom called.
#[inline(never)]
fn put_truncated(names: &mut NameWriter, out: &mut [u8], reply: &Reply<'_>) -> usize
    requires least { MIN_LIMIT ≤ length out.old }
    requires most { length out.old ≤ MAX_LIMIT }
    ensures { IsOverwritten out.old out.new 0 (reply_octets (truncated (message_of reply.now))) result }
{
    let asked = u16::from(reply.question.is_some());
    let counts = [asked, 0, 0, u16::from(reply.opt.is_some())];
    let at = put_header(out, reply, true, counts).unwrap();
    names.reset();
    let next = put_questions(out, at, names, reply.question).unwrap();
    put_opt(out, next, reply.rcode, reply.opt).unwrap()
}

/// Writes the whole reply to the front of a buffer, as `put` does.
fn put_message(names: &mut NameWriter, out: &mut [u8], reply: &Reply<'_>) -> Option<usize>
    requires { length out.old ≤ MAX_LIMIT }
    ensures { WritesParts out.old out.new 0 (reply_octets (message_of reply.now)) result }
{
    let counts = counts_of(reply)?;
    let at = put_header(out, reply, false, counts)?;
    names.reset();
    put_sections(out, at, names, reply)
}

/// Writes the four sections at a position, as `put_name` does, the OPT last (RFC 1035, 4.1; RFC 6891, 6.1.1).
fn put_sections(
    out: &mut [u8],
    at: usize,
    names: &mut NameWriter,
    reply: &Reply<'_>,
) -> Option<usize>
    requires within { at ≤ length out.old }
    requires most { length out.old ≤ MAX_LIMIT }
    requires table { IsTable (take at out.old) names.old }
    ensures { WritesEncoding (sections_octets (message_of reply.now)) out.old out.new at names.old names.new result }
{
    let at = put_questions(out, at, names, reply.question)?;
    let at = put_section(out, at, names, reply.answer)?;
    let at = put_section(out, at, names, reply.authority)?;
    let at = put_section(out, at, names, reply.additional)?;
    put_opt(out, at, reply.rcode, reply.opt)
}

/// The counts of a reply's sections, by their headings in order; None where one hasn't 16 bits (RFC 1035, 4.1.1).
fn counts_of(reply: &Reply<'_>) -> Option<[u16; 4]>
    ensures { MatchOption result
        (2 ^ 16 ≤ length (reply_octets (message_of reply.now)))
        (λ counts. counts ≡ counts_in (message_of reply.now)) }
{
    Some([
        u16::from(reply.question.is_some()),
        count_section(reply.answer)?,
        count_section(reply.authority)?,
        count_additional(reply.additional, reply.opt)?,
    ])
}

/// Writes a reply's header, with this TC and these counts, to the front of a buffer, as `put` does (RFC 1035, 4.1.1).
pub(crate) fn put_header(
    out: &mut [u8],
    reply: &Reply<'_>,
    tc: bool,
    counts: [u16; 4],
) -> Option<usize>
    ensures { WritesParts out.old out.new 0 (header_octets (record (message_of reply.now) { tc = tc }) counts) result }
{
    let [questions, answers, authorities, additionals] = counts;
    let at = put_u16(out, 0, reply.head.id)?;
    let at = put(out, at, &flags_of(reply, tc))?;
    let at = put_u16(out, at, questions)?;
    let at = put_u16(out, at, answers)?;
    let at = put_u16(out, at, authorities)?;
    put_u16(out, at, additionals)
}

/// The two octets of a reply's flags (RFC 1035, 4.1.1).
fn flags_of(reply: &Reply<'_>, tc: bool) -> [u8; 2]
    ensures { result ≡ flags_octets (record (message_of reply.now) { tc = tc }) }
{
    let front = QR
        + OPCODE * reply.head.opcode
        + AA * bit(reply.aa)
        + TC * bit(tc)
        + bit(reply.head.rd);
    [front, reply.rcode.header_bits()]
}

/// A flag, as a bit.
fn bit(flag: bool) -> u8
    ensures { result ≡ bit flag }
{
    if flag { 1 } else { 0 }
}
