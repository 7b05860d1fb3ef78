//! The reply to a query (RFC 1034, 4.3.2; RFC 1035, 4.1).
ghost use Rattle.std.specs.Prelude.{◌≡◌, ◌≤◌, false, true, length, take};
ghost use Rattle.dns_name.specs.Name.{is_under};
ghost use Rattle.dns_rdata.specs.Numbers.{class_IN};
ghost use Rattle.dns_message.specs.Message.{message_of, section_of};
ghost use Rattle.dns_message.specs.Octets.{fit};
ghost use Rattle.zone_tree.specs.Zone.{apex_of};
ghost use Rattle.lookup_core.specs.Additional.{additional_of};
ghost use Rattle.lookup_core.specs.First.{IsFirst, alone};
ghost use Rattle.lookup_core.specs.Shown.{section_shown};
ghost use Rattle.serve_core.specs.Reply.{asks_transfer, reply_to, answered, answered_in, unanswered, refused};
ghost use Rattle.serve_core.specs.Transport.{limit_of, room_of};

use crate::heading::reply_opt;
use crate::transport::Transport;
use dns_message::{MIN_LIMIT, Query, Question, Reply, write_reply_by};
use dns_rdata::{Class, RType, Rcode, Shown};
use lookup_core::{First, Front, More, additional_of, fill_front, first_look, may_name_hosts};
use std::slice;
use wire_names::NameWriter;
use zone_tree::ZoneRead;

/// Writes the reply to a query that asks for no transfer, or not in class IN, over a transport to the front of `out`, and gives how
/// many octets it has: the first refusal that holds, else the zone's answer (RFC 1034, 4.3.2; own).
pub(crate) fn respond_to_query<Z: ZoneRead>(
    names: &mut NameWriter,
    zone: &Z,
    query: &Query,
    transport: Transport,
    out: &mut [u8],
) -> usize
    requires room { room_of transport ≤ length out.old }
    requires no_transfer { query.now.question.class.0 ≡ class_IN → asks_transfer query.now.question ≡ false }
    ensures octets { take result out.new ≡ fit (reply_to (Z.records zone.now) query.now) (limit_of transport query.now.edns) }
    ensures len { result ≤ limit_of transport query.now.edns }
{
    let question = &query.question;
    if question.class != Class::IN {
        return write_refused(names, query, Rcode::Refused, transport, out);
    }
    if question.rtype == RType::MAILB || question.rtype == RType::MAILA {
        return write_unanswered(names, query, Rcode::NotImp, transport, out);
    }
    if !question.name.is_under(zone.apex()) {
        return write_refused(names, query, Rcode::Refused, transport, out);
    }
    write_answer(names, zone, query, transport, out)
}

/// Whether a question asks for a transfer (RFC 1995, 4; RFC 5936, 2).
pub(crate) fn asks_transfer(question: &Question) -> bool
    ensures { result ≡ asks_transfer question.now }
{
    question.rtype == RType::IXFR || question.rtype == RType::AXFR
}

/// Writes the zone's answer to a query for a name that it speaks for: one of one section from where its records stand (RFC 1034, 4.3.2).
fn write_answer<Z: ZoneRead>(
    names: &mut NameWriter,
    zone: &Z,
    query: &Query,
    transport: Transport,
    out: &mut [u8],
) -> usize
    requires room { room_of transport ≤ length out.old }
    requires under { is_under query.now.question.name (apex_of (Z.records zone.now)) ≡ true }
    ensures octets { take result out.new ≡ fit (answered_in (Z.records zone.now) query.now) (limit_of transport query.now.edns) }
    ensures len { result ≤ limit_of transport query.now.edns }
{
    let question = &query.question;
    let limit = transport.limit(query.edns);
    match first_look(zone, &question.name, question.rtype) {
        First::Data(shown) => {
            let reply = alone(query, Rcode::NoError, slice::from_ref(&shown), &[]);
            write_reply_by(names, &reply, limit, out)
        }
        First::NoData(shown) => {
            let reply = alone(query, Rcode::NoError, &[], slice::from_ref(&shown));
            write_reply_by(names, &reply, limit, out)
        }
        First::NoName(shown) => {
            let reply = alone(query, Rcode::NxDomain, &[], slice::from_ref(&shown));
            write_reply_by(names, &reply, limit, out)
        }
        First::More(more) => write_more(names, zone, query, more, transport, out),
    }
}

/// An answer of one section to a query.
fn alone<'a>(
    query: &'a Query,
    rcode: Rcode,
    answer: &'a [Shown<'a>],
    authority: &'a [Shown<'a>],
) -> Reply<'a>
    ensures { message_of result ≡ answered query.now (alone rcode (section_of answer.now) (section_of authority.now)) }
{
    Reply {
        head: query.head,
        rcode,
        aa: true,
        question: Some(&query.question),
        answer,
        authority,
        additional: &[],
        opt: reply_opt(query.edns),
        below_cut: false,
    }
}

/// Writes the zone's answer to a query, of which a first look found this: an alias, a referral, or data that may name hosts
/// (RFC 1034, 4.3.2).
fn write_more<'z, Z: ZoneRead>(
    names: &mut NameWriter,
    zone: &'z Z,
    query: &'z Query,
    more: More<'z>,
    transport: Transport,
    out: &mut [u8],
) -> usize
    requires room { room_of transport ≤ length out.old }
    requires seen { IsFirst (Z.records zone.now) query.now.question.name query.now.question.rtype.0 (First.More more) }
    ensures octets { take result out.new ≡ fit (answered_in (Z.records zone.now) query.now) (limit_of transport query.now.edns) }
    ensures len { result ≤ limit_of transport query.now.edns }
{
    let question = &query.question;
    let mut front = Front::new();
    fill_front(zone, &question.name, question.rtype, more, &mut front);
    let limit = transport.limit(query.edns);
    let plain = Reply {
        head: query.head,
        rcode: front.rcode,
        aa: front.aa,
        question: Some(question),
        answer: front.answer.as_slice(),
        authority: front.authority.as_slice(),
        additional: &[],
        opt: reply_opt(query.edns),
        below_cut: front.below_cut,
    };
    if may_name_hosts(plain.answer) || may_name_hosts(plain.authority) {
        return write_with_hosts(names, zone, &plain, limit, out);
    }
    write_reply_by(names, &plain, limit, out)
}

/// Writes a reply with the addresses of the hosts that its sections name (RFC 1034, 4.3.2, step 6). It is a function of its own, since
/// the room for these sets is made anew at each call.
fn write_with_hosts<'a, Z: ZoneRead>(
    names: &mut NameWriter,
    zone: &'a Z,
    plain: &Reply<'a>,
    limit: usize,
    out: &mut [u8],
) -> usize
    requires least { MIN_LIMIT ≤ limit }
    requires room { limit ≤ length out.old }
    ensures octets { take result out.new ≡ fit (record (message_of plain.now) {
      additional = additional_of (Z.records zone.now) (section_shown plain.now.answer.now) (section_shown plain.now.authority.now);
    }) limit }
    ensures len { result ≤ limit }
{
    let additional = additional_of(zone, plain.answer, plain.authority);
    let reply = Reply {
        additional: additional.as_slice(),
        ..*plain
    };
    write_reply_by(names, &reply, limit, out)
}

/// Writes a code that refuses a query, with the question.
pub(crate) fn write_refused(
    names: &mut NameWriter,
    query: &Query,
    rcode: Rcode,
    transport: Transport,
    out: &mut [u8],
) -> usize
    requires { room_of transport ≤ length out.old }
    ensures octets { take result out.new ≡ fit (refused query.now rcode) (limit_of transport query.now.edns) }
    ensures len { result ≤ limit_of transport query.now.edns }
{
    let reply = Reply {
        question: Some(&query.question),
        ..unanswered(query, rcode)
    };
    write_reply_by(names, &reply, transport.limit(query.edns), out)
}

/// Writes a code to a query that isn't answered: after its header alone where it has no OPT, else with the question and an OPT
/// (RFC 1035, 4.1.1; RFC 6891, 6.1.1; own).
pub(crate) fn write_unanswered(
    names: &mut NameWriter,
    query: &Query,
    rcode: Rcode,
    transport: Transport,
    out: &mut [u8],
) -> usize
    requires { room_of transport ≤ length out.old }
    ensures octets { take result out.new ≡ fit (unanswered query.now rcode) (limit_of transport query.now.edns) }
    ensures len { result ≤ limit_of transport query.now.edns }
{
    write_reply_by(
        names,
        &unanswered(query, rcode),
        transport.limit(query.edns),
        out,
    )
}

/// A code to a query that isn't answered.
fn unanswered<'a>(query: &'a Query, rcode: Rcode) -> Reply<'a>
    ensures { message_of result ≡ unanswered query.now rcode }
{
    let question = match query.edns {
        None => None,
        Some(_) => Some(&query.question),
    };
    Reply {
        head: query.head,
        rcode,
        aa: false,
        question,
        answer: &[],
        authority: &[],
        additional: &[],
        opt: reply_opt(query.edns),
        below_cut: false,
    }
}
