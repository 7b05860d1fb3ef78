//! What a request and a reply add to the counters.
ghost use Rattle.std.specs.Prelude.{◌≡◌, ◌≢◌, ◌==◌, ◌++◌, length, Some, None, true, false, [], ◌∷◌, ◌<◌, IfSome};
ghost use Rattle.counters.specs.Counters.{with_counts};
ghost use Rattle.counters.specs.Rcodes.{rcode_of as rcode_named};
ghost use Rattle.counters.specs.declared.counter.Counter.TheVariants.{Question, Reply};
ghost use Rattle.message_counts.specs.Places.{opcode_of, question_type, rcode_of};
ghost use Rattle.message_counts.specs.Counts.{address_asked, address_type, one, asked_counts, queries_address, queried_type, request_counts, reply_counts, question_counts, transfer_asked, update_counts, truncated_counts};

use crate::places::{
    ALONE, ANCOUNT, HEADER, WITH_ONE, counts_of, ends_with_opt, is_truncated, low_code, number_at,
    opcode_of, pair_at, question_type, rcode_of,
};
use counters::{AddressFamily, Counter, Counters, Opcode, Qtype, Rcode, Transport};

/// The OPCODE of queries (RFC 1035, 4.1.1).
const QUERY: u8 = 0;

/// The type A (RFC 1035, 3.4.1).
const A: u16 = 1;

/// The type AAAA (RFC 3596, 2.1).
const AAAA: u16 = 28;

/// The OPCODE of updates (RFC 2136, 2.2).
pub(crate) const UPDATE: u8 = 5;

/// The type of an address that a number names.
#[inline(always)]
fn address_type(number: u16) -> Option<Qtype>
    ensures { result ≡ address_type number }
{
    if number == A {
        Some(Qtype::A)
    } else if number == AAAA {
        Some(Qtype::Aaaa)
    } else {
        None
    }
}

/// The type by which a request's question asks for an address, where that stands at its end, alone or before an OPT without options.
#[inline(always)]
fn address_asked(request: &[u8]) -> Option<Qtype>
    requires { 16 < length request.now }
    ensures asked { result ≡ address_asked request.now }
    ensures counted { IfSome result (λ qtype. question_counts (question_type request.now) ≡ one (Question qtype) ∷ []) }
    ensures address { IfSome result (λ _. transfer_asked (question_type request.now) ≡ None) }
{
    let len = request.len();
    let counts = counts_of(request);
    if counts == ALONE {
        return address_type(number_at(request, len - 4));
    }
    if counts == WITH_ONE && len > 27 && ends_with_opt(request) {
        return address_type(number_at(request, len - 15));
    }
    None
}

/// Counts a request as [`count_request`] does, where it is a query for an address that asks for nothing else, as most are: whether it is one. Nothing is counted of any other.
#[inline(always)]
pub(crate) fn count_address_query(
    counters: &mut Counters,
    transport: Transport,
    family: AddressFamily,
    request: &[u8],
) -> bool
    ensures counted { result ≡ true → counters.new ≡ with_counts (request_counts transport family request.now) counters.old }
    ensures asked { result ≡ true → transfer_asked (queried_type request.now) ≡ None }
    ensures not { result ≡ false → counters.new ≡ counters.old }
    ensures taken { result ≡ queries_address request.now }
{
    if request.len() <= 16 || opcode_of(request) != QUERY {
        return false;
    }
    let Some(qtype) = address_asked(request) else {
        return false;
    };
    counters.add(Counter::Request(transport, family));
    counters.add(Counter::Opcode(Opcode::Query));
    counters.add_many(Counter::ReceivedOctets, request.len() as u64);
    counters.add(Counter::Question(qtype));
    true
}

/// Counts a request: by its transport and its peer's address, by its OPCODE, a query by its question's type too, and its octets. A query
/// without a question that can be read counts by no type. Returns that type.
#[tactic(auto, using(crate::proofs::CountLemmas::of_query))]
pub fn count_request(
    counters: &mut Counters,
    transport: Transport,
    family: AddressFamily,
    request: &[u8],
) -> Option<u16>
    ensures counts { counters.new ≡ with_counts (request_counts transport family request.now) counters.old }
    ensures asked { result ≡ queried_type request.now }
{
    counters.add(Counter::Request(transport, family));
    if opcode_of(request) != QUERY {
        count_other(counters, request);
        return None;
    }
    counters.add(Counter::Opcode(Opcode::Query));
    counters.add_many(Counter::ReceivedOctets, request.len() as u64);
    let qtype = question_type(request);
    if let Some(number) = qtype {
        count_question(counters, number);
    }
    qtype
}

/// Counts a request that isn't a query: by its OPCODE, and its octets.
#[inline(never)]
#[tactic(auto, using(crate::proofs::CountLemmas::no_question))]
fn count_other(counters: &mut Counters, request: &[u8])
    requires other { opcode_of request.now ≢ 0 }
    ensures { counters.new ≡ with_counts (asked_counts request.now) counters.old }
{
    let len = request.len() as u64;
    counters.add(Counter::Opcode(Opcode::of(opcode_of(request))));
    counters.add_many(Counter::ReceivedOctets, len);
}

/// Counts a question of a type, that of an address first, which most ask for.
fn count_question(counters: &mut Counters, number: u16)
    ensures { counters.new ≡ with_counts (question_counts (Some number)) counters.old }
{
    if number == A {
        counters.add(Counter::Question(Qtype::A));
    } else if number == AAAA {
        counters.add(Counter::Question(Qtype::Aaaa));
    } else {
        count_rare(counters, number);
    }
}

/// Counts a question of any type.
#[inline(never)]
fn count_rare(counters: &mut Counters, number: u16)
    ensures { counters.new ≡ with_counts (question_counts (Some number)) counters.old }
{
    counters.add(Counter::Question(Qtype::of(number)));
}

/// Counts a reply as [`count_reply`] does, where it is that to a query, isn't truncated, and has the RCODE NOERROR or NXDOMAIN with an answer or an authority, as most are: whether
/// it is. Nothing is counted of any other.
#[inline(always)]
pub(crate) fn count_plain_reply(counters: &mut Counters, reply: &[u8]) -> bool
    ensures counted { result ≡ true → counters.new ≡ with_counts (reply_counts reply.now) counters.old }
    ensures query { result ≡ true → opcode_of reply.now ≡ 0 }
    ensures not { result ≡ false → counters.new ≡ counters.old }
{
    if reply.len() < HEADER || opcode_of(reply) != QUERY || is_truncated(reply) {
        return false;
    }
    // both of ANCOUNT and NSCOUNT
    if pair_at(reply, ANCOUNT) == 0 {
        return false;
    }
    match low_code(reply) {
        0 => counters.add(Counter::Reply(Rcode::NoError)),
        3 => counters.add(Counter::Reply(Rcode::NxDomain)),
        _ => return false,
    }
    counters.add_many(Counter::SentOctets, reply.len() as u64);
    true
}

/// Counts a reply of one message, or the first message of one: by its RCODE, of an update also as that, whether it is truncated, and its
/// octets. Whether it is a reply to an update.
pub fn count_reply(counters: &mut Counters, reply: &[u8]) -> bool
    ensures counts { counters.new ≡ with_counts (reply_counts reply.now) counters.old }
    ensures update { result ≡ (opcode_of reply.now == 5) }
{
    let code = rcode_of(reply);
    if code == 0 {
        counters.add(Counter::Reply(Rcode::NoError));
    } else {
        count_code(counters, code);
    }
    counters.add_many(Counter::SentOctets, reply.len() as u64);
    if opcode_of(reply) == QUERY && !is_truncated(reply) {
        return false;
    }
    count_flags(counters, reply, Rcode::of(code))
}

/// Counts a reply by its RCODE.
#[inline(never)]
fn count_code(counters: &mut Counters, code: u16)
    ensures { counters.new ≡ with_counts (one (Reply (rcode_named code)) ∷ []) counters.old }
{
    counters.add(Counter::Reply(Rcode::of(code)));
}

/// Counts whether a reply is truncated, and as one to an update whether it is that, which it returns.
#[inline(never)]
fn count_flags(counters: &mut Counters, reply: &[u8], rcode: Rcode) -> bool
    requires code { rcode ≡ rcode_named (rcode_of reply.now) }
    ensures counts { counters.new ≡ with_counts (truncated_counts reply.now ++ update_counts reply.now) counters.old }
    ensures update { result ≡ (opcode_of reply.now == 5) }
{
    if is_truncated(reply) {
        counters.add(Counter::Truncated);
    }
    let is_update = opcode_of(reply) == UPDATE;
    if is_update {
        counters.add(Counter::Update(rcode));
    }
    is_update
}
