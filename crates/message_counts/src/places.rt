//! What octets say at their places.
ghost use Rattle.std.specs.Prelude.{◌≡◌, ◌⊎◌, ◌<◌, ◌≤◌, ◌==◌, ◌^◌, ◌+◌, ◌*◌, ◌%◌, length, drop, slice_index, Some, IfSome};
ghost use Rattle.message_counts.specs.Places.{asks_with, octet_at, is_reply, opcode_of, is_truncated, number_at, name_end, first_name_end, pair_at, ends_with_opt, named_type, question_type, rcode_of, high_code, opt_code, opt_code_after};

/// Where a header counts its questions (RFC 1035, 4.1.1).
pub(crate) const QDCOUNT: usize = 4;

/// Where a header counts the records of its answer section (RFC 1035, 4.1.1).
pub(crate) const ANCOUNT: usize = 6;

/// Where a header counts the records of its authority section (RFC 1035, 4.1.1).
pub(crate) const NSCOUNT: usize = 8;

/// A count of 1, and then one of 0.
const ONE: u32 = 65_536;

/// The counts of a header, as [`counts_of`] has them, where a question stands alone.
pub(crate) const ALONE: u64 = 281_474_976_710_656;

/// The same where one additional record comes after the question.
pub(crate) const WITH_ONE: u64 = 281_474_976_710_657;

/// How many octets a header has (RFC 1035, 4.1.1).
pub(crate) const HEADER: usize = 12;

/// The octet at a position; 0 after the last.
#[inline(always)]
fn octet_at(octets: &[u8], at: usize) -> u8
    ensures { result ≡ octet_at octets.now at }
{
    octets.get(at).copied().unwrap_or(0)
}

/// The number of 16 bits at a position (RFC 1035, 2.3.2); octets after the last are 0.
#[inline(always)]
pub(crate) fn number_at(octets: &[u8], at: usize) -> u16
    requires { at < 2 ^ 63 + 16 }
    ensures { result ≡ number_at octets.now at }
{
    let high = u16::from(octet_at(octets, at));
    let low = u16::from(octet_at(octets, at + 1));
    256 * high + low
}

/// The message ID (RFC 1035, 4.1.1).
pub fn id_of(octets: &[u8]) -> u16
    ensures { result ≡ number_at octets.now 0 }
{
    number_at(octets, 0)
}

/// Whether a message is a reply: QR (RFC 1035, 4.1.1).
pub(crate) fn is_reply(octets: &[u8]) -> bool
    ensures { result ≡ is_reply octets.now }
{
    octet_at(octets, 2) > 127
}

/// The OPCODE (RFC 1035, 4.1.1).
#[inline(always)]
pub fn opcode_of(octets: &[u8]) -> u8
    ensures { result ≡ opcode_of octets.now }
{
    octet_at(octets, 2) / 8 % 16
}

/// Whether a message is truncated: TC (RFC 1035, 4.1.1).
#[inline(always)]
pub fn is_truncated(octets: &[u8]) -> bool
    ensures { result ≡ is_truncated octets.now }
{
    octet_at(octets, 2) / 2 % 2 == 1
}

/// The position after a name in full that begins at one, and None where there is none: a label of more than 63 octets, or no end (RFC 1035, 3.1).
#[tactic(auto, using(crate::proofs::NameLemmas::ends_here, crate::proofs::NameLemmas::no_label, crate::proofs::NameLemmas::no_end))]
fn name_end(octets: &[u8], start: usize) -> Option<usize>
    ensures end { result ≡ name_end start 0 (drop start octets.now) }
    ensures within { IfSome result (λ end. end ≤ length octets.now) }
{
    let mut at = start;
    while let Some(len) = octets.get(at) {
        if *len == 0 {
            return Some(at + 1);
        }
        if *len > 63 {
            return None;
        }
        at += usize::from(*len) + 1;
    }
    None
}

/// The position after the name of the first question; None where there is no question, or its name isn't in full.
pub(crate) fn first_name_end(octets: &[u8]) -> Option<usize>
    ensures end { result ≡ first_name_end octets.now }
    ensures within { IfSome result (λ end. end ≤ length octets.now) }
{
    if number_at(octets, QDCOUNT) == 0 {
        return None;
    }
    name_end(octets, HEADER)
}

/// Two numbers of 16 bits, one after the other, as one of 32 bits.
#[inline(always)]
pub(crate) fn pair_at(octets: &[u8], at: usize) -> u32
    requires { at < 2 ^ 63 + 14 }
    ensures { result ≡ pair_at octets.now at }
{
    65_536 * u32::from(number_at(octets, at)) + u32::from(number_at(octets, at + 2))
}

/// The four counts of a header, one after the other, as one number (RFC 1035, 4.1.1).
#[inline(always)]
pub(crate) fn counts_of(octets: &[u8]) -> u64
    ensures alone { (result == 281474976710656) ≡ asks_with 0 octets.now }
    ensures with_one { (result == 281474976710657) ≡ asks_with 1 octets.now }
{
    4_294_967_296 * u64::from(pair_at(octets, QDCOUNT)) + u64::from(pair_at(octets, NSCOUNT))
}

/// Whether a message's last octets are an OPT without options: the root, type 41, class and TTL, and RDLENGTH 0 (RFC 6891, 6.1.2).
#[inline(always)]
pub(crate) fn ends_with_opt(octets: &[u8]) -> bool
    requires { 27 < length octets.now }
    ensures { result ≡ ends_with_opt octets.now }
{
    let len = octets.len();
    octet_at(octets, len - 11) == 0
        && number_at(octets, len - 10) == 41
        && number_at(octets, len - 2) == 0
}

/// The type after the name of the first question; None where there is no question, or it can't be read (RFC 1035, 4.1.2).
#[inline(never)]
fn named_type(octets: &[u8]) -> Option<u16>
    ensures { result ≡ named_type octets.now }
{
    let at = first_name_end(octets)?;
    if octets.len() < at + 2 {
        return None;
    }
    Some(number_at(octets, at))
}

/// The type of the first question (RFC 1035, 4.1.2). A question alone has it four octets before the message's end, and one before an OPT without options fifteen; any other is
/// looked for after its name. None where there is no question, or it can't be read.
pub fn question_type(octets: &[u8]) -> Option<u16>
    ensures { result ≡ question_type octets.now }
{
    let len = octets.len();
    if len <= 16 || pair_at(octets, QDCOUNT) != ONE {
        return named_type(octets);
    }
    // both of NSCOUNT and ARCOUNT
    let more = pair_at(octets, NSCOUNT);
    if more > 1 {
        return named_type(octets);
    }
    if more == 0 {
        return Some(number_at(octets, len - 4));
    }
    if len > 27 && ends_with_opt(octets) {
        return Some(number_at(octets, len - 15));
    }
    named_type(octets)
}

/// The four bits of the RCODE that a header has (RFC 1035, 4.1.1).
#[inline(always)]
pub(crate) fn low_code(octets: &[u8]) -> u8
    ensures { result ≡ octet_at octets.now 3 % 16 }
{
    octet_at(octets, 3) % 16
}

/// The RCODE: the four bits of the header (RFC 1035, 4.1.1), and of a message without answers and authorities the eight bits above them in
/// an OPT that comes next after the first question (RFC 6891, 6.1.3).
pub fn rcode_of(octets: &[u8]) -> u16
    ensures { result ≡ rcode_of octets.now }
{
    16 * u16::from(high_code(octets)) + u16::from(low_code(octets))
}

/// The upper eight bits of an RCODE, which an OPT has; 0 where there is none.
fn high_code(octets: &[u8]) -> u8
    ensures { result ≡ high_code octets.now }
{
    if number_at(octets, ANCOUNT) != 0 || number_at(octets, NSCOUNT) != 0 {
        return 0;
    }
    code_after_question(octets)
}

/// The same of a message in which no answer or authority comes before the OPT.
#[inline(never)]
fn code_after_question(octets: &[u8]) -> u8
    ensures { result ≡ opt_code_after octets.now (first_name_end octets.now) }
{
    let question = match first_name_end(octets) {
        Some(end) => end + 4,
        None => HEADER,
    };
    opt_code(octets, question)
}

/// The upper eight bits of the RCODE in an OPT that begins at a position; 0 where none does (RFC 6891, 6.1.2 and 6.1.3).
fn opt_code(octets: &[u8], at: usize) -> u8
    requires { at < 2 ^ 63 + 8 }
    ensures { result ≡ opt_code octets.now at }
{
    if octet_at(octets, at) == 0 && number_at(octets, at + 1) == 41 {
        octet_at(octets, at + 5)
    } else {
        0
    }
}
