//! Requests of which a few octets tell that they have no TSIG.
ghost use Rattle.std.specs.Prelude.{◌≡◌, ◌≤◌, ◌<◌, ◌+◌, ℕ, List, length, slice_index, Some, Ok, IfSome};
ghost use Rattle.std.specs.Bool.{OnTrue};
ghost use Rattle.dns_name.specs.Name.{Name as Labels};
ghost use Rattle.dns_message.specs.Message.{Entry, number_at};
ghost use Rattle.dns_message.specs.Reads.{record_at};
ghost use Rattle.dns_message.specs.Tsig.{place_in};
ghost use Rattle.signed_replies.specs.Signed.{received};
ghost use Rattle.tsig.specs.Keys.{SharedKey};
ghost use Rattle.tsig.specs.Verification.{by_place};
ghost use Rattle.tsig.specs.declared.verifying.Verification.TheVariants.{Unsigned as unsigned};
ghost use Rattle.wire_names.specs.NameAt.{name_at};

use dns_message::{HEADER, QR};
use dns_name::MAX_LABEL;

/// Where a header counts the questions (RFC 1035, 4.1.1).
const QDCOUNT: usize = 4;

/// Where a header counts the records of the answer section (RFC 1035, 4.1.1).
const ANCOUNT: usize = 6;

/// Where a header counts the records of the authority section (RFC 1035, 4.1.1).
const NSCOUNT: usize = 8;

/// Where a header counts the records of the additional section (RFC 1035, 4.1.1).
const ARCOUNT: usize = 10;

/// The octets of a question after its name (RFC 1035, 4.1.2).
const BEHIND_NAME: usize = 4;

/// The type of an OPT (RFC 6891, 6.1.1).
const OPT: u16 = 41;

/// Whether a request has no record, or one question and then an OPT alone, as most have: it has no TSIG then (RFC 8945, 5.1). Of others it says nothing.
pub(crate) fn has_no_tsig(request: &[u8]) -> bool
    requires { HEADER ≤ length request.now }
    ensures { OnTrue result ((keys : List SharedKey) (now : ℕ) → received keys now request.now ≡ unsigned) }
{
    if request[2] >= QR {
        return false;
    }
    if has_no_records(request) {
        return true;
    }
    if !has_one_opt(request) {
        return false;
    }
    true
}

/// Whether a message has no record (RFC 1035, 4.1.1).
fn has_no_records(msg: &[u8]) -> bool
    requires { HEADER ≤ length msg.now }
    ensures answer { OnTrue result (number_at msg.now 6 ≡ 0) }
    ensures authority { OnTrue result (number_at msg.now 8 ≡ 0) }
    ensures additional { OnTrue result (number_at msg.now 10 ≡ 0) }
{
    number_at(msg, ANCOUNT) == 0 && number_at(msg, NSCOUNT) == 0 && number_at(msg, ARCOUNT) == 0
}

/// Whether a message has one question, whose name has no pointer, and then one record, an OPT.
#[inline(never)]
fn has_one_opt(msg: &[u8]) -> bool
    requires { HEADER ≤ length msg.now }
    ensures { OnTrue result ((keys : List SharedKey) (now : ℕ) → by_place keys now msg.now (place_in msg.now) ≡ unsigned) }
{
    if !has_one_record(msg) {
        return false;
    }
    let Some(next) = behind_labels(msg, HEADER) else {
        return false;
    };
    if !is_opt(msg, next + BEHIND_NAME) {
        return false;
    }
    true
}

/// Whether a message has one question, and one record, an additional one (RFC 1035, 4.1.1).
fn has_one_record(msg: &[u8]) -> bool
    requires { HEADER ≤ length msg.now }
    ensures question { OnTrue result (number_at msg.now 4 ≡ 1) }
    ensures answer { OnTrue result (number_at msg.now 6 ≡ 0) }
    ensures authority { OnTrue result (number_at msg.now 8 ≡ 0) }
    ensures additional { OnTrue result (number_at msg.now 10 ≡ 1) }
{
    number_at(msg, QDCOUNT) == 1
        && number_at(msg, ANCOUNT) == 0
        && number_at(msg, NSCOUNT) == 0
        && number_at(msg, ARCOUNT) == 1
}

/// The number of 16 bits at a position (RFC 1035, 2.3.2).
fn number_at(msg: &[u8], at: usize) -> u16
    requires { at + 2 ≤ length msg.now }
    ensures { result ≡ number_at msg.now at }
{
    u16::from_be_bytes([msg[at], msg[at + 1]])
}

/// The position after the name at a position, which ends at a zero octet before any pointer; None of any other.
fn behind_labels(msg: &[u8], at: usize) -> Option<usize>
    ensures name { IfSome result (λ next. (r : Labels × ℕ) → name_at msg.now at ≡ Ok r → r.1 ≡ next) }
    ensures within { IfSome result (λ next. next ≤ length msg.now) }
{
    let mut place = at;
    loop {
        let Some(len) = label_size(msg, place) else {
            return None;
        };
        if len == 0 {
            return Some(place + 1);
        }
        place += 1 + len;
    }
}

/// How many octets the label at a position has, 0 where a name ends there; None where no label stands there, or the octets end before its end (RFC 1035, 3.1).
fn label_size(msg: &[u8], at: usize) -> Option<usize>
    ensures octet { IfSome result (λ n. slice_index msg.now at ≡ n) }
    ensures short { IfSome result (λ n. n < 64) }
    ensures within { IfSome result (λ n. at + 1 + n ≤ length msg.now) }
{
    if at >= msg.len() {
        return None;
    }
    let len = usize::from(msg[at]);
    if len > MAX_LABEL || len >= msg.len() - at {
        return None;
    }
    Some(len)
}

/// Whether an OPT stands at a position, of the root (RFC 6891, 6.1.2).
fn is_opt(msg: &[u8], at: usize) -> bool
    requires { at ≤ length msg.now + BEHIND_NAME }
    ensures { OnTrue result ((r : Entry × ℕ) → record_at msg.now at ≡ Some r → r.0.rtype ≡ OPT) }
{
    if at + 3 > msg.len() {
        return false;
    }
    match label_size(msg, at) {
        Some(0) => number_at(msg, at + 1) == OPT,
        _ => false,
    }
}
