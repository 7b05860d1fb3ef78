//! Messages of which each has as many records of a list as fit (RFC 5936, 2.2).
ghost use Rattle.std.specs.Prelude.{◌≡◌, ◌≤◌, ◌<◌, ◌^◌, List, [], length, take, drop, option_map};
ghost use Rattle.std.specs.Option.{option_copied};
ghost use Rattle.dns_rdata.specs.Record.{Record};
ghost use Rattle.wire_names.specs.Table.{IsTable};
ghost use Rattle.dns_message.specs.Answers.{sent, first_of, answers, filled, PutsFirst, Fills, HasBody};
ghost use Rattle.dns_message.specs.Octets.{reply_octets};

use crate::edns::{Opt, opt_size, put_opt};
use crate::query::{Head, Question};
use crate::read::HEADER;
use crate::records::{put_questions, put_record};
use crate::reply::Reply;
use crate::write::{MAX_LIMIT, MIN_LIMIT, put_header};
use dns_name::Name;
use dns_rdata::{RType, Rcode, Ttl};
use wire_names::NameWriter;

/// A record of class IN that is to be sent (RFC 1035, 4.1.3).
#[derive(Drop)]
pub struct SentRecord<'a> {
    /// The owner, as it is to be spelt.
    pub owner: &'a Name,
    /// The type.
    pub rtype: RType,
    /// The TTL.
    pub ttl: Ttl,
    /// The data, uncompressed.
    pub rdata: &'a [u8],
}

/// Records that are sent one after another. Contracts see those that are left.
pub trait RecordList {
    ghost left: { Self → List Record };

    /// The first record that is left; None where none is.
    fn first(&self) -> Option<SentRecord<'_>>
        ensures { option_map sent result ≡ first_of (left self.now) };

    /// Goes on after the first record that is left.
    fn advance(&mut self)
        ensures { left self.new ≡ drop 1 (left self.old) };
}

/// Writes a message with as many records from the front of a list as fit into `out`, with a question or without one, and with an
/// OPT or without one, and gives how many octets it has and how many records its answer section has; the list is left behind
/// these records. AA is 1 and the code NOERROR (RFC 5936, 2.2; RFC 6891, 6.1.1). It takes no memory.
pub fn write_answers<L: RecordList>(
    head: Head,
    question: Option<&Question>,
    opt: Option<Opt>,
    records: &mut L,
    out: &mut [u8],
) -> (usize, u16)
    requires least { MIN_LIMIT ≤ length out.old }
    requires most { length out.old ≤ MAX_LIMIT }
    ensures octets { take result.0 out.new
        ≡ reply_octets (answers head (option_copied question.entry) opt (filled head (option_copied question.entry) opt (length out.old) [] (L.left records.old)).0) }
    ensures left { L.left records.new ≡ (filled head (option_copied question.entry) opt (length out.old) [] (L.left records.old)).1 }
    ensures count { result.1 ≡ length (filled head (option_copied question.entry) opt (length out.old) [] (L.left records.old)).0 }
    ensures len { result.0 ≤ length out.old }
{
    let (at, count) = put_body(out, question, opt, records);
    let at = put_opt(out, at, Rcode::NoError, opt).unwrap();
    let reply = Reply {
        head,
        rcode: Rcode::NoError,
        aa: true,
        question,
        answer: &[],
        authority: &[],
        additional: &[],
        opt,
        below_cut: false,
    };
    let asked = u16::from(question.is_some());
    let counts = [asked, count, 0, u16::from(opt.is_some())];
    let _ = put_header(out, &reply, false, counts);
    (at, count)
}

/// Writes the question after the place of a header, and after it as many records from the front of a list as leave room for the
/// OPT: the position after them, and how many they are.
fn put_body<L: RecordList>(
    out: &mut [u8],
    question: Option<&Question>,
    opt: Option<Opt>,
    records: &mut L,
) -> (usize, u16)
    requires least { MIN_LIMIT ≤ length out.old }
    requires most { length out.old ≤ MAX_LIMIT }
    ensures { HasBody (option_copied question.entry) opt (L.left records.old) (L.left records.new) out.old out.new result.0 result.1 }
{
    let room = out.len() - opt_size(opt);
    let front = &mut out[..room];
    let mut names = NameWriter::new();
    let start = put_questions(front, HEADER, &mut names, question).unwrap();
    put_answers(front, start, &mut names, records)
}

/// Writes as many records from the front of a list as fit at a position: the position after them, and how many they are.
fn put_answers<L: RecordList>(
    out: &mut [u8],
    at: usize,
    names: &mut NameWriter,
    records: &mut L,
) -> (usize, u16)
    requires within { at ≤ length out.old }
    requires most { length out.old < 2 ^ 16 }
    requires table { IsTable (take at out.old) names.old }
    ensures { Fills (L.left records.old) (L.left records.new) out.old out.new at names.old result.0 result.1 }
{
    let mut next = at;
    let mut count: u16 = 0;
    while let Some(behind) = put_first(out, next, names, records) {
        next = behind;
        count += 1;
        records.advance();
    }
    (next, count)
}

/// Writes the first of the records that are left at a position: the position after it; None where none is left, or it
/// doesn't fit.
fn put_first<L: RecordList>(
    out: &mut [u8],
    at: usize,
    names: &mut NameWriter,
    records: &L,
) -> Option<usize>
    requires within { at ≤ length out.old }
    requires most { length out.old < 2 ^ 16 }
    requires table { IsTable (take at out.old) names.old }
    ensures { PutsFirst (L.left records.now) out.old out.new at names.old names.new result }
{
    let record = records.first()?;
    put_record(
        out,
        at,
        names,
        record.owner,
        record.rtype,
        record.ttl,
        record.rdata,
    )
}
