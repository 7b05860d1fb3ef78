//! What the reply to a request repeats of it, where it has a code and no record (RFC 1035, 4.1.1; RFC 6891, 6.1.1 and 7).
ghost use Rattle.std.specs.Prelude.{◌≡◌, ◌≤◌, None, length, take};
ghost use Rattle.dns_message.specs.Message.{message_of};
ghost use Rattle.dns_message.specs.Octets.{fit};
ghost use Rattle.serve_core.specs.Heading.{reply_opt, header_alone, heading_of_update, heading_of_bad, coded};
ghost use Rattle.serve_core.specs.Transport.{limit_of, room_of};

use crate::transport::Transport;
use dns_message::{Edns, Head, Opt, Question, Reply, Update, write_reply_by};
use dns_rdata::Rcode;
use wire_names::NameWriter;

/// What the reply to a request repeats of it, where it has a code and no record.
#[derive(Drop)]
pub struct Heading {
    /// What it copies from the request's header.
    pub head: Head,
    /// The question; None where the header stands alone.
    pub question: Option<Question>,
    /// The OPT (RFC 6891, 6.1.1).
    pub opt: Option<Opt>,
}

impl Heading {
    /// A header alone.
    pub fn header_alone(head: Head) -> Heading
        ensures { result ≡ header_alone head }
    {
        Heading {
            head,
            question: None,
            opt: None,
        }
    }

    /// Of an update: its header alone where it has no OPT, else the entry of its zone section as well, and an OPT (RFC 2136, 2.3;
    /// RFC 6891, 6.1.1; own).
    pub fn of_update(update: &Update) -> Heading
        ensures { result ≡ heading_of_update update.now }
    {
        match update.edns {
            None => Heading::header_alone(update.head),
            Some(edns) => Heading {
                head: update.head,
                question: Some(update.zone.to_question()),
                opt: Some(edns.reply()),
            },
        }
    }

    /// Of a request whose OPT isn't obeyed: its question, and an OPT that copies its DO (RFC 6891, 6.1.3 and 7).
    pub fn of_bad(head: Head, question: &Question, dnssec_ok: bool) -> Heading
        ensures { result ≡ heading_of_bad head question.now dnssec_ok }
    {
        Heading {
            head,
            question: Some(copy_of(question)),
            opt: Some(Opt { dnssec_ok }),
        }
    }

    /// The same again.
    pub fn copy(&self) -> Heading
        ensures { result ≡ self.now }
    {
        let question = match &self.question {
            None => None,
            Some(question) => Some(copy_of(question)),
        };
        Heading {
            head: self.head,
            question,
            opt: self.opt,
        }
    }
}

/// The same question again.
fn copy_of(question: &Question) -> Question
    ensures { result ≡ question.now }
{
    Question {
        name: question.name.copy(),
        rtype: question.rtype,
        class: question.class,
    }
}

/// The OPT of the reply to a request with an OPT; None of one without (RFC 6891, 6.1.1).
pub fn reply_opt(edns: Option<Edns>) -> Option<Opt>
    ensures { result ≡ reply_opt edns }
{
    Some(edns?.reply())
}

/// Writes a code, and no record but an OPT, over a transport to the front of `out`, and gives how many octets it has
/// (RFC 1035, 4.1.1; RFC 6891, 6.1.1 and 7).
pub fn write_code(heading: &Heading, rcode: Rcode, transport: Transport, out: &mut [u8]) -> usize
    requires { room_of transport ≤ length out.old }
    ensures octets { take result out.new ≡ fit (coded heading.now rcode) (limit_of transport None) }
    ensures len { result ≤ limit_of transport None }
{
    let mut names = NameWriter::new();
    write_code_by(&mut names, heading, rcode, transport, out)
}

/// Writes a code, as [`write_code`] does, by a writer of names that the caller keeps: what it has of another message is forgotten.
pub fn write_code_by(
    names: &mut NameWriter,
    heading: &Heading,
    rcode: Rcode,
    transport: Transport,
    out: &mut [u8],
) -> usize
    requires { room_of transport ≤ length out.old }
    ensures octets { take result out.new ≡ fit (coded heading.now rcode) (limit_of transport None) }
    ensures len { result ≤ limit_of transport None }
{
    write_reply_by(names, &coded(heading, rcode), transport.limit(None), out)
}

/// A code, and no record but an OPT.
fn coded<'a>(heading: &'a Heading, rcode: Rcode) -> Reply<'a>
    ensures { message_of result ≡ coded heading.now rcode }
{
    Reply {
        head: heading.head,
        rcode,
        aa: false,
        question: heading.question.as_ref(),
        answer: &[],
        authority: &[],
        additional: &[],
        opt: heading.opt,
        below_cut: false,
    }
}
