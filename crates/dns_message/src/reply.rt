//! What a reply says (RFC 1035, 4.1).
use crate::edns::Opt;
use crate::query::{Head, Question};
use dns_rdata::{Rcode, Shown};

/// A reply that is to be written (RFC 1035, 4.1). TC is left to its writing.
#[derive(Clone, Copy)]
pub struct Reply<'a> {
    /// What it copies from the request's header.
    pub head: Head,
    /// Its code.
    pub rcode: Rcode,
    /// Whether the answer is authoritative.
    pub aa: bool,
    /// The question that it repeats; None where the request's couldn't be read.
    pub question: Option<&'a Question>,
    /// The answer section.
    pub answer: &'a [Shown<'a>],
    /// The authority section.
    pub authority: &'a [Shown<'a>],
    /// The additional section.
    pub additional: &'a [Shown<'a>],
    /// The OPT, which is the last additional record; None in a reply to a request without one (RFC 6891, 6.1.1 and 7).
    pub opt: Option<Opt>,
    /// Whether the last name looked up is at or below a zone cut: its referral isn't sent without the additional section,
    /// in which the addresses of the name servers stand (RFC 1034, 4.2.1 and 4.3.2; own).
    pub below_cut: bool,
}
