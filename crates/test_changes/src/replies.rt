//! A reply that no request to the program gets: with records, and without a question.
ghost use Rattle.std.specs.Prelude.{◌≤◌, length};

use crate::made::set_of;
use dns_message::{Head, MIN_LIMIT, Reply, write_reply};
use dns_rdata::{LentName, RRset, RType, Rcode, Shown};
use std::slice;

/// A set under its own owner.
fn shown(set: &RRset) -> Shown<'_> {
    Shown {
        owner: LentName::stored(set.stored_owner()),
        ttl: None,
        sets: slice::from_ref(set),
    }
}

/// A reply without a question, with a record in the authority and in the additional section.
fn referral(servers: &RRset, host: &RRset, out: &mut [u8]) -> usize
    requires { MIN_LIMIT ≤ length out.old }
{
    let reply = Reply {
        head: Head {
            id: 0xfedc,
            opcode: 2,
            rd: false,
        },
        rcode: Rcode::NxDomain,
        aa: false,
        question: None,
        answer: &[],
        authority: &[shown(servers)],
        additional: &[shown(host)],
        opt: None,
        below_cut: true,
    };
    write_reply(&reply, MIN_LIMIT, out)
}

/// That reply's octets: without a question the first name is at 12; the name of the NS data, at 28, is the owner after it (RFC 1035,
/// 4.1.4).
const REFERRAL: &[u8] = b"\xfe\xdc\x90\x03\x00\x00\x00\x00\x00\x01\x00\x01\
    \x04test\x00\x00\x02\x00\x01\x00\x00\x0e\x10\x00\x05\x02ns\xc0\x0c\
    \xc0\x1c\x00\x01\x00\x01\x00\x00\x0e\x10\x00\x04\xc0\x00\x02\x01";

#[test]
fn sections_in_order(rt: HostRuntime) {
    let servers = set_of(rt.alloc(), &("test.", RType::NS, b"\x02ns\x04test\x00")).expect(
        &rt, "a set",
    );
    let host = set_of(rt.alloc(), &("ns.test.", RType::A, &[192, 0, 2, 1])).expect(&rt, "a set");
    let mut out = [0xee; MIN_LIMIT];
    let len = referral(&servers, &host, &mut out);
    assert_eq!(rt; out.get(..len), Some(REFERRAL));
}
