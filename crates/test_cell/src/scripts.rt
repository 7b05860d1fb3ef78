//! The world that is played over the steps, under growth that is refused. What its lines reply is told by the program's scripts.
use dns_name::Name;
use dns_rdata::{RData, RRset, RType, Ttl};
use std::alloc::Global;
use world_run::{
    Answer, Call, Handle, Options, Request, StepName, WorldFault, WorldReply, WorldStep, run,
};
use zone_tree::Zone;

/// The data of an SOA: the root twice, and five numbers of which the last, MINIMUM, is 300.
const SOA: &[u8] = b"\0\0\0\0\0\x01\0\0\x1c\x20\0\0\x03\x84\0\x12\x75\0\0\0\x01\x2c";

/// The data of an NS: `ns1.example.test.`.
const NS: &[u8] = b"\x03ns1\x07example\x04test\0";

/// The update that adds the address 192.0.2.77 at `new.example.test.`, for an hour (RFC 2136, 2).
const ADD: &[u8] =
    b"\x43\x21\x28\x00\x00\x01\x00\x00\x00\x01\x00\x00\x07example\x04test\x00\x00\x06\x00\x01\x03new\xc0\x0c\x00\x01\x00\x01\x00\x00\x0e\x10\x00\x04\xc0\x00\x02\x4d";

/// An update that can't be read.
const UNREAD: &[u8] = b"\x43\x21\x28\0\0\0\0\0\0\0\0\0";

/// The query for `new.example.test.`, type A.
const NEW: &[u8] =
    b"\x12\x34\x01\x00\x00\x01\x00\x00\x00\x00\x00\x00\x03new\x07example\x04test\x00\x00\x01\x00\x01";

/// A set of one record.
fn set_of(alloc: Global, owner: &Name, rtype: RType, octets: &[u8]) -> Option<RRset> {
    let data = RData::from_wire(alloc, rtype, octets).ok()?;
    RRset::new(alloc, owner, Ttl(3600), data).ok()
}

/// The zone `example.test.`; None where there is no memory.
fn zone_of(alloc: Global) -> Option<Zone> {
    let apex = Name::from_text(b"example.test.", &Name::root()).ok()?;
    let mut sets = Vec::new(alloc);
    for (rtype, octets) in [(RType::NS, NS), (RType::SOA, SOA)] {
        sets.push(set_of(alloc, &apex, rtype, octets)?).ok()?;
    }
    Zone::new(alloc, sets).ok()
}

/// What a line replies.
#[derive(Clone, Copy)]
enum Due {
    /// The call is under way.
    Begun,
    /// Its one step was a load, which gave this owner of version 0.
    Loaded(&'static [u8]),
    /// A reply whose octets begin with these.
    Reply(&'static [u8]),
    /// Version 0 is buried.
    Buried,
}

/// Replies to lines of each kind: an update is taken, and one that can't be read is a format error; a name is a name error in a version before
/// that has it (RFC 1035, 4.1.1).
const EACH_KIND: [Due; 6] = [
    Due::Begun,
    Due::Loaded(b"a"),
    Due::Reply(b"\x43\x21\xa8\x00"),
    Due::Reply(b"\x43\x21\xa8\x01"),
    Due::Reply(b"\x12\x34\x85\x03"),
    Due::Buried,
];

/// Whether a line's reply is what is due.
fn is_due(reply: &WorldReply, due: Due) -> bool {
    match (reply, due) {
        (WorldReply::Begun, Due::Begun) => true,
        (WorldReply::Last(StepName::Load, Answer::Owner(name, 0)), Due::Loaded(owner)) => {
            name.as_slice() == owner
        }
        (WorldReply::Answered(Answer::Reply(octets)), Due::Reply(front)) => {
            octets.as_slice().starts_with(front)
        }
        (WorldReply::Answered(Answer::Buried(0)), Due::Buried) => true,
        _ => false,
    }
}

/// Whether replies are those to lines of each kind.
fn are_due(replies: &[WorldReply]) -> bool {
    for (reply, due) in replies.iter().zip(EACH_KIND.iter()) {
        if !is_due(reply, *due) {
            return false;
        }
    }
    replies.len() == EACH_KIND.len()
}

/// Whether lines of each kind are replied to as is due; None where there is no memory.
fn are_played(alloc: Global) -> Option<bool> {
    let lines = [
        WorldStep::Begin(Handle::new(b"x"), Call::Load(Handle::new(b"a"))),
        WorldStep::Next(Handle::new(b"x")),
        WorldStep::Whole(Call::Update(Request::new(ADD))),
        WorldStep::Whole(Call::Update(Request::new(UNREAD))),
        WorldStep::Whole(Call::Ask(Handle::new(b"a"), Request::new(NEW))),
        WorldStep::Whole(Call::Drop(Handle::new(b"a"))),
    ];
    let options = Options { keep: 0, window: 0 };
    match run(alloc, zone_of(alloc)?, options, &lines) {
        Ok(replies) => Some(are_due(&replies)),
        Err(fault) => (fault != WorldFault::NoMemory).then_some(false),
    }
}

// Under one request for memory that is refused: that run says so, and the other of the two is as ever.
#[test]
fn refused_growth(rt: HostRuntime) {
    let runs = (are_played(rt.alloc()), are_played(rt.alloc()));
    assert!(rt;
        runs == (Some(true), Some(true)) || runs == (None, Some(true)) || runs == (Some(true), None)
    );
}
