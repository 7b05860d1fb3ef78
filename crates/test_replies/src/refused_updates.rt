//! Updates and queries when memory allocation fails: the version published last stays, queries are answered from it, and the same update, sent
//! again, makes the next version.
use crate::served::{Course, outcome};
use crate::slots::update_of;
use crate::streams::ALL;
use dns_engine::{FirstZone, VersionChain, VersionReader};
use dns_rdata::{Rcode, Serial};
use serve_core::{Peer, Transport};
use std::alloc::Global;
use std::sync::Wait;
use transfer_core::{ChainView, VersionList};
use zone_server::{Now, Server, ServerName, answer_now};
use zone_tree::ZoneRead;

/// The query for the type A of www.example.test., and its reply: the alias and the address of its target (RFC 1035, 4.1).
const QUERY: &[u8] =
    b"\x12\x34\x01\x00\x00\x01\x00\x00\x00\x00\x00\x00\x03www\x07example\x04test\x00\x00\x01\x00\x01";

const REPLY: &[u8] =
    b"\x12\x34\x85\x00\x00\x01\x00\x02\x00\x00\x00\x00\x03www\x07example\x04test\x00\x00\x01\x00\x01\xc0\x0c\x00\x05\x00\x01\x00\x00\x0e\x10\x00\x06\x03web\xc0\x10\xc0\x2e\x00\x01\x00\x01\x00\x00\x0e\x10\x00\x04\xc0\x00\x02\x0a";

/// Whether the query is answered at once.
fn is_answered<Z: FirstZone, N: ServerName>(
    server: &Server<'_, Z, N>,
    reader: &mut VersionReader<N>,
) -> bool {
    let mut out = [0u8; 65_535];
    let peer = Peer::over(Transport::Tcp, true);
    match answer_now(server.cell(), reader, peer, QUERY, &mut out) {
        Now::Bytes(len) => out.get(..len) == Some(REPLY),
        _ => false,
    }
}

/// Two queries.
pub(crate) fn ask_twice<Z: FirstZone, N: ServerName>(
    server: &Server<'_, Z, N>,
    readers: &mut Vec<VersionReader<N>>,
) -> Option<bool> {
    let mut reader = readers.pop()?;
    let first = is_answered(server, &mut reader);
    let second = is_answered(server, &mut reader);
    let _ = readers.push(reader);
    Some(first && second)
}

/// Whether the first version is still the last one: its number, its serial, its five RRsets, and its answer to the query.
fn has_first<Z: FirstZone, N: ServerName>(
    server: &Server<'_, Z, N>,
    reader: &mut VersionReader<N>,
) -> bool {
    let Ok(owner) = server.cell().load(reader) else {
        return false;
    };
    let version = owner.get().get();
    let mut sets = 0u64;
    for _set in version.zone().walk() {
        sets = sets.saturating_add(1);
    }
    let is_first = (version.number(), version.serial().0, sets) == (0, 1, 5);
    let _ = owner.release();
    is_first && is_answered(server, reader)
}

/// The response code of an update. If that is SERVFAIL and nothing has changed, the code of the same update sent again. None if memory
/// allocation fails.
fn sent_anew<R: Wait, Z: FirstZone, N: ServerName>(
    rt: &R,
    alloc: Global,
    server: &Server<'_, Z, N>,
    reader: &mut VersionReader<N>,
) -> Option<Rcode> {
    let update = update_of(alloc, 77)?;
    let (code, _serials) = server.update(rt, alloc, reader, &update, true);
    if code != Rcode::ServFail || !has_first(server, reader) {
        return Some(code);
    }
    let (code, _serials) = server.update(rt, alloc, reader, &update, true);
    Some(code)
}

/// An update, sent again if memory allocation fails. It is then published, and the versions since the first one have its changes.
pub(crate) fn update_anew<R: Wait, Z: FirstZone, N: ServerName>(
    rt: &R,
    alloc: Global,
    server: &Server<'_, Z, N>,
    readers: &mut Vec<VersionReader<N>>,
) -> Option<bool> {
    let mut reader = readers.pop()?;
    let code = sent_anew(rt, alloc, server, &mut reader);
    let number = server.meet(rt, &mut reader);
    let chain = VersionChain::of(rt, server.chain(rt, &mut reader, Serial(1), 1));
    let _ = readers.push(reader);
    let chain = chain.ok()?;
    Some((code?, number, chain.is_whole(), chain.len()) == (Rcode::NoError, 1, true, 1))
}

/// Whether a course goes as expected. It is run again if memory allocation fails.
fn answered_anew<R: Wait>(rt: &R, alloc: Global, course: &Course) -> Option<bool> {
    match outcome(rt, alloc, ALL, 2, course) {
        Some(outcome) => Some(outcome),
        None => outcome(rt, alloc, ALL, 2, course),
    }
}

// If any one allocation that grows memory fails, the version published last stays, with its answers, and the same update, sent again, makes
// the next version.
#[test]
fn refused_growth(rt: HostRuntime) {
    assert_eq!(rt;
        answered_anew(&rt, rt.alloc(), &Course::UpdateAnew),
        Some(true)
    );
}

// If any one allocation fails, queries are answered as before: they allocate nothing.
#[test]
fn answers_at_once_where_memory_is_refused(rt: HostRuntime) {
    assert_eq!(rt;
        answered_anew(&rt, rt.alloc(), &Course::TwoQueries),
        Some(true)
    );
}

// The same if all allocations fail from some point on: once a zone is in its cell, its queries are answered.
#[test]
fn answers_at_once_where_memory_is_refused_ever_after(rt: HostRuntime) {
    assert!(rt; outcome(&rt, rt.alloc(), ALL, 2, &Course::TwoQueries) != Some(false));
}
