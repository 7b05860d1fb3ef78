//! Tests over a running server, whose cell starts with the zone of five RRsets.
use crate::{datagrams, gone_versions, orders, refused_updates, slots, streams};
use dns_engine::{FirstZone, KEPT, VersionCell, VersionPublisher, VersionReader};
use memory_devices::{Play, Played, is_played_by, zone};
use std::alloc::Global;
use std::sync::Wait;
use zone_server::{Server, ServerLedgers, ServerName};

/// A test over a server, with readers of its cell.
#[derive(Clone, Copy)]
pub(crate) enum Course {
    /// The stream of a row.
    Stream(streams::Row),
    /// The datagrams of a row.
    Datagrams(datagrams::Row),
    /// Datagrams with updates that are submitted.
    Submitted,
    /// The tests of `gone_versions`, `orders` and `slots`.
    OwnedAWhile,
    FourUpdates,
    AllSlots,
    /// The tests of `refused_updates`.
    TwoQueries,
    UpdateAnew,
}

impl Course {
    /// Runs the test with readers of the server's cell, and puts them back. Returns whether it passes; None if memory allocation fails.
    fn go<R: Wait, Z: FirstZone, N: ServerName>(
        &self,
        rt: &R,
        alloc: Global,
        server: &Server<'_, Z, N>,
        readers: &mut Vec<VersionReader<N>>,
    ) -> Option<bool> {
        match self {
            Course::Stream(row) => streams::go(rt, alloc, server, readers, row),
            Course::Datagrams(row) => datagrams::go(rt, alloc, server, readers, row, None),
            Course::Submitted => datagrams::submit(rt, alloc, server, readers),
            Course::OwnedAWhile => gone_versions::go(rt, alloc, server, readers),
            Course::FourUpdates => orders::go(rt, alloc, server, readers),
            Course::AllSlots => slots::go(rt, alloc, server, readers),
            Course::TwoQueries => refused_updates::ask_twice(server, readers),
            Course::UpdateAnew => refused_updates::update_anew(rt, alloc, server, readers),
        }
    }
}

/// A test over a server that keeps so many versions besides the last.
#[derive(Clone, Copy)]
struct Served {
    keep: usize,
    course: Course,
}

impl Play for Served {
    fn play<R: Wait, Z: FirstZone, N: ServerName>(
        &self,
        rt: &R,
        alloc: Global,
        cell: &VersionCell<Z, N>,
        publisher: VersionPublisher<Z, N>,
        mut readers: Vec<VersionReader<N>>,
        ledgers: ServerLedgers,
    ) -> Played<Z, N> {
        let Some(reader) = readers.pop() else {
            return Played {
                outcome: None,
                publisher,
                readers,
            };
        };
        let (outcome, publisher, reader) = match Server::new(
            alloc, cell, publisher, reader, self.keep, ledgers,
        ) {
            Ok(server) => {
                let outcome = self.course.go(rt, alloc, &server, &mut readers);
                let (publisher, reader) = server.finish();
                (outcome, publisher, reader)
            }
            Err(refused) => (None, refused.publisher, refused.reader),
        };
        let _ = readers.push(reader);
        Played {
            outcome,
            publisher,
            readers,
        }
    }
}

/// Whether a test passes over a server that keeps `keep` versions besides the last, where each reader has `grants` grants. None if memory
/// allocation fails or there is no server.
pub(crate) fn outcome<R: Wait>(
    rt: &R,
    alloc: Global,
    grants: u64,
    keep: usize,
    course: &Course,
) -> Option<bool> {
    let zone = zone(alloc)?;
    let served = Served {
        keep,
        course: *course,
    };
    is_played_by(rt, alloc, zone, grants, &served)
}

/// The position of the first test that does not pass; None if all pass. Each runs over a server of its own, which keeps as many versions as it
/// may.
pub(crate) fn first_wrong<R: Wait>(
    rt: &R,
    alloc: Global,
    grants: u64,
    courses: &[Course],
) -> Option<usize> {
    let mut at = 0usize;
    for course in courses {
        if outcome(rt, alloc, grants, KEPT, course) != Some(true) {
            return Some(at);
        }
        at = at.wrapping_add(1);
    }
    None
}
