//! Groups of peers that have many connections.
ghost use Rattle.std.specs.Prelude.{◌≡◌, ◌≤◌, ◌↔◌, IsTrue, true, false, if◌then◌else◌};
ghost use Rattle.tcp_connections.specs.Group.{has_group};
ghost use Rattle.tcp_connections.specs.declared.group.PeerGroup.{PeerGroup as Group};
ghost use Rattle.slab.specs.Slab.{get, slab_len};
ghost use Rattle.tcp_connections.specs.Places.{is_of, held, quarter, is_crowd, crowd_of};

use crate::connection::Connection;
use crate::group::{Groups, PeerGroup};
use crate::handler::Messages;
use crate::survey::Survey;
use slab::Slab;

/// Whether there is a connection under a key, and its peer is of a group.
fn is_of<S: Drop, M: Messages>(
    connections: &Slab<Connection<S, M>>,
    group: PeerGroup,
    key: usize,
) -> bool
    ensures { result ≡ is_of group (get connections.now key) }
{
    match connections.get(key) {
        Some(connection) => connection.group.is_same(group),
        None => false,
    }
}

/// How many connections the peers of a group have.
fn held_by<S: Drop, M: Messages>(connections: &Slab<Connection<S, M>>, group: PeerGroup) -> usize
    ensures { result ≡ held group connections.now }
{
    let mut held: usize = 0;
    for key in 0..connections.capacity() {
        if is_of(connections, group, key) {
            held += 1;
        }
    }
    held
}

/// A quarter of the places that are taken, at least one.
fn quarter_of<S: Drop, M: Messages>(connections: &Slab<Connection<S, M>>) -> usize
    ensures { result ≡ quarter connections.now }
{
    (connections.len() / 4).max(1)
}

/// Whether a group's peers have a quarter of the places that are taken.
pub(crate) fn has_quarter<S: Drop, M: Messages>(
    connections: &Slab<Connection<S, M>>,
    group: PeerGroup,
) -> bool
    ensures { IsTrue result ↔ (quarter connections.now ≤ held group connections.now) }
{
    quarter_of(connections) <= held_by(connections, group)
}

/// At most three groups, which include each that has more than a quarter of the connections.
fn candidates<S: Drop, M: Messages>(connections: &Slab<Connection<S, M>>) -> Groups
    ensures { (group : Group) → is_crowd connections.now group ≡ true → has_group result group ≡ true }
{
    let mut survey = Survey::new();
    for key in 0..connections.capacity() {
        match connections.get(key) {
            Some(connection) => survey.add(connection.group),
            None => {}
        }
    }
    survey.candidates()
}

/// A group, if its peers have more than a quarter of the places that are taken.
fn crowd<S: Drop, M: Messages>(
    connections: &Slab<Connection<S, M>>,
    candidate: Option<PeerGroup>,
) -> Option<PeerGroup>
    ensures { result ≡ crowd_of connections.now candidate }
{
    let group = candidate?;
    if quarter_of(connections) < held_by(connections, group) {
        return Some(group);
    }
    None
}

/// The groups whose peers have more than a quarter of the places that are taken.
pub(crate) fn crowds<S: Drop, M: Messages>(connections: &Slab<Connection<S, M>>) -> Groups
    ensures { (group : Group) → has_group result group ≡ is_crowd connections.now group }
{
    let found = candidates(connections);
    Groups {
        first: crowd(connections, found.first),
        second: crowd(connections, found.second),
        third: crowd(connections, found.third),
    }
}
