//! Places for newcomers.
ghost use Rattle.std.specs.Prelude.{◌≡◌, ◌≢◌, ◌+◌, ◌<◌, ◌≤◌, ℕ, Option, None, Some};
ghost use Rattle.tcp_connections.specs.Group.{has_group};
ghost use Rattle.slab.specs.Slab.{get, slab_len};
ghost use Rattle.tcp_connections.specs.Deadlines.{IsLeastBelow};
ghost use Rattle.tcp_connections.specs.Places.{among_has, waits_by, waits_in, IsLongest, IsGiver};
ghost use Rattle.tcp_connections.specs.declared.room.Room.{Room as RoomFor};

use crate::connection::Connection;
use crate::crowds::{crowds, has_quarter};
use crate::group::{Groups, PeerGroup};
use crate::handler::Messages;
use crate::waiting::Waiting;
use slab::Slab;

/// The groups of peers whose connections are considered.
#[derive(Clone, Copy)]
pub(crate) enum Among {
    /// All of them.
    All,
    /// These.
    These(Groups),
}

impl Among {
    /// Whether a group is among them.
    fn has(self, group: PeerGroup) -> bool
        ensures { result ≡ among_has self group }
    {
        match self {
            Among::All => true,
            Among::These(groups) => groups.has(group),
        }
    }
}

/// Since when a connection waits for a whole request, by what it waits for and since when; None if it doesn't.
fn waits_by(awaited: Waiting, begun: u64) -> Option<u64>
    ensures { result ≡ waits_by awaited begun }
{
    match awaited {
        Waiting::Request => Some(begun),
        Waiting::Rest => Some(begun),
        Waiting::Answer => None,
        Waiting::Taking => None,
    }
}

/// Since when the connection under a key waits for a whole request; None if there is none of a peer of these groups, or it doesn't.
fn waits_at<S: Drop, M: Messages>(
    connections: &Slab<Connection<S, M>>,
    among: Among,
    key: usize,
) -> Option<u64>
    ensures { result ≡ waits_in (among_has among) (get connections.now key) }
{
    let connection = connections.get(key)?;
    if !among.has(connection.group) {
        return None;
    }
    waits_by(connection.state.awaits(), connection.begun)
}

/// Of a key's number and the least so far, with its key, the lesser.
fn lesser(least: Option<(usize, u64)>, key: usize, number: u64) -> Option<(usize, u64)>
    ensures { (numbers : ℕ → Option ℕ) → IsLeastBelow numbers key least → numbers key ≡ Some number → IsLeastBelow numbers (key + 1) result }
{
    if let Some((_, least_so_far)) = least {
        if least_so_far <= number {
            return least;
        }
    }
    Some((key, number))
}

/// The connection that waits longest of those under the keys up to one, given the one of those before it.
fn longest_up_to<S: Drop, M: Messages>(
    connections: &Slab<Connection<S, M>>,
    among: Among,
    before: Option<(usize, u64)>,
    key: usize,
) -> Option<(usize, u64)>
    ensures { IsLeastBelow (λ k. waits_in (among_has among) (get connections.now k)) key before → IsLeastBelow (λ k. waits_in (among_has among) (get connections.now k)) (key + 1) result }
{
    match waits_at(connections, among, key) {
        Some(since) => lesser(before, key, since),
        None => before,
    }
}

/// The key of the connection, of a peer of some groups, that waits longest for a whole request; None if none waits for one.
fn longest<S: Drop, M: Messages>(
    connections: &Slab<Connection<S, M>>,
    among: Among,
) -> Option<usize>
    ensures { IsLongest (among_has among) connections.now result }
{
    let mut longest: Option<(usize, u64)> = None;
    for key in 0..connections.capacity() {
        longest = longest_up_to(connections, among, longest, key);
    }
    match longest {
        Some((key, _since)) => Some(key),
        None => None,
    }
}

/// The key of the connection that gives up its place to a newcomer of a group; None if none does.
fn giver<S: Drop, M: Messages>(
    connections: &Slab<Connection<S, M>>,
    newcomer: PeerGroup,
) -> Option<usize>
    ensures { IsGiver newcomer connections.now result }
{
    if has_quarter(connections, newcomer) {
        return longest(connections, Among::These(Groups::one(newcomer)));
    }
    if let Some(key) = longest(connections, Among::These(crowds(connections))) {
        return Some(key);
    }
    longest(connections, Among::All)
}

/// Whether there is a place for one more connection.
#[derive(Clone, Copy, PartialEq, Eq)]
pub enum Room {
    /// There is.
    Free,
    /// There is, since the connection under this key was ended.
    Made(usize),
    /// There is none, and no connection that may be ended for it waits for a request.
    Full,
}

/// Makes a place for one more connection, of a peer of a group, if as many are open as may be: ends the connection that has gone longest
/// without a whole request (RFC 7766, 6.2.3). If the newcomer's group has a quarter of the places already, that is one of its own;
/// otherwise it is, first, one of a group that has more than a quarter (own).
pub fn make_room<S: Drop, M: Messages>(
    connections: &mut Slab<Connection<S, M>>,
    places: usize,
    newcomer: PeerGroup,
) -> Room
    ensures free { result ≡ RoomFor.Free → (slab_len connections.old < places) × (connections.new ≡ connections.old) }
    ensures made { (key : ℕ) → result ≡ RoomFor.Made key → IsGiver newcomer connections.old (Some key) × (get connections.new key ≡ None) }
    ensures taken { (key : ℕ) → result ≡ RoomFor.Made key → places ≤ slab_len connections.old }
    ensures len { (key : ℕ) → result ≡ RoomFor.Made key → slab_len connections.new + 1 ≡ slab_len connections.old }
    ensures others { (key : ℕ) → result ≡ RoomFor.Made key → (other : ℕ) → other ≢ key → get connections.new other ≡ get connections.old other }
    ensures full { result ≡ RoomFor.Full → (places ≤ slab_len connections.old) × IsGiver newcomer connections.old None × (connections.new ≡ connections.old) }
{
    if connections.len() < places {
        return Room::Free;
    }
    let Some(key) = giver(connections, newcomer) else {
        return Room::Full;
    };
    connections.try_remove(key);
    Room::Made(key)
}
