//! Counts of what has become of connections.

use tcp_connections::Ends;

/// How many connections have begun, and how many have ended, given up their places, or got none.
#[derive(Clone, Copy, Default, PartialEq, Eq, Debug)]
pub struct Tally {
    /// Connections that have begun.
    pub begun: u64,
    /// Connections that have ended, by how they did, or by what was waited for too long.
    pub ends: Ends,
    /// Connections that waited for a request, or for the rest of one, and gave up their places to others.
    pub evicted: u64,
    /// Connections that got no place, since none was free, and no other that may give up its own waited for a request.
    pub turned_away: u64,
    /// Connections that got no place since there was no descriptor or no memory.
    pub no_room: u64,
}
