//! Connections that are over.
ghost use Rattle.std.specs.Prelude.{◌≡◌, ◌≢◌, ℕ, option_map};
ghost use Rattle.slab.specs.Slab.{get, slab_len};
ghost use Rattle.tcp_connections.specs.Deadlines.{gone_on, kept_at};
ghost use Rattle.tcp_connections.specs.Ends.{AreCounted};
ghost use Rattle.tcp_connections.specs.Connections.{ends_at};

use crate::connection::Connection;
use crate::ends::Ends;
use crate::handler::Messages;
use crate::limits::Limits;
use slab::Slab;

/// Lets the connection under a key, if there is one, go on at a time.
fn go_on<S: Drop, M: Messages>(connections: &mut Slab<Connection<S, M>>, now: u64, key: usize)
    ensures own { get connections.new key ≡ option_map (gone_on now) (get connections.old key) }
    ensures others { (other : ℕ) → other ≢ key → get connections.new other ≡ get connections.old other }
    ensures len { slab_len connections.new ≡ slab_len connections.old }
    ensures capacity { connections.new.capacity ≡ connections.old.capacity }
{
    if let Some(connection) = connections.get_mut(key) {
        connection.go_on(now);
    }
}

/// Ends the connection under a key if it is over at a time, and counts it by what it waited for, or as one whose peer took too slowly.
fn sweep_key<S: Drop, M: Messages>(
    connections: &mut Slab<Connection<S, M>>,
    limits: Limits,
    now: u64,
    key: usize,
    ends: &mut Ends,
)
    ensures own { get connections.new key ≡ kept_at limits now (get connections.old key) }
    ensures others { (other : ℕ) → other ≢ key → get connections.new other ≡ get connections.old other }
    ensures counted { ends.new ≡ ends_at limits now (get connections.old key) ends.old }
    ensures ended { AreCounted ends.old ends.new (slab_len connections.old) (slab_len connections.new) }
    ensures capacity { connections.new.capacity ≡ connections.old.capacity }
{
    let Some(connection) = connections.get(key) else {
        return;
    };
    if connection.is_over(limits, now) {
        ends.count_late(connection.state.awaits());
        connections.try_remove(key);
        return;
    }
    if connection.is_slow(limits.rate, now) {
        ends.count_slow();
        connections.try_remove(key);
        return;
    }
    go_on(connections, now, key);
}

/// Ends the connections that are over at a time, in nanoseconds of the clock by which they began, and counts them by what they waited for,
/// or as those whose peers took too slowly what was written to them. The others stay as they were, except for the windows in which what is
/// taken is counted.
pub fn sweep<S: Drop, M: Messages>(
    connections: &mut Slab<Connection<S, M>>,
    limits: Limits,
    now: u64,
    ends: &mut Ends,
)
    ensures swept { (key : ℕ) → get connections.new key ≡ kept_at limits now (get connections.old key) }
    ensures ended { AreCounted ends.old ends.new (slab_len connections.old) (slab_len connections.new) }
{
    for key in 0..connections.capacity() {
        sweep_key(connections, limits, now, key, ends);
    }
}
