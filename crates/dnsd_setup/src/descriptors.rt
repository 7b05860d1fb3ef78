//! The limit on open descriptors (Linux, proc(5)).
ghost use Rattle.std.specs.Prelude.{◌≡◌, ◌+◌, ◌-◌, ◌*◌, ◌/◌, ◌<◌, ◌≤◌, min, max};

use std::fs;
use std::rt::Files;

/// The file in which the system lists a process's limits.
const LIMITS: &str = "/proc/self/limits";

/// The label before the limit on descriptors in that file.
const OPEN_FILES: &str = "Max open files";

/// The maximum number of descriptors needed besides those of connections and sockets (own).
const BESIDE: usize = 32;

/// The number of descriptors that the workers may need. For each address, each worker has its own listener and its own UDP socket, for which the
/// update thread has another descriptor.
pub fn wanted(workers: usize, places: usize, addresses: usize) -> usize {
    places
        .saturating_add(addresses.saturating_mul(3))
        .saturating_add(2)
        .saturating_mul(workers)
        .saturating_add(BESIDE)
}

/// The number of connections that each worker may have open, if the program may have `limit` descriptors: as many as there are descriptors for, at
/// least one, and at most as many as requested. The toolchain has no call that raises the limit.
pub fn places_within(limit: usize, workers: usize, places: usize, addresses: usize) -> usize
    requires some { 0 < workers }
    // A worker's share of the descriptors less those of its sockets: at least one, and at most as many as requested.
    ensures places { result ≡ min places (max 1 ((limit - BESIDE) / workers - (addresses * 3 + 2))) }
    ensures most { result ≤ places }
    ensures one { 0 < places → 0 < result }
{
    let sockets = addresses.saturating_mul(3).saturating_add(2);
    let each = limit.saturating_sub(BESIDE) / workers;
    each.saturating_sub(sockets).max(1).min(places)
}

/// The number of descriptors that the program may have open. None if it is unknown, or there is no limit.
pub fn limit<R: Files>(rt: &R) -> Option<usize>
where
    R: AllocGlobal,
{
    let octets = fs::read(rt, LIMITS).ok()?;
    let text = str::from_utf8(octets.as_slice()).ok()?;
    limit_in(text)
}

/// The limit on descriptors in the text of that file.
fn limit_in(text: &str) -> Option<usize> {
    for line in text.split('\n') {
        if let Some(rest) = line.strip_prefix(OPEN_FILES) {
            return first_number(rest);
        }
    }
    None
}

/// The first word of a line, as a number.
fn first_number(line: &str) -> Option<usize> {
    for word in line.split(' ') {
        if !word.is_empty() {
            return word.parse::<usize>().ok();
        }
    }
    None
}
