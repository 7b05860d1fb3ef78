//! The octets after the last whole frame of a journal (own).
ghost use Rattle.std.specs.Prelude.{◌≡◌, ◌↔◌, ◌+◌, ◌≤◌, ℕ, List, IsTrue, length, All, MatchOption};
ghost use Rattle.std.specs.Int.{w64, to_be_bytes};
ghost use Rattle.journal.specs.Frame.{mark_of};
ghost use Rattle.journal.specs.Private.{IsDigested};
ghost use Rattle.journal.specs.Tail.{BeginsMarked, IsBlank, IsOutline, IsTail, ShowsLater, StandsAgain};

use crate::frame::{ROUND, SUM, behind_mark, first_size, frame_among, mark_of};
use crate::parts::first_u64;

/// The octets after the last whole frame of a journal.
#[derive(Clone, Copy, Debug, PartialEq, Eq)]
pub enum Tail {
    /// None, or only zeros: room that was allocated ahead, or pages that a crash lost.
    Blank,
    /// Octets in which no later frame begins: what a crash leaves of the last frame, or damage in it. The octets don't show which of the two.
    Torn,
    /// At this octet of the tail begins a frame whose number is later than that of the next one. Since frames are synced to the disk one after
    /// another, everything before it was on the disk: it is damaged. Or octets there begin as such a frame and overlap a further mark, which no crash
    /// leaves: then it isn't checked whether it is a frame.
    Later(usize),
}

/// Classifies the octets after the last whole frame, which don't begin with the frame of number `next`. Each position is checked for the mark of a
/// later frame. The number of octets digested is added to `digested`: each one at most once, whatever they are. It allocates no memory.
pub fn tail_of(salt: &[u8; SUM], digested: &mut u64, next: u64, rest: &[u8]) -> Tail
    ensures tail { IsTail salt.now next rest.now result }
    ensures count { digested.new ≤ digested.old + length rest.now }
{
    if is_blank(rest) {
        return Tail::Blank;
    }
    let mark = mark_of(salt);
    for at in 0..rest.len() {
        if shows_later(salt, mark, digested, next, &rest[at..]) {
            return Tail::Later(at);
        }
    }
    Tail::Torn
}

/// Whether octets are only zeros.
fn is_blank(octets: &[u8]) -> bool
    ensures { IsTrue result ↔ IsBlank octets.now }
{
    octets.iter().all(|octet| *octet == 0)
}

/// Whether octets begin with a frame whose number is later than `next`, or begin as such a one and the mark occurs again within it: then no checksum is
/// computed, so that no octet is digested for two marks.
fn shows_later(salt: &[u8; SUM], mark: u64, digested: &mut u64, next: u64, octets: &[u8]) -> bool
    requires { mark_of salt.now ≡ to_be_bytes w64 mark }
    ensures shows { IsTrue result ↔ ShowsLater salt.now next octets.now }
    ensures count { IsDigested (mark_of salt.now) octets.now digested.old digested.new }
{
    let Some(whole) = outline_of(mark, next, octets) else {
        return false;
    };
    if stands_again(mark, whole) {
        return true;
    }
    let Some(_) = frame_among(salt, digested, next.saturating_add(1), u64::MAX, whole) else {
        return false;
    };
    true
}

/// As many octets as a later frame would have, if octets begin as one does: with this mark, a length, and a number that is later than `next`.
fn outline_of(mark: u64, next: u64, octets: &[u8]) -> Option<&[u8]>
    ensures { MatchOption result
        ((whole rest : List ℕ) → IsOutline (to_be_bytes w64 mark) next octets.now whole rest → ⊥)
        (λ whole. (rest : List ℕ) × IsOutline (to_be_bytes w64 mark) next octets.now whole.now rest) }
{
    let behind = behind_mark(mark, octets)?;
    let (size, behind_size) = first_size(behind)?;
    let (number, _) = first_u64(behind_size)?;
    if number <= next {
        return None;
    }
    let (whole, _) = octets.split_at_checked(ROUND + size as usize)?;
    Some(whole)
}

/// Whether octets begin with this mark.
fn begins_marked(mark: u64, octets: &[u8]) -> bool
    ensures { IsTrue result ↔ BeginsMarked (to_be_bytes w64 mark) octets.now }
{
    behind_mark(mark, octets).is_some()
}

/// Whether this mark occurs in octets after their first one.
fn stands_again(mark: u64, octets: &[u8]) -> bool
    ensures { IsTrue result ↔ StandsAgain (to_be_bytes w64 mark) octets.now }
{
    for place in 1..octets.len() {
        if begins_marked(mark, &octets[place..]) {
            return true;
        }
    }
    false
}
