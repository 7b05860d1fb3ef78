//! How long each thread of a server hasn't gone round.
use std::alloc::{AllocError, Global};

/// Of each thread how often it has shown its numbers, and since when that is the same, in milliseconds.
#[derive(Drop)]
pub(crate) struct ThreadRounds {
    rounds: Vec<u64>,
    since: Vec<u64>,
}

impl ThreadRounds {
    /// Nothing is known of threads.
    pub(crate) fn new(alloc: Global) -> ThreadRounds {
        ThreadRounds {
            rounds: Vec::new(alloc),
            since: Vec::new(alloc),
        }
    }

    /// Notes how often each thread has shown its numbers up to a time.
    pub(crate) fn note(&mut self, rounds: &[u64], now: u64) -> Result<(), AllocError> {
        for (place, shown) in rounds.iter().enumerate() {
            self.note_one(place, *shown, now)?;
        }
        Ok(())
    }

    /// Notes the same of the thread at a place.
    fn note_one(&mut self, place: usize, shown: u64, now: u64) -> Result<(), AllocError> {
        if place >= self.rounds.len() {
            self.rounds.push(shown)?;
            self.since.push(now)?;
            return Ok(());
        }
        if self.rounds[place] != shown {
            self.rounds[place] = shown;
            if let Some(since) = self.since.get_mut(place) {
                *since = now;
            }
        }
        Ok(())
    }

    /// Since when each thread hasn't gone round, where so many have ended: 2^64 - 1 for as many, those that have stood still longest. The fault is a request for memory that was refused.
    pub(crate) fn since(&self, alloc: Global, ended: usize) -> Result<Vec<u64>, AllocError> {
        let mut since = Vec::new(alloc);
        since.extend_from_slice(self.since.as_slice())?;
        for _ in 0..ended {
            leave_out_oldest(&mut since);
        }
        Ok(since)
    }
}

/// Has the thread that has stood still longest count as one that waits.
fn leave_out_oldest(since: &mut Vec<u64>) {
    let oldest = oldest_of(since.as_slice());
    let place = since.iter().position(|each| *each == oldest);
    if let Some(place) = place {
        if let Some(each) = since.get_mut(place) {
            *each = u64::MAX;
        }
    }
}

/// The earliest of these times; 2^64 - 1 of none.
fn oldest_of(since: &[u64]) -> u64 {
    let mut oldest = u64::MAX;
    for each in since {
        oldest = oldest.min(*each);
    }
    oldest
}
