//! What others see of the numbers of a server's threads.
use crate::counters::Counters;
use crate::secondary::SecondaryCounters;
use crate::shared::SharedCounters;
use std::alloc::{AllocError, Global};
use std::net::SocketAddr;
use std::sync::Wait;

/// What others see of the numbers of a server's threads: of each that answers requests, by its place, of the updates, and of each secondary.
#[derive(Drop)]
pub struct ServerCounters {
    threads: Vec<SharedCounters>,
    updates: SharedCounters,
    secondaries: Vec<SecondaryCounters>,
}

impl ServerCounters {
    /// For so many threads that answer requests, of which none has counted yet. The fault is a request for memory that was refused.
    pub fn new(alloc: Global, count: usize) -> Result<ServerCounters, AllocError> {
        let mut threads = Vec::new(alloc);
        for _place in 0..count {
            threads.push(SharedCounters::new(alloc)?)?;
        }
        Ok(ServerCounters {
            threads,
            updates: SharedCounters::new(alloc)?,
            secondaries: Vec::new(alloc),
        })
    }

    /// One secondary more, at an address. The fault is a growth that was refused.
    pub fn add_secondary(&mut self, address: SocketAddr) -> Result<(), AllocError> {
        self.secondaries.push(SecondaryCounters::new(address))?;
        Ok(())
    }

    /// What is counted of the secondaries.
    pub fn secondaries(&self) -> &[SecondaryCounters] {
        self.secondaries.as_slice()
    }

    /// What is counted of the secondary at an address; None where there is none.
    pub fn secondary(&self, address: SocketAddr) -> Option<&SecondaryCounters> {
        self.secondaries.iter().find(|each| each.address == address)
    }

    /// The numbers of the thread at a place; None where it answers no requests.
    pub fn thread(&self, place: usize) -> Option<&SharedCounters> {
        self.threads.get(place)
    }

    /// The numbers of the updates.
    pub fn updates(&self) -> &SharedCounters {
        &self.updates
    }

    /// The numbers of all threads together. `rounds` gets how often each thread that answers requests has shown its numbers, as many as it has room for.
    pub fn sum<R: Wait>(&self, rt: &R, rounds: &mut Vec<u64>) -> Counters {
        let mut sum = Counters::new();
        rounds.clear();
        for thread in self.threads.iter() {
            let shown = thread.add_to(rt, &mut sum);
            let _ = rounds.push(shown);
        }
        let _ = self.updates.add_to(rt, &mut sum);
        sum
    }
}
