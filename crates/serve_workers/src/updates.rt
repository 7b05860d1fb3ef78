//! The updates that threads submit to the update thread (RFC 2136, 3; own).

use crate::thread_spec::{Sockets, ThreadSpec};
use std::alloc::{AllocError, Global};
use std::sync::Wait;
use std::sync::atomic::{AtomicUsize, Ordering};
use update_batches::{Most, Queue};
use worker_jobs::WakeList;
use zone_server::QueuedUpdate;

/// The queue of the updates that threads submit, and for each thread, by its place, the list of its connections whose replies are ready.
#[derive(Drop)]
pub(crate) struct Updates {
    queue: Queue<QueuedUpdate>,
    /// How many threads may still submit updates.
    left: AtomicUsize,
    wake_lists: Vec<WakeList>,
}

/// How many connections the thread of a spec may have, where a worker may have `places`.
fn most_of(spec: &ThreadSpec<'_>, places: usize) -> usize {
    match &spec.sockets {
        Sockets::Connections(_) => places,
        Sockets::Datagrams(_) => 0,
        Sockets::Secondaries(_) => 0,
        Sockets::Control(_) => 0,
        Sockets::Metrics(_) => 0,
    }
}

/// Whether the thread of a spec may get updates.
fn takes_updates(spec: &ThreadSpec<'_>) -> bool {
    match &spec.sockets {
        Sockets::Connections(_) => true,
        Sockets::Datagrams(_) => true,
        Sockets::Control(_) => true,
        Sockets::Secondaries(_) => false,
        Sockets::Metrics(_) => false,
    }
}

/// The lists of ready connections, one for the thread of each spec. An error where an allocation fails.
fn wake_lists_for(
    alloc: Global,
    specs: &[ThreadSpec<'_>],
    places: usize,
) -> Result<Vec<WakeList>, AllocError> {
    let mut wake_lists = Vec::new(alloc);
    for spec in specs {
        wake_lists.push(WakeList::new(alloc, most_of(spec, places))?)?;
    }
    Ok(wake_lists)
}

/// How many threads of these specs may get updates.
fn threads_in(specs: &[ThreadSpec<'_>]) -> usize {
    let mut threads = 0usize;
    for spec in specs {
        if takes_updates(spec) {
            threads = threads.saturating_add(1);
        }
    }
    threads
}

impl Updates {
    /// Creates an empty queue of at most `most` for the threads of these specs, and their lists, where a thread that serves connections has at most `places` of them.
    /// Allocates the memory for all of it. An error where an allocation fails. The queue is ended at once where no thread may get updates.
    pub(crate) fn of<R: Wait>(
        rt: &R,
        alloc: Global,
        most: Most,
        specs: &[ThreadSpec<'_>],
        places: usize,
    ) -> Result<Updates, AllocError> {
        let wake_lists = match wake_lists_for(alloc, specs, places) {
            Ok(wake_lists) => wake_lists,
            Err(fault) => return Err(fault),
        };
        let queue = match Queue::new(alloc, most) {
            Ok(queue) => queue,
            Err(fault) => return Err(fault),
        };
        let threads = threads_in(specs);
        if threads == 0 {
            queue.end(rt);
        }
        let left = AtomicUsize::new(threads);
        Ok(Updates {
            queue,
            left,
            wake_lists,
        })
    }

    /// The queue of the updates that wait.
    pub(crate) fn queue(&self) -> &Queue<QueuedUpdate> {
        &self.queue
    }

    /// The list of ready connections of the thread at a place, if there is such a thread.
    pub(crate) fn wake_list_at(&self, place: usize) -> Option<&WakeList> {
        self.wake_lists.get(place)
    }

    /// One of the threads submits no more updates. Once none does, this ends the queue, after the updates that wait in it.
    pub(crate) fn leave<R: Wait>(&self, rt: &R) {
        if self.left.fetch_sub(1, Ordering::SeqCst) <= 1 {
            self.queue.end(rt);
        }
    }
}
