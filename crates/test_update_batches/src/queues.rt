//! Queues that are full, that are ended, and that threads share.
use std::alloc::Global;
use std::sync::{Mutex, Wait};
use std::test::Fail;
use std::thread::{self, Threads};
use std::time::{Clock, Duration};
use update_batches::{Most, Queue};

/// The limits of the queue.
const MOST: Most = Most {
    items: 4,
    octets: 100,
};

/// The number of items that are put.
const PUT: u64 = 100;

/// Whether `count` items were taken, in order, from `first` on.
fn is_taken(taken: &[u64], first: u64, count: usize) -> bool {
    taken.len() == count && taken.iter().zip(first..PUT).all(|(item, n)| *item == n)
}

// An item that finds no room is returned. Queued items are taken in order, as many as there is room for.
#[test]
fn a_full_queue(rt: HostRuntime) -> Result<(), Fail> {
    let alloc: Global = rt.alloc();
    let queue: Queue<u64> = Queue::new(alloc, MOST)?;
    for item in 0u64..4 {
        assert!(rt; queue.put(&rt, item, 1).is_ok());
    }
    assert!(rt; queue.put(&rt, 4, 1) == Err(4));
    let mut taken: Vec<u64> = Vec::with_capacity(alloc, 3)?;
    assert!(rt; queue.take(&rt, &mut taken) && is_taken(&taken, 0, 3));
    assert!(rt; queue.put(&rt, 4, 1).is_ok() && queue.put(&rt, 5, 1).is_ok());
    taken.clear();
    assert!(rt; queue.take(&rt, &mut taken) && is_taken(&taken, 3, 3));
    queue.end(&rt);
    assert!(rt; !queue.take(&rt, &mut taken));
    Ok(())
}

// An item that would exceed the limit of octets is returned, however few items are queued. Once some are taken, there is room for as many
// octets as they had.
#[test]
fn a_queue_full_of_octets(rt: HostRuntime) -> Result<(), Fail> {
    let alloc: Global = rt.alloc();
    let queue: Queue<u64> = Queue::new(alloc, MOST)?;
    assert!(rt; queue.put(&rt, 0, 101) == Err(0));
    assert!(rt; queue.put(&rt, 0, 60).is_ok() && queue.put(&rt, 1, 30).is_ok());
    assert!(rt; queue.put(&rt, 2, 11) == Err(2));
    assert!(rt; queue.put(&rt, 2, 10).is_ok() && queue.put(&rt, 3, 1) == Err(3));
    let mut taken: Vec<u64> = Vec::with_capacity(alloc, 1)?;
    assert!(rt; queue.take(&rt, &mut taken) && is_taken(&taken, 0, 1));
    assert!(rt; queue.put(&rt, 3, 61) == Err(3) && queue.put(&rt, 3, 60).is_ok());
    let mut two: Vec<u64> = Vec::with_capacity(alloc, 2)?;
    assert!(rt; queue.take(&rt, &mut two) && is_taken(&two, 1, 2));
    assert!(rt; queue.put(&rt, 4, 41) == Err(4) && queue.put(&rt, 4, 40).is_ok());
    Ok(())
}

// Nothing can be put into a queue that is ended. Queued items are still taken; after that, `take` reports that the queue has ended.
#[test]
fn an_ended_queue(rt: HostRuntime) -> Result<(), Fail> {
    let alloc: Global = rt.alloc();
    let queue: Queue<u64> = Queue::new(alloc, MOST)?;
    assert!(rt; queue.put(&rt, 0, 1).is_ok());
    queue.end(&rt);
    assert!(rt; queue.put(&rt, 1, 1) == Err(1));
    let mut taken: Vec<u64> = Vec::with_capacity(alloc, 3)?;
    assert!(rt; queue.take(&rt, &mut taken) && is_taken(&taken, 0, 1));
    assert!(rt; !queue.take(&rt, &mut taken) && is_taken(&taken, 0, 1));
    Ok(())
}

/// Puts numbers in order, each once there is room for it, and ends the queue when the taking thread waits for more.
fn put_all<R: Wait + Clock>(rt: &R, queue: &Queue<u64>) {
    for item in 0..PUT {
        for _ in rt.forever() {
            if queue.put(rt, item, 1).is_ok() {
                break;
            }
        }
    }
    thread::sleep(rt, Duration::from_millis(100));
    queue.end(rt);
}

/// The number of items that are taken until the queue is ended. None if they are not in order, or if memory allocation fails.
fn take_all<R: Wait>(rt: &R, alloc: Global, queue: &Queue<u64>) -> Option<u64> {
    let mut taken: Vec<u64> = Vec::with_capacity(alloc, 3).ok()?;
    let mut next = 0u64;
    for _ in rt.forever() {
        if !queue.take(rt, &mut taken) {
            break;
        }
        for item in taken.iter() {
            if *item != next {
                return None;
            }
            next = next.saturating_add(1);
        }
        taken.clear();
    }
    Some(next)
}

// The taking thread waits until something is put, or the queue is ended, and gets all items that are put, in order.
#[test]
fn a_queue_of_two_threads(rt: HostRuntime) -> Result<(), Fail> {
    let alloc: Global = rt.alloc();
    let queue: Queue<u64> = Queue::new(alloc, MOST)?;
    let queue = &queue;
    let handle = &rt;
    let (taken, _) = thread::join(
        handle,
        || take_all(handle, alloc, queue),
        || put_all(handle, queue),
    );
    assert!(rt; taken == Some(PUT));
    Ok(())
}
