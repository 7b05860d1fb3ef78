//! A queue whose sink takes nothing for as long as a test says.
use log_lines::{LogQueue, NextLine, Sink};
use std::alloc::Global;
use std::sync::{Mutex, Wait};
use std::test::Fail;
use std::thread::{self, Threads};
use std::time::{Clock, Duration};

/// How many lines wait at most.
const MOST: usize = 4;

/// How many lines are added while the sink takes none.
const ADDED: u64 = 100;

/// How often it is looked whether a line was taken, at most.
const LOOKS: u64 = 10_000_000;

/// What a sink has taken, in its order.
type Taken = Vec<NextLine<u64>>;

/// A sink that takes a line only while nobody holds `taken`.
#[derive(Drop)]
struct GatedSink<'a> {
    taken: &'a Mutex<Taken>,
}

impl Sink<u64> for GatedSink<'_> {
    fn put<R: Wait>(&mut self, rt: &R, one: NextLine<u64>) {
        let _ = self.taken.lock(rt).push(one);
    }

    fn idle(&mut self) -> Option<Duration> {
        None
    }
}

/// Adds lines while the sink takes none, closes the queue, which ends in vain, and then lets the sink take them.
fn add_while_held<R: Wait + Clock>(rt: &R, queue: &LogQueue<u64>, taken: &Mutex<Taken>) -> bool {
    let held = taken.lock(rt);
    for line in 0..ADDED {
        queue.add(rt, line);
    }
    let in_vain = !queue.close(rt, Duration::from_millis(20));
    let none = held.is_empty();
    drop(held);
    in_vain && none
}

/// How many lines were taken, where each line that was added was taken or is counted as lost at the place where it would stand.
fn lines_taken(taken: &[NextLine<u64>]) -> Option<usize> {
    let mut next = 0u64;
    let mut lines = 0usize;
    for one in taken {
        next = next.saturating_add(one.lost);
        let Some(line) = one.line else {
            continue;
        };
        if line != next {
            return None;
        }
        next = next.saturating_add(1);
        lines = lines.saturating_add(1);
    }
    (next == ADDED).then_some(lines)
}

// A sink that takes nothing holds nobody who adds lines, and not the end; those beyond the bound are lost, and told once it takes again.
// The thread may take one line in hand at any time while the others are added: one more then finds room.
#[test]
fn a_sink_that_takes_nothing(rt: HostRuntime) -> Result<(), Fail> {
    let alloc: Global = rt.alloc();
    let queue = LogQueue::new(alloc, MOST)?;
    let taken: Mutex<Taken> = Mutex::new(Vec::new(alloc));
    let (held, ()) = thread::join(
        &rt,
        || add_while_held(&rt, &queue, &taken),
        || queue.write_to(&rt, &mut GatedSink { taken: &taken }),
    );
    assert!(rt; held);
    let taken = taken.into_inner();
    let lines = lines_taken(taken.as_slice());
    assert!(rt; lines == Some(MOST) || lines == Some(MOST + 1));
    assert!(rt; queue.close(&rt, Duration::from_millis(0)));
    Ok(())
}

/// Whether so many lines are taken, looked for until they are.
fn are_taken<R: Wait>(rt: &R, taken: &Mutex<Taken>, lines: u64) -> bool {
    for _ in 0..LOOKS {
        if taken.lock(rt).len() as u64 == lines {
            return true;
        }
    }
    false
}

/// Adds lines, each once the one before is taken, and closes the queue, which waits for its end.
fn add_in_turn<R: Wait + Clock>(rt: &R, queue: &LogQueue<u64>, taken: &Mutex<Taken>) -> bool {
    let mut all = true;
    for line in 0..ADDED {
        queue.add(rt, line);
        all = all && are_taken(rt, taken, line + 1);
    }
    queue.close(rt, Duration::from_secs(30)) && all
}

// Each line is written while the queue is open, and who closes it waits until its end is told.
#[test]
fn lines_are_written_as_they_come(rt: HostRuntime) -> Result<(), Fail> {
    let alloc: Global = rt.alloc();
    let queue = LogQueue::new(alloc, MOST)?;
    let taken: Mutex<Taken> = Mutex::new(Vec::new(alloc));
    let (all, ()) = thread::join(
        &rt,
        || add_in_turn(&rt, &queue, &taken),
        || queue.write_to(&rt, &mut GatedSink { taken: &taken }),
    );
    assert!(rt; all);
    assert_eq!(rt;
        lines_taken(taken.into_inner().as_slice()),
        Some(ADDED as usize)
    );
    Ok(())
}
