//! Lines that wait, and those that find no room.
use log_lines::{Backlog, NextLine};
use std::alloc::Global;
use std::test::Fail;

/// Whether this is told: how many lines were lost, and a line.
fn is_next(next: Option<NextLine<u8>>, lost: u64, line: Option<u8>) -> bool {
    match next {
        Some(next) => next.lost == lost && next.line == line,
        None => false,
    }
}

// Lines come back in their order; nothing is told where nothing waits.
#[test]
fn lines_in_order(rt: HostRuntime) -> Result<(), Fail> {
    let alloc: Global = rt.alloc();
    let mut backlog: Backlog<u8> = Backlog::new(alloc, 2)?;
    assert!(rt; backlog.is_empty() && backlog.take().is_none());
    backlog.add(7);
    backlog.add(8);
    assert!(rt; !backlog.is_empty());
    assert!(rt; is_next(backlog.take(), 0, Some(7)));
    backlog.add(9);
    assert!(rt; is_next(backlog.take(), 0, Some(8)));
    assert!(rt; is_next(backlog.take(), 0, Some(9)));
    assert!(rt; backlog.is_empty() && backlog.take().is_none());
    Ok(())
}

// Lines that find no room are counted where they would stand: before the line that comes after them, or alone.
#[test]
fn lost_lines_are_counted(rt: HostRuntime) -> Result<(), Fail> {
    let alloc: Global = rt.alloc();
    let mut backlog: Backlog<u8> = Backlog::new(alloc, 2)?;
    for line in 0u8..5 {
        backlog.add(line);
    }
    assert!(rt; is_next(backlog.take(), 0, Some(0)));
    backlog.add(5);
    backlog.add(6);
    assert!(rt; is_next(backlog.take(), 0, Some(1)));
    assert!(rt; is_next(backlog.take(), 3, Some(5)));
    assert!(rt; !backlog.is_empty() && is_next(backlog.take(), 1, None));
    assert!(rt; backlog.is_empty() && backlog.take().is_none());
    Ok(())
}
