//! Table of acts on tickets (RFC 2136, 3.8; own).
use crate::acts::{Act, Acts};
use crate::states::passes;
use std::alloc::Global;
use std::sync::Wait;
use std::test::Fail;

/// What a row shows, and its acts on one server state.
type Row = (&'static str, &'static [Act]);

/// The first row whose acts do not have the expected results. None if all have.
fn wrong_row<R: Wait>(rt: &R, alloc: Global, rows: &[Row]) -> Option<&'static str> {
    for (what, acts) in rows {
        if passes(rt, alloc, Acts(acts)) != Some(true) {
            return Some(what);
        }
    }
    None
}

/// Tickets at which a result is put.
const PUT: &[Row] = &[
    (
        "a ticket is free once its result is fetched",
        &[
            Act::Open(0),
            Act::Pending(0),
            Act::Pending(0),
            Act::Put(0, 1),
            Act::Ready(0, 1),
            Act::Unknown(0),
            Act::Open(0),
            Act::Pending(0),
        ],
    ),
    (
        "each update has a ticket of its own, in any order",
        &[
            Act::Open(0),
            Act::Open(1),
            Act::Open(2),
            Act::Put(2, 3),
            Act::Put(0, 1),
            Act::Pending(1),
            Act::Ready(2, 3),
            Act::Ready(0, 1),
            Act::Put(1, 2),
            Act::Ready(1, 2),
        ],
    ),
    (
        "a result stays until it is fetched",
        &[
            Act::Open(0),
            Act::Put(0, 1),
            Act::Put(0, 2),
            Act::Close(0),
            Act::Open(1),
            Act::Ready(0, 1),
            Act::Unknown(0),
        ],
    ),
    (
        "the ticket that was freed last is opened first, else one more",
        &[
            Act::Open(0),
            Act::Open(1),
            Act::Open(2),
            Act::Close(2),
            Act::Close(0),
            Act::Open(0),
            Act::Open(2),
            Act::Open(3),
        ],
    ),
];

/// Tickets whose clients no longer wait, and tickets that are closed.
const LEFT: &[Row] = &[
    (
        "a result at a ticket that was abandoned is dropped, and the ticket is free then",
        &[
            Act::Open(0),
            Act::Leave(0),
            Act::Unknown(0),
            Act::Open(1),
            Act::Put(0, 1),
            Act::Unknown(0),
            Act::Open(0),
            Act::Pending(0),
            Act::Pending(1),
        ],
    ),
    (
        "a ticket that was abandoned stays so until its result comes",
        &[
            Act::Open(0),
            Act::Leave(0),
            Act::Leave(0),
            Act::Close(0),
            Act::Open(1),
            Act::Put(0, 1),
            Act::Open(0),
        ],
    ),
    (
        "a ticket that is abandoned when its result is there is free",
        &[
            Act::Open(0),
            Act::Put(0, 1),
            Act::Leave(0),
            Act::Unknown(0),
            Act::Open(0),
            Act::Pending(0),
        ],
    ),
    (
        "a ticket that is closed is free, and gets no result",
        &[
            Act::Open(0),
            Act::Close(0),
            Act::Put(0, 1),
            Act::Unknown(0),
            Act::Open(0),
            Act::Pending(0),
            Act::Open(1),
        ],
    ),
];

/// Tickets that are not in use.
const UNUSED: &[Row] = &[
    (
        "there is no ticket",
        &[
            Act::Unknown(0),
            Act::Put(0, 1),
            Act::Leave(0),
            Act::Close(0),
            Act::Unknown(0),
            Act::Put(usize::MAX, 1),
            Act::Leave(usize::MAX),
            Act::Close(usize::MAX),
            Act::Unknown(usize::MAX),
            Act::Open(0),
        ],
    ),
    (
        "a ticket that is free is freed once",
        &[
            Act::Open(0),
            Act::Open(1),
            Act::Close(0),
            Act::Close(0),
            Act::Leave(0),
            Act::Put(0, 1),
            Act::Open(0),
            Act::Open(2),
        ],
    ),
];

#[test]
fn a_result_is_fetched_once(rt: HostRuntime) -> Result<(), Fail> {
    assert_eq!(rt; wrong_row(&rt, rt.alloc(), PUT), None);
    Ok(())
}

#[test]
fn an_abandoned_ticket_gets_no_result(rt: HostRuntime) -> Result<(), Fail> {
    assert_eq!(rt; wrong_row(&rt, rt.alloc(), LEFT), None);
    Ok(())
}

#[test]
fn a_ticket_that_is_not_in_use_gets_no_result(rt: HostRuntime) -> Result<(), Fail> {
    assert_eq!(rt; wrong_row(&rt, rt.alloc(), UNUSED), None);
    Ok(())
}
