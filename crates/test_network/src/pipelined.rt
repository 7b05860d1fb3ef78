//! Requests that wait for their replies together.

use crate::linked::Served;
use crate::pieces::{Pieces, written};
use std::test::Fail;

/// Three requests that are answered later, one that isn't, and another that is.
const SENT: [u8; 25] = [
    0, 3, b'u', b'1', b'.', 0, 3, b'u', b'2', b'.', 0, 3, b'u', b'3', b'.', 0, 3, b'a', b'4', b'.',
    0, 3, b'u', b'5', b'.',
];

/// Whether a reply is ready; and, after a share of work: how often the handler has been asked for a reply that is made later, how often it has
/// been asked to take a request up, how many were between the last of these and the first one, and how many octets are written.
const SHARES: [(bool, u32, u32, usize, usize); 5] = [
    // The second request and the third are taken up with the first; the fourth, which may not wait, is not, nor is the one after it.
    (false, 1, 2, 1, 0),
    (false, 2, 4, 1, 0),
    // Replies are made in the order of the requests.
    (true, 4, 5, 0, 5),
    (true, 6, 5, 0, 10),
    // The last one is taken up in its turn.
    (true, 8, 5, 0, 20),
];

#[test]
fn requests_wait_together(rt: HostRuntime) -> Result<(), Fail> {
    let alloc = rt.alloc();
    let mut served = Served::new(alloc)?;
    let stream = Pieces {
        size: 100,
        may_block: false,
        ..Pieces::new(alloc, &SENT, 1)?
    };
    served.put(stream, true, 0)?;
    for (at, (is_made, asked, prepared, between, len)) in SHARES.into_iter().enumerate() {
        served.echo.made = if is_made { Some(0) } else { None };
        served.serve(&rt, &[0], 0)?;
        let gone = written(alloc, &served.outputs)?;
        let is_written = SENT.get(..len) == Some(gone.as_slice());
        let counts = (served.echo.asked, served.echo.prepared, served.echo.between);
        assert_eq!(rt;
            (counts, is_written),
            ((asked, prepared, between), true),
            "after share {at}"
        );
    }
    Ok(())
}

#[test]
fn at_most_so_many_requests_wait_together(rt: HostRuntime) -> Result<(), Fail> {
    let mut served = Served::new(rt.alloc())?;
    let stream = Pieces {
        size: 400,
        may_block: false,
        ..Pieces::new(rt.alloc(), &[0, 1, b'u'], 100)?
    };
    served.put(stream, true, 0)?;
    served.serve(&rt, &[0], 0)?;
    assert_eq!(rt; (served.echo.prepared, served.echo.between), (63, 62));
    Ok(())
}
