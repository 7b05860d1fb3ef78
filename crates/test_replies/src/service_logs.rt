//! The lines of a log.
use dns_rdata::{Rcode, Serial};
use serve_core::Transport;
use std::alloc::Global;
use std::net::SocketAddr;
use std::test::Fail;
use zone_server::{Event, JobEnd, Losses, Serials};

/// The end of worker thread 3.
fn end_of(transport: Transport, end: JobEnd) -> Event {
    Event::End {
        worker: 3,
        transport,
        end,
    }
}

/// The serials before and after an update.
fn serials(before: u32, after: u32) -> Option<Serials> {
    Some(Serials {
        before: Serial(before),
        after: Serial(after),
    })
}

/// The position of the first event whose line is not the text next to it.
fn first_wrong(alloc: Global, lines: &[(Event, &str)]) -> Result<Option<usize>, Fail> {
    let mut at = 0usize;
    for (event, line) in lines {
        let text = format!(in alloc; "{event}")?;
        if text.as_str() != *line {
            return Ok(Some(at));
        }
        at = at.wrapping_add(1);
    }
    Ok(None)
}

// How worker threads end, for UDP and TCP, and how notifying ends; and secondaries that do not answer NOTIFY, or answer again.
#[test]
fn ends(rt: HostRuntime) -> Result<(), Fail> {
    let secondary = "192.0.2.7:53".parse::<SocketAddr>()?;
    let lines = [
        (
            end_of(Transport::Udp, JobEnd::Done(1000)),
            "worker 3 (UDP) exited: 1000 datagrams and connections served",
        ),
        (
            end_of(Transport::Udp, JobEnd::Spent),
            "worker 3 (UDP) exited: no version could be loaded",
        ),
        (
            end_of(Transport::Tcp, JobEnd::Done(2)),
            "worker 3 (TCP) exited: 2 datagrams and connections served",
        ),
        (
            end_of(Transport::Tcp, JobEnd::Device),
            "worker 3 (TCP) exited: its socket failed",
        ),
        (
            end_of(Transport::Tcp, JobEnd::NoMemory),
            "worker 3 (TCP) exited: out of memory",
        ),
        (
            Event::Silent { secondary },
            "secondary 192.0.2.7:53 does not answer NOTIFY",
        ),
        (
            Event::Again { secondary },
            "secondary 192.0.2.7:53 answers NOTIFY again",
        ),
        (
            Event::Unlogged {
                end: JobEnd::Done(3),
            },
            "notify thread exited: 3 NOTIFYs sent",
        ),
        (
            Event::Unlogged { end: JobEnd::Spent },
            "notify thread exited: no version could be loaded",
        ),
    ];
    assert_eq!(rt; first_wrong(rt.alloc(), &lines)?, None);
    Ok(())
}

// The results of updates, with the codes of RFC 2136, 2.2 and the serials before and after; and the connections that are lost: one kind alone,
// and all kinds.
#[test]
fn updates_and_losses(rt: HostRuntime) -> Result<(), Fail> {
    let from = "[2001:db8::7]:4711".parse::<SocketAddr>()?;
    let lines = [
        (
            Event::Update {
                from,
                code: Rcode::NoError,
                serials: serials(4_294_967_295, 1),
            },
            "update from [2001:db8::7]:4711: NOERROR, serial 4294967295 to 1",
        ),
        (
            Event::Update {
                from,
                code: Rcode::NXRRSet,
                serials: serials(7, 7),
            },
            "update from [2001:db8::7]:4711: NXRRSET, serial 7 unchanged",
        ),
        (
            Event::Update {
                from,
                code: Rcode::FormErr,
                serials: None,
            },
            "update from [2001:db8::7]:4711: FORMERR",
        ),
        (
            Event::Lost {
                worker: 4,
                losses: Losses {
                    untaken: 12,
                    ..Losses::default()
                },
            },
            "worker 4 (TCP): 12 reply timeout",
        ),
        (
            Event::Lost {
                worker: 4,
                losses: Losses {
                    failed: 1,
                    starved: 2,
                    idle: 3,
                    unfinished: 4,
                    untaken: 5,
                    slow: 6,
                    evicted: 7,
                    turned_away: 8,
                    no_room: 9,
                },
            },
            "worker 4 (TCP): 1 failed, 2 out of resources, 3 idle timeout, 4 request timeout, 5 reply timeout, 6 reply read too slowly, 7 closed to make room, 8 rejected (all connections in use), 9 rejected (no descriptor or memory)",
        ),
    ];
    assert_eq!(rt; first_wrong(rt.alloc(), &lines)?, None);
    Ok(())
}
