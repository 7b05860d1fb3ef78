//! The numbers of an SOA's data, and the words for faults of data.
use crate::made::read;
use dns_rdata::{DataFault, RType, Serial};
use std::alloc::{AllocError, Global};

/// The data of the SOA of RFC 1035, 5.3.
const SOA: &[u8] =
    b"\x06VENERA\x03ISI\x03EDU\0\x0eAction.domains\x03ISI\x03EDU\0\0\0\0\x14\0\0\x1c\x20\0\0\x02\x58\0\x36\xee\x80\0\0\0\x3c";

/// The five numbers of that SOA with another serial.
fn numbers_with(alloc: Global, serial: u32) -> Option<[u32; 5]> {
    let soa = read(alloc, RType::SOA, SOA).ok()?;
    if soa.rtype() != RType::SOA {
        return None;
    }
    let numbers = soa.with_serial(alloc, Serial(serial)).ok()?.soa()?;
    Some([
        numbers.serial.0,
        numbers.refresh,
        numbers.retry,
        numbers.expire,
        numbers.minimum.0,
    ])
}

#[test]
fn numbers_behind_a_serial(rt: HostRuntime) {
    for serial in [20, 0, 21, 0x0102_0304, 0xffff_ffff] {
        let want = [serial, 7200, 600, 3_600_000, 60];
        assert_eq!(rt; numbers_with(rt.alloc(), serial), Some(want));
    }
}

/// The words for the faults of data.
fn words(alloc: Global) -> Result<String, AllocError> {
    let (form, long, memory) = (
        DataFault::BadLength,
        DataFault::TooLong,
        DataFault::NoMemory,
    );
    format!(in alloc; "{form}, {long}, {memory}")
}

#[test]
fn words_of_faults(rt: HostRuntime) -> Result<(), AllocError> {
    let outcome = words(rt.alloc())?;
    assert_eq!(rt; outcome.as_str(), "A1 BadLength, A2 TooLong, A3 NoMemory");
    Ok(())
}
