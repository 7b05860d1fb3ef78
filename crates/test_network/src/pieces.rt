//! A stream in memory that reads and writes its octets in pieces, and would block before each of them, or fails once it has taken a number of
//! octets.
ghost use Rattle.std.specs.Prelude.{◌≡◌, ◌<◌, ◌-◌, ◌^◌, IfOk, IfSome, vec_len};
ghost use Rattle.tcp_connections.specs.declared.blocking.Fault.{Fault as FaultOf};

use std::alloc::{AllocError, Global};
use std::cell::RefCell;
use std::net::{Ipv4Addr, SocketAddr, SocketAddrV4};
use std::rc::Rc;
use tcp_connections::{Blocking, Fault};
use tcp_loop::Remote;

/// What follows the octets of a stream.
#[derive(Clone, Copy)]
pub(crate) enum After {
    /// Its end.
    End,
    /// A failure.
    Failure,
    /// Nothing yet.
    Nothing,
}

/// The octets that were written on a stream, which the stream shares with the test until it is closed.
pub(crate) type Output = Rc<RefCell<Vec<u8>>>;

/// A stream that reads and writes some octets at a time, and, if it may block, would block before each piece.
#[derive(Drop)]
pub(crate) struct Pieces {
    pub(crate) from: SocketAddr,
    pub(crate) octets: Vec<u8>,
    pub(crate) at: usize,
    /// The number of octets that are read or written at a time: `size`, and a pseudorandom number below `spread` more, computed from `number`.
    pub(crate) size: usize,
    pub(crate) spread: u64,
    pub(crate) number: u64,
    /// The octets, of the first 64 that are read and of the first 64 that are written, after which a piece ends at the latest: one bit each.
    pub(crate) cuts: (u64, u64),
    pub(crate) may_block: bool,
    pub(crate) would_block: bool,
    pub(crate) after: After,
    /// The number of octets that it takes before it fails.
    pub(crate) room: usize,
    pub(crate) faults: u64,
    pub(crate) output: Output,
}

/// An address in 192.0.2.0/24.
pub(crate) fn address(last: u8) -> SocketAddr {
    SocketAddr::V4(SocketAddrV4::new(Ipv4Addr::new(192, 0, 2, last), 5_353))
}

/// A buffer of `len` octets. The contract does not say which: a goal with that many zeros would be computed octet by octet.
pub(crate) fn room_of(alloc: Global, len: usize) -> Result<Vec<u8>, AllocError>
    ensures { IfOk result (λ room. vec_len room ≡ len) }
{
    vec![in alloc; 0; len]
}

/// These octets, repeated `times` times.
pub(crate) fn repeated(alloc: Global, octets: &[u8], times: usize) -> Result<Vec<u8>, AllocError> {
    let mut all = Vec::new(alloc);
    for _time in 0..times {
        all.extend_from_slice(octets)?;
    }
    Ok(all)
}

/// Whether the stream of an output is open.
fn is_open(output: &Output) -> bool {
    Rc::strong_count(output) > 1
}

/// How many of the streams of these outputs are open.
pub(crate) fn open_of(outputs: &[Output]) -> usize {
    outputs.iter().filter(|output| is_open(output)).count()
}

/// How many octets are on an output.
pub(crate) fn len_of(output: &Output) -> usize {
    match output.try_borrow() {
        Ok(octets) => octets.len(),
        Err(_) => 0,
    }
}

/// Appends octets to an output. False if there is no memory for them.
fn put_on(output: &Output, octets: &[u8]) -> bool {
    match output.try_borrow_mut() {
        Ok(mut all) => all.extend_from_slice(octets).is_ok(),
        Err(_) => false,
    }
}

/// Appends the octets on an output to others.
fn put_all(output: &Output, all: &mut Vec<u8>) -> Result<(), AllocError> {
    match output.try_borrow() {
        Ok(octets) => all.extend_from_slice(&octets),
        Err(_) => Err(AllocError),
    }
}

/// The octets that were written on the streams of these outputs that are open, in the order of the outputs.
pub(crate) fn written(alloc: Global, outputs: &[Output]) -> Result<Vec<u8>, AllocError> {
    let mut all = Vec::new(alloc);
    for output in outputs {
        if is_open(output) {
            put_all(output, &mut all)?;
        }
    }
    Ok(all)
}

/// An empty output, with memory for a thousand octets.
fn new_output(alloc: Global) -> Result<Output, AllocError> {
    let octets = Vec::with_capacity(alloc, 1_000)?;
    match Rc::new(alloc, RefCell::new(octets)) {
        Ok(output) => Ok(output),
        Err(_) => Err(AllocError),
    }
}

/// The maximum number of octets of a piece that starts after `gone` octets: up to the next cut, if there is one.
fn up_to_cut(cuts: u64, gone: usize) -> usize
    ensures { 0 < result }
{
    if gone < 64 && cuts >> gone > 0 {
        return 1 + (cuts >> gone).trailing_zeros() as usize;
    }
    usize::MAX
}

impl Pieces {
    /// A stream of these octets, repeated `times` times, which are read and written one by one; with memory for a thousand octets that are
    /// written.
    pub(crate) fn new(alloc: Global, octets: &[u8], times: usize) -> Result<Pieces, AllocError> {
        Ok(Pieces {
            from: address(1),
            octets: repeated(alloc, octets, times)?,
            at: 0,
            size: 1,
            spread: 1,
            number: 0,
            cuts: (0, 0),
            may_block: true,
            would_block: false,
            after: After::Nothing,
            room: usize::MAX,
            faults: 0,
            output: new_output(alloc)?,
        })
    }

    /// The octets that were written.
    pub(crate) fn written(&self, alloc: Global) -> Result<Vec<u8>, AllocError> {
        let mut all = Vec::new(alloc);
        put_all(&self.output, &mut all)?;
        Ok(all)
    }

    /// The maximum number of octets of the next piece. None if it would block, as it does every other time if it may block.
    fn next_size(&mut self) -> Option<usize>
        ensures size { IfSome result (λ size. 0 < size) }
        ensures same { self.new.faults ≡ self.old.faults }
    {
        self.would_block = self.may_block && !self.would_block;
        if self.would_block {
            return None;
        }
        self.number = self
            .number
            .wrapping_mul(6_364_136_223_846_793_005)
            .wrapping_add(1_442_695_040_888_963_407);
        let more = (self.number / 0x1_0000_0000) % self.spread.max(1);
        let size = self.size.saturating_add(more as usize);
        Some(size.max(1))
    }

    /// Counts a failure.
    fn fail(&mut self) -> Fault
        ensures counted { self.old.faults < 2 ^ 64 - 1 → self.old.faults < self.new.faults }
        ensures failed { result ≡ FaultOf.Failed }
    {
        self.faults = self.faults.saturating_add(1);
        Fault::Failed
    }
}

impl Remote for Pieces {
    ghost origin = { λ pieces. pieces.from };

    fn address(&self) -> SocketAddr {
        self.from
    }
}

impl Blocking for Pieces {
    ghost use Rattle.std.specs.Prelude.{None, ⊤};

    ghost octets = { λ _. None };

    ghost faults = { λ pieces. pieces.faults };

    ghost would_block = { λ _. ⊤ };

    fn read(&mut self, buf: &mut [u8]) -> Result<usize, Fault> {
        let Some(size) = self.next_size() else {
            return Err(Fault::Blocked);
        };
        let left = self.octets.as_slice().get(self.at..).unwrap_or(&[]);
        if left.is_empty() {
            match self.after {
                After::End => return Ok(0),
                After::Failure => return Err(self.fail()),
                After::Nothing => return Err(Fault::Blocked),
            }
        }
        let most = size.min(up_to_cut(self.cuts.0, self.at));
        let count = most.min(buf.len().min(left.len()));
        buf[..count].copy_from_slice(&left[..count]);
        self.at = self.at.saturating_add(count);
        Ok(count)
    }

    fn write(&mut self, buf: &[u8]) -> Result<usize, Fault> {
        let Some(size) = self.next_size() else {
            return Err(Fault::Blocked);
        };
        let most = size.min(up_to_cut(self.cuts.1, len_of(&self.output)));
        let count = most.min(self.room.min(buf.len()));
        if count == 0 || !put_on(&self.output, &buf[..count]) {
            return Err(self.fail());
        }
        self.room = self.room.saturating_sub(count);
        Ok(count)
    }
}
