//! A stream held in memory (own).
ghost use Rattle.std.specs.Prelude.{◌≡◌, ℕ, ◌<◌, ◌↔◌, [], length, take, Some, IfOk, IsErr, OnErr};
ghost use Rattle.std.specs.Io.{ReadsAtMost, WritesAtMost};
ghost use Rattle.requests.specs.Octets.{Gives, Takes, IsAtEnd};
ghost use Rattle.memory_devices.specs.MemoryStream.{stream_octets, stream_of, given, taken, after_read, after_write};

use crate::copy::copy_front;
use requests::Stream;
use std::alloc::{AllocError, Global};
use std::io::{self, ErrorKind};
use std::marker::Model;

/// A stream held in memory: the octets that are left to be read, and those that were written. A read or a write handles only some octets at a
/// time, and may fail after a number of calls.
#[derive(Drop)]
pub struct MemoryStream {
    input: Vec<u8>,
    at: usize,
    output: Vec<u8>,
    step: usize,
    room: usize,
    calls: u64,
}

impl Model for MemoryStream {
    ghost use Rattle.std.specs.Prelude.{ℕ, ◌+◌, ◌<◌, ◌≤◌, length, drop, vec_len, vec_capacity};
    ghost use Rattle.memory_devices.specs.MemoryStream.{StreamState};

    ghost Value = { StreamState };

    ghost view = { λ a. record { left = drop a.at a.input.items; written = a.output.items; step = a.step; room = a.room; calls = a.calls } };

    ghost invariant = { λ a. (a.at ≤ length a.input.items) × (0 < a.step) × (vec_len a.output + a.room ≤ vec_capacity a.output) };
}

impl MemoryStream {
    /// A stream with these octets to be read, on which `room` octets can be written; it allocates memory for them. A read gives at most `step`
    /// octets, and a write takes at most `step`. AllocError if memory allocation fails.
    pub fn new(
        alloc: Global,
        octets: Vec<u8>,
        room: usize,
        step: usize,
    ) -> Result<MemoryStream, AllocError>
        requires { 0 < step }
        ensures { IfOk result (λ stream. stream ≡ stream_of octets.items room step) }
    {
        let output = Vec::with_capacity(alloc, room)?;
        Ok(MemoryStream {
            input: octets,
            at: 0,
            output,
            step,
            room,
            calls: u64::MAX,
        })
    }

    /// The stream, whose reads and writes fail after `calls` more of them.
    pub fn failing_after(self, calls: u64) -> MemoryStream
        ensures { result ≡ record self { calls = calls } }
    {
        MemoryStream { calls, ..self }
    }

    /// The octets that are left to be read.
    pub fn left(&self) -> &[u8]
        ensures { result.now ≡ self.now.left }
    {
        &self.input[self.at..]
    }

    /// The octets that were written.
    pub fn written(&self) -> &[u8]
        ensures { result.now ≡ self.now.written }
    {
        self.output.as_slice()
    }
}

impl Stream for MemoryStream {
    ghost octets = { λ stream. Some (stream_octets stream) };

    fn read(&mut self, buf: &mut [u8]) -> io::Result<usize>
        ensures bound { ReadsAtMost result buf.new }
        ensures gives { IfOk result (λ n. Gives (Some (stream_octets self.old)) (Some (stream_octets self.new)) (take n buf.new)) }
        ensures end { IfOk result (λ n. n ≡ 0 → 0 < length buf.new → IsAtEnd (Some (stream_octets self.new))) }
        ensures failed { OnErr result (Gives (Some (stream_octets self.old)) (Some (stream_octets self.new)) []) }
        ensures read { IfOk result (λ n. (n ≡ given self.old (length buf.new)) × (self.new ≡ after_read self.old n)) }
        ensures fails { IsErr result ↔ (self.old.calls ≡ 0) }
        ensures same { OnErr result (self.new ≡ self.old) }
    {
        if self.calls == 0 {
            return Err(io::Error::from(ErrorKind::BrokenPipe));
        }
        let len = copy_front(&self.input[self.at..], self.step, buf);
        self.at += len;
        self.calls -= 1;
        Ok(len)
    }

    fn write(&mut self, buf: &[u8]) -> io::Result<usize>
        ensures bound { WritesAtMost result buf.now }
        ensures takes { IfOk result (λ n. Takes (Some (stream_octets self.old)) (Some (stream_octets self.new)) (take n buf.now)) }
        ensures failed { OnErr result (Takes (Some (stream_octets self.old)) (Some (stream_octets self.new)) []) }
        ensures wrote { IfOk result (λ n. (n ≡ taken self.old (length buf.now)) × (self.new ≡ after_write self.old buf.now n)) }
        ensures fails { IsErr result ↔ (self.old.calls ≡ 0) }
        ensures same { OnErr result (self.new ≡ self.old) }
    {
        if self.calls == 0 {
            return Err(io::Error::from(ErrorKind::BrokenPipe));
        }
        let len = self.step.min(buf.len().min(self.room));
        let Ok(()) = self.output.extend_from_slice(&buf[..len]) else {
            unreachable!()
        };
        self.room -= len;
        self.calls -= 1;
        Ok(len)
    }
}
