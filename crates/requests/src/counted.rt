//! Streams, and the count of their failures.
ghost use Rattle.std.specs.Prelude.{◌≡◌, ℕ, ◌+◌, ◌-◌, ◌^◌, ◌<◌, ◌≤◌, List, [], length, take, Option, None, IfSome, IfOk, OnOk, OnErr};
ghost use Rattle.std.specs.Io.{ReadsAtMost, WritesAtMost};
ghost use Rattle.requests.specs.Octets.{Gives, Takes, IsAtEnd};

use std::io;

/// A stream of octets in both directions. If a stream in memory reports its octets, contracts speak of them.
pub trait Stream {
    /// The octets that are left to be read, and those that were written; none if the stream doesn't report them.
    ghost octets: { Self → Option (List ℕ × List ℕ) };

    /// Reads some octets to the start of a buffer, and returns how many; 0 only if nothing is left, unless the buffer is empty.
    fn read(&mut self, buf: &mut [u8]) -> io::Result<usize>
        ensures bound { ReadsAtMost result buf.new }
        ensures gives { IfOk result (λ n. Gives (octets self.old) (octets self.new) (take n buf.new)) }
        ensures end { IfOk result (λ n. n ≡ 0 → 0 < length buf.new → IsAtEnd (octets self.new)) }
        ensures failed { OnErr result (Gives (octets self.old) (octets self.new) []) };

    /// Writes the first of some octets, and returns how many.
    fn write(&mut self, buf: &[u8]) -> io::Result<usize>
        ensures bound { WritesAtMost result buf.now }
        ensures takes { IfOk result (λ n. Takes (octets self.old) (octets self.new) (take n buf.now)) }
        ensures failed { OnErr result (Takes (octets self.old) (octets self.new) []) };
}

/// A read or a write of a stream has failed, and is counted.
#[derive(Clone, Copy)]
pub struct DeviceFailed;

/// A stream with the count of its failures.
#[derive(Drop)]
pub struct Counted<S> {
    /// The stream.
    pub inner: S,
    /// How many reads and writes have failed; at most 2^64 - 1 are counted.
    pub faults: u64,
}

impl<S> Counted<S> {
    /// A stream with no failures counted yet.
    pub fn new(inner: S) -> Counted<S>
        ensures { result ≡ record { inner = inner; faults = 0 } }
    {
        Counted { inner, faults: 0 }
    }
}

impl<S: Stream> Counted<S> {
    /// Reads some octets to the start of a buffer, and returns how many; 0 only if nothing is left, unless the buffer is empty. A failure
    /// is counted.
    pub fn read(&mut self, buf: &mut [u8]) -> Result<usize, DeviceFailed>
        ensures bound { IfOk result (λ n. n ≤ length buf.new) }
        ensures gives { IfOk result (λ n. Gives (S.octets self.old.inner) (S.octets self.new.inner) (take n buf.new)) }
        ensures end { IfOk result (λ n. n ≡ 0 → 0 < length buf.new → IsAtEnd (S.octets self.new.inner)) }
        ensures same { OnOk result (self.new.faults ≡ self.old.faults) }
        ensures failed { OnErr result (Gives (S.octets self.old.inner) (S.octets self.new.inner) []) }
        ensures counted { OnErr result (self.old.faults < 2 ^ 64 - 1 → self.old.faults < self.new.faults) }
    {
        match self.inner.read(buf) {
            Ok(count) => Ok(count),
            Err(_) => {
                self.faults = self.faults.saturating_add(1);
                Err(DeviceFailed)
            }
        }
    }

    /// Writes the first of some octets, and returns how many: 0 of none, and at least 1 of others. A failure is counted, and so is a write
    /// that takes none of them.
    pub fn write(&mut self, buf: &[u8]) -> Result<usize, DeviceFailed>
        requires { 0 < length buf.now }
        ensures bound { IfOk result (λ n. (0 < n) × (n ≤ length buf.now)) }
        ensures takes { IfOk result (λ n. Takes (S.octets self.old.inner) (S.octets self.new.inner) (take n buf.now)) }
        ensures same { OnOk result (self.new.faults ≡ self.old.faults) }
        ensures failed { OnErr result (Takes (S.octets self.old.inner) (S.octets self.new.inner) []) }
        ensures counted { OnErr result (self.old.faults < 2 ^ 64 - 1 → self.old.faults < self.new.faults) }
    {
        match self.inner.write(buf) {
            Ok(0) => {}
            Ok(count) => return Ok(count),
            Err(_) => {}
        }
        self.faults = self.faults.saturating_add(1);
        Err(DeviceFailed)
    }
}
