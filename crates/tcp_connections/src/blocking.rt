//! Streams that report when they would block.
ghost use Rattle.std.specs.Prelude.{◌≡◌, ℕ, ◌<◌, ◌≤◌, List, [], length, take, Option, IfOk, IfErr, OnOk, OnErr};
ghost use Rattle.requests.specs.Octets.{Gives, Takes, IsAtEnd};
ghost use Rattle.tcp_connections.specs.StreamOctets.{IsCounted};
ghost use Rattle.tcp_connections.specs.declared.blocking.Fault.{Fault as FaultOf};

use requests::{Counted, DeviceFailed, Stream};

/// Why nothing was read or written.
#[derive(Clone, Copy)]
pub enum Fault {
    /// It would block.
    Blocked,
    /// The stream has failed.
    Failed,
}

/// A stream of octets in both directions, which may report that it would block. If a stream in memory reports its octets, contracts speak
/// of them.
pub trait Blocking {
    /// The octets that are left to be read, and those that were written; none if the stream doesn't report them.
    ghost octets: { Self → Option (List ℕ × List ℕ) };

    /// How many reads and writes have failed; at most 2^64 - 1 are counted.
    ghost faults: { Self → ℕ };

    /// That it would block, as it has reported.
    ghost would_block: { Self → Type 0 };

    /// Reads some octets to the start of a buffer, and returns how many; 0 only if nothing is left, unless the buffer is empty.
    fn read(&mut self, buf: &mut [u8]) -> Result<usize, Fault>
        ensures bound { IfOk result (λ n. n ≤ length buf.new) }
        ensures gives { IfOk result (λ n. Gives (octets self.old) (octets self.new) (take n buf.new)) }
        ensures end { IfOk result (λ n. n ≡ 0 → 0 < length buf.new → IsAtEnd (octets self.new)) }
        ensures same { OnOk result (faults self.new ≡ faults self.old) }
        ensures failed { OnErr result (Gives (octets self.old) (octets self.new) []) }
        ensures counted { IfErr result (λ fault. IsCounted fault (faults self.old) (faults self.new)) }
        ensures blocked { IfErr result (λ fault. fault ≡ FaultOf.Blocked → would_block self.new) };

    /// Writes the first of some octets, and returns how many: at least 1.
    fn write(&mut self, buf: &[u8]) -> Result<usize, Fault>
        requires { 0 < length buf.now }
        ensures bound { IfOk result (λ n. (0 < n) × (n ≤ length buf.now)) }
        ensures takes { IfOk result (λ n. Takes (octets self.old) (octets self.new) (take n buf.now)) }
        ensures same { OnOk result (faults self.new ≡ faults self.old) }
        ensures failed { OnErr result (Takes (octets self.old) (octets self.new) []) }
        ensures counted { IfErr result (λ fault. IsCounted fault (faults self.old) (faults self.new)) }
        ensures blocked { IfErr result (λ fault. fault ≡ FaultOf.Blocked → would_block self.new) };
}

impl<S: Stream> Blocking for Counted<S> {
    ghost octets = { λ stream. S.octets stream.inner };

    ghost faults = { λ stream. stream.faults };

    // A call waits until it is done.
    ghost would_block = { λ _. ⊥ };

    fn read(&mut self, buf: &mut [u8]) -> Result<usize, Fault> {
        match Counted::read(self, buf) {
            Ok(count) => Ok(count),
            Err(DeviceFailed) => Err(Fault::Failed),
        }
    }

    fn write(&mut self, buf: &[u8]) -> Result<usize, Fault> {
        match Counted::write(self, buf) {
            Ok(count) => Ok(count),
            Err(DeviceFailed) => Err(Fault::Failed),
        }
    }
}
