//! Reports that something may be ready.
ghost use Rattle.std.specs.Prelude.{◌≡◌, ℕ, IfOk};

use tcp_connections::Blocking;

/// Something can't be watched, or waited for.
#[derive(Clone, Copy, Debug)]
pub struct NotWatched;

/// Reports that streams and listeners may be ready. A report may be wrong, and may be about something that is gone.
pub trait Readiness<S: Blocking> {
    /// The time that it reported last.
    ghost time: { Self → ℕ };

    /// Reports a stream from now on, under a key: once whenever it may be ready again.
    fn watch(&mut self, stream: &mut S, key: usize) -> Result<(), NotWatched>
        ensures same { S.octets stream.new ≡ S.octets stream.old }
        ensures time { time self.new ≡ time self.old };

    /// Waits until something may be ready, for at most `most` nanoseconds; appends the keys to `keys`, and returns the time in nanoseconds.
    /// The first listener has the key `usize::MAX`, the next one the key below that, and so on.
    fn wait(&mut self, most: u64, keys: &mut Vec<usize>) -> Result<u64, NotWatched>
        ensures { IfOk result (λ now. now ≡ time self.new) };
}
