//! The messages of a reply that has several, counted.
ghost use Rattle.std.specs.Prelude.{◌≡◌, ◌≤◌, ◌∷◌, [], length, take, MatchOption};
ghost use Rattle.dns_message.specs.Message.{message_limit};

use counters::SharedCounters;
use message_counts::transfer_of;
use tcp_connections::Messages;

/// The messages of a reply, which are counted as they are made.
pub struct CountedMessages<'a, M> {
    inner: M,
    shown: &'a SharedCounters,
    /// The type by which the request asks for a transfer whose first message isn't made yet.
    begins: Option<u16>,
}

impl<'a, M: Drop> Drop for CountedMessages<'a, M> {
    fn drop(self) {
        let CountedMessages {
            inner: _,
            shown: _,
            begins: _,
        } = self;
    }
}

impl<'a, M: Messages> CountedMessages<'a, M> {
    /// These messages, which are the reply to a request that asks for a transfer by a type, if it does.
    pub(crate) fn new(
        inner: M,
        shown: &'a SharedCounters,
        begins: Option<u16>,
    ) -> CountedMessages<'a, M>
        ensures { result.inner ≡ inner }
    {
        CountedMessages {
            inner,
            shown,
            begins,
        }
    }

    /// Counts a message.
    fn count(&mut self, message: &[u8])
        ensures { self.new.inner ≡ self.old.inner }
    {
        self.shown.stream_octets(message.len() as u64);
        if let Some(qtype) = self.begins.take() {
            if let Some(transfer) = transfer_of(qtype, message) {
                self.shown.stream_transfer(transfer);
            }
        }
    }
}

impl<M: Messages> Messages for CountedMessages<'_, M> {
    ghost left = { λ counted. M.left counted.inner };

    fn next_message(&mut self, out: &mut [u8]) -> Option<usize> {
        match self.inner.next_message(out) {
            Some(len) => {
                self.count(&out[..len]);
                Some(len)
            }
            None => None,
        }
    }
}
