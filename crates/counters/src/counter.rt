//! What is counted.
ghost use Rattle.std.specs.Prelude.{◌≡◌, ◌<◌};
ghost use Rattle.counters.specs.Counter.{counter_index, CountersDiffer};

use crate::address_family::AddressFamily;
use crate::connection_end::ConnectionEnd;
use crate::opcode::Opcode;
use crate::qtype::Qtype;
use crate::rcode::Rcode;
use crate::refusal::Refusal;
use crate::transfer::Transfer;
use crate::transport::Transport;

/// How many numbers there are: one for each value of [`Counter`].
pub const COUNTERS: usize = 82;

/// What is counted.
#[derive(Clone, Copy)]
pub enum Counter {
    /// A request, by its transport and its peer's address.
    Request(Transport, AddressFamily),
    /// A request, by its OPCODE.
    Opcode(Opcode),
    /// A question, by its type.
    Question(Qtype),
    /// A reply, by its RCODE.
    Reply(Rcode),
    /// A reply that is truncated (RFC 1035, 4.1.1, TC).
    Truncated,
    /// A request that gets no reply.
    Dropped,
    /// An octet of a request.
    ReceivedOctets,
    /// An octet of a reply.
    SentOctets,
    /// A reply to an update, by its RCODE.
    Update(Rcode),
    /// An update that changed the zone.
    UpdateChanged,
    /// An update that was refused, by the reason.
    UpdateRefused(Refusal),
    /// A request for a transfer, by what it got.
    Transfer(Transfer),
    /// A TCP connection that was opened.
    ConnectionOpened,
    /// A TCP connection that ended, by the reason.
    ConnectionEnded(ConnectionEnd),
    /// A batch of updates that was written.
    StoreBatch,
    /// An update of such a batch.
    StoreUpdate,
    /// A compaction of the store.
    StoreCompaction,
}

impl Counter {
    /// The place of its number.
    #[inline(always)]
    pub fn index(self) -> usize
        ensures place { result ≡ counter_index self }
        ensures within { result < 82 }
    {
        match self {
            Counter::Request(transport, family) => 2 * transport.index() + family.index(),
            Counter::Opcode(opcode) => 4 + opcode.index(),
            Counter::Question(qtype) => 11 + qtype.index(),
            Counter::Reply(rcode) => 32 + rcode.index(),
            Counter::Truncated => 45,
            Counter::Dropped => 46,
            Counter::ReceivedOctets => 47,
            Counter::SentOctets => 48,
            Counter::Update(rcode) => 49 + rcode.index(),
            Counter::UpdateChanged => 62,
            Counter::UpdateRefused(refusal) => 63 + refusal.index(),
            Counter::Transfer(transfer) => 68 + transfer.index(),
            Counter::ConnectionOpened => 74,
            Counter::ConnectionEnded(connection_end) => 75 + connection_end.index(),
            Counter::StoreBatch => 79,
            Counter::StoreUpdate => 80,
            Counter::StoreCompaction => 81,
        }
    }
}

/// The law of places: no two counters have the same.
pub fn counters_differ()
    ensures { CountersDiffer }
{}
