//! Datagrams held in memory (own).
ghost use Rattle.std.specs.Prelude.{◌≡◌, ◌≤◌, ◌↔◌, ◌⊎◌, [], ◌∷◌, ◌++◌, length, take, Some, None, IfSome, IsNone, IsTrue, IsFalse};
ghost use Rattle.dns_message.specs.Message.{message_limit};
ghost use Rattle.std.specs.List.{Contains};
ghost use Rattle.requests.specs.Datagrams.{Receives, SendsOrFails, count_of};
ghost use Rattle.memory_devices.specs.MemoryDatagrams.{datagram_octets, datagrams_of, after_receive, after_failure, after_send, after_refusal};

use crate::datagram::Datagram;
use dns_message::MAX_LIMIT;
use requests::Datagrams;
use std::alloc::Global;
use std::collections::VecDeque;
use std::marker::Model;
use std::net::SocketAddr;

/// Datagrams held in memory: those that are left to be received, and those that were sent. Some sends may fail.
#[derive(Drop)]
pub struct MemoryDatagrams {
    left: VecDeque<Datagram>,
    sent: Vec<Datagram>,
    refused: Vec<u64>,
    sends: u64,
    faults: u64,
    alloc: Global,
}

impl Model for MemoryDatagrams {
    ghost use Rattle.memory_devices.specs.MemoryDatagrams.{DatagramsState};

    ghost Value = { DatagramsState };

    ghost view = { λ a. record { left = a.left.items; sent = a.sent.items; refused = a.refused.items; sends = a.sends; faults = a.faults } };
}

/// Appends a datagram to those that were sent. False if it is longer than a datagram may be or memory allocation fails; then nothing is
/// appended.
fn keep(alloc: Global, sent: &mut Vec<Datagram>, octets: &[u8], to: SocketAddr) -> bool
    ensures kept { IsTrue result → sent.new.items ≡ sent.old.items ++ (octets.now, to) ∷ [] }
    ensures same { IsFalse result → sent.new.items ≡ sent.old.items }
{
    if octets.len() > MAX_LIMIT {
        return false;
    }
    let Ok(octets) = octets.to_vec(alloc) else {
        return false;
    };
    sent.push(Datagram::new(octets, to)).is_ok()
}

impl MemoryDatagrams {
    /// Datagrams to be received. The sends at the positions in `refused`, counted from 0, fail.
    pub fn new(alloc: Global, datagrams: Vec<Datagram>, refused: Vec<u64>) -> MemoryDatagrams
        ensures { result ≡ datagrams_of datagrams.items refused.items }
    {
        MemoryDatagrams {
            left: VecDeque::from(datagrams),
            sent: Vec::new(alloc),
            refused,
            sends: 0,
            faults: 0,
            alloc,
        }
    }

    /// The number of datagrams that are left to be received.
    pub fn left(&self) -> usize
        ensures { result ≡ length self.now.left }
    {
        self.left.len()
    }

    /// The datagrams that were sent.
    pub fn sent(&self) -> &[Datagram]
        ensures { result.now ≡ self.now.sent }
    {
        self.sent.as_slice()
    }
}

impl Datagrams for MemoryDatagrams {
    ghost datagrams = { λ datagrams. Some (datagram_octets datagrams) };

    ghost failed = { λ datagrams. datagrams.faults };

    fn receive(&mut self, buf: &mut [u8]) -> Option<(usize, SocketAddr)>
        requires { message_limit ≤ length buf.old }
        ensures bound { IfSome result (λ received. received.0 ≤ length buf.new) }
        ensures receives { IfSome result (λ received. Receives (Some (datagram_octets self.old)) (Some (datagram_octets self.new)) (take received.0 buf.new, received.1)) }
        ensures same { IfSome result (λ _. self.new.faults ≡ self.old.faults) }
        ensures nothing { result ≡ None → Some (datagram_octets self.new) ≡ Some (datagram_octets self.old) }
        ensures counted { result ≡ None → self.new.faults ≡ count_of self.old.faults 1 }
        ensures received { IfSome result (λ _. self.new ≡ after_receive self.old) }
        ensures fails { IsNone result ↔ (self.old.left ≡ []) }
        ensures failed { result ≡ None → self.new ≡ after_failure self.old }
    {
        let Some(datagram) = self.left.pop_front() else {
            self.faults = self.faults.saturating_add(1);
            return None;
        };
        Some((datagram.copy_to(buf), datagram.address()))
    }

    fn send(&mut self, octets: &[u8], to: SocketAddr)
        ensures sends { SendsOrFails (Some (datagram_octets self.old)) self.old.faults (Some (datagram_octets self.new)) self.new.faults (octets.now, to) }
        ensures sent { (self.new ≡ after_send self.old (octets.now, to)) ⊎ (self.new ≡ after_refusal self.old) }
        ensures refused { Contains self.old.refused self.old.sends → self.new ≡ after_refusal self.old }
    {
        let place = self.sends;
        self.sends = place.saturating_add(1);
        if self.refused.contains(&place) || !keep(self.alloc, &mut self.sent, octets, to) {
            self.faults = self.faults.saturating_add(1);
        }
    }

    // Each datagram is sent at once.
    fn flush(&mut self) {}

    fn faults(&self) -> u64 {
        self.faults
    }
}
