//! The messages of a transfer (RFC 5936, 2.2).
ghost use Rattle.std.specs.Prelude.{◌≡◌, ◌++◌, ◌∷◌, [], vec_len, IfOk, OnOk, IfErr};

use crate::fault::WorldFault;
use crate::step::Octets;
use std::alloc::Global;
use std::marker::Model;
use transfer_core::{ChainView, MAX_MESSAGE, Packer};

/// The messages of a transfer, in order. Contracts see the list of their octets.
#[derive(Drop)]
pub struct MessageList {
    items: Vec<Octets>,
}

impl Model for MessageList {
    ghost use Rattle.std.specs.Prelude.{List, ℕ};

    ghost Value = { List (List ℕ) };

    ghost view = { λ a. a.items.items };
}

impl MessageList {
    /// The messages.
    pub fn as_slice(&self) -> &[Octets]
        ensures { result.now ≡ self.now }
    {
        self.items.as_slice()
    }
}

/// The messages of a transfer that aren't written yet.
pub(crate) fn all_messages<C: ChainView>(
    alloc: Global,
    packer: Packer<'_, C>,
) -> Result<MessageList, WorldFault>
    ensures ok { IfOk result (λ list. list ≡ packer.entry) }
    ensures refused { IfErr result (λ fault. fault ≡ WorldFault.NoMemory) }
{
    let mut out = match room_for_message(alloc) {
        Ok(out) => out,
        Err(fault) => return Err(fault),
    };
    let mut left = packer;
    let mut items = Vec::new(alloc);
    while let Some(len) = left.next_message(&mut out) {
        if let Err(fault) = put_message(alloc, &mut items, &out[..len]) {
            return Err(fault);
        }
    }
    Ok(MessageList { items })
}

/// A buffer for a message. No clause says what it has: a goal with so many zeros would be computed octet by octet.
fn room_for_message(alloc: Global) -> Result<Vec<u8>, WorldFault>
    ensures ok { IfOk result (λ room. vec_len room ≡ MAX_MESSAGE) }
    ensures refused { IfErr result (λ fault. fault ≡ WorldFault.NoMemory) }
{
    match vec![in alloc; 0_u8; MAX_MESSAGE] {
        Ok(room) => Ok(room),
        Err(_) => Err(WorldFault::NoMemory),
    }
}

/// Adds a message of these octets.
fn put_message(alloc: Global, items: &mut Vec<Octets>, octets: &[u8]) -> Result<(), WorldFault>
    ensures ok { OnOk result (items.new.items ≡ items.old.items ++ octets.now ∷ []) }
    ensures refused { IfErr result (λ fault. fault ≡ WorldFault.NoMemory) }
{
    let Ok(octets) = octets.to_vec(alloc) else {
        return Err(WorldFault::NoMemory);
    };
    match items.push(Octets::new(octets)) {
        Ok(()) => Ok(()),
        Err(_) => Err(WorldFault::NoMemory),
    }
}
