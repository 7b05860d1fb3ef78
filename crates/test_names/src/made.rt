//! What the tests are made of.
ghost use Rattle.std.specs.Prelude.{◌≡◌, IfOk};

use dns_name::{Name, StoredName};
use dns_rdata::{DataFault, RData, RType};
use std::alloc::Global;

/// The name of a text below the root; the root where it is none.
pub(crate) fn name(text: &[u8]) -> Name {
    match Name::from_text(text, &Name::root()) {
        Ok(name) => name,
        Err(_) => Name::root(),
    }
}

/// The stored name, made once more where memory was refused.
pub(crate) fn stored(alloc: Global, name: &Name) -> Option<StoredName> {
    match StoredName::new(alloc, name) {
        Ok(stored) => Some(stored),
        Err(_) => StoredName::new(alloc, name).ok(),
    }
}

/// What octets are read as, or the fault; read once more where memory was refused.
pub(crate) fn read(alloc: Global, rtype: RType, octets: &[u8]) -> Result<RData, DataFault>
    ensures { IfOk result (λ d. d.rtype ≡ rtype.0) }
{
    match RData::from_wire(alloc, rtype, octets) {
        Err(DataFault::NoMemory) => RData::from_wire(alloc, rtype, octets),
        outcome => outcome,
    }
}
