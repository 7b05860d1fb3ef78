//! What one record of an update changes (RFC 2136, 3.4.2.2 to 3.4.2.4).
ghost use Rattle.std.specs.Prelude.{◌≡◌, ◌↔◌, [], ◌∷◌, None, IfOk};
ghost use Rattle.std.specs.Result.{IsErrOf};
ghost use Rattle.dns_rdata.specs.Numbers.{class_IN, class_ANY, class_NONE, type_ANY};
ghost use Rattle.zone_tree.specs.Zone.{IsZone};
ghost use Rattle.update_core.specs.Verdict.{prescan_of};
ghost use Rattle.update_core.specs.Act.{effect};
ghost use Rattle.update_core.specs.Overlay.{IsRow};
ghost use Rattle.update_core.specs.declared.rows.ActFault.TheVariants.{Limit as limit, NoMemory as no_memory};
ghost use Rattle.dns_rdata.specs.declared.rrset.SetFault.TheVariants.{Limit as set_limit};
ghost use Rattle.zone_tree.specs.declared.fault.ZoneFault.TheVariants.{Limit as zone_limit};

use crate::additions::row_of_addition;
use crate::deletions::{changes_of_name, row_of_record, row_of_set};
use crate::place::Place;
use dns_rdata::{Class, RData, RType, RawRecord, SetFault};
use std::alloc::{AllocError, Global};
use zone_tree::{Change, ZoneFault};

/// Why a record of an update doesn't take effect.
#[derive(Clone, Copy, Debug, PartialEq, Eq)]
pub(crate) enum ActFault {
    /// It passes a limit: more than 4,096 octets of data, 256 records of a set, or 1,000,000 records (own).
    Limit,
    /// A growth was refused.
    NoMemory,
}

impl From<AllocError> for ActFault {
    ghost from_gives = { λ refused given. given ≡ no_memory };

    fn from(_refused: AllocError) -> ActFault {
        ActFault::NoMemory
    }
}

impl From<ZoneFault> for ActFault {
    ghost from_gives = { λ fault given. (given ≡ limit) ↔ (fault ≡ zone_limit) };

    fn from(fault: ZoneFault) -> ActFault {
        match fault {
            ZoneFault::Limit => ActFault::Limit,
            ZoneFault::NoMemory => ActFault::NoMemory,
        }
    }
}

impl From<SetFault> for ActFault {
    ghost from_gives = { λ fault given. (given ≡ limit) ↔ (fault ≡ set_limit) };

    fn from(fault: SetFault) -> ActFault {
        match fault {
            SetFault::Limit => ActFault::Limit,
            SetFault::NoMemory => ActFault::NoMemory,
        }
    }
}

/// What a record of an update does to the sets of its owner.
#[derive(Drop)]
pub(crate) enum Row {
    /// Nothing.
    Nothing,
    /// It makes another set of the one of its type, or takes it away; of a record that is added these are the data.
    OneSet(Option<RData>),
    /// It makes these changes.
    Changes(Vec<Change>),
}

/// What a record does to the sets of its owner.
pub(crate) fn row_of(alloc: Global, zone: &Place<'_>, raw: &RawRecord) -> Result<Row, ActFault>
    requires lawful { IsZone zone.now.made }
    requires at { zone.now.owner ≡ raw.now.owner }
    requires passed { prescan_of zone.now.made raw.now ≡ None }
    ensures row { IfOk result (IsRow zone.now.made raw.now) }
    ensures limit { IsErrOf result ActFault.Limit → effect zone.now.made raw.now ≡ None }
{
    match raw.class {
        Class::IN => row_of_addition(alloc, zone, raw),
        Class::ANY if raw.rtype == RType::ANY => {
            let changes = changes_of_name(alloc, zone, raw)?;
            Ok(Row::Changes(changes))
        }
        Class::ANY => Ok(row_of_set(zone, raw)),
        Class::NONE => Ok(row_of_record(zone, raw)),
        _ => Ok(Row::Nothing),
    }
}

/// One change alone.
pub(crate) fn one_change(alloc: Global, change: Change) -> Result<Vec<Change>, AllocError>
    ensures { IfOk result (λ changes. changes.items ≡ change ∷ []) }
{
    let mut changes = Vec::with_capacity(alloc, 1)?;
    changes.push(change)?;
    Ok(changes)
}
