//! The outcome of an update in the last version (RFC 2136, 3).
ghost use Rattle.std.specs.Prelude.{◌≡◌, ◌+◌, ◌<◌, ◌^◌, true, IfOk, IfErr, ◌==◌, Some, None, if◌then◌else◌};
ghost use Rattle.dns_message.specs.Message.{opcode_UPDATE};
ghost use Rattle.world_run.specs.Judgements.{judged as says_judged, judged_by};
ghost use Rattle.world_run.specs.declared.judged.Judged.TheVariants.{Code};
ghost use Rattle.update_core.specs.Applied.{code_of};

use crate::fault::WorldFault;
use crate::lent::Request;
use crate::published::Published;
use dns_message::{OPCODE_UPDATE, Parsed, Update, parse};
use dns_rdata::Rcode;
use serve_core::Heading;
use std::alloc::Global;
use std::mem;
use update_core::{Outcome, apply};
use zone_tree::Version;

/// The outcome of an update.
#[derive(Drop)]
pub enum Judged {
    /// It gets this code, and changes nothing. The reply has this heading.
    Code(Heading, Rcode),
    /// It makes this version. The reply has this heading.
    Makes(Heading, Published),
}

/// The outcome of an update in the last version; None where the request is no update, and where the version's number would pass 64 bits (RFC 2136, 3; own).
///
/// `NoMemory` where an allocation was refused.
pub(crate) fn judge(
    alloc: Global,
    last: &Published,
    request: &Request<'_>,
) -> Result<Option<Judged>, WorldFault>
    ensures ok { IfOk result (λ judged. judged ≡ says_judged last.now request.now) }
    ensures refused { IfErr result (λ fault. fault ≡ WorldFault.NoMemory) }
{
    let version = last.version();
    if version.number() == u64::MAX {
        return Ok(None);
    }
    let said = parse(alloc, request.as_slice());
    match &said {
        Parsed::Update(update) => judge_update(alloc, version, update),
        Parsed::Fault(head, code) => Ok(judge_fault(Heading::header_alone(*head), *code)),
        Parsed::BadOpt(head, question, code, dnssec_ok) => {
            Ok(judge_fault(Heading::of_bad(*head, question, *dnssec_ok), *code))
        }
        Parsed::NoMemory(_) => Err(WorldFault::NoMemory),
        _ => Ok(None),
    }
}

/// The outcome of an update that can't be read, or whose OPT record is refused; None where the request is no update.
fn judge_fault(heading: Heading, code: Rcode) -> Option<Judged>
    ensures { result ≡ (if heading.head.opcode == opcode_UPDATE then Some (Code heading code) else None) }
{
    if heading.head.opcode == OPCODE_UPDATE {
        return Some(Judged::Code(heading, code));
    }
    None
}

/// The outcome of an update that was read (RFC 2136, 3).
fn judge_update(
    alloc: Global,
    version: &Version,
    update: &Update,
) -> Result<Option<Judged>, WorldFault>
    requires { version.now.number + 1 < 2 ^ 64 }
    ensures ok { IfOk result (λ judged. judged ≡ judged_by version.now update.now (code_of version.now.zone update.now true)) }
    ensures refused { IfErr result (λ fault. fault ≡ WorldFault.NoMemory) }
{
    let heading = Heading::of_update(update);
    let outcome = apply(alloc, version, update, true);
    let code = outcome.code();
    match outcome {
        Outcome::Refused(_) | Outcome::Unchanged => Ok(Some(Judged::Code(heading, code))),
        Outcome::Next(next) => match Published::new(alloc, next) {
            Ok(version) => Ok(Some(Judged::Makes(heading, version))),
            Err(fault) => {
                mem::drop(heading);
                Err(fault)
            }
        },
        Outcome::NoMemory => {
            mem::drop(heading);
            Err(WorldFault::NoMemory)
        }
    }
}
