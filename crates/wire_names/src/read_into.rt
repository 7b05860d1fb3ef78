//! Reading a name into one that is kept (RFC 1035, 4.1.4).
ghost use Rattle.std.specs.Prelude.{◌≡◌, length, Ok, Err, IsNone, IfSome, OnErr, MatchResult};
ghost use Rattle.wire_names.specs.Leads.{AreEnds};
ghost use Rattle.wire_names.specs.NameAt.{name_at};

use crate::part::NameReadFault;
use crate::read::name_in;
use dns_name::Name;

/// Reads the name at a position of the message into a name, by the ends of the message's pointers, and gives the position after it, as [`read_name`](crate::read_name)
/// does; where there is none, the name stays as it is (RFC 1035, 4.1.4).
pub(crate) fn name_into(
    msg: &[u8],
    ends: &[u16],
    at: usize,
    name: &mut Name,
) -> Result<usize, NameReadFault>
    requires { AreEnds msg.now ends.now (length ends.now) }
    ensures read { MatchResult result (λ next. name_at msg.now at ≡ Ok (name.new, next)) (λ fault. name_at msg.now at ≡ Err fault) }
    ensures stays { OnErr result (name.new ≡ name.old) }
{
    if let Some(next) = read_plain(msg, at, name) {
        return Ok(next);
    }
    match name_in(msg, ends, at) {
        Ok((read, next)) => {
            *name = read;
            Ok(next)
        }
        Err(fault) => Err(fault),
    }
}

/// Reads the name at a position of the message into a name where it stands there in full, and gives the position after it; None
/// where it doesn't: the name stays as it is then.
fn read_plain(msg: &[u8], at: usize, name: &mut Name) -> Option<usize>
    ensures found { IfSome result (λ next. name_at msg.now at ≡ Ok (name.new, next)) }
    ensures none { IsNone result → name.new ≡ name.old }
{
    let rest = msg.get(at..)?;
    let len = name.set_from_wire(rest)?;
    Some(at + len)
}
