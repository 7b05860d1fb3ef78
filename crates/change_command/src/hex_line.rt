//! The update as a message in hexadecimal.
ghost use Rattle.std.specs.Prelude.{◌≡◌, ◌<◌, ◌↔◌, ◌++◌, ◌∷◌, [], false, length, string_bytes, IfOk};
ghost use Rattle.std.specs.Result.{IsErrOf};
ghost use Rattle.hex.specs.Hex.{encode_lower};
ghost use Rattle.dns_name.specs.Name.{is_same};
ghost use Rattle.zone_tree.specs.Zone.{apex_of};
ghost use Rattle.zone_change.specs.Change.{change_to as update_to, HasRoom};
ghost use Rattle.zone_change.specs.Message.{most_octets, message_octets};
ghost use Rattle.change_command.specs.ChangeText.{change_hex};

use std::alloc::{AllocError, Global};
use zone_change::{ChangeFault, change_to, message_of};
use zone_tree::Zone;

/// The message of the update that takes a zone to another of the same apex, in hexadecimal, and a line's end. Nothing where nothing changes.
///
/// `OtherApex` and `NoRoom` as of [`change_to`], `TooLong` where the message has more than 65,535 octets, and `NoMemory` where a growth was refused.
pub fn write_message(alloc: Global, old: &Zone, next: &Zone) -> Result<String, ChangeFault>
    ensures text { IfOk result (λ text. string_bytes text ≡ change_hex old.now next.now) }
    ensures other { IsErrOf result ChangeFault.OtherApex ↔ (is_same (apex_of old.now) (apex_of next.now) ≡ false) }
    ensures room { IsErrOf result ChangeFault.NoRoom → HasRoom old.now next.now → ⊥ }
    ensures long { IsErrOf result ChangeFault.TooLong → most_octets < length (message_octets (update_to old.now next.now)) }
{
    let Some(update) = change_to(alloc, old, next)? else {
        return Ok(String::new(alloc));
    };
    let message = message_of(alloc, &update)?;
    let line = line_of(alloc, message.as_slice())?;
    Ok(line)
}

/// Octets in hexadecimal, and a line's end.
fn line_of(alloc: Global, octets: &[u8]) -> Result<String, AllocError>
    ensures { IfOk result (λ line. string_bytes line ≡ encode_lower octets.now ++ 10 ∷ []) }
{
    let mut line = hex::encode(alloc, octets)?;
    line.push('\n')?;
    Ok(line)
}
