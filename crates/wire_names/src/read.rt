//! Reading a name at a place of a message (RFC 1035, 4.1.4).
ghost use Rattle.std.specs.Prelude.{◌≡◌, ◌+◌, ◌≤◌, ◌↔◌, ◌∷◌, ◌++◌, length, IsTrue, IfOk, IfErr};
ghost use Rattle.std.specs.Bool.{OnTrue};
ghost use Rattle.dns_name.specs.Name.{IsName};
ghost use Rattle.wire_names.specs.Leads.{AreEnds};
ghost use Rattle.wire_names.specs.Spells.{Spells, Refuses};
ghost use Rattle.wire_names.specs.NameAt.{name_at};

use crate::message::led_from;
use crate::part::{NameReadFault, Part, label_at, part_at};
use arrayvec::ArrayVec;
use dns_name::{MAX_NAME, Name};

/// The name at a position of the message, in the spelling that it has there, and the position after it where
/// reading goes on: after its first pointer, if it has one. No memory is taken (RFC 1035, 4.1.4).
///
/// Short where the message ends inside the name; BadLength where the two highest bits of a length octet are 01 or
/// 10; BadPointer where a pointer's target isn't below the place where its run of labels began; TooLong where the
/// name has more than 255 octets. The first fault in reading order is told, at a label Short before TooLong.
pub fn read_name(msg: &[u8], at: usize) -> Result<(Name, usize), NameReadFault>
    ensures found { IfOk result (λ r. Spells msg.now at at r.0 r.1) }
    ensures lawful { IfOk result (λ r. IsName r.0) }
    ensures refused { IfErr result (λ fault. Refuses msg.now at at 0 fault) }
    ensures computed { result ≡ name_at msg.now at }
{
    name_in(msg, &[], at)
}

/// The name at a position, as [`read_name`] reads it, where the ends of the message's pointers are known from its first place up to
/// some place: pointers whose end is known are passed over (RFC 1035, 4.1.4).
pub(crate) fn name_in(msg: &[u8], ends: &[u16], at: usize) -> Result<(Name, usize), NameReadFault>
    requires { AreEnds msg.now ends.now (length ends.now) }
    ensures found { IfOk result (λ r. Spells msg.now at at r.0 r.1) }
    ensures lawful { IfOk result (λ r. IsName r.0) }
    ensures refused { IfErr result (λ fault. Refuses msg.now at at 0 fault) }
    ensures computed { result ≡ name_at msg.now at }
{
    let mut octets = ArrayVec::new();
    let mut behind = None;
    let mut run = at;
    let mut place = at;
    loop {
        match part_at(msg, place)? {
            Part::Closing => {
                octets.push(0);
                let name = Name::from_octets(octets);
                return Ok((name, behind.unwrap_or(place + 1)));
            }
            Part::Label(len) => {
                if !put_label(&mut octets, label_at(msg, place, len)) {
                    return Err(NameReadFault::TooLong);
                }
                place += 1 + len;
            }
            Part::Pointer(target) => {
                if target >= run {
                    return Err(NameReadFault::BadPointer);
                }
                behind = Some(behind.unwrap_or(place + 2));
                run = led_from(ends, target);
                place = run;
            }
        }
    }
}

/// Puts a label after the others, after its length. False where that leaves no room for the zero octet.
fn put_label(octets: &mut ArrayVec<u8, MAX_NAME>, label: &[u8]) -> bool
    ensures room { IsTrue result ↔ (length octets.old.items + (length label.now + 2) ≤ MAX_NAME) }
    ensures put { OnTrue result (octets.new.items ≡ octets.old.items ++ length label.now ∷ label.now) }
{
    let len = label.len();
    if octets.len() + (len + 2) > MAX_NAME {
        return false;
    }
    octets.push(len as u8);
    put_octets(octets, label);
    true
}

/// Puts octets after the others: one or two, as many labels of a long name have, without a call.
#[inline(always)]
fn put_octets(octets: &mut ArrayVec<u8, MAX_NAME>, own: &[u8])
    requires { length octets.old.items + length own.now ≤ MAX_NAME }
    ensures { octets.new.items ≡ octets.old.items ++ own.now }
{
    match own {
        [octet] => octets.push(*octet),
        [octet, behind] => {
            octets.push(*octet);
            octets.push(*behind);
        }
        _ => {
            let _ = octets.try_extend_from_slice(own);
        }
    }
}
