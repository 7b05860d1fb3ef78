//! Frames: messages over TCP, each after its length in two octets (RFC 1035, 4.2.2).
ghost use Rattle.std.specs.Prelude.{◌≡◌, ◌+◌, length, Some, None, option_map, if◌then◌else◌};
ghost use Rattle.dns_message.specs.Frame.{frame_in, frame_fits, with_frame};

/// The octets of a frame's length (RFC 1035, 4.2.2).
const LENGTH: usize = 2;

/// The message of the frame that the octets begin with, and the octets after that frame; None where fewer than two
/// octets are there, or fewer than the frame's length says. It takes no memory (RFC 1035, 4.2.2).
pub fn take_frame(octets: &[u8]) -> Option<(&[u8], &[u8])>
    ensures { option_map (λ r. (r.0.now, r.1.now)) result ≡ frame_in octets.now }
{
    let (front, rest) = octets.split_first_chunk::<LENGTH>()?;
    rest.split_at_checked(usize::from(u16::from_be_bytes(*front)))
}

/// Writes a message's frame to the front of a buffer, and gives how many octets that is; what stands after is as it
/// was. None where the message has over 65,535 octets or its frame doesn't fit the buffer, which then is as it was.
/// It takes no memory (RFC 1035, 4.2.2).
pub fn put_frame(message: &[u8], out: &mut [u8]) -> Option<usize>
    ensures reported { result ≡ (if frame_fits message.now (length out.old) then Some (length message.now + 2) else None) }
    ensures put { out.new ≡ (if frame_fits message.now (length out.old) then with_frame message.now out.old else out.old) }
{
    let len = u16::try_from(message.len()).ok()?;
    let end = LENGTH + message.len();
    if end > out.len() {
        return None;
    }
    out[..LENGTH].copy_from_slice(&len.to_be_bytes());
    out[LENGTH..end].copy_from_slice(message);
    Some(end)
}
