//! Replies that are held back, to be sent one after another (own).

use crate::worker_socket::is_sent;
use std::alloc::{AllocError, Global};
use std::net::{SocketAddr, UdpSocket};

/// The most replies that are held back (own).
pub(crate) const MOST: u32 = 16;

/// The most octets that they have together (own).
const ROOM: usize = 16_384;

/// Replies, in the order in which they are to be sent: the octets of all, one reply after another, and the length and the recipient of each.
pub(crate) struct HeldReplies {
    octets: Vec<u8>,
    replies: Vec<(usize, SocketAddr)>,
}

impl Drop for HeldReplies {
    fn drop(self) {
        let HeldReplies {
            octets: _,
            replies: _,
        } = self;
    }
}

impl HeldReplies {
    /// Holds no reply yet, and has room for the most that may be held back.
    pub(crate) fn new(alloc: Global) -> Result<HeldReplies, AllocError> {
        Ok(HeldReplies {
            octets: Vec::with_capacity(alloc, ROOM)?,
            replies: Vec::with_capacity(alloc, MOST as usize)?,
        })
    }

    /// Adds a reply after the others. False where there is no room for it.
    pub(crate) fn hold(&mut self, octets: &[u8], to: SocketAddr) -> bool {
        if octets.len() > ROOM.saturating_sub(self.octets.len()) {
            return false;
        }
        if self.replies.push((octets.len(), to)).is_err() {
            return false;
        }
        if self.octets.extend_from_slice(octets).is_err() {
            let _not_held = self.replies.pop();
            return false;
        }
        true
    }

    /// Sends the replies in their order, and gives how many weren't sent in whole. Then no reply is held.
    pub(crate) fn send(&mut self, socket: &UdpSocket) -> u64 {
        let mut lost: u64 = 0;
        let mut rest = self.octets.as_slice();
        for &(len, to) in self.replies.iter() {
            let Some((reply, behind)) = rest.split_at_checked(len) else {
                break;
            };
            if !is_sent(socket, reply, to) {
                lost = lost.saturating_add(1);
            }
            rest = behind;
        }
        self.octets.clear();
        self.replies.clear();
        lost
    }
}
