//! Publishing the versions of batches, and replying to the clients of their updates (RFC 2136, 3.8; own).
ghost use Rattle.std.specs.Prelude.{◌≡◌, ◌+◌, ◌≤◌, ◌++◌, ℕ, List, length, take, drop, vec_capacity};
ghost use Rattle.zone_tree.specs.Version.{Version};
ghost use Rattle.update_batches.specs.Engine.{IsLast, AreMade};
ghost use Rattle.update_batches.specs.Batch.{versions_in};
ghost use Rattle.update_batches.specs.Results.{AreDone, replies_to};
ghost use Rattle.update_batches.specs.Reply.{Reply};

use crate::queued_update::QueuedUpdate;
use crate::verdict::Verdict;
use crate::version_update::VersionUpdate;
use dns_engine::SharedVersion;
use std::sync::Wait;

/// Publishes versions one after another, under a lock that readers take too, and replies to the clients of updates. Nobody else has the right to publish. The lock is held only
/// briefly, twice a batch, and never while updates are judged or written to a disk.
pub trait UpdatePublisher: Drop {
    /// The versions that are published, oldest first: exactly these, since nobody else has the right to publish.
    ghost published: { Self → List Version };

    /// How many were, when the last batch was begun.
    ghost begun: { Self → ℕ };

    /// How many more versions are sure to find room.
    ghost room: { Self → ℕ };

    /// The replies to requests, oldest first.
    ghost replied: { Self → List Reply };

    /// Begins a batch: gives the version that is published last, in which it is to be judged, and how many more are sure to find room after it.
    fn begin_batch<R: Wait>(&mut self, rt: &R) -> (SharedVersion, usize)
        ensures last { IsLast (published self.new) result.0 }
        ensures published { published self.new ≡ published self.old }
        ensures begun { begun self.new ≡ length (published self.new) }
        ensures room { room self.new ≡ result.1 }
        ensures replied { replied self.new ≡ replied self.old };

    /// Publishes the versions of a batch, for which there is room, after those that are published, and replies to the first `count` of these requests, at most 64, each with its
    /// verdict. They are removed from `requests`. No reply is sent before all versions of the batch are published.
    fn finish<R: Wait>(
        &mut self,
        rt: &R,
        requests: &mut Vec<QueuedUpdate>,
        count: usize,
        verdicts: &[Verdict],
        updates: Vec<VersionUpdate>,
    )
        requires made { (first : Version) × IsLast (published self.old) first × AreMade first (versions_in updates.items) }
        requires room { length updates.items ≤ room self.old }
        requires some { count ≤ length requests.old.items }
        requires few { count ≤ 64 }
        requires done { AreDone (published self.old ++ versions_in updates.items) (begun self.old) verdicts.now (take count requests.old.items) }
        ensures published { published self.new ≡ published self.old ++ versions_in updates.items }
        ensures begun { begun self.new ≡ begun self.old }
        ensures room { room self.new + length updates.items ≡ room self.old }
        ensures replied { replied self.new ≡ replied self.old ++ replies_to verdicts.now (take count requests.old.items) }
        ensures rest { requests.new.items ≡ drop count requests.old.items }
        ensures requests_room { vec_capacity requests.new ≡ vec_capacity requests.old };
}
