//! What holds of all that a secondary is sent; a law, the contract of a function that does nothing.
ghost use Rattle.std.specs.Prelude.{◌≡◌, ℕ, ◌<◌, true, List, map, Some};
ghost use Rattle.std.specs.List.{AllByRecursion};
ghost use Rattle.std.specs.declared.net.socket_addr.SocketAddr.{SocketAddr};
ghost use Rattle.notify.specs.Course.{Sending, Course, InOrder};
ghost use Rattle.notify.specs.Notified.{Notified};
ghost use Rattle.notify.specs.Runs.{Posted, Run, AreDistinct, TakesCourse};
ghost use Rattle.notify.specs.Copies.{is_due};
ghost use Rattle.notify.specs.declared.secondary.Secondary.{Secondary as Told};
ghost use Rattle.notify.specs.declared.secondary.Telling.{Telling as Told_so};

/// What a secondary is sent is in order: of no older version than the NOTIFY before it, and a second later or more, however the clock
/// goes, whichever versions are served and whatever is received (RFC 1996, 3.6). To one that has answered nothing is due but a newer
/// version.
pub fn notified_in_order()
    ensures ordered { (sent : List Sending) (time : ℕ) (s : Told) → Course sent time s → InOrder sent }
    ensures answered { (time number : ℕ) (s : Told) (t : Told_so) → s.telling ≡ Some t → t.answered ≡ true → is_due time number s ≡ true → t.number < number }
{}

/// Whatever a notifier of distinct addresses does over time, each datagram to one of them is the NOTIFY of the version that is served, and
/// all of them together are such a course; its addresses are those that were given, in their order (RFC 1996, 3.6).
pub fn runs_are_courses()
    ensures courses { (addresses : List SocketAddr) (sent : List Posted) (n : Notified) → AreDistinct addresses → Run addresses sent n → AllByRecursion (TakesCourse sent n.time) n.secondaries }
    ensures addresses { (addresses : List SocketAddr) (sent : List Posted) (n : Notified) → AreDistinct addresses → Run addresses sent n → map (λ s. s.address) n.secondaries ≡ addresses }
{}
