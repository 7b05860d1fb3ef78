//! Laws of updates in one message or more: each is the contract of a function that does nothing.
ghost use Rattle.std.specs.Prelude.{◌≡◌, ℕ, List, [], ◌∷◌};
ghost use Rattle.dns_rdata.specs.Record.{Record};
ghost use Rattle.dns_message.specs.Request.{reads};
ghost use Rattle.dns_message.specs.declared.query.Parsed.TheVariants.{Update as Asks};
ghost use Rattle.dns_message.specs.declared.update.Update.{Update};
ghost use Rattle.journal.specs.Batch.{Messages};
ghost use Rattle.update_messages.specs.Joined.{IsRead};
ghost use Rattle.zone_change.specs.Change.{change_to};
ghost use Rattle.zone_change.specs.Messages.{AreMessages};
ghost use Rattle.zone_tree.specs.Zone.{IsZone, apex_of};

/// A request of one message is read as that message is (RFC 2136, 2).
pub fn one_message_is_read()
    ensures is { (message : List ℕ) (update : Update) → reads message ≡ Asks update → IsRead (message ∷ []) update }
    ensures only { (message : List ℕ) (update : Update) → IsRead (message ∷ []) update → reads message ≡ Asks update }
{}

/// A request is read as at most one update.
pub fn a_request_is_read_once()
    ensures { (messages : Messages) (update other : Update) → IsRead messages update → IsRead messages other → update ≡ other }
{}

/// The messages of the update that takes a zone to another one of its apex are read as that update, and as no other (RFC 1035, 4.1; RFC 2136, 2).
pub fn a_change_is_read_again()
    ensures is { (old next : List Record) (messages : Messages) → IsZone old → IsZone next → apex_of old ≡ apex_of next → AreMessages (change_to old next) messages → IsRead messages (change_to old next) }
    ensures only { (old next : List Record) (messages : Messages) (update : Update) → IsZone old → IsZone next → apex_of old ≡ apex_of next → AreMessages (change_to old next) messages
        → IsRead messages update → update ≡ change_to old next }
{}
