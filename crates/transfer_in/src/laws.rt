//! Laws of whole transfers, from the octets that are sent to the zone that is held. Each is the contract of a function that
//! does nothing.
ghost use Rattle.std.specs.Prelude.{◌≡◌, ℕ, true, List, [], ◌∷◌, map, All, Option, Some, Ok};
ghost use Rattle.dns_rdata.specs.Record.{Record};
ghost use Rattle.dns_message.specs.Answers.{answers};
ghost use Rattle.dns_message.specs.Asked.{IsQuestion};
ghost use Rattle.dns_message.specs.Octets.{fits};
ghost use Rattle.dns_message.specs.declared.edns.Opt.{Opt};
ghost use Rattle.dns_message.specs.declared.query.Head.{Head};
ghost use Rattle.dns_message.specs.declared.query.Question.{Question};
ghost use Rattle.zone_tree.specs.Zone.{IsZone, apex_of, soa_of};
ghost use Rattle.transfer_core.specs.Lists.{full, incremental, newest, as_sent, AreVersions};
ghost use Rattle.transfer_core.specs.Packed.{spelt, packed, octets_of, datagram};
ghost use Rattle.transfer_core.specs.Take.{take};
ghost use Rattle.transfer_in.specs.Sendable.{IsSendable};
ghost use Rattle.transfer_in.specs.Taking.{records_of_messages};

/// The octets of the messages of a list are received as the records of that list, in order, whatever spelling of a name was
/// asked for (RFC 5936, 2.2; RFC 4343, 3).
pub fn lists_are_received()
    ensures { (head : Head) (question : Question) (opt : Option Opt) (list : List Record) → IsQuestion question → All IsSendable list
        → records_of_messages (octets_of (packed head question opt list)) ≡ map as_sent list }
{}

/// A datagram that has the whole of a list is received as the records of that list, in order (RFC 1995, 2).
pub fn datagrams_are_received()
    ensures { (head : Head) (question : Question) (opt : Option Opt) (limit : ℕ) (list soa : List Record) → IsQuestion question → All IsSendable list
        → fits (answers head (Some question) opt (map (spelt question.name) list)) limit ≡ true
        → records_of_messages (datagram head question opt limit list soa ∷ []) ≡ map as_sent list }
{}

/// A holder of a zone that takes the octets by which a zone of the same apex is sent in whole holds that zone
/// (RFC 5936, 2.2).
pub fn full_transfers_are_taken()
    ensures { (zone other : List Record) (head : Head) (question : Question) (opt : Option Opt) → IsQuestion question → IsZone other → apex_of other ≡ apex_of zone
        → take zone (records_of_messages (octets_of (packed head question opt (full other)))) ≡ Ok other }
{}

/// A holder of a zone that takes the octets by which the changes from it are sent, through zones of its apex whose serials
/// all differ, holds the newest (RFC 1995, 4).
pub fn incremental_transfers_are_taken()
    ensures { (zone next : List Record) (zones : List (List Record)) (head : Head) (question : Question) (opt : Option Opt) → IsQuestion question → AreVersions zone (next ∷ zones)
        → take zone (records_of_messages (octets_of (packed head question opt (incremental zone (next ∷ zones))))) ≡ Ok (newest next zones) }
{}

/// A holder of a zone that takes the octets by which its own SOA is sent alone holds what it held (RFC 1995, 2).
pub fn current_zones_stay()
    ensures { (zone : List Record) (head : Head) (question : Question) (opt : Option Opt) → IsQuestion question → IsZone zone
        → take zone (records_of_messages (octets_of (packed head question opt (soa_of zone)))) ≡ Ok zone }
{}
