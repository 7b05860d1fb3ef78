//! All that a request gets, by cases; laws, each the contract of a function that does nothing.
ghost use Rattle.std.specs.Prelude.{◌≡◌, ℕ, Bool, true, List, Option};
ghost use Rattle.std.specs.Option.{option_to_list};
ghost use Rattle.dns_rdata.specs.Record.{Record};
ghost use Rattle.dns_message.specs.declared.query.Query.{Query as QueryAsked};
ghost use Rattle.dns_message.specs.declared.query.Parsed.{Parsed as Said};
ghost use Rattle.dns_message.specs.declared.query.Parsed.TheVariants.{Query as SaysQuery};
ghost use Rattle.serve_core.specs.declared.peer.Peer.{Peer as Asker};
ghost use Rattle.serve_core.specs.declared.transport.Transport.{Transport as Carrier};
ghost use Rattle.serve_core.specs.Replies.{replies_to, IsNoTransfer};
ghost use Rattle.serve_core.specs.Served.{Want, got_of};
ghost use Rattle.serve_core.specs.Transfers.{peer_over, is_permitted, messages_to};

/// A transfer that is permitted gets its messages, as [`transfer_reply`](crate::transfer_reply) gives them; all else gets what
/// [`respond`](crate::respond) gives: one reply, or none (RFC 1034, 4.3.2; RFC 1995, 2 and 4; RFC 2136, 3; RFC 5936, 2.2).
pub fn replies_by_cases()
    ensures transfers { (zone : List Record) (changes : Option (List Record)) (peer : Asker) (want : Want) (query : QueryAsked) → is_permitted zone peer query ≡ true
        → replies_to zone changes peer want (SaysQuery query) ≡ messages_to zone changes peer query }
    ensures others { (zone : List Record) (changes : Option (List Record)) (transport : Carrier) (may : Bool) (want : Want) (said : Said) → IsNoTransfer zone (peer_over transport may) said
        → replies_to zone changes (peer_over transport may) want said ≡ option_to_list (got_of transport may want zone said).reply }
{}
