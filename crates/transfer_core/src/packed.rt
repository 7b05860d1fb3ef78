//! Laws of the messages of a transfer, each the contract of a function that does nothing.
ghost use Rattle.std.specs.Prelude.{◌≡◌, ◌≤◌, ℕ, List, ◌∷◌, All, length, drop, Option, None};
ghost use Rattle.std.specs.List.{flat_map};
ghost use Rattle.dns_rdata.specs.Record.{Record};
ghost use Rattle.dns_message.specs.Message.{Message, max_message, number_at};
ghost use Rattle.dns_message.specs.declared.edns.Opt.{Opt};
ghost use Rattle.dns_message.specs.declared.query.Head.{Head};
ghost use Rattle.dns_message.specs.declared.query.Question.{Question};
ghost use Rattle.transfer_core.specs.Packed.{packed_from, packed_later, octets_of};

/// The answer sections of the messages are the list, record by record: none is left out, and none is there twice. All
/// messages have the same header, and those after the first have no question and no OPT (RFC 5936, 2.2; RFC 6891, 6.1.1; own).
pub fn messages_are_the_list()
    ensures records { (head : Head) (question : Option Question) (opt : Option Opt) (list : List Record) → flat_map (λ (m : Message). m.answer) (packed_from head question opt list) ≡ list }
    ensures headers { (head : Head) (question : Option Question) (opt : Option Opt) (list : List Record) → All (λ (m : Message). m.head ≡ head) (packed_from head question opt list) }
    ensures questions { (head : Head) (question : Option Question) (opt : Option Opt) (list : List Record) → All (λ (m : Message). m.question ≡ None) (drop 1 (packed_from head question opt list)) }
    ensures opts { (head : Head) (question : Option Question) (opt : Option Opt) (list : List Record) → All (λ (m : Message). m.opt ≡ None) (drop 1 (packed_from head question opt list)) }
{}

/// The header of each message tells how many of the records it has: those after so many are left to the messages after it (RFC 1035,
/// 4.1.1; RFC 5936, 2.2).
pub fn messages_tell_their_records()
    ensures header { (head : Head) (question : Option Question) (opt : Option Opt) (list : List Record) (octets : List ℕ) (later : List (List ℕ))
        → octets_of (packed_from head question opt list) ≡ octets ∷ later → length octets ≤ max_message → 12 ≤ length octets }
    ensures left { (head : Head) (question : Option Question) (opt : Option Opt) (list : List Record) (octets : List ℕ) (later : List (List ℕ))
        → octets_of (packed_from head question opt list) ≡ octets ∷ later → length octets ≤ max_message → later ≡ octets_of (packed_later head (drop (number_at octets 6) list)) }
{}
