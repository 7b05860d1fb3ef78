//! Laws of how requests are read and replies are written.
ghost use Rattle.std.specs.Prelude.{◌≡◌, ◌≢◌, ◌↔◌, ◌⊎◌, ℕ, ◌+◌, ◌/◌, ◌^◌, ◌<◌, ◌≤◌, List, [], ◌∷◌, ◌++◌, length, map, slice_index, true, Option, Some, None, Ok};
ghost use Rattle.dns_rdata.specs.Limits.{max_data};
ghost use Rattle.dns_name.specs.Name.{IsName};
ghost use Rattle.dns_rdata.specs.Record.{Record};
ghost use Rattle.dns_rdata.specs.Numbers.{extended_bits};
ghost use Rattle.dns_rdata.specs.declared.numbers.Rcode.{Rcode as Code};
ghost use Rattle.dns_rdata.specs.declared.numbers.Rcode.TheVariants.{NoError};
ghost use Rattle.wire_names.specs.Table.{Table};
ghost use Rattle.message_laws.specs.Again.{IsRecord, IsReply, IsReadAgain, behind, octets_at, data_at, entry_at, body_written};
ghost use Rattle.dns_message.specs.Encoded.{IsTrueOf};
ghost use Rattle.dns_message.specs.Expanded.{expanded_data};
ghost use Rattle.dns_message.specs.Answers.{answers, filled, StopsTaking};
ghost use Rattle.dns_message.specs.Asked.{request_of, question_in_full, IsQuestion, IsAnswerTo};
ghost use Rattle.dns_message.specs.Message.{Message, max_message, message_limit};
ghost use Rattle.dns_message.specs.Octets.{record_octets, reply_octets, fits};
ghost use Rattle.dns_message.specs.declared.query.Question.{Question};
ghost use Rattle.dns_message.specs.Frame.{frame_of, frame_in};
ghost use Rattle.dns_message.specs.Reads.{question_at, record_at, body_in};
ghost use Rattle.dns_message.specs.Received.{as_received, received_records};
ghost use Rattle.dns_message.specs.Request.{reads};
ghost use Rattle.dns_message.specs.Updates.{update_in};
ghost use Rattle.dns_message.specs.Opt.{max_udp, said_by, opt_ttl, opt_entries};
ghost use Rattle.dns_message.specs.declared.edns.Opt.{Opt};
ghost use Rattle.dns_message.specs.declared.query.Head.{Head};
ghost use Rattle.dns_message.specs.declared.update.Update.{Update};

use dns_message::{HEADER, MAX_LIMIT, MAX_UDP, MIN_LIMIT, Parsed, QR};

/// The limits of a reply are those of a datagram and of a frame, and over UDP to one who takes more than the least our own
/// (RFC 1035, 4.2.1 and 4.2.2; RFC 6891, 6.2.5; own).
pub fn limits_of_replies()
    ensures least { MIN_LIMIT ≡ 512 }
    ensures udp { MAX_UDP ≡ 1232 }
    ensures most { MAX_LIMIT ≡ 65535 }
{}

/// Nothing is answered exactly where there are fewer octets than a header has, or QR is set (RFC 1035, 4.1.1).
pub fn silent_is_short_or_reply()
    ensures { (msg : List ℕ) → (reads msg ≡ Parsed.Silent) ↔ ((length msg < HEADER) ⊎ (QR ≤ slice_index msg 2)) }
{}

/// Octets that begin with the frame of a message give that message and the octets after the frame (RFC 1035, 4.2.2).
pub fn frame_is_taken_again()
    ensures { (message rest : List ℕ) → length message ≤ message_limit → frame_in (frame_of message ++ rest) ≡ Some (message, rest) }
{}

/// A question whose name is in full is read as itself, whatever stands before it and after it (RFC 1035, 4.1.2).
pub fn question_in_full_is_read()
    ensures { (front rest : List ℕ) (question : Question) → IsQuestion question
        → question_at (front ++ (question_in_full question ++ rest)) (length front) ≡ Some (question, length front + length (question_in_full question)) }
{}

/// The question that a reply repeats is read, after a request's header, as the question that it is, whatever records
/// follow it; that of an IXFR has no serial then (RFC 1035, 4.1; RFC 1995, 3).
pub fn question_is_read_again()
    ensures { (m : Message) (question : Question) → IsAnswerTo m question
        → reads (request_of m) ≡ Parsed.Query (record { head = m.head; question = question; serial = None; edns = None }) }
{}

/// A record that is written after a message is read as itself, its data as they were written, whatever follows it; and
/// its names are in the table after it (RFC 1035, 4.1.3 and 4.1.4).
pub fn record_is_read_again()
    ensures read { (msg rest : List ℕ) (table : Table) (r : Record) → IsTrueOf msg table → IsRecord r → length (data_at r (table, length msg)) < 2 ^ 16
        → record_at (msg ++ (octets_at (record_octets r) (table, length msg) ++ rest)) (length msg) ≡ Some (entry_at r (table, length msg), (behind (record_octets r) (table, length msg)).1) }
    ensures table { (msg : List ℕ) (table : Table) (r : Record) → IsTrueOf msg table → IsRecord r
        → IsTrueOf (msg ++ octets_at (record_octets r) (table, length msg)) (behind (record_octets r) (table, length msg)).0 }
{}

/// The expanded data of a record that is written after a message, which has its names in full, are the data that were
/// written, whatever follows (RFC 1035, 3.3 and 4.1.4; RFC 2782).
pub fn data_is_read_again()
    ensures { (msg rest : List ℕ) (table : Table) (r : Record) → IsTrueOf msg table → IsRecord r
        → expanded_data (msg ++ (octets_at (record_octets r) (table, length msg) ++ rest)) (entry_at r (table, length msg)) ≡ Some r.rdata }
{}

/// The sections of a reply that is written are read as those that were written, with their expanded data, one after
/// another to its end, and so they are by the counts of its header, whether it has a question or none (RFC 1035, 4.1;
/// RFC 5936, 2.2).
pub fn sections_are_read_again()
    ensures sections { (m : Message) → IsReply m → IsReadAgain m }
    ensures counted { (m : Message) → IsReply m → body_in (reply_octets m) ≡ Some (body_written m) }
{}

/// The OPT of a reply is read as one of version 0, with the size of datagrams that the server takes and with DO as it was written,
/// and the upper bits of the code stand before these (RFC 6891, 6.1.3).
pub fn opt_is_read_again()
    ensures said { (code : Code) (opt : Opt) (at : ℕ) → said_by (opt_entries code (Some opt) at) ≡ Ok (Some (record { size = max_udp; dnssec_ok = opt.dnssec_ok })) }
    ensures code { (code : Code) (opt : Opt) → opt_ttl code opt / 2 ^ 24 ≡ extended_bits code }
{}

/// The answer section of a reply that is written is received as its records, each with its owner in lower case, whether
/// the reply has a question or none (RFC 1035, 4.1; RFC 5936, 2.2; RFC 4343, 3).
pub fn answers_are_received()
    ensures { (m : Message) → IsReply m → m.rcode ≡ NoError → received_records (reply_octets m) ≡ Some (map as_received m.answer) }
{}

/// An update has the header that it was read with, so its reply has what that header says (RFC 2136, 2.2 and 3.8).
pub fn update_keeps_its_header()
    ensures { (head : Head) (msg : List ℕ) (update : Update) → update_in head msg ≡ Some (Ok update) → update.head ≡ head }
{}

/// A record whose owner is a name and whose data has at most 4,096 octets fits into a message of a transfer by
/// itself (RFC 1035, 2.3.4 and 4.1.3; own).
pub fn one_record_fits()
    ensures { (head : Head) (opt : Option Opt) (r : Record) → IsName r.owner → length r.rdata ≤ max_data → fits (answers head None opt (r ∷ [])) max_message ≡ true }
{}

/// Of the records of a list a message takes those from the front that fit together with it, in order, and the others are left
/// (RFC 5936, 2.2).
pub fn records_are_taken_from_the_front()
    ensures all { (head : Head) (question : Option Question) (opt : Option Opt) (limit : ℕ) (list : List Record)
        → (filled head question opt limit [] list).0 ++ (filled head question opt limit [] list).1 ≡ list }
    ensures fit { (head : Head) (question : Option Question) (opt : Option Opt) (limit : ℕ) (list : List Record)
        → (filled head question opt limit [] list).0 ≢ [] → fits (answers head question opt (filled head question opt limit [] list).0) limit ≡ true }
    ensures greedy { (head : Head) (question : Option Question) (opt : Option Opt) (limit : ℕ) (list : List Record)
        → StopsTaking head question opt limit (filled head question opt limit [] list).0 (filled head question opt limit [] list).1 }
{}
