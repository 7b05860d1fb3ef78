//! Worked examples of the definitions.
ghost use Rattle.std.specs.Prelude.{◌≡◌, true, false, [], ◌∷◌, ◌++◌, Some, None, Ok, Err, take, drop};
ghost use Rattle.dns_rdata.specs.declared.numbers.Rcode.TheVariants.{FormErr, NotImp};
ghost use Rattle.dns_message.specs.declared.query.Parsed.TheVariants.{Silent, Fault, BadOpt, Query};
ghost use Rattle.dns_message.specs.Reads.{header_of};
ghost use Rattle.dns_message.specs.Request.{reads};
ghost use Rattle.dns_message.specs.Updates.{update_in};
ghost use Rattle.dns_message.specs.Octets.{reply_octets, fit};
ghost use Rattle.dns_rdata.specs.declared.numbers.Rcode.TheVariants.{BadVers};
ghost use Rattle.dns_message.specs.Opt.{udp_limit};
ghost use Rattle.message_laws.specs.OptExamples.{asked_front, plain_opt, do_opt, later_opt, owned_opt, option_opt, other_record, plain, with_do, takes, empty_front, zone_asked, replied, own_opt, own_do_opt, own_bad_opt, replied_octets, replied_cut, refusal, refusal_octets, service_replied};
ghost use Rattle.message_laws.specs.Examples.{request_front, asked_octets, asked, changes_front, changes_octets, changes, answer, answer_octets, cut_octets, service_answer, service_octets, shorter_octets, shortest_octets, update_front, zone_octets, zone, exchange_octets, exchange, absent_octets, absent, any_octets, any_record, updater};

/// A request, and what stands for other octets: fewer than twelve, no question, a question whose name points to itself,
/// one whose name points to a zero octet of the header, and an IXFR (RFC 1035, 4.1 and 4.1.4; RFC 1995, 3).
#[tactic(auto, unfolding(dns_message::specs::Expanded::names_at, dns_message::specs::Reads::records_at, dns_message::specs::Reads::questions_at, dns_message::specs::Reads::body_in, wire_names::specs::NameAt::name_at, wire_names::specs::NameAt::name_from))]
pub fn read_examples()
    ensures id { (header_of request_front).id ≡ 4660 }
    ensures opcode { (header_of request_front).opcode ≡ 0 }
    ensures rd { (header_of request_front).rd ≡ true }
    ensures query { reads (request_front ++ asked_octets) ≡ Query (record { head = header_of request_front; question = asked; serial = None; edns = None }) }
    ensures short { reads (take 11 request_front) ≡ Silent }
    ensures no_question { reads request_front ≡ Fault (header_of request_front) FormErr }
    ensures pointer { reads (request_front ++ 192 ∷ 12 ∷ 0 ∷ 1 ∷ 0 ∷ 1 ∷ []) ≡ Fault (header_of request_front) FormErr }
    ensures down { reads (request_front ++ 192 ∷ 3 ∷ 0 ∷ 1 ∷ 0 ∷ 1 ∷ []) ≡ Query (record { head = header_of request_front; question = record { name = []; rtype = record { 0 = 1 }; class = record { 0 = 1 } }; serial = None; edns = None }) }
    ensures ixfr { reads (changes_front ++ changes_octets) ≡ Query (record { head = header_of changes_front; question = changes; serial = Some (record { 0 = 258 }); edns = None }) }
{}

/// Replies, whose names have pointers (RFC 1035, 4.1 and 4.1.4; RFC 2782).
#[tactic(auto, unfolding(dns_message::specs::Encoding::these, dns_message::specs::Encoding::named, dns_message::specs::Encoding::before, dns_message::specs::Encoding::measured, dns_message::specs::Encoding::each, dns_message::specs::Octets::question_octets, dns_message::specs::Octets::names_octets, dns_rdata::specs::Layout::layout_of, dns_message::specs::Octets::data_octets, dns_message::specs::Octets::record_octets, dns_message::specs::Octets::sections_octets))]
pub fn examples()
    ensures octets { reply_octets answer ≡ answer_octets }
    ensures whole { fit answer 512 ≡ answer_octets }
    ensures cut { fit answer 67 ≡ cut_octets }
    ensures service { reply_octets service_answer ≡ service_octets }
    ensures without_additional { fit service_answer 87 ≡ shorter_octets }
    ensures shortest { fit service_answer 67 ≡ shortest_octets }
    ensures below_cut { fit (record service_answer { below_cut = true }) 87 ≡ shortest_octets }
{}

/// Updates: a record whose data has a name with a pointer; a record of class NONE without data, which is a prerequisite and
/// no update; one of class ANY, whose data isn't looked at; and a zone section of another type than SOA, which is read
/// (RFC 2136, 2.3 to 2.5).
#[tactic(auto, unfolding(dns_message::specs::Updates::update_in, dns_message::specs::Updates::raws_at, dns_message::specs::Reads::records_at, dns_message::specs::Expanded::expanded_data, dns_message::specs::Expanded::names_at, dns_rdata::specs::Data::data_of, dns_rdata::specs::Layout::layout_of, wire_names::specs::NameAt::name_at, wire_names::specs::NameAt::name_from))]
pub fn update_examples()
    ensures add { update_in updater (update_front 0 1 ++ zone_octets ++ exchange_octets) ≡ Some (Ok (record { head = updater; edns = None; zone = zone; prerequisites = []; updates = exchange ∷ [] })) }
    ensures prerequisite { update_in updater (update_front 1 0 ++ zone_octets ++ absent_octets) ≡ Some (Ok (record { head = updater; edns = None; zone = zone; prerequisites = absent ∷ []; updates = [] })) }
    ensures no_data { update_in updater (update_front 0 1 ++ zone_octets ++ absent_octets) ≡ None }
    ensures any_class { update_in updater (update_front 0 1 ++ zone_octets ++ any_octets) ≡ Some (Ok (record { head = updater; edns = None; zone = zone; prerequisites = []; updates = any_record ∷ [] })) }
    ensures zone_type { update_in updater (update_front 0 0 ++ take 15 zone_octets ++ 1 ∷ 0 ∷ 1 ∷ []) ≡ Some (Ok (record { head = updater; edns = None; zone = record zone { rtype = record { 0 = 1 } }; prerequisites = []; updates = [] })) }
    ensures opcode { (header_of (update_front 0 1)).opcode ≡ updater.opcode }
    ensures rd { (header_of (update_front 0 1)).rd ≡ updater.rd }
{}

/// Requests with an OPT: as it is, with DO, with an option, after another record; two, of which the first tells DO; one of version
/// 1, one at another name, which is told before its version; and one in the answer section, which is none (RFC 6891, 6.1.1 to
/// 6.1.3). What one takes who says nothing, 100, 1,000 and 4,096 (RFC 6891, 6.2.3 and 6.2.5; own).
#[tactic(auto, unfolding(dns_message::specs::Expanded::names_at, dns_message::specs::Reads::records_at, dns_message::specs::Reads::questions_at, dns_message::specs::Reads::body_in, wire_names::specs::NameAt::name_at, wire_names::specs::NameAt::name_from))]
pub fn opt_examples()
    ensures plain { reads (asked_front 0 1 ++ asked_octets ++ plain_opt) ≡ Query (record { head = header_of request_front; question = asked; serial = None; edns = Some plain }) }
    ensures dnssec_ok { reads (asked_front 0 1 ++ asked_octets ++ do_opt) ≡ Query (record { head = header_of request_front; question = asked; serial = None; edns = Some with_do }) }
    ensures option { reads (asked_front 0 1 ++ asked_octets ++ option_opt) ≡ Query (record { head = header_of request_front; question = asked; serial = None; edns = Some plain }) }
    ensures behind { reads (asked_front 0 2 ++ asked_octets ++ other_record ++ do_opt) ≡ Query (record { head = header_of request_front; question = asked; serial = None; edns = Some with_do }) }
    ensures two { reads (asked_front 0 2 ++ asked_octets ++ plain_opt ++ do_opt) ≡ BadOpt (header_of request_front) asked FormErr false }
    ensures first { reads (asked_front 0 2 ++ asked_octets ++ do_opt ++ plain_opt) ≡ BadOpt (header_of request_front) asked FormErr true }
    ensures version { reads (asked_front 0 1 ++ asked_octets ++ later_opt) ≡ BadOpt (header_of request_front) asked BadVers false }
    ensures two_versions { reads (asked_front 0 2 ++ asked_octets ++ later_opt ++ later_opt) ≡ BadOpt (header_of request_front) asked FormErr false }
    ensures owner { reads (asked_front 0 1 ++ asked_octets ++ owned_opt) ≡ BadOpt (header_of request_front) asked FormErr false }
    ensures cut { reads (asked_front 0 2 ++ asked_octets ++ later_opt) ≡ Fault (header_of request_front) FormErr }
    ensures elsewhere { reads (asked_front 1 0 ++ asked_octets ++ later_opt) ≡ Query (record { head = header_of request_front; question = asked; serial = None; edns = None }) }
    ensures silent { udp_limit None ≡ 512 }
    ensures least { udp_limit (Some (takes 100)) ≡ 512 }
    ensures within { udp_limit (Some (takes 1000)) ≡ 1000 }
    ensures most { udp_limit (Some plain) ≡ 1232 }
{}

/// Updates with an OPT; with two, of which their zone entry is told; and with one of version 1 (RFC 2136, 2.3; RFC 6891, 6.1.1 and
/// 6.1.3).
#[tactic(auto, unfolding(dns_message::specs::Updates::update_in, dns_message::specs::Updates::raws_at, dns_message::specs::Reads::records_at, wire_names::specs::NameAt::name_at, wire_names::specs::NameAt::name_from))]
pub fn opt_update_examples()
    ensures plain { update_in updater (empty_front 1 ++ zone_octets ++ plain_opt) ≡ Some (Ok (record { head = updater; edns = Some plain; zone = zone; prerequisites = []; updates = [] })) }
    ensures two { update_in updater (empty_front 2 ++ zone_octets ++ do_opt ++ plain_opt) ≡ Some (Err (zone_asked, record { rcode = FormErr; dnssec_ok = true })) }
    ensures version { update_in updater (empty_front 1 ++ zone_octets ++ later_opt) ≡ Some (Err (zone_asked, record { rcode = BadVers; dnssec_ok = false })) }
{}

/// Replies with an OPT: whole, with DO, cut, without other additional data; and to a request whose OPT isn't obeyed
/// (RFC 6891, 6.1.1 to 6.1.3 and 7).
#[tactic(auto, unfolding(dns_message::specs::Encoding::these, dns_message::specs::Encoding::named, dns_message::specs::Encoding::before, dns_message::specs::Encoding::measured, dns_message::specs::Encoding::each, dns_message::specs::Octets::question_octets, dns_message::specs::Octets::names_octets, dns_rdata::specs::Layout::layout_of, dns_message::specs::Octets::data_octets, dns_message::specs::Octets::record_octets, dns_message::specs::Octets::sections_octets))]
pub fn opt_reply_examples()
    ensures whole { fit replied 79 ≡ replied_octets own_opt }
    ensures dnssec_ok { fit (record replied { opt = Some (record { dnssec_ok = true }) }) 79 ≡ replied_octets own_do_opt }
    ensures cut { fit replied 78 ≡ replied_cut }
    ensures service { reply_octets service_replied ≡ take 11 service_octets ++ 2 ∷ drop 12 service_octets ++ own_opt }
    ensures without_additional { fit service_replied 98 ≡ take 11 shorter_octets ++ 1 ∷ drop 12 shorter_octets ++ own_opt }
    ensures below_cut { fit (record service_replied { below_cut = true }) 98 ≡ take 11 shortest_octets ++ 1 ∷ drop 12 shortest_octets ++ own_opt }
    ensures refused { reply_octets (refusal FormErr) ≡ refusal_octets 1 own_opt }
    ensures bad_version { reply_octets (refusal BadVers) ≡ refusal_octets 0 own_bad_opt }
{}
