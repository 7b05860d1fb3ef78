//! Worked examples of the definitions, a clause for each row of RFC 2136's tables.
ghost use Rattle.std.specs.Prelude.{◌≡◌, ◌∷◌, [], None, Some, take, true, false};
ghost use Rattle.dns_rdata.specs.declared.numbers.Rcode.TheVariants.{FormErr, NxDomain, Refused, YXDomain, YXRRSet, NXRRSet, NotAuth, NotZone};
ghost use Rattle.dns_name.specs.Name.{wire_of};
ghost use Rattle.dns_rdata.specs.Numbers.{type_A, type_NS, type_CNAME, type_SOA, type_MX, type_TXT, type_AAAA, type_ANY, class_IN, class_NONE, class_ANY};
ghost use Rattle.zone_tree.specs.Zone.{IsZone};
ghost use Rattle.zone_tree.specs.Example.{example, in_example, hour_record};
ghost use Rattle.update_core.specs.Verdict.{zone_section, prerequisite, prerequisites, permission, prescan_of, check, verdict};
ghost use Rattle.update_core.specs.Act.{effect, effects, act, replay, AreTaken};
ghost use Rattle.update_core.specs.Examples.{ns, web, www, empty, below_empty, fresh, outside, address, soa_data, zone_of_serial, zone_here, sent, there, add, any, none, delete, long_text, head_here, entry, update_of};

/// The records of the worked examples are a zone.
pub fn examples_are_zones()
    ensures { IsZone zone_here }
{}

/// The zone section and one prerequisite by itself, row by row (RFC 2136, 3.1 and 3.2).
#[tactic(auto, unfolding(dns_rdata::specs::Layout::layout_of, dns_rdata::specs::Data::data_of))]
pub fn examples_of_prerequisites()
    ensures own_zone { zone_section zone_here (entry example type_SOA class_IN) ≡ None }
    ensures no_soa { zone_section zone_here (entry web type_A 3) ≡ Some FormErr }
    ensures other_name { zone_section zone_here (entry web type_SOA class_IN) ≡ Some NotAuth }
    ensures other_class { zone_section zone_here (entry example type_SOA 3) ≡ Some NotAuth }
    ensures ttl { prerequisite zone_here (sent outside type_A class_ANY 1 []) ≡ Some FormErr }
    ensures outside { prerequisite zone_here (any outside type_A) ≡ Some NotZone }
    ensures any_with_data { prerequisite zone_here (sent web type_A class_ANY 0 (address 1)) ≡ Some FormErr }
    ensures in_use { prerequisite zone_here (any web type_ANY) ≡ None }
    ensures not_in_use { prerequisite zone_here (any fresh type_ANY) ≡ Some NxDomain }
    ensures empty_non_terminal { prerequisite zone_here (any empty type_ANY) ≡ Some NxDomain }
    ensures set_there { prerequisite zone_here (any web type_A) ≡ None }
    ensures no_set { prerequisite zone_here (any web type_AAAA) ≡ Some NXRRSet }
    ensures none_with_data { prerequisite zone_here (sent web type_A class_NONE 0 (address 1)) ≡ Some FormErr }
    ensures name_absent { prerequisite zone_here (none fresh type_ANY) ≡ None }
    ensures empty_is_absent { prerequisite zone_here (none empty type_ANY) ≡ None }
    ensures name_there { prerequisite zone_here (none web type_ANY) ≡ Some YXDomain }
    ensures set_absent { prerequisite zone_here (none web type_AAAA) ≡ None }
    ensures set_not_absent { prerequisite zone_here (none web type_A) ≡ Some YXRRSet }
    ensures compared_later { prerequisite zone_here (there web type_A (address 9)) ≡ None }
    ensures other_class_of_record { prerequisite zone_here (sent web type_A 3 0 []) ≡ Some FormErr }
{}

/// The sets that prerequisites of class IN gather (RFC 2136, 3.2.3).
pub fn examples_of_sets()
    ensures whole { prerequisites zone_here (there web type_A (address 2) ∷ there below_empty type_A (address 1) ∷ there web type_A (address 1) ∷ []) ≡ None }
    ensures twice { prerequisites zone_here (there below_empty type_A (address 1) ∷ there below_empty type_A (address 1) ∷ []) ≡ None }
    ensures subset { prerequisites zone_here (there web type_A (address 1) ∷ []) ≡ Some NXRRSet }
    ensures superset { prerequisites zone_here (there below_empty type_A (address 1) ∷ there below_empty type_A (address 2) ∷ []) ≡ Some NXRRSet }
    ensures other_data { prerequisites zone_here (there below_empty type_A (address 2) ∷ []) ≡ Some NXRRSet }
    ensures absent { prerequisites zone_here (there fresh type_A (address 1) ∷ []) ≡ Some NXRRSet }
    ensures sets_come_last { prerequisites zone_here (there web type_A (address 1) ∷ none web type_ANY ∷ []) ≡ Some YXDomain }
    ensures first_in_order { prerequisites zone_here (any fresh type_A ∷ any outside type_A ∷ []) ≡ Some NXRRSet }
{}

/// One record of the prescan, row by row (RFC 2136, 3.4.1).
#[tactic(auto, unfolding(dns_rdata::specs::Layout::layout_of, dns_rdata::specs::Data::data_of))]
pub fn examples_of_prescan()
    ensures outside { prescan_of zone_here (sent outside 99 3 1 (address 1)) ≡ Some NotZone }
    ensures added { prescan_of zone_here (add fresh type_A (address 1)) ≡ None }
    ensures add_of_metatype { prescan_of zone_here (add fresh type_ANY []) ≡ Some FormErr }
    ensures add_of_opt { prescan_of zone_here (add fresh 41 []) ≡ Some FormErr }
    ensures add_of_type_0 { prescan_of zone_here (add fresh 0 []) ≡ Some FormErr }
    ensures add_of_any_type { prescan_of zone_here (add fresh 99 []) ≡ None }
    ensures cut_at_wildcard { prescan_of zone_here (add (in_example (42 ∷ [])) type_NS (wire_of ns)) ≡ Some Refused }
    ensures text_at_wildcard { prescan_of zone_here (add (in_example (42 ∷ [])) type_TXT (0 ∷ [])) ≡ None }
    ensures name_deleted { prescan_of zone_here (any web type_ANY) ≡ None }
    ensures set_deleted { prescan_of zone_here (any web type_A) ≡ None }
    ensures any_with_ttl { prescan_of zone_here (sent web type_A class_ANY 1 []) ≡ Some FormErr }
    ensures any_with_data { prescan_of zone_here (sent web type_A class_ANY 0 (address 1)) ≡ Some FormErr }
    ensures any_of_metatype { prescan_of zone_here (any web 252) ≡ Some FormErr }
    ensures set_of_any_type { prescan_of zone_here (any web 99) ≡ None }
    ensures record_deleted { prescan_of zone_here (delete web type_A (address 1)) ≡ None }
    ensures none_with_ttl { prescan_of zone_here (sent web type_A class_NONE 1 (address 1)) ≡ Some FormErr }
    ensures none_of_metatype { prescan_of zone_here (delete web type_ANY []) ≡ Some FormErr }
    ensures add_without_form { prescan_of zone_here (add fresh type_A (0 ∷ [])) ≡ Some FormErr }
    ensures none_without_data { prescan_of zone_here (none web type_A) ≡ Some FormErr }
    ensures record_of_any_type { prescan_of zone_here (delete web 99 []) ≡ None }
    ensures other_class { prescan_of zone_here (sent web type_A 3 0 []) ≡ Some FormErr }
{}

/// Which rule comes first: the zone section, then the prerequisites, the permission and the prescan (RFC 2136, 3).
#[tactic(auto, unfolding(dns_rdata::specs::Layout::layout_of, dns_rdata::specs::Data::data_of))]
pub fn examples_of_verdicts()
    ensures taken { verdict zone_here (update_of (add fresh type_A (address 1) ∷ [])) true ≡ None }
    ensures zone_first { verdict zone_here (record { head = head_here; edns = None; zone = entry web type_SOA class_IN; prerequisites = any outside type_A ∷ []; updates = any outside type_A ∷ [] }) false ≡ Some NotAuth }
    ensures prerequisites_before_permission { verdict zone_here (record { head = head_here; edns = None; zone = entry example type_SOA class_IN; prerequisites = any fresh type_ANY ∷ []; updates = [] }) false ≡ Some NxDomain }
    ensures permission_before_prescan { verdict zone_here (update_of (any outside type_A ∷ [])) false ≡ Some Refused }
    ensures prescan_last { verdict zone_here (update_of (add fresh type_A (address 1) ∷ any outside type_A ∷ [])) true ≡ Some NotZone }
{}

/// Two updates that are taken one after another: the address of a host goes, and comes again (RFC 2136, 3).
pub fn examples_of_taken_updates()
    ensures { AreTaken zone_here (update_of (delete web type_A (address 1) ∷ []) ∷ update_of (add web type_A (address 1) ∷ []) ∷ []) }
{}

/// What an added record makes of the zone, row by row (RFC 2136, 3.4.2.2).
#[tactic(auto, unfolding(dns_rdata::specs::Layout::layout_of, dns_rdata::specs::Data::data_of))]
pub fn examples_of_adds()
    ensures alias_beside_data { effect zone_here (add web type_CNAME (wire_of ns)) ≡ Some zone_here }
    ensures data_beside_alias { effect zone_here (add www type_A (address 1)) ≡ Some zone_here }
    ensures soa_elsewhere { effect zone_here (add web type_SOA (soa_data 2)) ≡ Some zone_here }
    ensures equal_serial { effect zone_here (add example type_SOA (soa_data 1)) ≡ Some zone_here }
    ensures lesser_serial { effect zone_here (add example type_SOA (soa_data 0)) ≡ Some zone_here }
    ensures half_the_ring { effect zone_here (add example type_SOA (soa_data 2147483649)) ≡ Some zone_here }
    ensures greater_serial { effect zone_here (add example type_SOA (soa_data 2147483648)) ≡ Some (zone_of_serial 2147483648) }
    ensures alias_replaced { effect (hour_record www type_CNAME (wire_of web) ∷ []) (sent www type_CNAME class_IN 60 (wire_of ns)) ≡ Some (record (hour_record www type_CNAME (wire_of ns)) { ttl = 60 } ∷ []) }
    ensures alias_joins { effect (hour_record web type_A (address 1) ∷ []) (add www type_CNAME (wire_of web)) ≡ Some (hour_record web type_A (address 1) ∷ hour_record www type_CNAME (wire_of web) ∷ []) }
    ensures equal_data { effect (hour_record web type_A (address 1) ∷ hour_record web type_A (address 2) ∷ []) (sent web type_A class_IN 60 (address 2)) ≡ Some (record (hour_record web type_A (address 1)) { ttl = 60 } ∷ record (hour_record web type_A (address 2)) { ttl = 60 } ∷ []) }
    ensures joins { effect (hour_record web type_A (address 1) ∷ hour_record web type_A (address 3) ∷ []) (sent web type_A class_IN 60 (address 2)) ≡ Some (record (hour_record web type_A (address 1)) { ttl = 60 } ∷ record (hour_record web type_A (address 2)) { ttl = 60 } ∷ record (hour_record web type_A (address 3)) { ttl = 60 } ∷ []) }
    ensures top_bit { effect [] (sent web type_A class_IN 2147483648 (address 1)) ≡ Some (record (hour_record web type_A (address 1)) { ttl = 0 } ∷ []) }
    ensures most_data { effect [] (add web type_TXT (long_text 4096)) ≡ Some (hour_record web type_TXT (long_text 4096) ∷ []) }
    ensures more_data { effect [] (add web type_TXT (long_text 4097)) ≡ None }
    ensures more_data_without_effect { effect zone_here (add www type_TXT (long_text 4097)) ≡ Some zone_here }
{}

/// What a deletion makes of the zone, row by row (RFC 2136, 3.4.2.3 and 3.4.2.4).
pub fn examples_of_deletions()
    ensures name { effect (hour_record web type_A (address 1) ∷ hour_record web type_AAAA (address 2) ∷ hour_record www type_A (address 3) ∷ []) (any web type_ANY) ≡ Some (hour_record www type_A (address 3) ∷ []) }
    ensures apex { effect (hour_record example type_NS (wire_of ns) ∷ hour_record example type_SOA (soa_data 1) ∷ hour_record example type_MX (0 ∷ 1 ∷ wire_of ns) ∷ []) (any example type_ANY) ≡ Some (hour_record example type_NS (wire_of ns) ∷ hour_record example type_SOA (soa_data 1) ∷ []) }
    ensures set { effect (hour_record web type_A (address 1) ∷ hour_record web type_A (address 2) ∷ hour_record web type_AAAA (address 2) ∷ []) (any web type_A) ≡ Some (hour_record web type_AAAA (address 2) ∷ []) }
    ensures soa_set { effect zone_here (any example type_SOA) ≡ Some zone_here }
    ensures name_servers { effect zone_here (any example type_NS) ≡ Some zone_here }
    ensures one { effect (hour_record web type_A (address 1) ∷ hour_record web type_A (address 2) ∷ []) (delete web type_A (address 1)) ≡ Some (hour_record web type_A (address 2) ∷ []) }
    ensures absent { effect zone_here (delete web type_A (address 3)) ≡ Some zone_here }
    ensures soa { effect zone_here (delete example type_SOA (soa_data 1)) ≡ Some zone_here }
    ensures last_name_server { effect zone_here (delete example type_NS (wire_of ns)) ≡ Some zone_here }
    ensures name_server { effect (hour_record example type_NS (wire_of ns) ∷ hour_record example type_NS (wire_of web) ∷ hour_record example type_SOA (soa_data 1) ∷ []) (delete example type_NS (wire_of ns)) ≡ Some (hour_record example type_NS (wire_of web) ∷ hour_record example type_SOA (soa_data 1) ∷ []) }
{}

/// Records of a type that nobody here knows: octets, which are the same where they stand the same (RFC 2136, 3.4.2; RFC 3597, 6).
#[tactic(auto, unfolding(dns_rdata::specs::Layout::layout_of, dns_rdata::specs::Data::data_of))]
pub fn examples_of_any_type()
    ensures joins { effect [] (add web 65280 (10 ∷ 11 ∷ 12 ∷ [])) ≡ Some (hour_record web 65280 (10 ∷ 11 ∷ 12 ∷ []) ∷ []) }
    ensures without_octets { effect [] (add web 65280 []) ≡ Some (hour_record web 65280 [] ∷ []) }
    ensures another_case_joins { effect (hour_record web 65280 (97 ∷ []) ∷ []) (add web 65280 (65 ∷ [])) ≡ Some (hour_record web 65280 (65 ∷ []) ∷ hour_record web 65280 (97 ∷ []) ∷ []) }
    ensures deleted { effect (hour_record web 65280 (10 ∷ 11 ∷ 12 ∷ []) ∷ []) (delete web 65280 (10 ∷ 11 ∷ 12 ∷ [])) ≡ Some [] }
    ensures another_octet { effect (hour_record web 65280 (10 ∷ 11 ∷ 12 ∷ []) ∷ []) (delete web 65280 (10 ∷ 11 ∷ 13 ∷ [])) ≡ Some (hour_record web 65280 (10 ∷ 11 ∷ 12 ∷ []) ∷ []) }
    ensures another_case { effect (hour_record web 65280 (97 ∷ []) ∷ []) (delete web 65280 (65 ∷ [])) ≡ Some (hour_record web 65280 (97 ∷ []) ∷ []) }
    ensures beside_alias { effect zone_here (add www 65280 []) ≡ Some zone_here }
    ensures alias_beside { effect (hour_record web 65280 [] ∷ []) (add web type_CNAME (wire_of ns)) ≡ Some (hour_record web 65280 [] ∷ []) }
    ensures most_data { effect [] (add web 65280 (long_text 4096)) ≡ Some (hour_record web 65280 (long_text 4096) ∷ []) }
    ensures more_data { effect [] (add web 65280 (long_text 4097)) ≡ None }
{}

/// Whole updates: the records in order, and the serial (RFC 2136, 3.4.2 and 3.6; RFC 1982, 3).
#[tactic(auto, unfolding(dns_rdata::specs::Layout::layout_of, dns_rdata::specs::Data::data_of))]
pub fn examples_of_serials()
    ensures nothing { act zone_here (update_of []) ≡ Some zone_here }
    ensures taken_back { act zone_here (update_of (add fresh type_A (address 1) ∷ any fresh type_ANY ∷ [])) ≡ Some zone_here }
    ensures restored { act zone_here (update_of (delete web type_A (address 2) ∷ any www type_ANY ∷ add www type_CNAME (wire_of web) ∷ add web type_A (address 2) ∷ [])) ≡ Some zone_here }
    ensures next { act zone_here (update_of (any www type_ANY ∷ [])) ≡ Some (take 5 (zone_of_serial 2)) }
    ensures around { act (hour_record example type_SOA (soa_data 4294967295) ∷ []) (update_of (add web type_A (address 1) ∷ [])) ≡ Some (hour_record example type_SOA (soa_data 0) ∷ hour_record web type_A (address 1) ∷ []) }
    ensures set_by_update { act (hour_record example type_SOA (soa_data 1) ∷ []) (update_of (add example type_SOA (soa_data 7) ∷ [])) ≡ Some (hour_record example type_SOA (soa_data 7) ∷ []) }
    ensures past_half { act (hour_record example type_SOA (soa_data 1) ∷ []) (update_of (add example type_SOA (soa_data 2147483648) ∷ add example type_SOA (soa_data 4294967295) ∷ [])) ≡ Some (hour_record example type_SOA (soa_data 2) ∷ []) }
    ensures limit { act zone_here (update_of (any www type_ANY ∷ add web type_TXT (long_text 4097) ∷ [])) ≡ None }
    ensures replayed { replay (hour_record example type_SOA (soa_data 1) ∷ []) (update_of (add web type_A (address 1) ∷ []) ∷ update_of (any web type_ANY ∷ []) ∷ []) ≡ hour_record example type_SOA (soa_data 3) ∷ [] }
{}
