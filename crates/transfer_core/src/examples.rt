//! Worked examples of the definitions: whole lists, and a clause for each fault of a list.
ghost use Rattle.std.specs.Prelude.{◌≡◌, ◌∷◌, ◌++◌, [], map, replicate, Ok, Err, codes};
ghost use Rattle.dns_rdata.specs.Numbers.{type_A, type_NS, type_CNAME};
ghost use Rattle.dns_name.specs.Name.{wire_of};
ghost use Rattle.zone_tree.specs.Zone.{IsZone};
ghost use Rattle.zone_tree.specs.Example.{hour_record};
ghost use Rattle.transfer_core.specs.declared.fault.TransferFault.TheVariants.{Broken, WrongBase, NotInZone};
ghost use Rattle.transfer_core.specs.Lists.{full, incremental, as_sent};
ghost use Rattle.transfer_core.specs.Take.{gathering, held, take};
ghost use Rattle.transfer_core.specs.Examples.{jain, jain_soa, jain_ns, jain_ns_address, nezu, jain_bb, jain_1, jain_2, jain_3, address, apex, below, soa, ns, short_zone, long_zone, new_host, longer_zone, host, host_zone, lasting, at_owner, outside, of_class, typed, with_octets, long_text};

/// The records of the worked examples are zones.
pub fn examples_are_zones()
    ensures first { IsZone jain_1 }
    ensures second { IsZone jain_2 }
    ensures third { IsZone jain_3 }
    ensures short { IsZone (short_zone 1) }
    ensures long { IsZone (long_zone 1) }
    ensures longer { IsZone (longer_zone 2) }
{}

/// The lists of zones (RFC 5936, 2.2; RFC 1995, 4 and 7).
pub fn examples_of_lists()
    ensures whole { full jain_1 ≡ jain_soa 1 ∷ jain_ns ∷ nezu ∷ jain_ns_address ∷ jain_soa 1 ∷ [] }
    ensures changes { incremental jain_1 (jain_2 ∷ jain_3 ∷ []) ≡ jain_soa 3
        ∷ jain_soa 1 ∷ nezu ∷ jain_soa 2 ∷ jain_bb (address 133 69 136 4) ∷ jain_bb (address 192 41 197 2)
        ∷ jain_soa 2 ∷ jain_bb (address 133 69 136 4) ∷ jain_soa 3 ∷ jain_bb (address 133 69 136 3)
        ∷ jain_soa 3 ∷ [] }
    ensures three_records { full (short_zone 1) ≡ soa 1 ∷ ns ∷ soa 1 ∷ [] }
    ensures new_host { incremental (long_zone 1) (longer_zone 2 ∷ []) ≡ soa 2 ∷ soa 1 ∷ soa 2 ∷ new_host ∷ soa 2 ∷ [] }
    ensures around { incremental (long_zone 4294967295) (longer_zone 0 ∷ []) ≡ soa 0 ∷ soa 4294967295 ∷ soa 0 ∷ new_host ∷ soa 0 ∷ [] }
    ensures ttl { incremental (host_zone 1 1) ((ns ∷ soa 2 ∷ lasting 60 (host 1) ∷ []) ∷ []) ≡ soa 2 ∷ soa 1 ∷ host 1 ∷ soa 2 ∷ lasting 60 (host 1) ∷ soa 2 ∷ [] }
{}

/// Lists that are taken (RFC 1995, 2, 4 and 7; RFC 5936, 2.2).
#[tactic(auto, unfolding(dns_rdata::specs::Layout::layout_of, dns_rdata::specs::Data::data_of))]
pub fn examples_of_taken_lists()
    ensures whole { take jain_1 (map as_sent (full jain_3)) ≡ Ok jain_3 }
    ensures changes { take jain_1 (map as_sent (incremental jain_1 (jain_2 ∷ jain_3 ∷ []))) ≡ Ok jain_3 }
    ensures condensed { take jain_1 (map as_sent (jain_soa 3 ∷ jain_soa 1 ∷ nezu ∷ jain_soa 3 ∷ jain_bb (address 133 69 136 3) ∷ jain_bb (address 192 41 197 2) ∷ jain_soa 3 ∷ [])) ≡ Ok jain_3 }
    ensures no_change { take jain_3 (as_sent (jain_soa 3) ∷ []) ≡ Ok jain_3 }
    ensures three_records { take (long_zone 1) (map as_sent (full (short_zone 1))) ≡ Ok (short_zone 1) }
    ensures new_host { take (long_zone 1) (map as_sent (incremental (long_zone 1) (longer_zone 2 ∷ []))) ≡ Ok (longer_zone 2) }
    ensures around { take (long_zone 4294967295) (map as_sent (incremental (long_zone 4294967295) (longer_zone 0 ∷ []))) ≡ Ok (longer_zone 0) }
    ensures from_the_served { take (longer_zone 2) (as_sent (soa 2) ∷ []) ≡ Ok (longer_zone 2) }
    ensures lower_case { take (short_zone 1) (map as_sent (soa 2 ∷ ns ∷ at_owner (codes "H" ∷ codes "EXAMPLE" ∷ codes "Test" ∷ []) (host 1) ∷ soa 2 ∷ [])) ≡ Ok (host_zone 2 1) }
    ensures top_bit { take (short_zone 1) (map as_sent (soa 2 ∷ lasting 2147483648 (host 1) ∷ ns ∷ soa 2 ∷ [])) ≡ Ok (ns ∷ soa 2 ∷ lasting 0 (host 1) ∷ []) }
    ensures any_order { take (short_zone 1) (map as_sent (soa 2 ∷ host 1 ∷ ns ∷ soa 2 ∷ [])) ≡ Ok (host_zone 2 1) }
    ensures equal_records { take (short_zone 1) (map as_sent (soa 2 ∷ ns ∷ host 1 ∷ host 1 ∷ soa 2 ∷ [])) ≡ Ok (host_zone 2 1) }
    ensures serial_alone { take (short_zone 1) (map as_sent (soa 2 ∷ lasting 60 (soa 1) ∷ soa 2 ∷ host 1 ∷ soa 2 ∷ [])) ≡ Ok (host_zone 2 1) }
    ensures ttl { take (host_zone 1 1) (map as_sent (soa 2 ∷ soa 1 ∷ host 1 ∷ soa 2 ∷ lasting 60 (host 1) ∷ soa 2 ∷ [])) ≡ Ok (ns ∷ soa 2 ∷ lasting 60 (host 1) ∷ []) }
    ensures any_type { take (short_zone 1) (map as_sent (soa 2 ∷ typed 99 (host 1) ∷ ns ∷ soa 2 ∷ [])) ≡ Ok (ns ∷ soa 2 ∷ typed 99 (host 1) ∷ []) }
    ensures deletion_of_any_type { take (ns ∷ soa 1 ∷ typed 99 (host 1) ∷ []) (map as_sent (soa 2 ∷ soa 1 ∷ typed 99 (host 1) ∷ soa 2 ∷ soa 2 ∷ [])) ≡ Ok (short_zone 2) }
    ensures most_data { take (short_zone 1) (map as_sent (soa 2 ∷ ns ∷ long_text 0 ∷ soa 2 ∷ [])) ≡ Ok (ns ∷ soa 2 ∷ long_text 0 ∷ []) }
{}

/// Lists that aren't those of a transfer (RFC 1995, 4; RFC 5936, 2.2).
#[tactic(auto, unfolding(dns_rdata::specs::Layout::layout_of, dns_rdata::specs::Data::data_of))]
pub fn examples_of_broken_lists()
    ensures nothing { take (short_zone 1) [] ≡ Err Broken }
    ensures no_soa_first { take (short_zone 1) (map as_sent (ns ∷ soa 2 ∷ ns ∷ soa 2 ∷ [])) ≡ Err Broken }
    ensures first_of_another_class { take (short_zone 1) (of_class 3 (soa 1) ∷ []) ≡ Err Broken }
    ensures first_without_form { take (short_zone 1) (with_octets [] (soa 1) ∷ []) ≡ Err Broken }
    ensures full_of_another_class { take (short_zone 1) (as_sent (soa 2) ∷ as_sent ns ∷ of_class 3 (host 1) ∷ as_sent (soa 2) ∷ []) ≡ Err Broken }
    ensures full_of_a_metatype { take (short_zone 1) (map as_sent (soa 2 ∷ typed 250 (host 1) ∷ ns ∷ soa 2 ∷ [])) ≡ Err Broken }
    ensures full_without_form { take (short_zone 1) (as_sent (soa 2) ∷ as_sent ns ∷ with_octets (0 ∷ []) (host 1) ∷ as_sent (soa 2) ∷ []) ≡ Err Broken }
    ensures full_not_closed { take (short_zone 1) (map as_sent (soa 2 ∷ ns ∷ [])) ≡ Err Broken }
    ensures full_closed_by_another { take (short_zone 1) (map as_sent (soa 2 ∷ ns ∷ soa 3 ∷ [])) ≡ Err Broken }
    ensures full_closed_with_another_ttl { take (short_zone 1) (map as_sent (soa 2 ∷ ns ∷ lasting 60 (soa 2) ∷ [])) ≡ Err Broken }
    ensures behind_a_full_list { take (short_zone 1) (map as_sent (soa 2 ∷ ns ∷ soa 2 ∷ host 1 ∷ [])) ≡ Err Broken }
    ensures deletion_of_a_metatype { take (host_zone 1 1) (map as_sent (soa 2 ∷ soa 1 ∷ typed 250 (host 1) ∷ [])) ≡ Err Broken }
    ensures addition_without_form { take (short_zone 1) (as_sent (soa 2) ∷ as_sent (soa 1) ∷ as_sent (soa 2) ∷ with_octets [] (host 1) ∷ []) ≡ Err Broken }
    ensures closed_before_a_step { take (short_zone 1) (map as_sent (soa 1 ∷ soa 1 ∷ [])) ≡ Err Broken }
    ensures closed_behind_another_soa { take (short_zone 1) (map as_sent (soa 3 ∷ soa 1 ∷ soa 2 ∷ soa 3 ∷ [])) ≡ Err Broken }
    ensures deletions_not_closed { take (host_zone 1 1) (map as_sent (soa 2 ∷ soa 1 ∷ host 1 ∷ [])) ≡ Err Broken }
    ensures additions_not_closed { take (short_zone 1) (map as_sent (soa 2 ∷ soa 1 ∷ soa 2 ∷ host 1 ∷ [])) ≡ Err Broken }
    ensures behind_changes { take (short_zone 1) (map as_sent (soa 2 ∷ soa 1 ∷ soa 2 ∷ soa 2 ∷ host 1 ∷ [])) ≡ Err Broken }
{}

/// Lists that begin at another zone (RFC 1995, 4).
#[tactic(auto, unfolding(dns_rdata::specs::Layout::layout_of, dns_rdata::specs::Data::data_of))]
pub fn examples_of_wrong_bases()
    ensures old_serial { take (short_zone 3) (map as_sent (soa 2 ∷ soa 1 ∷ soa 2 ∷ soa 2 ∷ [])) ≡ Err WrongBase }
    ensures old_serial_of_a_later_step { take (short_zone 1) (map as_sent (soa 4 ∷ soa 1 ∷ soa 2 ∷ soa 3 ∷ soa 4 ∷ soa 4 ∷ [])) ≡ Err WrongBase }
    ensures deletion_is_not_there { take (short_zone 1) (map as_sent (soa 2 ∷ soa 1 ∷ host 1 ∷ soa 2 ∷ soa 2 ∷ [])) ≡ Err WrongBase }
    ensures deletion_of_another_ttl { take (host_zone 1 1) (map as_sent (soa 2 ∷ soa 1 ∷ lasting 60 (host 1) ∷ soa 2 ∷ soa 2 ∷ [])) ≡ Err WrongBase }
    ensures deleted_twice { take (host_zone 1 1) (map as_sent (soa 2 ∷ soa 1 ∷ host 1 ∷ host 1 ∷ soa 2 ∷ soa 2 ∷ [])) ≡ Err WrongBase }
    ensures addition_is_there { take (host_zone 1 1) (map as_sent (soa 2 ∷ soa 1 ∷ soa 2 ∷ host 1 ∷ soa 2 ∷ [])) ≡ Err WrongBase }
    ensures added_twice { take (short_zone 1) (map as_sent (soa 2 ∷ soa 1 ∷ soa 2 ∷ host 1 ∷ host 1 ∷ soa 2 ∷ [])) ≡ Err WrongBase }
    ensures soa_alone { take (short_zone 1) (as_sent (soa 2) ∷ []) ≡ Err WrongBase }
    ensures to_the_served { take (longer_zone 2) (map as_sent (incremental (long_zone 1) (longer_zone 2 ∷ []))) ≡ Err WrongBase }
{}

/// Records outside, over a limit, or that are no zone.
#[tactic(auto, unfolding(dns_rdata::specs::Layout::layout_of, dns_rdata::specs::Data::data_of))]
pub fn examples_of_no_zones()
    ensures first_outside { take (short_zone 1) (map as_sent (at_owner outside (soa 2) ∷ ns ∷ [])) ≡ Err NotInZone }
    ensures soa_alone_outside { take (short_zone 1) (as_sent (at_owner outside (soa 1)) ∷ []) ≡ Err NotInZone }
    ensures outside_in_a_full_list { take (short_zone 1) (map as_sent (soa 2 ∷ ns ∷ at_owner outside (host 1) ∷ soa 2 ∷ [])) ≡ Err NotInZone }
    ensures old_soa_outside { take (short_zone 1) (map as_sent (soa 2 ∷ at_owner outside (soa 1) ∷ soa 2 ∷ soa 2 ∷ [])) ≡ Err NotInZone }
    ensures next_soa_outside { take (short_zone 1) (map as_sent (soa 2 ∷ soa 1 ∷ at_owner outside (soa 2) ∷ soa 2 ∷ [])) ≡ Err NotInZone }
    ensures addition_outside { take (short_zone 1) (map as_sent (soa 2 ∷ soa 1 ∷ soa 2 ∷ at_owner outside (host 1) ∷ soa 2 ∷ [])) ≡ Err NotInZone }
    ensures more_data { take (short_zone 1) (map as_sent (soa 2 ∷ ns ∷ long_text 1 ∷ soa 2 ∷ [])) ≡ Err NotInZone }
    ensures more_data_added { take (short_zone 1) (map as_sent (soa 2 ∷ soa 1 ∷ soa 2 ∷ long_text 1 ∷ soa 2 ∷ [])) ≡ Err NotInZone }
    ensures most_of_a_set { held apex gathering (host 1) (replicate 256 (host 1)) ≡ Ok (record { stage = gathering; records = replicate 256 (host 1) }) }
    ensures more_in_a_set { held apex gathering (host 1) (replicate 257 (host 1)) ≡ Err NotInZone }
    ensures no_name_server { take (short_zone 1) (map as_sent (soa 2 ∷ host 1 ∷ soa 2 ∷ [])) ≡ Err NotInZone }
    ensures name_server_deleted { take (short_zone 1) (map as_sent (soa 2 ∷ soa 1 ∷ ns ∷ soa 2 ∷ soa 2 ∷ [])) ≡ Err NotInZone }
    ensures soa_below_the_apex { take (short_zone 1) (map as_sent (at_owner (below (codes "h")) (soa 2) ∷ at_owner (below (codes "h")) ns ∷ at_owner (below (codes "h")) (soa 2) ∷ [])) ≡ Err NotInZone }
    ensures two_ttls { take (host_zone 1 1) (map as_sent (soa 2 ∷ soa 1 ∷ soa 2 ∷ lasting 60 (host 1) ∷ soa 2 ∷ [])) ≡ Err NotInZone }
    ensures alias_beside_data { take (host_zone 1 1) (map as_sent (soa 2 ∷ soa 1 ∷ soa 2 ∷ hour_record (below (codes "h")) type_CNAME (wire_of apex) ∷ soa 2 ∷ [])) ≡ Err NotInZone }
    ensures cut_at_a_wildcard { take (short_zone 1) (map as_sent (soa 2 ∷ ns ∷ at_owner (below (codes "*")) ns ∷ soa 2 ∷ [])) ≡ Err NotInZone }
{}

/// Which fault is told: that of the first record that has one, and at one record `Broken`, then `WrongBase`, then
/// `NotInZone`; that the records are no zone after all others.
#[tactic(auto, unfolding(dns_rdata::specs::Layout::layout_of, dns_rdata::specs::Data::data_of))]
pub fn examples_of_first_faults()
    ensures broken_outside { take (short_zone 1) (as_sent (soa 2) ∷ as_sent ns ∷ of_class 3 (at_owner outside (host 1)) ∷ []) ≡ Err Broken }
    ensures deletion_outside { take (short_zone 1) (map as_sent (soa 2 ∷ soa 1 ∷ at_owner outside (host 1) ∷ [])) ≡ Err WrongBase }
    ensures old_soa_of_another_serial_outside { take (short_zone 1) (map as_sent (soa 2 ∷ at_owner outside (soa 3) ∷ [])) ≡ Err WrongBase }
    ensures soa_alone_of_another_serial_outside { take (short_zone 1) (as_sent (at_owner outside (soa 2)) ∷ []) ≡ Err WrongBase }
    ensures closing_soa_of_another_serial { take (short_zone 1) (map as_sent (soa 2 ∷ soa 2 ∷ [])) ≡ Err Broken }
    ensures outside_before_broken { take (short_zone 1) (as_sent (soa 2) ∷ as_sent (at_owner outside (host 1)) ∷ of_class 3 ns ∷ []) ≡ Err NotInZone }
    ensures wrong_base_before_the_end { take (short_zone 1) (map as_sent (soa 2 ∷ soa 3 ∷ [])) ≡ Err WrongBase }
    ensures broken_before_no_zone { take (short_zone 1) (map as_sent (soa 2 ∷ host 1 ∷ soa 2 ∷ ns ∷ [])) ≡ Err Broken }
{}
